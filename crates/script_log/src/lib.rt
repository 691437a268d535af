// The log of a script: a header, and a row for each line. A row that would not fit is not begun.
#![tactic(auto)]

ghost use Rattle.std.specs.Prelude.{◌+◌, ◌*◌, ◌≤◌, ◌≡◌, length, leb};
ghost use Rattle.text.specs.Put.{Put};
ghost use Rattle.script_log.specs.Row.{header_text, from_text, bytes_text, last_text, log_text, room_of, Rowed};

use text::Sheet;

// The longest row of a script, `longest_row`: a log with less room left is written out first.
pub const LONGEST_ROW: usize = 670;

// Whether `fixed` bytes and two for each of n fit into a buffer of `len` from `at` on.
fn fits(at: usize, fixed: usize, n: usize, len: usize) -> bool
    ensures { result ≡ leb (at + (2 * n + fixed)) len }
{
    if len < at {
        return false;
    }
    let room = len - at;
    if room < fixed {
        return false;
    }
    n <= (room - fixed) / 2
}

// The header, from `at` on; the place past it. Where it does not fit nothing is put, and `at` comes back.
#[tactic(auto, unfolding(crate::specs::Row::header_text))]
pub fn put_header(out: &mut [u8], at: usize) -> usize
    ensures { Rowed 28 header_text out.old at out.new result }
{
    if !fits(at, 28, 0, out.len()) {
        return at;
    }
    let mut sheet = Sheet::new(out, at);
    sheet.text(b"line\tanswer\tfrom\tbytes\tnote\n");
    sheet.end()
}

// The first of `count` driven positions, or `-` where there is none.
fn put_from(from: u32, count: usize, sheet: &mut Sheet)
    requires { sheet.old.at + 20 ≤ length sheet.old.out.now }
    ensures same_buffer { sheet.new.out.ghost_name ≡ sheet.old.out.ghost_name }
    ensures same_length { length sheet.new.out.now ≡ length sheet.old.out.now }
    ensures put { Put (from_text from count) sheet.old.out.now sheet.old.at sheet.new.out.now sheet.new.at }
    ensures most { sheet.new.at ≤ sheet.old.at + 20 }
{
    if count == 0 {
        sheet.byte(b'-');
    } else {
        sheet.number(u64::from(from));
    }
}

// The driven bytes, or `-`.
fn put_driven(driven: &[u8], sheet: &mut Sheet)
    requires { sheet.old.at + 2 * length driven.now + 1 ≤ length sheet.old.out.now }
    ensures same_buffer { sheet.new.out.ghost_name ≡ sheet.old.out.ghost_name }
    ensures same_length { length sheet.new.out.now ≡ length sheet.old.out.now }
    ensures put { Put (bytes_text driven.now) sheet.old.out.now sheet.old.at sheet.new.out.now sheet.new.at }
    ensures most { sheet.new.at ≤ sheet.old.at + 2 * length driven.now + 1 }
{
    if driven.is_empty() {
        sheet.byte(b'-');
    } else {
        sheet.hex(driven);
    }
}

// The last field and the row's end: `fold` where a program went past its page's end, else `-`.
fn put_note(fold: bool, sheet: &mut Sheet)
    requires { sheet.old.at + 6 ≤ length sheet.old.out.now }
    ensures same_buffer { sheet.new.out.ghost_name ≡ sheet.old.out.ghost_name }
    ensures put { Put (last_text fold) sheet.old.out.now sheet.old.at sheet.new.out.now sheet.new.at }
{
    if fold {
        sheet.text(b"\tfold\n");
    } else {
        sheet.text(b"\t-\n");
    }
}

// The fields one after the other.
fn put_fields(number: u64, answer: u32, from: u32, driven: &[u8], fold: bool, sheet: &mut Sheet)
    requires { sheet.old.at + room_of (length driven.now) ≤ length sheet.old.out.now }
    ensures same_buffer { sheet.new.out.ghost_name ≡ sheet.old.out.ghost_name }
    ensures put { Put (log_text number answer from driven.now fold) sheet.old.out.now sheet.old.at sheet.new.out.now sheet.new.at }
{
    sheet.number(number);
    sheet.byte(b'\t');
    sheet.number(u64::from(answer));
    sheet.byte(b'\t');
    put_from(from, driven.len(), sheet);
    sheet.byte(b'\t');
    put_driven(driven, sheet);
    put_note(fold, sheet);
}

// The row of a script line, from `at` on; the place past it. Where the buffer lacks room for the longest row of as many driven bytes
// nothing is put, and `at` comes back.
pub fn put_row(
    number: u64,
    answer: u32,
    from: u32,
    driven: &[u8],
    fold: bool,
    out: &mut [u8],
    at: usize,
) -> usize
    ensures { Rowed (room_of (length driven.now)) (log_text number answer from driven.now fold) out.old at out.new result }
{
    if !fits(at, 70, driven.len(), out.len()) {
        return at;
    }
    let mut sheet = Sheet::new(out, at);
    put_fields(number, answer, from, driven, fold, &mut sheet);
    sheet.end()
}
