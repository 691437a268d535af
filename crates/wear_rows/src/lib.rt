// The wear sheet of a table, as text in a lent buffer: a heading, a line a sector with its number, its count and a bar, and the figures of
// the report. A sheet that would not fit is not begun.
#![tactic(auto)]

ghost use Rattle.std.specs.Prelude.{◌≡◌, ◌++◌, ◌+◌, ◌*◌, ◌≤◌, leb, length};
ghost use Rattle.text.specs.Text.{decimal_text};
ghost use Rattle.text.specs.Put.{Put};
ghost use Rattle.script_log.specs.Row.{Rowed};
ghost use Rattle.counts.specs.Counts.{largest_of};
ghost use Rattle.wear_rows.specs.WearSheet.{marks_of, bar_text, right_text, sector_text, sectors_text, sums_text, mean_text, sheet_text, longest_bar, longest_line_of, sheet_room};

use counts::Figures;
use text::Sheet;
use units::Sector;

// ---- parts of a line

// A number at the right end of so many columns.
fn put_right(width: usize, n: u64, sheet: &mut Sheet)
    requires { sheet.old.at + width + 20 ≤ length sheet.old.out.now }
    ensures same_buffer { sheet.new.out.ghost_name ≡ sheet.old.out.ghost_name }
    ensures same_length { length sheet.new.out.now ≡ length sheet.old.out.now }
    ensures put { Put (right_text width n) sheet.old.out.now sheet.old.at sheet.new.out.now sheet.new.at }
    ensures most { sheet.new.at ≤ sheet.old.at + width + 20 }
{
    let mut room = [0; 20];
    let digits = text::digits(n, &mut room);
    sheet.run(b' ', width.saturating_sub(digits.len()));
    sheet.text(digits);
}

// How many marks the bar of a count has.
fn marks_of(largest: u32, count: u32) -> usize
    ensures { result ≡ marks_of largest count }
{
    if largest <= 50 {
        return count as usize;
    }
    if count == 0 {
        return 0;
    }
    let marks = count as usize * 50 / largest as usize;
    if marks == 0 { 1 } else { marks }
}

fn put_bar(marks: usize, sheet: &mut Sheet)
    requires { sheet.old.at + marks + 2 ≤ length sheet.old.out.now }
    ensures same_buffer { sheet.new.out.ghost_name ≡ sheet.old.out.ghost_name }
    ensures same_length { length sheet.new.out.now ≡ length sheet.old.out.now }
    ensures put { Put (bar_text marks) sheet.old.out.now sheet.old.at sheet.new.out.now sheet.new.at }
    ensures most { sheet.new.at ≤ sheet.old.at + marks + 2 }
{
    if marks == 0 {
        return;
    }
    sheet.text(b"  ");
    sheet.run(b'#', marks);
}

// ---- lines

fn put_sector(largest: u32, sector: Sector, count: u32, sheet: &mut Sheet)
    requires { (count ≤ largest) × (sheet.old.at + longest_line_of ≤ length sheet.old.out.now) }
    ensures same_buffer { sheet.new.out.ghost_name ≡ sheet.old.out.ghost_name }
    ensures same_length { length sheet.new.out.now ≡ length sheet.old.out.now }
    ensures put { Put (sector_text largest sector count) sheet.old.out.now sheet.old.at sheet.new.out.now sheet.new.at }
    ensures most { sheet.new.at ≤ sheet.old.at + longest_line_of }
{
    put_right(6, u64::from(sector.0), sheet);
    put_right(12, u64::from(count), sheet);
    put_bar(marks_of(largest, count), sheet);
    sheet.byte(b'\n');
}

fn put_sectors(wear: &[u32], largest: u32, sheet: &mut Sheet)
    requires { (largest ≡ largest_of wear.now) × (length wear.now ≤ 4096) × (sheet.old.at + longest_line_of * length wear.now ≤ length sheet.old.out.now) }
    ensures same_buffer { sheet.new.out.ghost_name ≡ sheet.old.out.ghost_name }
    ensures same_length { length sheet.new.out.now ≡ length sheet.old.out.now }
    ensures put { Put (sectors_text largest 0 wear.now) sheet.old.out.now sheet.old.at sheet.new.out.now sheet.new.at }
    ensures most { sheet.new.at ≤ sheet.old.at + longest_line_of * length wear.now }
{
    // An index: the line begins with it, as the sector's number.
    for k in 0..wear.len() {
        put_sector(largest, Sector(k as u32), wear[k], sheet);
    }
}

// Words, and a number after them.
fn put_said(words: &[u8], n: u64, sheet: &mut Sheet)
    requires { sheet.old.at + length words.now + 20 ≤ length sheet.old.out.now }
    ensures same_buffer { sheet.new.out.ghost_name ≡ sheet.old.out.ghost_name }
    ensures same_length { length sheet.new.out.now ≡ length sheet.old.out.now }
    ensures put { Put (words.now ++ decimal_text n) sheet.old.out.now sheet.old.at sheet.new.out.now sheet.new.at }
    ensures most { sheet.new.at ≤ sheet.old.at + length words.now + 20 }
{
    sheet.text(words);
    sheet.number(n);
}

fn put_sums(f: Figures, sheet: &mut Sheet)
    requires { sheet.old.at + 123 ≤ length sheet.old.out.now }
    ensures same_buffer { sheet.new.out.ghost_name ≡ sheet.old.out.ghost_name }
    ensures same_length { length sheet.new.out.now ≡ length sheet.old.out.now }
    ensures put { Put (sums_text f) sheet.old.out.now sheet.old.at sheet.new.out.now sheet.new.at }
    ensures most { sheet.new.at ≤ sheet.old.at + 123 }
{
    put_said(b"total ", f.total, sheet);
    put_said(b"\nsmallest ", u64::from(f.smallest), sheet);
    put_said(b"\nlargest ", u64::from(f.largest), sheet);
    put_said(b", first in sector ", u64::from(f.sector.0), sheet);
}

// The mean of n counts.
fn put_mean(f: Figures, n: u64, sheet: &mut Sheet)
    requires { sheet.old.at + 73 ≤ length sheet.old.out.now }
    ensures same_buffer { sheet.new.out.ghost_name ≡ sheet.old.out.ghost_name }
    ensures same_length { length sheet.new.out.now ≡ length sheet.old.out.now }
    ensures put { Put (mean_text f n) sheet.old.out.now sheet.old.at sheet.new.out.now sheet.new.at }
{
    put_said(b"\nmean ", u64::from(f.mean), sheet);
    put_said(b" and ", u64::from(f.remainder), sheet);
    put_said(b"/", n, sheet);
    sheet.byte(b'\n');
}

// ---- the sheet

// Whether the sheet of n sectors fits into a buffer of `len` from `at` on.
fn fits(at: usize, n: usize, len: usize) -> bool
    requires { n ≤ 4096 }
    ensures { result ≡ leb (at + sheet_room n) len }
{
    if len < at {
        return false;
    }
    112 * n + 250 <= len - at
}

// The sheet of a table, from `at` on; the place past it. Where the buffer lacks room for the longest sheet of as many sectors, or the table
// is no chip's, nothing is put, and `at` comes back.
pub fn put_sheet(wear: &[u32], out: &mut [u8], at: usize) -> usize
    ensures { Rowed (sheet_room (length wear.now)) (sheet_text wear.now) out.old at out.new result }
{
    let n = wear.len();
    if !models::is_sectors(n) {
        return at;
    }
    // Before the report, which takes the whole table.
    if !fits(at, n, out.len()) {
        return at;
    }
    let Ok(figures) = counts::report(wear) else {
        return at;
    };
    let mut sheet = Sheet::new(out, at);
    sheet.text(b"Wear sheet: erases of each sector\nsector      erases\n");
    put_sectors(wear, figures.largest, &mut sheet);
    put_sums(figures, &mut sheet);
    put_mean(figures, n as u64, &mut sheet);
    sheet.end()
}
