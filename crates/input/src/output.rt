// What goes to standard output. No contract can say what the system writes.
ghost use Rattle.std.specs.Prelude.{◌≡◌, true, ◌≤◌, length};
ghost use Rattle.script_log.specs.Row.{header_text, Rowed};
ghost use Rattle.input.specs.Input.{Flushed};

use words::fail;

// Writes the first n bytes of a text. Whether the output took them, and there are so many; where it failed, standard error says so.
pub fn write_first(rt: &(impl Print + Eprint + Alloc), text: &[u8], n: usize) -> bool
    ensures { result ≡ true → n ≤ length text.now }
{
    if n <= text.len() {
        match rt.write_all(&text[0..n]) {
            Ok(()) => return true,
            Err(error) => fail(rt, "standard output", error),
        }
    }
    false
}

// The filled part of the log, if it is to be written.
pub fn flush(rt: &(impl Print + Eprint + Alloc), log: &[u8], filled: usize, written: bool) -> bool
    ensures { Flushed log.now filled written result }
{
    if written {
        write_first(rt, log, filled)
    } else {
        true
    }
}

// The header at the start of the log; the place past it.
pub fn put_head(log: &mut [u8]) -> usize
    ensures { Rowed 28 header_text log.old 0 log.new result }
{
    script_log::put_header(log, 0)
}
