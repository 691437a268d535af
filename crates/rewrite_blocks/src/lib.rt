// A script that comes in blocks is rewritten and goes out in blocks. Of a line that a block's end cuts, at most 640 bytes are held for the next
// block: a longer one is bad however it goes on, and goes out as it is.
#![tactic(auto)]

ghost use Rattle.std.specs.Prelude.{◌≡◌, ◌*◌, ◌/◌, ◌≤◌, length, take, drop};
ghost use Rattle.rewrite_blocks.specs.Blocks.{first_progress, passage, progress_at, block_fits, block_rewrite, last_rewrite, LinesRewritten, MovedDown, Rewrites};

use text::Sheet;

// What goes on from block to block: the number of the line that is open, and whether its first bytes, over 640, are written already. The output
// is to be written up to `at`, and from there up to `end` it is held; the report is filled up to `told`.
#[derive(Clone, Copy)]
pub struct Progress {
    pub number: u64,
    pub long: bool,
    pub at: usize,
    pub end: usize,
    pub told: usize,
}

// The lines that ended in some bytes: where they end, and what is known of the line after them. It has no `end`, and so is no Progress yet.
#[derive(Clone, Copy)]
struct Passed {
    at: usize,
    number: u64,
    long: bool,
    told: usize,
}

// The first line has the number 1, and nothing is held.
pub fn first() -> Progress
    ensures { result ≡ first_progress }
{
    Progress {
        number: 1,
        long: false,
        at: 0,
        end: 0,
        told: 0,
    }
}

// ---- lines

// The lines that end in some bytes, one after the other. The first line began with the first `held` bytes, or before them if it is long.
fn rewrite_lines(bytes: &mut [u8], held: usize, long: bool, first: u64, report: &mut [u8]) -> Passed
    requires { (held ≤ length bytes.old) × (length bytes.old ≤ length report.old / 7 * 3) }
    ensures { LinesRewritten (passage long first (take held bytes.old) (drop held bytes.old)) report.old result bytes.new report.new }
{
    let mut sheet = Sheet::new(report, 0);
    let mut at = 0;
    let mut number = first;
    let mut rest = long;
    let mut end = lines::line_end(bytes, held);
    // No iterator: where a line ends is found anew each turn, in bytes that the turn before wrote to.
    while end < bytes.len() {
        rewrite::rewrite_line(&mut bytes[at..end], rest, number, &mut sheet);
        rest = false;
        number = number.wrapping_add(1);
        at = end + 1;
        end = lines::line_end(bytes, at);
    }
    Passed {
        at,
        number,
        long: rest,
        told: sheet.end(),
    }
}

// ---- what is held

// Whether what is held lies in the output, and it and n bytes more fit into output and report.
fn block_fits(run: Progress, n: usize, out: usize, report: usize) -> bool
    ensures { result ≡ block_fits run n out report }
{
    if run.end < run.at {
        return false;
    }
    if out < run.end {
        return false;
    }
    let held = run.end - run.at;
    if out - held < n {
        return false;
    }
    held + n <= report / 7 * 3
}

// Moves what is held to the output's start; how many bytes that are.
fn move_down(out: &mut [u8], at: usize, end: usize) -> usize
    requires { (at ≤ end) × (end ≤ length out.old) }
    ensures { MovedDown out.old at end result out.new }
{
    out.copy_within(at..end, 0);
    end - at
}

// How far it came in `end` bytes. A line that is open is held, unless it is long by now.
fn progress_of(passed: Passed, end: usize) -> Progress
    requires { passed.at ≤ end }
    ensures { result ≡ progress_at passed.number passed.long passed.at end passed.told }
{
    let long = passed.long | (640 < end - passed.at);
    Progress {
        number: passed.number,
        long,
        at: if long { end } else { passed.at },
        end,
        told: passed.told,
    }
}

// ---- a block

// Rewrites the lines that end in a block behind what is held: the output is to be written then up to `at`, and the report up to `told`. Where a
// lent buffer is too short nothing is done, and None comes back.
pub fn rewrite_block(
    run: Progress,
    block: &[u8],
    out: &mut [u8],
    report: &mut [u8],
) -> Option<Progress>
    ensures { Rewrites (block_rewrite run block.now out.old report.old) result out.new report.new }
{
    if !block_fits(run, block.len(), out.len(), report.len()) {
        return None;
    }
    let held = move_down(out, run.at, run.end);
    let end = held + block.len();
    out[held..end].copy_from_slice(block);
    let passed = rewrite_lines(&mut out[0..end], held, run.long, run.number, report);
    Some(progress_of(passed, end))
}

// The input has ended: what is held is the last line, without its newline. Output and report are to be written as after a block.
pub fn finish(run: Progress, out: &mut [u8], report: &mut [u8]) -> Option<Progress>
    ensures { Rewrites (last_rewrite run out.old report.old) result out.new report.new }
{
    if !block_fits(run, 0, out.len(), report.len()) {
        return None;
    }
    let end = move_down(out, run.at, run.end);
    let mut sheet = Sheet::new(report, 0);
    rewrite::rewrite_line(&mut out[0..end], run.long, run.number, &mut sheet);
    Some(Progress {
        number: run.number,
        long: run.long,
        at: end,
        end,
        told: sheet.end(),
    })
}
