// Blocks of a script fed to the chip: the lines that end in a block are played, and their rows go into the log.
#![tactic(auto)]

ghost use Rattle.std.specs.Prelude.{◌≡◌, ◌+◌, ◌<◌, ◌≤◌, [], length};
ghost use Rattle.script_log.specs.Row.{longest_row};
ghost use Rattle.lines.specs.Cutting.{held_room};
ghost use Rattle.play.specs.Play.{StaysLent};
ghost use Rattle.feed.specs.Feed.{Start, TurnStart, standing, line_done, feed_turn, feed_of, last_of, Stands};

use lines::Cut;
use play::Bench;

// What goes on from line to line beside the chip: the number of the next line, how many bytes of it are held from the blocks before,
// the place in the block, and how much of the log is filled.
#[derive(Clone, Copy)]
pub struct Run {
    pub number: u64,
    pub used: usize,
    pub at: usize,
    pub filled: usize,
}

// A line is played, and its row put into the log. Nothing is held then, and the next line, which has the next number, starts at `to`.
fn play_line(bench: &mut Bench<'_>, run: Run, line: &[u8], to: usize, log: &mut [u8]) -> Run
    requires { run.filled + longest_row ≤ length log.old }
    ensures stands { Stands (line_done bench.old.rec bench.old.strict (standing run bench.old [] log.old) [] line.now to) result bench.new [] log.new }
    ensures same { StaysLent bench.old bench.new }
{
    let filled = stepper::log_line(bench, run.number, line, log, run.filled);
    Run {
        number: run.number.wrapping_add(1),
        used: 0,
        at: to,
        filled,
    }
}

// One line, or the rest of the block where no line ends in it: so many bytes of it are held then.
fn turn(bench: &mut Bench<'_>, run: Run, held: &mut [u8], block: &[u8], log: &mut [u8]) -> Run
    requires { TurnStart run held.old block.now log.old }
    ensures stands { Stands (feed_turn bench.old.rec bench.old.strict block.now (standing run bench.old held.old log.old)) result bench.new held.new log.new }
    ensures same { StaysLent bench.old bench.new }
{
    match lines::cut_line(held, run.used, block, run.at) {
        Cut::Here { end } => play_line(bench, run, &block[run.at..end], end + 1, log),
        Cut::Joined { used, end } => play_line(bench, run, &held[..used], end + 1, log),
        Cut::Open { used } => Run {
            used,
            at: block.len(),
            ..run
        },
    }
}

// The lines that end in the block, until it is used up or the log lacks room for one more row. What comes back says how far it got.
pub fn feed(bench: &mut Bench<'_>, first: Run, held: &mut [u8], block: &[u8], log: &mut [u8]) -> Run
    requires { Start first held.old block.now log.old }
    ensures stands { Stands (feed_of bench.old.rec bench.old.strict block.now (standing first bench.old held.old log.old)) result bench.new held.new log.new }
    ensures same { StaysLent bench.old bench.new }
{
    let mut run = first;
    // No `for`: a line may begin in a block before, so a turn says itself where the next one starts.
    while run.at < block.len() {
        if log.len() - run.filled < script_log::LONGEST_ROW {
            return run;
        }
        run = turn(bench, run, held, block, log);
    }
    run
}

// The input has ended: a line that is held is the last one. The run after it comes back.
pub fn finish(bench: &mut Bench<'_>, run: Run, held: &[u8], log: &mut [u8]) -> Run
    requires { (length held.now ≡ held_room) × (run.used ≤ held_room) × (run.filled + longest_row ≤ length log.old) }
    ensures stands { Stands (last_of bench.old.rec bench.old.strict (standing run bench.old held.now log.old)) result bench.new held.now log.new }
    ensures same { StaysLent bench.old bench.new }
{
    if run.used == 0 {
        return run;
    }
    play_line(bench, run, &held[..run.used], run.at, log)
}
