// The row of a line that is played.
#![tactic(auto)]

ghost use Rattle.std.specs.Prelude.{◌+◌, ◌≤◌, length};
ghost use Rattle.play.specs.Play.{chip_on, StaysLent};
ghost use Rattle.script_log.specs.Row.{longest_row};
ghost use Rattle.stepper.specs.Rows.{Logs};

use play::Bench;

// Plays a line and puts its row into the log from `at` on, which has room for the longest row. The place past the row.
// A place in the whole log, and no part of it: what a script has written is said of the log from its start.
pub fn log_line(bench: &mut Bench<'_>, number: u64, line: &[u8], log: &mut [u8], at: usize) -> usize
    requires { at + longest_row ≤ length log.old }
    ensures row { Logs bench.old.rec bench.old.strict (chip_on bench.old) bench.old.wear.now number line.now log.old at result bench.new log.new }
    ensures same { StaysLent bench.old bench.new }
{
    let mut shown = [0u8; 300];
    let p = bench.play(line, &mut shown);
    let from = p.from as usize;
    let end = from + p.count as usize;
    let answer = answers::number_of(p.answer);
    script_log::put_row(number, answer, p.from, &shown[from..end], p.fold, log, at)
}
