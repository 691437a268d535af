// A script on standard input, played block after block: the part that the programs `runner` and `wear` share.
#![tactic(auto)]

mod blocks;
mod output;

ghost use Rattle.std.specs.Prelude.{◌≡◌, true, ◌≤◌, length};
ghost use Rattle.script_log.specs.Row.{longest_row};
ghost use Rattle.play.specs.Play.{StaysLent};
ghost use Rattle.feed.specs.Feed.{standing};
ghost use Rattle.input.specs.Input.{first_run, BlockStart, BlockRead, ScriptPlayed};

use blocks::take_block;
use feed::Run;
pub use output::write_first;
use output::{flush, put_head};
use play::Bench;
use std::io::Read;
use std::ops::ControlFlow;

// Reads a block and takes it.
fn read_block(
    rt: &(impl Print + Eprint + Alloc),
    input: &mut impl Read,
    bench: &mut Bench<'_>,
    run: Run,
    held: &mut [u8],
    block: &mut [u8],
    log: &mut [u8],
    written: bool,
) -> ControlFlow<bool, Run>
    requires { BlockStart run held.old log.old }
    ensures read { BlockRead bench.old.rec bench.old.strict written block.new (standing run bench.old held.old log.old) result bench.new held.new log.new }
    ensures same { StaysLent bench.old bench.new }
{
    let got = input.read(block);
    take_block(rt, got, bench, run, held, block, log, written)
}

// The first line has the number 1, and nothing is held of it.
fn first_run() -> Run
    ensures { result ≡ first_run }
{
    Run {
        number: 1,
        used: 0,
        at: 0,
        filled: 0,
    }
}

// Block after block, from power-on.
fn play_blocks(
    rt: &(impl Input + Print + Eprint + Alloc),
    bench: &mut Bench<'_>,
    log: &mut [u8],
    written: bool,
) -> bool
    requires { longest_row ≤ length log.old }
    ensures played { result ≡ true → ScriptPlayed bench.old.rec bench.old.strict bench.old.page.now bench.old.array.now bench.old.wear.now bench.new.page.now bench.new.array.now bench.new.wear.now }
    ensures same { StaysLent bench.old bench.new }
{
    bench.state = states::power_on();
    let mut held = [0u8; 641];
    let mut block = [0u8; 65536];
    let mut input = rt.reader();
    let mut run = first_run();
    for _ in 0..u64::MAX {
        match read_block(
            rt, &mut input, bench, run, &mut held, &mut block, log, written,
        ) {
            ControlFlow::Continue(next) => run = next,
            ControlFlow::Break(well) => return well,
        }
    }
    false
}

// Plays the script from power-on and writes its log to standard output if it is to be written, the header first. Whether the input was read to
// its end and every row was written, where rows are; if not, standard error says why. What is proved of it is less: that page data, array and
// wear table are then those that some script leaves. Which bytes were read, and that header and rows were written, no contract can say.
pub fn play_input(
    rt: &(impl Input + Print + Eprint + Alloc),
    bench: &mut Bench<'_>,
    written: bool,
) -> bool
    ensures played { result ≡ true → ScriptPlayed bench.old.rec bench.old.strict bench.old.page.now bench.old.array.now bench.old.wear.now bench.new.page.now bench.new.array.now bench.new.wear.now }
    ensures same { StaysLent bench.old bench.new }
{
    let mut log = [0u8; 65536];
    let headed = put_head(&mut log);
    if !flush(rt, &log, headed, written) {
        return false;
    }
    play_blocks(rt, bench, &mut log, written)
}
