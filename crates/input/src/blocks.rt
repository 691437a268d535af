// What is done with a block of the script: its lines are played, and their rows written out.
ghost use Rattle.std.specs.Prelude.{◌≡◌, ◌≤◌, length, take};
ghost use Rattle.std.specs.Result.{result_ok};
ghost use Rattle.play.specs.Play.{StaysLent};
ghost use Rattle.feed.specs.Feed.{standing, last_of};
ghost use Rattle.feed.specs.Script.{begun};
ghost use Rattle.input.specs.Input.{BlockStart, BlockPlayed, LastPlayed, BlockTaken};

use crate::output::flush;
use feed::Run;
use play::Bench;
use std::io;
use std::ops::ControlFlow;
use words::fail;

// The lines that end in a block, and their rows written out: where it goes on, or that it ends here, not well.
fn feed_block(
    rt: &(impl Print + Eprint + Alloc),
    bench: &mut Bench<'_>,
    first: Run,
    held: &mut [u8],
    block: &[u8],
    log: &mut [u8],
    written: bool,
) -> ControlFlow<bool, Run>
    requires { BlockStart first held.old log.old }
    ensures played { BlockPlayed bench.old.rec bench.old.strict written block.now (standing first bench.old held.old log.old) result bench.new held.new log.new }
    ensures same { StaysLent bench.old bench.new }
{
    let mut run = Run {
        at: 0,
        filled: 0,
        ..first
    };
    // No `for`: a feed says itself how far it got.
    while run.at < block.len() {
        let fed = feed::feed(bench, run, held, block, log);
        run = Run { filled: 0, ..fed };
        if !flush(rt, log, fed.filled, written) {
            return ControlFlow::Break(false);
        }
    }
    ControlFlow::Continue(run)
}

// The input has ended: a last line without its newline. Whether its row was written.
fn finish(
    rt: &(impl Print + Eprint + Alloc),
    bench: &mut Bench<'_>,
    run: Run,
    held: &[u8],
    log: &mut [u8],
    written: bool,
) -> bool
    requires { BlockStart run held.now log.old }
    ensures played { LastPlayed (last_of bench.old.rec bench.old.strict (begun (standing run bench.old held.now log.old))) written result bench.new log.new }
    ensures same { StaysLent bench.old bench.new }
{
    let run = Run {
        at: 0,
        filled: 0,
        ..run
    };
    let last = feed::finish(bench, run, held, log);
    flush(rt, log, last.filled, written)
}

// What a read into the block has answered, how many bytes: a failed read ends it, no byte is the input's end, and else they are fed.
// Where it goes on, or whether all that it ends with went well.
pub fn take_block(
    rt: &(impl Print + Eprint + Alloc),
    got: io::Result<usize>,
    bench: &mut Bench<'_>,
    run: Run,
    held: &mut [u8],
    block: &[u8],
    log: &mut [u8],
    written: bool,
) -> ControlFlow<bool, Run>
    requires { BlockStart run held.old log.old }
    ensures taken { BlockTaken bench.old.rec bench.old.strict written (result_ok got) block.now (standing run bench.old held.old log.old) result bench.new held.new log.new }
    ensures same { StaysLent bench.old bench.new }
{
    let n = match got {
        Ok(n) => n.min(block.len()),
        Err(error) => {
            fail(rt, "standard input", error);
            return ControlFlow::Break(false);
        }
    };
    if n == 0 {
        let well = finish(rt, bench, run, held, log, written);
        return ControlFlow::Break(well);
    }
    feed_block(rt, bench, run, held, &block[..n], log, written)
}
