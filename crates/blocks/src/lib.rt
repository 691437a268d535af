// A block of script text played on a lent chip: the state packed in 272 lent bytes, the rows into a lent log, and the start of a line that the block leaves
// open in a lent buffer of 641 bytes. The caller comes again with the rest of the text, and with the next block.
#![tactic(auto)]

ghost use Rattle.std.specs.Prelude.{◌≡◌, true};
ghost use Rattle.answers.specs.Answers.{number_of};
ghost use Rattle.packing.specs.Packing.{is_packing, unpack_of};
ghost use Rattle.blocks.specs.Blocks.{lending, block_refusal, played_block, played_last, LeavesBlock, LeavesLast};

use answers::{Answer, Refusal};
use feed::Run;
use play::Bench;
use states::{Record, State};

// Whether the lent bytes are a packing, the buffer for a line has 641 bytes, no more of them are in use, and the log is roomy.
fn refusal(state: &[u8], room: usize, used: u32, roomy: bool) -> Answer
    ensures { number_of result ≡ block_refusal state.now room used roomy }
{
    let busy = packing::busy_in(state);
    if !packing::is_packed(state, busy) {
        return Err(Refusal::BadState);
    }
    if (room == 641) & ((used <= 641) & roomy) {
        Ok(())
    } else {
        Err(Refusal::ShortOut)
    }
}

// The state that lent bytes pack.
fn unpacked(state: &[u8]) -> State
    requires { is_packing state.now ≡ true }
    ensures { result ≡ unpack_of state.now }
{
    let busy = packing::busy_in(state);
    packing::unpack(state, busy)
}

// The lines that end in the block, until it is used up or the log lacks room for a row. What is lent stands then as the last line leaves it; taken gets how much
// of the block is used, and written how much of the log is filled. A refused call changes nothing but these two, which become 0.
// The parameters are those that C lends one by one.
pub fn play(
    rec: Record,
    strict: bool,
    state: &mut [u8],
    array: &mut [u8],
    wear: &mut [u32],
    held: &mut [u8],
    used: &mut u32,
    line: &mut u64,
    script: &[u8],
    log: &mut [u8],
    taken: &mut u64,
    written: &mut u64,
) -> u32
    ensures { LeavesBlock (played_block rec strict script.now (lending state.old array.old wear.old held.old used.old line.old log.old)) result state.new array.new wear.new held.new used.new line.new log.new taken.new written.new }
{
    *taken = 0;
    *written = 0;
    let refused = answers::number_of(refusal(state, held.len(), *used, true));
    if refused != 0 {
        return refused;
    }
    let first = Run {
        number: *line,
        used: *used as usize,
        at: 0,
        filled: 0,
    };
    let chip = unpacked(state);
    let (_, page) = state.split_at_mut(16);
    let mut bench = Bench {
        rec,
        strict,
        state: chip,
        page,
        array,
        wear,
    };
    let run = feed::feed(&mut bench, first, held, script, log);
    let chip = bench.state;
    *used = run.used as u32;
    *line = run.number;
    *taken = run.at as u64;
    *written = run.filled as u64;
    packing::pack(chip, state);
    0
}

// The text has ended: a line that is held is the last one. Refused as a block is, and with 5 where the log lacks room for a row too.
// The parameters are those that C lends one by one.
pub fn last(
    rec: Record,
    strict: bool,
    state: &mut [u8],
    array: &mut [u8],
    wear: &mut [u32],
    held: &[u8],
    used: &mut u32,
    line: &mut u64,
    log: &mut [u8],
    written: &mut u64,
) -> u32
    ensures { LeavesLast (played_last rec strict (lending state.old array.old wear.old held.now used.old line.old log.old)) result state.new array.new wear.new used.new line.new log.new written.new }
{
    *written = 0;
    let roomy = script_log::LONGEST_ROW <= log.len();
    let refused = answers::number_of(refusal(state, held.len(), *used, roomy));
    if refused != 0 {
        return refused;
    }
    let first = Run {
        number: *line,
        used: *used as usize,
        at: 0,
        filled: 0,
    };
    let chip = unpacked(state);
    let (_, page) = state.split_at_mut(16);
    let mut bench = Bench {
        rec,
        strict,
        state: chip,
        page,
        array,
        wear,
    };
    let run = feed::finish(&mut bench, first, held, log);
    let chip = bench.state;
    *used = run.used as u32;
    *line = run.number;
    *written = run.filled as u64;
    packing::pack(chip, state);
    0
}
