// What a program on a computer calls besides `pod`: script text played on a chip, block after block. It has an archive of its own, so that what the pod's firmware
// calls stays as small and as quick as it is.
#![tactic(auto)]

ghost use Rattle.std.specs.Prelude.{not, eqb};
ghost use Rattle.packing.specs.Packing.{record_of};
ghost use Rattle.blocks.specs.Blocks.{lending, played_block, played_last, LeavesBlock, LeavesLast};

use packing::record_of;

// The lines of a script that end in a block of its text, played as `blocks::play` does it: 0, 3 or 5. The setting is strict where strict is not 0.
#[unsafe(no_mangle)]
pub extern "C" fn gwo_play_lines(
    model: u32,
    status_us: u32,
    page_us: u32,
    sector_us: u32,
    block_us: u32,
    chip_us: u32,
    half_us: u32,
    sleep_us: u32,
    wake_us: u32,
    sign_us: u32,
    strict: u32,
    state: &mut [u8],
    array: &mut [u8],
    wear: &mut [u32],
    held: &mut [u8],
    used: &mut u32,
    line: &mut u64,
    script: &[u8],
    log: &mut [u8],
    taken: &mut u64,
    written: &mut u64,
) -> u32
    ensures { LeavesBlock (played_block (record_of model status_us page_us sector_us block_us chip_us half_us sleep_us wake_us sign_us) (not (eqb strict 0)) script.now (lending state.old array.old wear.old held.old used.old line.old log.old)) result state.new array.new wear.new held.new used.new line.new log.new taken.new written.new }
{
    let rec = record_of(
        model, status_us, page_us, sector_us, block_us, chip_us, half_us, sleep_us, wake_us,
        sign_us,
    );
    blocks::play(
        rec,
        strict != 0,
        state,
        array,
        wear,
        held,
        used,
        line,
        script,
        log,
        taken,
        written,
    )
}

// The text has ended: the line that is held is the last one, played as `blocks::last` does it.
#[unsafe(no_mangle)]
pub extern "C" fn gwo_play_last(
    model: u32,
    status_us: u32,
    page_us: u32,
    sector_us: u32,
    block_us: u32,
    chip_us: u32,
    half_us: u32,
    sleep_us: u32,
    wake_us: u32,
    sign_us: u32,
    strict: u32,
    state: &mut [u8],
    array: &mut [u8],
    wear: &mut [u32],
    held: &[u8],
    used: &mut u32,
    line: &mut u64,
    log: &mut [u8],
    written: &mut u64,
) -> u32
    ensures { LeavesLast (played_last (record_of model status_us page_us sector_us block_us chip_us half_us sleep_us wake_us sign_us) (not (eqb strict 0)) (lending state.old array.old wear.old held.now used.old line.old log.old)) result state.new array.new wear.new used.new line.new log.new written.new }
{
    let rec = record_of(
        model, status_us, page_us, sector_us, block_us, chip_us, half_us, sleep_us, wake_us,
        sign_us,
    );
    blocks::last(
        rec,
        strict != 0,
        state,
        array,
        wear,
        held,
        used,
        line,
        log,
        written,
    )
}
