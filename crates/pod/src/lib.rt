// What the pod's firmware, written in C, calls: frame, wait, power cycle and cut on numbers and byte slices, the state packed in 272 lent bytes. The last 256
// are the page data, and are lent on as they stand. In `discovery`, the SFDP table; in `levels`, the pins.
#![tactic(auto)]

mod discovery;
mod levels;

ghost use Rattle.std.specs.Prelude.{◌≡◌};
ghost use Rattle.answers.specs.Answers.{number_of};
ghost use Rattle.ladder.specs.Ladder.{misfits};
ghost use Rattle.packing.specs.Packing.{record_of, page_in};
ghost use Rattle.pod.specs.Calls.{state_in as Calls·state_in, loan, called_report, Reports, kept_of, Packs, sent_by, Leaves, Alters, Answers, called_frame, called_wait, called_cut, called_cycle};

use answers::{Answer, Refusal};
use packing::record_of;
use states::{Record, State};

// The answer's number. The state after a frame is packed where it may differ: where nothing was refused, and at 17; otherwise the lent bytes stay.
fn keep(answer: Answer, next: State, state: &mut [u8]) -> u32
    requires { Packs answer next state.old }
    ensures { (result ≡ number_of answer) × (state.new ≡ kept_of answer next (page_in state.old) state.old) }
{
    let number = answers::number_of(answer);
    if (number == 0) | (number == 17) {
        packing::pack(next, state);
    }
    number
}

// This and the next four are part of the calls that C makes: apart from them they would take more of its stack.
// Whether there is something lent, of another number of elements.
#[inline(always)]
fn misfits(lent: Option<usize>, n: usize) -> bool
    ensures { result ≡ misfits (loan lent) n }
{
    lent.is_some_and(|m| m != n)
}

// The state in the lent bytes of a call with an array and a wear table of so many elements, if it takes them. Before any other test the record has to be
// right; bytes that are no packing hold no valid state: 3, after what else is lent.
#[inline(always)]
fn state_in(
    rec: Record,
    state: &[u8],
    cells: Option<usize>,
    sectors: Option<usize>,
) -> Result<State, Refusal>
    ensures { result ≡ Calls·state_in rec state.now (loan cells) (loan sectors) }
{
    if !states::record_ok(rec) {
        return Err(Refusal::BadRecord);
    }
    let busy = packing::busy_in(state);
    if packing::is_packed(state, busy) {
        return Ok(packing::unpack(state, busy));
    }
    let row = models::model_of(rec.model);
    if misfits(cells, row.length as usize) {
        return Err(Refusal::BadArray);
    }
    if misfits(sectors, row.sectors as usize) {
        return Err(Refusal::BadTable);
    }
    Err(Refusal::BadState)
}

// Any wait.
#[inline(always)]
fn wait(rec: Record, state: &mut [u8], array: &mut [u8], us: u32) -> Answer
    ensures { Alters (called_wait rec state.old array.old us) (number_of result) state.new array.new }
{
    let st = state_in(rec, state, Some(array.len()), None)?;
    let next = time::wait(rec, st, &mut state[16..272], array, us)?;
    packing::pack(next, state);
    Ok(())
}

// Any cut of the power.
#[inline(always)]
fn cut(rec: Record, state: &mut [u8], array: &mut [u8], pattern: &[u8]) -> Answer
    ensures { Alters (called_cut rec state.old array.old pattern.now) (number_of result) state.new array.new }
{
    let st = state_in(rec, state, Some(array.len()), None)?;
    let next = time::cut(rec, st, &mut state[16..272], array, pattern)?;
    packing::pack(next, state);
    Ok(())
}

// Any power cycle.
#[inline(always)]
fn cycle(rec: Record, state: &mut [u8]) -> Answer
    ensures { Answers (called_cycle rec state.old) (number_of result) state.new }
{
    let st = state_in(rec, state, None, None)?;
    let next = time::power_cycle(rec, st, &state[16..272])?;
    packing::pack(next, state);
    Ok(())
}

// ---- what C calls

// Any frame: its answer's number. WP# is low where wp is 0, and the setting strict where strict is not. from and count get the first driven position and how many, both 0 when none;
// fold gets 1 where a program went past its page's end, else 0.
#[unsafe(no_mangle)]
pub extern "C" fn gwo_frame(
    model: u32,
    status_us: u32,
    page_us: u32,
    sector_us: u32,
    block_us: u32,
    chip_us: u32,
    half_us: u32,
    sleep_us: u32,
    wake_us: u32,
    sign_us: u32,
    state: &mut [u8],
    array: &[u8],
    wear: &mut [u32],
    frame: &[u8],
    tail: u32,
    wp: u32,
    strict: u32,
    out: &mut [u8],
    from: &mut u32,
    count: &mut u32,
    fold: &mut u32,
) -> u32
    ensures { Leaves (called_frame (record_of model status_us page_us sector_us block_us chip_us half_us sleep_us wake_us sign_us) state.old array.now (sent_by frame.now tail wp strict wear.old out.old)) result state.new wear.new out.new from.new count.new fold.new }
{
    let rec = record_of(
        model, status_us, page_us, sector_us, block_us, chip_us, half_us, sleep_us, wake_us,
        sign_us,
    );
    let st = match state_in(rec, state, Some(array.len()), Some(wear.len())) {
        Ok(st) => st,
        Err(refusal) => {
            *from = 0;
            *count = 0;
            *fold = 0;
            return refusal.number();
        }
    };
    let reply = chip::frame(
        rec,
        st,
        &mut state[16..272],
        array,
        wear,
        frame,
        tail,
        wp != 0,
        strict != 0,
        out,
    );
    *from = reply.from;
    *count = reply.count;
    *fold = reply.fold as u32;
    keep(reply.answer, reply.state, state)
}

// Any wait, in microseconds: its answer's number.
#[unsafe(no_mangle)]
pub extern "C" fn gwo_wait(
    model: u32,
    status_us: u32,
    page_us: u32,
    sector_us: u32,
    block_us: u32,
    chip_us: u32,
    half_us: u32,
    sleep_us: u32,
    wake_us: u32,
    sign_us: u32,
    state: &mut [u8],
    array: &mut [u8],
    us: u32,
) -> u32
    ensures { Alters (called_wait (record_of model status_us page_us sector_us block_us chip_us half_us sleep_us wake_us sign_us) state.old array.old us) result state.new array.new }
{
    let rec = record_of(
        model, status_us, page_us, sector_us, block_us, chip_us, half_us, sleep_us, wake_us,
        sign_us,
    );
    answers::number_of(wait(rec, state, array, us))
}

// Any cut of the power, with the pattern that it leaves behind: its answer's number.
#[unsafe(no_mangle)]
pub extern "C" fn gwo_cut(
    model: u32,
    status_us: u32,
    page_us: u32,
    sector_us: u32,
    block_us: u32,
    chip_us: u32,
    half_us: u32,
    sleep_us: u32,
    wake_us: u32,
    sign_us: u32,
    state: &mut [u8],
    array: &mut [u8],
    pattern: &[u8],
) -> u32
    ensures { Alters (called_cut (record_of model status_us page_us sector_us block_us chip_us half_us sleep_us wake_us sign_us) state.old array.old pattern.now) result state.new array.new }
{
    let rec = record_of(
        model, status_us, page_us, sector_us, block_us, chip_us, half_us, sleep_us, wake_us,
        sign_us,
    );
    answers::number_of(cut(rec, state, array, pattern))
}

// Any power cycle: its answer's number.
#[unsafe(no_mangle)]
pub extern "C" fn gwo_power_cycle(
    model: u32,
    status_us: u32,
    page_us: u32,
    sector_us: u32,
    block_us: u32,
    chip_us: u32,
    half_us: u32,
    sleep_us: u32,
    wake_us: u32,
    sign_us: u32,
    state: &mut [u8],
) -> u32
    ensures { Answers (called_cycle (record_of model status_us page_us sector_us block_us chip_us half_us sleep_us wake_us sign_us) state.old) result state.new }
{
    let rec = record_of(
        model, status_us, page_us, sector_us, block_us, chip_us, half_us, sleep_us, wake_us,
        sign_us,
    );
    answers::number_of(cycle(rec, state))
}

// The report on a wear table: its answer's number. The six places are written only where it is 0.
#[unsafe(no_mangle)]
#[tactic(auto, unfolding(crate::specs::Calls::called_report))]
pub extern "C" fn gwo_wear_report(
    wear: &[u32],
    total: &mut u64,
    smallest: &mut u32,
    largest: &mut u32,
    sector: &mut u32,
    mean: &mut u32,
    remainder: &mut u32,
) -> u32
    ensures { Reports (called_report wear.now total.old smallest.old largest.old sector.old mean.old remainder.old) result total.new smallest.new largest.new sector.new mean.new remainder.new }
{
    match counts::report(wear) {
        Ok(said) => {
            *total = said.total;
            *smallest = said.smallest;
            *largest = said.largest;
            *sector = said.sector.0;
            *mean = said.mean;
            *remainder = said.remainder;
            0
        }
        Err(refusal) => refusal.number(),
    }
}
