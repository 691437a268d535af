// Waits, power cycles and cuts of the power. Each gives the state after, or the refusal, which leaves state, page data and array as they were.
#![tactic(auto)]

ghost use Rattle.std.specs.Prelude.{◌≡◌, true};
ghost use Rattle.states.specs.States.{record_ok, chip_of};
ghost use Rattle.time.specs.Time.{later, cycled, told, ended, fit_refusal, chip_refusal, wait_of, power_of, power_cut_of};
ghost use Rattle.time.specs.ContractForms.{Ends};
ghost use Rattle.operations.specs.Operations.{runs};

use answers::Refusal;
use commands::Operation;
use states::{Record, State};

#[tactic(auto, unfolding(crate::specs::Time::later))]
fn rested(st: State, us: u32) -> State
    ensures { result ≡ later st us }
{
    State {
        busy: st.busy.saturating_sub(us),
        settle: st.settle.saturating_sub(us),
        ..st
    }
}

#[tactic(auto, unfolding(crate::specs::Time::cycled))]
fn cycle(st: State) -> State
    ensures { result ≡ cycled st }
{
    State {
        srwd: st.srwd,
        bp: st.bp,
        config: st.config / 8 % 2 * 8,
        wel: false,
        asleep: false,
        busy: 0,
        settle: 0,
        command: 0xFF,
        address: 0xFFFFFF,
    }
}

// This and the next are part of the calls: apart from them they would take more stack.
// 3: the state and its page data. What runs on the chip that they let pass.
#[inline(always)]
fn running(rec: Record, st: State, page: &[u8]) -> Result<Option<Operation>, Refusal>
    ensures { result ≡ told (fit_refusal rec st page.now) (runs rec.model st) }
{
    if st.busy == 0 {
        if states::idle_ok(rec, st) & states::page_fits(None, st.address, page) {
            return Ok(None);
        }
        return Err(Refusal::BadState);
    }
    let op = commands::started_by(rec.model, st.command);
    // A chip that is busy with nothing: told here, so that no test after it asks again.
    if op.is_none() {
        return Err(Refusal::BadState);
    }
    if states::busy_ok(rec, st, op) & states::page_fits(op, st.address, page) {
        return Ok(op);
    }
    Err(Refusal::BadState)
}

// 1 to 3, of a call with the array. What runs on the chip that they let pass.
#[inline(always)]
fn lent(rec: Record, st: State, page: &[u8], array: &[u8]) -> Result<Option<Operation>, Refusal>
    ensures { result ≡ told (chip_refusal rec (chip_of st page.now array.now)) (runs rec.model st) }
{
    if !states::record_ok(rec) {
        return Err(Refusal::BadRecord);
    }
    let row = models::model_of(rec.model);
    if array.len() != row.length as usize {
        return Err(Refusal::BadArray);
    }
    running(rec, st, page)
}

// Any wait, of any record, state, page data and array.
pub fn wait(
    rec: Record,
    st: State,
    page: &mut [u8],
    array: &mut [u8],
    us: u32,
) -> Result<State, Refusal>
    ensures { Ends (wait_of rec (chip_of st page.old array.old) us) result page.new array.new }
{
    let op = lent(rec, st, page, array)?;
    if (st.busy == 0) | (us < st.busy) {
        return Ok(rested(st, us));
    }
    Ok(operations::finish(rec.model, op, st, page, array))
}

// Any power cycle. One of a busy chip is refused.
pub fn power_cycle(rec: Record, st: State, page: &[u8]) -> Result<State, Refusal>
    ensures { result ≡ ended (power_of rec st page.now) }
{
    if !states::record_ok(rec) {
        return Err(Refusal::BadRecord);
    }
    running(rec, st, page)?;
    if st.busy != 0 {
        return Err(Refusal::Busy);
    }
    Ok(cycle(st))
}

// Any cut of the power. An idle chip has no unit, and so no pattern.
pub fn cut(
    rec: Record,
    st: State,
    page: &mut [u8],
    array: &mut [u8],
    pattern: &[u8],
) -> Result<State, Refusal>
    ensures { Ends (power_cut_of rec (chip_of st page.old array.old) pattern.now) result page.new array.new }
{
    let op = lent(rec, st, page, array)?;
    if pattern.len() != operations::pattern_length(op, st.address, array.len()) {
        return Err(Refusal::BadPattern);
    }
    let torn = operations::tear(rec.model, op, st, page, array, pattern);
    Ok(cycle(torn))
}
