// The refusals in their order. The stages are how; the one table of specs/Ladder.antt is what.
#![tactic(auto)]

ghost use Rattle.std.specs.Prelude.{◌≡◌};
ghost use Rattle.ladder.specs.Stages.{given_of, said_of, heard_of, allowed_of};

use answers::{Answer, Refusal};
use commands::{Command, Traits};
use states::{Record, State};
use units::Address;

// What the refusals look at of one frame: the cells of the array and the counts of the wear table that it is given, whether the page data fit the state, its whole bytes,
// tail bits and WP# level, the room of its output, its command, its address in the array, whether it
// programs over old data under the strict setting, and whether it erases a sector whose count is at its top.
#[derive(Clone, Copy)]
pub struct Head {
    pub cells: usize,
    pub sectors: usize,
    pub page: bool,
    pub count: usize,
    pub tail: u32,
    pub wp: bool,
    pub room: usize,
    pub command: Command,
    pub address: Address,
    pub over: bool,
    pub worn: bool,
}

// 1 to 5 and 24: what the call is given at all. The command and the address are not looked at.
#[tactic(auto, unfolding(crate::specs::Stages::given_of))]
pub fn given(rec: Record, st: State, head: Head) -> Answer
    ensures { result ≡ given_of rec st head }
{
    if !states::record_ok(rec) {
        return Err(Refusal::BadRecord);
    }
    let row = models::model_of(rec.model);
    if head.cells != row.length as usize {
        return Err(Refusal::BadArray);
    }
    if head.sectors != row.sectors as usize {
        return Err(Refusal::BadTable);
    }
    if !(states::state_ok(rec, st) & head.page) {
        return Err(Refusal::BadState);
    }
    let n = head.count;
    if (65541 < n) | (7 < head.tail) {
        return Err(Refusal::BadFrame);
    }
    if head.room < n {
        return Err(Refusal::ShortOut);
    }
    Ok(())
}

// 10, 22, 11 to 13, 21 and 14: whether the chip hears a frame of that command and length.
#[tactic(auto, unfolding(crate::specs::Stages::heard_of))]
fn heard(rec: Record, st: State, head: Head, t: Traits) -> Answer
    ensures { result ≡ heard_of rec st head t }
{
    let n = head.count;
    let tail = head.tail;
    if n == 0 {
        return Err(Refusal::Empty);
    }
    if st.settle != 0 {
        return Err(Refusal::Settling);
    }
    if (st.busy != 0) & !t.while_busy {
        return Err(Refusal::Busy);
    }
    if st.asleep & !t.while_asleep {
        return Err(Refusal::Asleep);
    }
    if !t.known {
        return Err(Refusal::NoCommand);
    }
    if t.withdrawn {
        return Err(Refusal::Withdrawn);
    }
    if !commands::length_ok(t, n, tail) {
        return Err(Refusal::BadLength);
    }
    Ok(())
}

// 15 to 17: whether the chip may do it.
#[tactic(auto, unfolding(crate::specs::Stages::allowed_of))]
fn allowed(rec: Record, st: State, head: Head, t: Traits) -> Answer
    ensures { result ≡ allowed_of rec st head t }
{
    if t.latch & !st.wel {
        return Err(Refusal::NotEnabled);
    }
    if t.lock & (st.srwd & !head.wp) {
        return Err(Refusal::Locked);
    }
    let model = rec.model;
    let bp = st.bp;
    let at = head.address;
    let tb = states::tb(st);
    if (t.unit & models::is_protected(model, tb, bp, at.in_block())) | (t.whole & (bp != 0)) {
        return Err(Refusal::Protected);
    }
    Ok(())
}

// 10, 22, 11 to 13, 21 and 14 to 17: the first refusal that applies to a frame that 1 to 5 and 24 let pass, and Ok where none does.
pub fn said(rec: Record, st: State, head: Head) -> Answer
    ensures { result ≡ said_of rec st head }
{
    let command = head.command;
    let row = models::model_of(rec.model);
    let t = commands::traits_of(row.register, command);
    heard(rec, st, head, t)?;
    if t.latch {
        return allowed(rec, st, head, t);
    }
    Ok(())
}
