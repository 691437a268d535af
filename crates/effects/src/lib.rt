// What each command does, apart from the frame that carries it (specs/Effects.antt); here replies, and the commands that turn the state.
#![tactic(auto)]

ghost use Rattle.std.specs.Prelude.{◌≡◌, ◌-◌, Err};
ghost use Rattle.effects.specs.Effects.{quiet as Effects·quiet, drives, folding, latched, dozing, starting, refusal_leaves, write_enable, write_disable, erase_starts as Effects·erase, sleep as Effects·sleep};

use answers::Answer;
use commands::Operation;
use states::{Record, State};
use units::Address;

// What a frame is answered: the answer, the first driven position and how many bytes are driven, the state after, and whether a program folded.
#[derive(Clone, Copy)]
pub struct Reply {
    pub answer: Answer,
    pub from: u32,
    pub count: u32,
    pub state: State,
    pub fold: bool,
}

// ---- replies and states

// An answer that drives nothing.
pub fn quiet(answer: Answer, state: State) -> Reply
    ensures { result ≡ Effects·quiet answer state }
{
    Reply {
        answer,
        from: 0,
        count: 0,
        state,
        fold: false,
    }
}

// A frame of n bytes drives from position from to its end.
#[tactic(auto, unfolding(crate::specs::Effects::drives))]
pub fn driven(state: State, from: u32, n: u32) -> Reply
    ensures { result ≡ drives state from n }
{
    if from < n {
        return Reply {
            answer: Ok(()),
            from,
            count: n - from,
            state,
            fold: false,
        };
    }
    quiet(Ok(()), state)
}

// A program is taken: nothing is driven, and the answer says whether it folded.
pub fn taken(state: State, fold: bool) -> Reply
    ensures { result ≡ folding state fold }
{
    let mut reply = quiet(Ok(()), state);
    reply.fold = fold;
    reply
}

// WEL is set or cleared.
#[tactic(auto, unfolding(crate::specs::Effects::latched))]
fn latch(st: State, on: bool) -> State
    ensures { result ≡ latched st on }
{
    State { wel: on, ..st }
}

// The chip falls asleep or wakes, and settles for a time. Here and in `start` by assignment: with a struct update the refusal of a settling chip
// misses its bar of speed.
#[tactic(auto, unfolding(crate::specs::Effects::dozing))]
pub fn doze(st: State, on: bool, time: u32) -> State
    ensures { result ≡ dozing st on time }
{
    let mut next = st;
    next.asleep = on;
    next.settle = time;
    next
}

// An operation starts: its command byte, its address or number of data bytes, and its time. WEL stays set.
#[tactic(auto, unfolding(crate::specs::Effects::starting))]
pub fn start(st: State, command: u8, place: u32, time: u32) -> State
    ensures { result ≡ starting st command place time }
{
    let mut next = st;
    next.busy = time;
    next.command = command;
    next.address = place;
    next
}

// A refusal: it drives nothing, and leaves the state as it is; but where WEL falls at a protected unit it is cleared.
#[tactic(auto, unfolding(crate::specs::Effects::refusal_leaves))]
pub fn refuse(model: u32, answer: Answer, st: State) -> Reply
    ensures { result ≡ Effects·quiet answer (refusal_leaves model answer st) }
{
    let row = models::model_of(model);
    let falls = row.latch_falls & (answers::number_of(answer) == 17);
    quiet(answer, latch(st, st.wel & !falls))
}

// ---- commands that turn the state

// 06
#[tactic(auto, unfolding(crate::specs::Effects::write_enable))]
pub fn write_enable(st: State) -> Reply
    ensures { result ≡ write_enable st }
{
    quiet(Ok(()), latch(st, true))
}

// 04
#[tactic(auto, unfolding(crate::specs::Effects::write_disable))]
pub fn write_disable(st: State) -> Reply
    ensures { result ≡ write_disable st }
{
    quiet(Ok(()), latch(st, false))
}

// 20, 52, D8, 60 and C7
#[tactic(auto, unfolding(crate::specs::Effects::erase_starts))]
pub fn erase(rec: Record, st: State, op: Option<Operation>, at: Address, bytes: &[u8]) -> Reply
    ensures { result ≡ Effects·erase rec st op at bytes.now }
{
    let time = states::operation_time(rec, op);
    quiet(Ok(()), start(st, parts::byte_at(bytes, 0), at.0, time))
}

// B9
#[tactic(auto, unfolding(crate::specs::Effects::sleep))]
pub fn sleep(rec: Record, st: State) -> Reply
    ensures { result ≡ Effects·sleep rec st }
{
    quiet(Ok(()), doze(st, true, rec.sleep))
}
