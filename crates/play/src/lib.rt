// A script line played on the chip.
#![tactic(auto)]

ghost use Rattle.std.specs.Prelude.{◌≡◌, List, ℕ};
ghost use Rattle.states.specs.States.{chip_of};
ghost use Rattle.effects.specs.ContractForms.{Gives};
ghost use Rattle.chip.specs.Frames.{sent_of, frame_of};
ghost use Rattle.time.specs.Time.{power_of, ended};
ghost use Rattle.play.specs.Play.{chip_on, passed_of, passed_answer, state_after, frame_turn, turn_on, Plays, StaysLent};

use answers::{Answer, Refusal};
use effects::Reply;
use script::Line;
use states::{Record, State};

// A chip on the bench: its record, whether the setting is strict, its state, and what is lent of it: page data, array and wear table.
#[derive(Drop)]
pub struct Bench<'a> {
    pub rec: Record,
    pub strict: bool,
    pub state: State,
    pub page: &'a mut [u8],
    pub array: &'a mut [u8],
    pub wear: &'a mut [u32],
}

// What a line came to: the answer, the first driven position and how many bytes are driven, and whether a program folded.
#[derive(Clone, Copy)]
pub struct Played {
    pub answer: Answer,
    pub from: u32,
    pub count: u32,
    pub fold: bool,
}

// `chip::frame` with the array lent by `&mut`, as a bench lends it: beside a field that is lent by `&mut` no other can be lent by `&`.
fn frame(
    rec: Record,
    st: State,
    page: &mut [u8],
    array: &mut [u8],
    wear: &mut [u32],
    bytes: &[u8],
    tail: u32,
    wp: bool,
    strict: bool,
    out: &mut [u8],
) -> Reply
    ensures given { Gives (frame_of rec (chip_of st page.old array.old) (sent_of bytes.now tail wp strict wear.old out.old)) result page.new wear.new out.new }
    ensures read { array.new ≡ array.old }
{
    chip::frame(rec, st, page, array, wear, bytes, tail, wp, strict, out)
}

impl Bench<'_> {
    // The line of a frame: its bytes are sent to the chip. The array is not written; the wear table is, by an erase.
    fn send(&mut self, line: &[u8], wp: bool, tail: u8, shown: &mut [u8]) -> Played
        ensures played { Plays (frame_turn self.old.rec self.old.strict (chip_on self.old) self.old.wear.now shown.old line.now wp tail) result self.new shown.new }
        ensures same { StaysLent self.old self.new }
    {
        let mut sent = [0u8; 300];
        let n = script::frame_bytes(line, &mut sent);
        let r = frame(
            self.rec,
            self.state,
            self.page,
            self.array,
            self.wear,
            &sent[0..n],
            tail as u32,
            wp,
            self.strict,
            shown,
        );
        self.state = r.state;
        Played {
            answer: r.answer,
            from: r.from,
            count: r.count,
            fold: r.fold,
        }
    }

    // What a power cycle is answered, and the state after.
    fn cycled(&self) -> Result<State, Refusal>
        ensures { result ≡ ended (power_of self.now.rec self.now.state self.now.page.now) }
    {
        time::power_cycle(self.rec, self.state, self.page)
    }

    // A wait or a power cycle drives nothing, and leaves another state unless it is refused.
    #[tactic(auto, unfolding(crate::specs::Play::state_after, crate::specs::Play::passed_answer))]
    fn passed(&mut self, after: Result<State, Refusal>) -> Played
        ensures played { result ≡ passed_of (passed_answer after) }
        ensures state { self.new ≡ record self.old { state = state_after self.old.state after } }
    {
        let answer = match after {
            Ok(state) => {
                self.state = state;
                Ok(())
            }
            Err(refusal) => Err(refusal),
        };
        Played {
            answer,
            from: 0,
            count: 0,
            fold: false,
        }
    }

    // Any line, of any bytes: a bad one is answered 20 and changes nothing.
    #[tactic(auto, unfolding(crate::specs::Play::turn_of))]
    pub fn play(&mut self, line: &[u8], shown: &mut [u8]) -> Played
        ensures played { Plays (turn_on self.old shown.old line.now) result self.new shown.new }
        ensures same { StaysLent self.old self.new }
    {
        match script::read_line(line) {
            Some(Line::Frame { wp, tail, count: _ }) => self.send(line, wp, tail, shown),
            Some(Line::Wait(us)) => {
                let after = time::wait(self.rec, self.state, self.page, self.array, us);
                self.passed(after)
            }
            Some(Line::Power) => {
                let after = self.cycled();
                self.passed(after)
            }
            None => Played {
                answer: Err(Refusal::BadLine),
                from: 0,
                count: 0,
                fold: false,
            },
        }
    }
}
