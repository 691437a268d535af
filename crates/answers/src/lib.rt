// What a call is answered, and the numbers of the answers.
#![tactic(auto)]

ghost use Rattle.std.specs.Prelude.{◌≡◌};
ghost use Rattle.answers.specs.Answers.{number, number_of};

// Why a call is refused: the rows of the table of refusals.
#[derive(Clone, Copy, PartialEq, Eq)]
pub enum Refusal {
    BadRecord,
    BadArray,
    BadState,
    BadFrame,
    ShortOut,
    Empty,
    Settling,
    BadPattern,
    Busy,
    Asleep,
    NoCommand,
    BadLength,
    NotEnabled,
    Locked,
    Protected,
    BadTable,
    WornOut,
    NotErased,
    BadLine,
    Withdrawn,
    NoSignature,
    BadHeader,
    BadPointer,
    BadEntry,
    InHold,
}

// What a call is answered: that it is done, or the first refusal that applies.
pub type Answer = Result<(), Refusal>;

impl Refusal {
    // Its number in the table.
    pub fn number(self) -> u32
        ensures { result ≡ number self }
    {
        match self {
            Refusal::BadRecord => 1,
            Refusal::BadArray => 2,
            Refusal::BadState => 3,
            Refusal::BadFrame => 4,
            Refusal::ShortOut => 5,
            Refusal::Empty => 10,
            Refusal::Busy => 11,
            Refusal::Asleep => 12,
            Refusal::NoCommand => 13,
            Refusal::BadLength => 14,
            Refusal::NotEnabled => 15,
            Refusal::Locked => 16,
            Refusal::Protected => 17,
            Refusal::Settling => 22,
            Refusal::BadPattern => 23,
            Refusal::BadTable => 24,
            Refusal::WornOut => 25,
            Refusal::NotErased => 19,
            Refusal::BadLine => 20,
            Refusal::Withdrawn => 21,
            Refusal::NoSignature => 30,
            Refusal::BadHeader => 31,
            Refusal::BadPointer => 32,
            Refusal::BadEntry => 33,
            Refusal::InHold => 34,
        }
    }
}

// The answer's number: 0 where nothing was refused.
pub fn number_of(answer: Answer) -> u32
    ensures { result ≡ number_of answer }
{
    match answer {
        Ok(()) => 0,
        Err(refusal) => refusal.number(),
    }
}
