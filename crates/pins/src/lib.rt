// Levels of CS#, SCLK, SI, WP# and HOLD#, sample by sample (Req 07): bits on rising clocks, bytes in a lent buffer, a frame when CS# rises. Nothing here knows a
// chip.
#![tactic(auto)]

ghost use Rattle.std.specs.Prelude.{◌≡◌};
ghost use Rattle.pins.specs.Pins.{select_of, clock_of, si_of, wp_of, hold_of, is_held, front_ok, Sound, idle, fallen, risen_of, clocked_of, step_of, stepped_of, Senses, Clocks};

use answers::Refusal;

// No frame has more whole bytes.
pub const FRAME_LIMIT: u32 = 65541;

// The levels of a sample: bit 0 CS#, 1 SCLK, 2 SI, 3 WP#, 4 HOLD#.
#[derive(Clone, Copy, PartialEq, Eq)]
pub struct Levels(pub u32);

impl Levels {
    pub fn select(self) -> bool
        ensures { result ≡ select_of self.0 }
    {
        self.0 % 2 == 1
    }

    pub fn clock(self) -> bool
        ensures { result ≡ clock_of self.0 }
    {
        self.0 / 2 % 2 == 1
    }

    // SI, as the bit that it sends.
    pub fn data(self) -> u8
        ensures { result ≡ si_of self.0 }
    {
        (self.0 / 4 % 2) as u8
    }

    pub fn write_protect(self) -> bool
        ensures { result ≡ wp_of self.0 }
    {
        self.0 / 8 % 2 == 1
    }

    pub fn hold(self) -> bool
        ensures { result ≡ hold_of self.0 }
    {
        self.0 / 16 % 2 == 1
    }

    // Whether the sample is held, by whether the one before was.
    pub fn is_held(self, before: bool) -> bool
        ensures { result ≡ is_held before self.0 }
    {
        if self.clock() { before } else { !self.hold() }
    }
}

// What is remembered: CS# and SCLK of the last sample and whether it was held; within a frame WP# at the fall, whether it has outgrown, the bits of the byte
// begun with their value, and the whole bytes so far.
#[derive(Clone, Copy, PartialEq, Eq)]
pub struct Front {
    pub select: bool,
    pub clock: bool,
    pub held: bool,
    pub wp: bool,
    pub outgrown: bool,
    pub bits: u8,
    pub value: u8,
    pub bytes: u32,
}

// A frame that is handed over: how many whole bytes, at the head of the buffer, how many tail bits, and WP#.
#[derive(Clone, Copy, PartialEq, Eq)]
pub struct Frame {
    pub bytes: u32,
    pub tail: u8,
    pub wp: bool,
}

// What is told of a sample: a frame that is handed over, nothing, or a refusal.
pub type Told = Result<Option<Frame>, Refusal>;

#[derive(Clone, Copy, PartialEq, Eq)]
pub struct Stepped {
    pub front: Front,
    pub told: Told,
}

// Whether a front is one that samples lead to.
#[tactic(auto, using(crate::proofs::Table::shifted), unfolding(crate::specs::Pins::front_ok))]
pub fn front_ok(f: Front) -> bool
    ensures { result ≡ front_ok f }
{
    f.bits <= 7
        && u32::from(f.value) < 1 << f.bits
        && f.bytes <= FRAME_LIMIT
        && (!f.select || !f.wp && !f.outgrown)
        && (!(f.select || f.outgrown) || f.bits == 0 && f.bytes == 0)
}

// The front with CS# high, after a sample.
fn idle(levels: Levels, held: bool) -> Front
    ensures { result ≡ idle levels.0 held }
{
    Front {
        select: true,
        clock: levels.clock(),
        held,
        wp: false,
        outgrown: false,
        bits: 0,
        value: 0,
        bytes: 0,
    }
}

// The front where CS# has fallen: a frame of no byte and no bit.
fn fallen(levels: Levels, held: bool) -> Front
    ensures { result ≡ fallen levels.0 held }
{
    Front {
        select: false,
        wp: levels.write_protect(),
        ..idle(levels, held)
    }
}

// CS# rises: what the frame comes to.
#[tactic(auto, unfolding(crate::specs::Pins::risen_of))]
fn risen(f: Front, room: usize) -> Told
    ensures { result ≡ risen_of f room }
{
    if f.held {
        return Err(Refusal::InHold);
    }
    if f.outgrown || room < f.bytes as usize {
        return Err(Refusal::BadFrame);
    }
    Ok(Some(Frame {
        bytes: f.bytes,
        tail: f.bits,
        wp: f.wp,
    }))
}

// CS# stays low: a rising clock that is not held takes a bit.
#[tactic(auto, unfolding(crate::specs::Pins::clocked_of, crate::specs::Pins::bit_taken))]
fn clocked(f: Front, levels: Levels, buffer: &mut [u8]) -> Front
    requires { Sound f }
    ensures { Clocks (clocked_of f levels.0 buffer.old) result buffer.new }
{
    let clock = levels.clock();
    let held = levels.is_held(f.held);
    let still = Front {
        select: false,
        clock,
        held,
        ..f
    };
    if f.clock || !clock || held || f.outgrown {
        return still;
    }
    let value = 2 * f.value + levels.data();
    if f.bits < 7 {
        return Front {
            bits: f.bits + 1,
            value,
            ..still
        };
    }
    let begun = Front {
        bits: 0,
        value: 0,
        ..still
    };
    let at = f.bytes as usize;
    if f.bytes < FRAME_LIMIT && at < buffer.len() {
        buffer[at] = value;
        return Front {
            bytes: f.bytes + 1,
            ..begun
        };
    }
    Front {
        outgrown: true,
        bytes: 0,
        ..begun
    }
}

// One sample, of a front that is right. That is asked here and is no invariant of Front: one that is not right is a value too, which `step` answers 3.
#[tactic(auto, using(crate::proofs::Table::clocked_silent), unfolding(crate::specs::Pins::step_of))]
pub fn step_in(f: Front, levels: Levels, buffer: &mut [u8]) -> Stepped
    requires { Sound f }
    ensures { Senses (step_of f levels.0 buffer.old) result buffer.new }
{
    let held = levels.is_held(f.held);
    match (f.select, levels.select()) {
        (true, true) => Stepped {
            front: idle(levels, held),
            told: Ok(None),
        },
        (true, false) => Stepped {
            front: fallen(levels, held),
            told: Ok(None),
        },
        (false, true) => Stepped {
            front: idle(levels, held),
            told: risen(f, buffer.len()),
        },
        (false, false) => Stepped {
            front: clocked(f, levels, buffer),
            told: Ok(None),
        },
    }
}

// One sample. A front that is not right is answered 3, and nothing changes.
#[tactic(auto, unfolding(crate::specs::Pins::stepped_of))]
pub fn step(front: Front, levels: Levels, buffer: &mut [u8]) -> Stepped
    ensures { Senses (stepped_of front levels.0 buffer.old) result buffer.new }
{
    if !front_ok(front) {
        return Stepped {
            front,
            told: Err(Refusal::BadState),
        };
    }
    step_in(front, levels, buffer)
}
