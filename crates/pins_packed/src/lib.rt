// The front packed in eight lent bytes (Req 07), and a sample or a run of samples on it: what the pod's firmware calls, but for the places that C lends.
#![tactic(auto)]

ghost use Rattle.std.specs.Prelude.{◌≡◌, length, true, false, MatchOption};
ghost use Rattle.pins_packed.specs.Fronts.{flags_of, front_packed, front_in, is_front, sample_of, samples_of, Probes};

use answers::Refusal;
use pins::{Front, Levels, Told};

// What a call comes to: what is told, and how many samples were taken.
#[derive(Clone, Copy, PartialEq, Eq)]
pub struct Probe {
    pub told: Told,
    pub used: usize,
}

// Bytes that pack no front are answered 3.
const NO_FRONT: Probe = Probe {
    told: Err(Refusal::BadState),
    used: 0,
};

// The front that the lent bytes pack, if they pack one.
#[tactic(auto, unfolding(crate::specs::Fronts::is_front, crate::specs::Fronts::front_in))]
fn unpack(front: &[u8]) -> Option<Front>
    ensures { MatchOption result (is_front front.now ≡ false) (λ f. (is_front front.now ≡ true) × (f ≡ front_in front.now)) }
{
    let &[flags, bits, value, zero, a, b, c, d] = front else {
        return None;
    };
    let f = Front {
        select: flags % 2 == 1,
        clock: flags / 2 % 2 == 1,
        held: flags / 4 % 2 == 1,
        wp: flags / 8 % 2 == 1,
        outgrown: flags / 16 % 2 == 1,
        bits,
        value,
        bytes: u32::from_le_bytes([a, b, c, d]),
    };
    if flags < 32 && zero == 0 && pins::front_ok(f) {
        return Some(f);
    }
    None
}

// Byte 0 of a front.
fn flags_of(f: Front) -> u8
    ensures { result ≡ flags_of f }
{
    u8::from(f.select)
        + 2 * u8::from(f.clock)
        + 4 * u8::from(f.held)
        + 8 * u8::from(f.wp)
        + 16 * u8::from(f.outgrown)
}

// The front, packed.
#[tactic(auto, unfolding(crate::specs::Fronts::front_packed))]
fn pack(f: Front, front: &mut [u8])
    requires { length front.old ≡ 8 }
    ensures { front.new ≡ front_packed f }
{
    let [a, b, c, d] = f.bytes.to_le_bytes();
    front.copy_from_slice(&[flags_of(f), f.bits, f.value, 0, a, b, c, d]);
}

// One sample. Bytes that pack no front are answered 3, and nothing changes.
#[tactic(auto, using(crate::proofs::Fronts::long, crate::proofs::Fronts::right), unfolding(crate::specs::Fronts::sample_of, pins::specs::Pins::stepped_of))]
pub fn sample(front: &mut [u8], frame: &mut [u8], levels: u32) -> Probe
    ensures { Probes (sample_of front.old levels frame.old) result front.new frame.new }
{
    let Some(f) = unpack(front) else {
        return NO_FRONT;
    };
    let stepped = pins::step(f, Levels(levels), frame);
    pack(stepped.front, front);
    Probe {
        told: stepped.told,
        used: 1,
    }
}

// A run of samples, up to the first that hands a frame over or drops it. Bytes that pack no front are answered 3, and nothing changes.
#[tactic(auto, using(crate::proofs::Fronts::long, crate::proofs::Fronts::right), unfolding(crate::specs::Fronts::samples_of, pins_run::specs::Runs::ran_of))]
pub fn samples(front: &mut [u8], frame: &mut [u8], levels: &[u8]) -> Probe
    ensures { Probes (samples_of front.old levels.now frame.old) result front.new frame.new }
{
    let Some(f) = unpack(front) else {
        return NO_FRONT;
    };
    let ran = pins_run::run(f, levels, frame);
    pack(ran.front, front);
    Probe {
        told: ran.told,
        used: ran.used,
    }
}
