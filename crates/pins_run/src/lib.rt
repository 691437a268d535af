// Runs of samples, a byte each: straight loops where nothing is told, and the step where CS# moves or a frame outgrows.
#![tactic(auto)]

ghost use Rattle.std.specs.Prelude.{◌≡◌, List, ℕ};
ghost use Rattle.pins.specs.Pins.{Sound};
ghost use Rattle.pins_run.specs.Runs.{ends, run_of, ran_of, Captures, Reaches};

use answers::Refusal;
use pins::{FRAME_LIMIT, Front, Levels, Told};

// What a run of samples comes to, and how many of them it took.
#[derive(Clone, Copy, PartialEq, Eq)]
pub struct Ran {
    pub front: Front,
    pub told: Told,
    pub used: usize,
}

// How far straight loops come: the front there, and the samples that are left.
#[derive(Clone, Copy)]
struct Reached<'a> {
    front: Front,
    left: &'a [u8],
}

// Whether a sample that is told so is the last of a run.
fn is_end(told: Told) -> bool
    ensures { result ≡ ends told }
{
    !matches!(told, Ok(None))
}

// Samples that take no bit: CS# stays high, or low in a frame that has outgrown. One with the levels of the last changes nothing.
fn rest<'a>(f: Front, samples: &'a [u8]) -> Reached<'a>
    requires { Sound f }
    ensures { (b : List ℕ) → Reaches f samples.now b result.front result.left.now b }
{
    let mut front = f;
    if !(front.select || front.outgrown) {
        let left = samples;
        return Reached { front, left };
    }
    let mut last = None;
    for (i, &byte) in samples.iter().enumerate() {
        if last == Some(byte) {
            continue;
        }
        let levels = Levels(u32::from(byte));
        if levels.select() != front.select {
            let left = &samples[i..];
            return Reached { front, left };
        }
        front.clock = levels.clock();
        front.held = levels.is_held(front.held);
        last = Some(byte);
    }
    Reached { front, left: &[] }
}

// Samples within a frame, up to one where CS# rises or the frame outgrows.
fn gather<'a>(f: Front, samples: &'a [u8], buffer: &mut [u8]) -> Reached<'a>
    requires { Sound f }
    ensures { Reaches f samples.now buffer.old result.front result.left.now buffer.new }
{
    let mut front = f;
    if front.select || front.outgrown {
        let left = samples;
        return Reached { front, left };
    }
    // The count of whole bytes is apart, as an index: at two samples a bit a sample takes 18.6 instructions so, and 19.8 with the count in the front.
    let mut bytes = front.bytes as usize;
    for (i, &byte) in samples.iter().enumerate() {
        let left = &samples[i..];
        let levels = Levels(u32::from(byte));
        if levels.select() {
            front.bytes = bytes as u32;
            return Reached { front, left };
        }
        if !levels.clock() {
            front.clock = false;
            front.held = !levels.hold();
            continue;
        }
        if front.clock || front.held {
            front.clock = true;
            continue;
        }
        let value = 2 * front.value + levels.data();
        if front.bits < 7 {
            front.clock = true;
            front.bits += 1;
            front.value = value;
            continue;
        }
        if bytes >= FRAME_LIMIT as usize || bytes >= buffer.len() {
            front.bytes = bytes as u32;
            return Reached { front, left };
        }
        buffer[bytes] = value;
        bytes += 1;
        front.clock = true;
        front.bits = 0;
        front.value = 0;
    }
    front.bytes = bytes as u32;
    Reached { front, left: &[] }
}

// A run of samples, of a front that is right.
fn run_in(f: Front, samples: &[u8], buffer: &mut [u8]) -> Ran
    requires { Sound f }
    ensures { Captures (run_of f samples.now buffer.old) result buffer.new }
{
    let mut front = f;
    let mut left = samples;
    loop {
        let rested = rest(front, left);
        let gathered = gather(rested.front, rested.left, buffer);
        let Some((&byte, after)) = gathered.left.split_first() else {
            return Ran {
                front: gathered.front,
                told: Ok(None),
                used: samples.len(),
            };
        };
        let stepped = pins::step_in(gathered.front, Levels(u32::from(byte)), buffer);
        if is_end(stepped.told) {
            return Ran {
                front: stepped.front,
                told: stepped.told,
                used: samples.len() - after.len(),
            };
        }
        front = stepped.front;
        left = after;
    }
}

// A run of samples, a byte each, up to the first that hands a frame over or drops it. A front that is not right is answered 3, and nothing changes.
#[tactic(auto, unfolding(crate::specs::Runs::ran_of))]
pub fn run(front: Front, samples: &[u8], buffer: &mut [u8]) -> Ran
    ensures { Captures (ran_of front samples.now buffer.old) result buffer.new }
{
    if !pins::front_ok(front) {
        return Ran {
            front,
            told: Err(Refusal::BadState),
            used: 0,
        };
    }
    run_in(front, samples, buffer)
}
