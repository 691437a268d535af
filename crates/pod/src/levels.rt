// What C calls of the pins (Req 07): one sample, and a run of them, with the front packed in eight lent bytes and the bytes of a frame collected in `frame`.
ghost use Rattle.pins_packed.specs.Fronts.{sample_of, samples_of};
ghost use Rattle.pod.specs.Samples.{GivenToC, Yields, YieldsRun};

use pins::{Frame, Told};

// What is told, as C takes it: the number is the answer's; ready, bytes, tail and wp get 0 where no frame is handed over.
fn tell(told: Told, ready: &mut u32, bytes: &mut u32, tail: &mut u32, wp: &mut u32) -> u32
    ensures { GivenToC told result ready.new bytes.new tail.new wp.new }
{
    let (number, handed) = match told {
        Ok(handed) => (0, handed),
        Err(refusal) => (refusal.number(), None),
    };
    *ready = u32::from(handed.is_some());
    let frame = handed.unwrap_or(Frame {
        bytes: 0,
        tail: 0,
        wp: false,
    });
    *bytes = frame.bytes;
    *tail = u32::from(frame.tail);
    *wp = u32::from(frame.wp);
    number
}

// One sample, levels: bit 0 CS#, 1 SCLK, 2 SI, 3 WP#, 4 HOLD#: 0, 3, 34 or 4. ready gets 1 when it hands a frame over, whose whole bytes are the first of `frame`; else
// ready, bytes, tail and wp get 0.
#[unsafe(no_mangle)]
pub extern "C" fn gwo_sample(
    front: &mut [u8],
    frame: &mut [u8],
    levels: u32,
    ready: &mut u32,
    bytes: &mut u32,
    tail: &mut u32,
    wp: &mut u32,
) -> u32
    ensures { Yields (sample_of front.old levels frame.old) result front.new frame.new ready.new bytes.new tail.new wp.new }
{
    let probe = pins_packed::sample(front, frame, levels);
    tell(probe.told, ready, bytes, tail, wp)
}

// A run of samples, a byte each, up to the first that hands a frame over or drops it. used gets how many were taken, that one included.
#[unsafe(no_mangle)]
pub extern "C" fn gwo_samples(
    front: &mut [u8],
    frame: &mut [u8],
    levels: &[u8],
    used: &mut u64,
    ready: &mut u32,
    bytes: &mut u32,
    tail: &mut u32,
    wp: &mut u32,
) -> u32
    ensures { YieldsRun (samples_of front.old levels.now frame.old) result front.new frame.new used.new ready.new bytes.new tail.new wp.new }
{
    let probe = pins_packed::samples(front, frame, levels);
    *used = probe.used as u64;
    tell(probe.told, ready, bytes, tail, wp)
}
