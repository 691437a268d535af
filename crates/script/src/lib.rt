// The lines of a script: what a line says, and the bytes of a frame's line.
#![tactic(auto)]

mod hex;

ghost use Rattle.std.specs.Prelude.{◌≡◌, drop};
ghost use Rattle.script.specs.Hex.{Unhexed};
ghost use Rattle.script.specs.Reading.{numbered, all_hex, plain_number, frame_head, is_frame, wait_head, is_power, other_line, Reads};

use hex::is_hex;
pub use hex::unhex;
use parts::byte_at;

// What a well-formed line says.
#[derive(Clone, Copy)]
pub enum Line {
    // WP# high or low, the tail bits, and how many bytes stand in hex from byte 6 of the line on
    Frame { wp: bool, tail: u8, count: usize },
    // microseconds
    Wait(u32),
    Power,
}

// The number that the digits spell, where each is a digit and a wait can be as long.
fn number(digits: &[u8]) -> Option<u32>
    ensures { result ≡ numbered 0 digits.now }
{
    let mut sum: u32 = 0;
    for b in digits {
        if !b.is_ascii_digit() {
            return None;
        }
        sum = sum.checked_mul(10)?.checked_add(u32::from(b - b'0'))?;
    }
    Some(sum)
}

// All of a frame's line but its hex digits.
#[tactic(auto, unfolding(crate::specs::Reading::frame_head))]
fn frame_head(s: &[u8]) -> bool
    ensures { result ≡ frame_head s.now }
{
    let w = byte_at(s, 2);
    let t = byte_at(s, 4);
    let n = s.len();
    (((byte_at(s, 0) == b'F') & (byte_at(s, 1) == b'\t'))
        & (((b'0' <= w) & (w <= b'1')) & (byte_at(s, 3) == b'\t')))
        & ((((b'0' <= t) & (t <= b'7')) & (byte_at(s, 5) == b'\t')) & ((n % 2 == 0) & (n <= 606)))
}

fn all_hex(s: &[u8]) -> bool
    ensures { result ≡ all_hex s.now }
{
    s.iter().all(|b| is_hex(*b))
}

#[tactic(auto, using(crate::proofs::ReadLaws::head_long), unfolding(crate::specs::Reading::is_frame))]
fn is_frame(s: &[u8]) -> bool
    ensures { result ≡ is_frame s.now }
{
    frame_head(s) && all_hex(&s[6..])
}

// Whether the digits from 2 on are at least one, and the first is no zero unless it is alone.
#[tactic(auto, using(crate::proofs::ReadLaws::plain_is))]
fn is_plain(s: &[u8]) -> bool
    ensures { result ≡ plain_number (drop 2 s.now) }
{
    let n = s.len();
    (n == 3) | ((3 < n) & (byte_at(s, 2) != b'0'))
}

// All of a wait's line but its digits.
#[tactic(auto, unfolding(crate::specs::Reading::wait_head))]
fn wait_head(s: &[u8]) -> bool
    ensures { result ≡ wait_head s.now }
{
    (byte_at(s, 0) == b'W') & (byte_at(s, 1) == b'\t') & is_plain(s)
}

#[tactic(auto, unfolding(crate::specs::Reading::is_power))]
fn is_power(s: &[u8]) -> bool
    ensures { result ≡ is_power s.now }
{
    (s.len() == 1) & (byte_at(s, 0) == b'P')
}

// What a line that is no frame says.
#[tactic(auto, using(crate::proofs::ReadLaws::wait_long))]
fn read_wait(line: &[u8]) -> Option<Line>
    ensures { result ≡ other_line line.now }
{
    if wait_head(line) {
        let us = number(&line[2..])?;
        return Some(Line::Wait(us));
    }
    if is_power(line) {
        return Some(Line::Power);
    }
    None
}

// What a line says; the line is without its newline. None is a bad line, which is answered 20.
pub fn read_line(line: &[u8]) -> Option<Line>
    ensures { Reads line.now result }
{
    if line.len() > 640 {
        return None;
    }
    if is_frame(line) {
        return Some(Line::Frame {
            wp: byte_at(line, 2) == b'1',
            tail: byte_at(line, 4) - b'0',
            count: (line.len() - 6) / 2,
        });
    }
    read_wait(line)
}

// The bytes of a frame's line, at the start of out, as many as it has room for; and how many those are.
pub fn frame_bytes(line: &[u8], out: &mut [u8]) -> usize
    ensures { Unhexed (drop 6 line.now) out.old out.new result }
{
    if line.len() < 6 {
        return 0;
    }
    unhex(&line[6..], out)
}
