// Reads a script from standard input and writes, for each line, its row of the log and then what was read of it. There is no chip here:
// a frame stands for its own answer, which drives its bytes from the position that its tail says. The input comes in blocks of 97 bytes,
// so that lines of every kind run across a block's end.
#![tactic(auto)]

use lines::Cut;
use script::Line;
use std::fmt::{self, Display, Formatter};
use std::io::Read;

// What was read of a line: its kind and its values.
#[derive(Clone, Copy)]
struct Said(Option<Line>);

impl Display for Said {
    fn fmt<W: fmt::Write>(&self, f: &mut Formatter<W>) -> fmt::Result {
        match self.0 {
            Some(Line::Frame { wp, tail, count }) => {
                let level = u8::from(wp);
                write!(f, "frame {level} {tail} {count}")
            }
            Some(Line::Wait(us)) => write!(f, "wait {us}"),
            Some(Line::Power) => write!(f, "power"),
            None => write!(f, "bad"),
        }
    }
}

impl Said {
    fn answer(self) -> u32 {
        if self.0.is_some() { 0 } else { 20 }
    }

    fn position(self) -> u32 {
        match self.0 {
            Some(Line::Frame { tail, .. }) => u32::from(tail),
            _ => 0,
        }
    }

    // A frame with WP# high is noted as folded, so that both notes are put.
    fn noted(self) -> bool {
        matches!(self.0, Some(Line::Frame { wp: true, .. }))
    }

    // The bytes of a frame's line, at the start of bytes; none of any other.
    fn driven<'a>(self, text: &[u8], bytes: &'a mut [u8]) -> &'a [u8] {
        match self.0 {
            Some(Line::Frame { .. }) => {
                let n = script::frame_bytes(text, bytes);
                &bytes[..n]
            }
            _ => &[],
        }
    }
}

// Writes the first bytes of a buffer, up to its text's end.
fn flush(rt: &impl Print, out: &[u8], end: usize) {
    if let Some(text) = out.get(..end) {
        let _ = rt.write_all(text);
    }
}

// One line of the script.
fn line_done(rt: &impl Print, number: u64, text: &[u8]) {
    let said = Said(script::read_line(text));
    let mut bytes = [0u8; 300];
    let driven = said.driven(text, &mut bytes);
    let mut out = [0u8; 1024];
    let end = script_log::put_row(
        number,
        said.answer(),
        said.position(),
        driven,
        said.noted(),
        &mut out,
        0,
    );
    flush(rt, &out, end);
    let _ = println!(rt; "{said}");
}

// What goes on from block to block: the number of the next line, and how many bytes of it are held.
#[derive(Clone, Copy)]
struct Run {
    number: u64,
    used: usize,
}

// The lines of a block.
fn feed(rt: &impl Print, run: Run, block: &[u8], held: &mut [u8]) -> Run {
    let mut number = run.number;
    let mut used = run.used;
    let mut at = 0;
    // No iterator: how far a turn goes is what the cut says.
    while at < block.len() {
        match lines::cut_line(held, used, block, at) {
            Cut::Here { end } => {
                line_done(rt, number, &block[at..end]);
                number = number.wrapping_add(1);
                used = 0;
                at = end + 1;
            }
            Cut::Joined { used: n, end } => {
                if let Some(line) = held.get(..n) {
                    line_done(rt, number, line);
                }
                number = number.wrapping_add(1);
                used = 0;
                at = end + 1;
            }
            Cut::Open { used: n } => {
                used = n;
                at = block.len();
            }
        }
    }
    Run { number, used }
}

// Reads a block and does its lines; None where the input has ended.
fn read_block(
    rt: &impl Print,
    input: &mut impl Read,
    run: Run,
    block: &mut [u8],
    held: &mut [u8],
) -> Option<Run> {
    match input.read(block) {
        Ok(n) if n > 0 => Some(feed(rt, run, &block[..n], held)),
        _ => None,
    }
}

// The last line may lack its newline.
fn finish(rt: &impl Print, run: Run, held: &[u8]) {
    if run.used > 0 {
        if let Some(line) = held.get(..run.used) {
            line_done(rt, run.number, line);
        }
    }
}

// Block after block.
fn run_all(rt: &impl Print, input: &mut impl Read, block: &mut [u8], held: &mut [u8]) {
    let mut run = Run { number: 1, used: 0 };
    for _ in 0..u64::MAX {
        let Some(next) = read_block(rt, input, run, block, held) else {
            break;
        };
        run = next;
    }
    finish(rt, run, held);
}

fn main(rt: HostRuntime) {
    let mut top = [0u8; 64];
    let end = script_log::put_header(&mut top, 0);
    flush(&rt, &top, end);
    let mut block = [0u8; 97];
    let mut held = [0u8; 641];
    run_all(&rt, &mut rt.stdin(), &mut block, &mut held);
}
