// Lines cut out of an input that comes in blocks. A line that lies whole in its block is read where it is; what a block's end leaves of a
// line is held in a lent buffer, as far as it has room. With room for 641 bytes that is enough to know a line over 640 bytes for one,
// however long it is.
#![tactic(auto)]

ghost use Rattle.std.specs.Prelude.{◌≡◌, ◌==◌, position};
ghost use Rattle.text.specs.Text.{newline};
ghost use Rattle.lines.specs.Cutting.{end_of, held_with, used_of, Cuts};

// What stands in a block from a place on.
#[derive(Clone, Copy)]
pub enum Cut {
    // a whole line, up to the newline at `end`
    Here { end: usize },
    // the end of the line that is held: its first `used` bytes in the lent buffer, and the newline at `end`
    Joined { used: usize, end: usize },
    // no newline: `used` bytes of the line are held
    Open { used: usize },
}

// The place of the first newline.
fn newline_in(part: &[u8]) -> Option<usize>
    ensures { result ≡ position (λ b. b == newline) part.now }
{
    part.iter().position(|b| *b == b'\n')
}

// The place of the first newline from `at` on, or the block's length.
#[tactic(auto, using(crate::proofs::Laws::end_out))]
pub fn line_end(block: &[u8], at: usize) -> usize
    ensures { result ≡ end_of block.now at }
{
    if block.len() <= at {
        return at;
    }
    match newline_in(&block[at..]) {
        Some(n) => at + n,
        None => block.len(),
    }
}

// Holds part behind the first `used` bytes of held, as far as there is room; and how many bytes are held then.
fn keep(held: &mut [u8], used: usize, part: &[u8]) -> usize
    ensures { (result ≡ used_of held.old used part.now) × (held.new ≡ held_with held.old used part.now) }
{
    if held.len() <= used {
        return used;
    }
    let n = (held.len() - used).min(part.len());
    parts::copy(&mut held[used..used + n], &part[..n]);
    used + n
}

// Cuts the line that goes on at `at`; `used` bytes of it are held from the blocks before.
pub fn cut_line(held: &mut [u8], used: usize, block: &[u8], at: usize) -> Cut
    ensures { Cuts held.old used block.now at result held.new }
{
    if block.len() <= at {
        return Cut::Open { used };
    }
    let end = line_end(block, at);
    if (end < block.len()) & (used == 0) {
        return Cut::Here { end };
    }
    let n = keep(held, used, &block[at..end]);
    if end < block.len() {
        return Cut::Joined { used: n, end };
    }
    Cut::Open { used: n }
}
