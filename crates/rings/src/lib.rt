// Bytes read round and round: reads that go on at the first address after the last, and patterns over and over.
#![tactic(auto)]

ghost use Rattle.std.specs.Prelude.{◌≡◌, ◌%◌, ◌≤◌, ◌<◌, length};
ghost use Rattle.rings.specs.Ring.{ring};

// Fills out with the bytes of src from an index on, and after its last with those from its first on: straight runs to the end of src, and a last one.
#[tactic(auto, using(crate::proofs::Runs::read_last))]
pub fn read_ring(src: &[u8], first: usize, out: &mut [u8])
    requires { first < length src.now }
    ensures { out.new ≡ ring src.now first (length out.old) }
{
    // An index: of a slice lent piece by piece (`split_at_mut`, `chunks_mut`) a proof would know only the length.
    let mut run = &src[first..];
    let mut done = 0;
    while run.len() < out.len() - done {
        let next = done + run.len();
        parts::copy(&mut out[done..next], run);
        done = next;
        run = src;
    }
    let last = out.len() - done;
    parts::copy(&mut out[done..], &run[..last]);
}

// Fills out with the pattern over and over. A long one is read out of a block of 24 bytes, which 1, 2 and 3 divide.
#[tactic(auto, using(crate::proofs::Runs::block_read))]
pub fn repeat(out: &mut [u8], pattern: &[u8])
    requires { (0 < length pattern.now) × (length pattern.now ≤ 3) }
    ensures { out.new ≡ ring pattern.now 0 (length out.old) }
{
    if out.len() <= 24 {
        step_through(out, pattern);
    } else {
        let mut block = [0u8; 24];
        step_through(&mut block, pattern);
        read_ring(&block, 0, out);
    }
}

// Every byte of out becomes the pattern's next, over and over.
fn step_through(out: &mut [u8], pattern: &[u8])
    requires { 0 < length pattern.now }
    ensures { out.new ≡ ring pattern.now 0 (length out.old) }
{
    // A place that steps: `%` would be a division a byte.
    let mut k = 0;
    for byte in out.iter_mut() {
        *byte = pattern[k];
        k = wrap(k + 1, pattern.len());
    }
}

// k, which is at most n, modulo n.
fn wrap(k: usize, n: usize) -> usize
    requires { (0 < n) × (k ≤ n) }
    ensures { result ≡ k % n }
{
    if k < n { k } else { 0 }
}
