// The cells of a flash array, whatever chip they are in: a program can only clear bits.
#![tactic(auto)]

ghost use Rattle.std.specs.Prelude.{◌≡◌, length};
ghost use Rattle.cells.specs.Cell.{all_hold, anded, torn as Cell·torn, torn_cells};

// Clears in each cell the bits that are clear in the byte at its index. There are as many bytes as cells.
pub fn and_into(cells: &mut [u8], bytes: &[u8])
    requires { length cells.old ≡ length bytes.now }
    ensures { cells.new ≡ anded bytes.now cells.old }
{
    // No `zip`: after one over `iter_mut` a proof would know only the length.
    for (k, cell) in cells.iter_mut().enumerate() {
        *cell &= bytes[k];
    }
}

// Whether each cell, with the byte at its index programmed into it, would hold that byte. Nothing is changed; all are looked at, whatever comes. There are
// as many bytes as cells.
pub fn holds(cells: &[u8], bytes: &[u8]) -> bool
    requires { length cells.now ≡ length bytes.now }
    ensures { result ≡ all_hold bytes.now cells.now }
{
    let mut missing: u8 = 0;
    for (k, cell) in cells.iter().enumerate() {
        missing |= (*cell & bytes[k]) ^ bytes[k];
    }
    missing == 0
}

// A byte on its way from old to new when the power was cut.
pub fn torn(old: u8, new: u8, pattern: u8) -> u8
    ensures { result ≡ Cell·torn old new pattern }
{
    (pattern & (old ^ new)) | (old & new)
}

// What a cut leaves of cells while the bytes were programmed into them: each bit that was to change takes its pattern bit. There are as many bytes and
// pattern bytes as cells.
pub fn tear_into(cells: &mut [u8], bytes: &[u8], pattern: &[u8])
    requires { (length cells.old ≡ length bytes.now) × (length cells.old ≡ length pattern.now) }
    ensures { cells.new ≡ torn_cells bytes.now pattern.now cells.old }
{
    for (k, cell) in cells.iter_mut().enumerate() {
        *cell = torn(*cell, *cell & bytes[k], pattern[k]);
    }
}
