// The wear table: one count of erases a sector, which the caller lends. An erase raises those of the sectors that it covers; a report sums it up.
#![tactic(auto)]

ghost use Rattle.std.specs.Prelude.{◌≡◌, false, ◌+◌, ◌*◌, ◌≤◌, ◌<◌, length};
ghost use Rattle.counts.specs.Counts.{sectors, covered, at_top, raised, InTable, with_one, sums_of, report_of};
ghost use Rattle.counts.specs.ContractForms.{Counting};

use answers::Refusal;
use commands::Operation;
use units::{Address, Sector};

// A run of sectors: the first, and how many.
#[derive(Clone, Copy)]
pub struct Sectors {
    pub first: Sector,
    pub count: usize,
}

fn run(first: Sector, count: usize) -> Sectors
    ensures { result ≡ sectors first count }
{
    Sectors { first, count }
}

// The sectors that an operation at that address covers, in a table of n counts.
#[tactic(auto, unfolding(crate::specs::Counts::covered))]
fn sectors_of(op: Option<Operation>, at: Address, n: usize) -> Sectors
    ensures { result ≡ covered op at n }
{
    match op {
        Some(Operation::ErasesSector) => run(at.in_sector(), 1),
        Some(Operation::ErasesHalf) => run(at.in_half_block().first_sector(), 8),
        Some(Operation::ErasesBlock) => run(at.in_block().first_sector(), 16),
        Some(Operation::ErasesChip) => run(Sector(0), n),
        _ => run(Sector(0), 0),
    }
}

// Whether some count would pass the highest one. All are looked at, since a loop that can stop early takes them one by one.
fn at_top(counts: &[u32]) -> bool
    ensures { result ≡ at_top counts.now }
{
    let mut top = false;
    for count in counts {
        top = top | (4294967295 <= *count);
    }
    top
}

// Every count is one more.
fn raise(counts: &mut [u32])
    requires { at_top counts.old ≡ false }
    ensures { counts.new ≡ raised counts.old }
{
    for count in counts.iter_mut() {
        *count += 1;
    }
}

// Counts an erase, unless a count would pass the highest one: whether it did. Only the counts of the covered sectors are passed on.
pub fn count(wear: &mut [u32], op: Option<Operation>, at: Address) -> bool
    requires { InTable op at wear.old }
    ensures { Counting op at wear.old result wear.new }
{
    let unit = sectors_of(op, at, wear.len());
    let start = unit.first;
    let first = start.0 as usize;
    let end = first + unit.count;
    if at_top(&wear[first..end]) {
        return false;
    }
    raise(&mut wear[first..end]);
    true
}

// ---- the report

// What is known of a table: the sum of its counts, the smallest, and the largest with the first sector that has it.
#[derive(Clone, Copy)]
pub struct Sums {
    pub total: u64,
    pub smallest: u32,
    pub largest: u32,
    pub sector: Sector,
}

// One count more, that of the sector at: it is named only where its count is larger than all before it.
fn with_one(s: Sums, count: u32, at: Sector) -> Sums
    requires { s.total + count ≤ 18446744073709551615 }
    ensures { result ≡ with_one s count at }
{
    let sums = Sums {
        total: s.total + u64::from(count),
        smallest: s.smallest.min(count),
        ..s
    };
    if s.largest < count {
        Sums {
            largest: count,
            sector: at,
            ..sums
        }
    } else {
        sums
    }
}

// All counts, in one pass.
#[tactic(auto, using(crate::proofs::Pass::seen_all))]
fn sum_up(wear: &[u32]) -> Sums
    requires { (0 < length wear.now) × (length wear.now ≤ 4096) }
    ensures { (result ≡ sums_of wear.now) × (result.total ≤ length wear.now * 4294967295) }
{
    let first = wear[0];
    let mut s = Sums {
        total: 0,
        smallest: first,
        largest: first,
        sector: Sector(0),
    };
    for (k, count) in wear.iter().enumerate() {
        s = with_one(s, *count, Sector(k as u32));
    }
    s
}

// What the wear sheet says of a table: total, smallest, largest with its first sector, and the mean as a quotient and a remainder.
#[derive(Clone, Copy)]
pub struct Figures {
    pub total: u64,
    pub smallest: u32,
    pub largest: u32,
    pub sector: Sector,
    pub mean: u32,
    pub remainder: u32,
}

// The report on any table: refused where no chip has that many sectors.
#[tactic(auto, unfolding(crate::specs::Counts::report_of))]
pub fn report(wear: &[u32]) -> Result<Figures, Refusal>
    ensures { result ≡ report_of wear.now }
{
    let n = wear.len();
    if !models::is_sectors(n) {
        return Err(Refusal::BadTable);
    }
    let s = sum_up(wear);
    let sectors = n as u64;
    Ok(Figures {
        total: s.total,
        smallest: s.smallest,
        largest: s.largest,
        sector: s.sector,
        mean: (s.total / sectors) as u32,
        remainder: (s.total % sectors) as u32,
    })
}
