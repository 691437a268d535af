// What an operation does to cells and kept bits once its time has run out, and what a cut of the power leaves of it.
#![tactic(auto)]

ghost use Rattle.std.specs.Prelude.{◌≡◌, true, ◌≤◌, length};
ghost use Rattle.models.specs.Models.{model_of};
ghost use Rattle.states.specs.States.{place_ok, chip_of};
ghost use Rattle.operations.specs.Operations.{forgotten, finished, torn_chip, finished_cells, config_written, config_after, keeping, written, finished_bits, runs, pattern_length, cut_cells, torn_bits, cut_bits, bits_of};
ghost use Rattle.operations.specs.ContractForms.{Operable, Left, BpFits};

use commands::Operation;
use states::State;
use units::{Address, EraseUnit};

// ---- it has finished

// The cells after it.
fn finish_cells(model: u32, op: Option<Operation>, at: Address, page: &[u8], array: &mut [u8])
    requires { (length array.old ≡ (model_of model).length) × (place_ok model op at.0 ≡ true) × (length page.now ≡ 256) }
    ensures { array.new ≡ finished_cells op at page.now array.old }
{
    match op {
        None | Some(Operation::WritesStatus) => {}
        Some(Operation::Programs) => {
            flash::program(array, at.page_start(), page);
        }
        Some(Operation::ErasesSector) => flash::erase(array, at.in_sector()),
        Some(Operation::ErasesHalf) => flash::erase(array, at.in_half_block()),
        Some(Operation::ErasesBlock) => flash::erase(array, at.in_block()),
        Some(Operation::ErasesChip) => flash::erase_all(array),
    }
}

// The configuration register after a second data byte.
#[tactic(auto, unfolding(crate::specs::Operations::config_written))]
fn config_written(old: u8, byte: u8) -> u8
    ensures { result ≡ config_written old byte }
{
    let tb = (old / 8 % 2 == 1) | (byte / 8 % 2 == 1);
    byte / 64 * 64 + (states::flag(byte / 16 % 2 == 1, 16) + (states::flag(tb, 8) + byte % 4))
}

// The configuration register after a status write: without a second data byte, and on a model without the register, it stays.
#[tactic(auto, unfolding(crate::specs::Operations::config_after))]
fn config_after(model: u32, st: State, page: &[u8]) -> u8
    ensures { result ≡ config_after model st page.now }
{
    let row = models::model_of(model);
    if row.register & (st.address == 2) {
        return config_written(st.config, parts::byte_at(page, 1));
    }
    st.config
}

fn keep(st: State, srwd: bool, bp: u8, config: u8) -> State
    ensures { result ≡ keeping st srwd bp config }
{
    State {
        srwd,
        bp,
        config,
        ..st
    }
}

// A status write's data bytes are written.
#[tactic(auto, unfolding(crate::specs::Operations::written))]
fn write(model: u32, st: State, page: &[u8]) -> State
    ensures { result ≡ written model st page.now }
{
    let row = models::model_of(model);
    let byte = parts::byte_at(page, 0);
    keep(
        st,
        128 <= byte,
        byte / 4 % (row.highest_bp + 1),
        config_after(model, st, page),
    )
}

// The kept bits after it.
fn finish_bits(model: u32, op: Option<Operation>, st: State, page: &[u8]) -> State
    ensures { result ≡ finished_bits model op st page.now }
{
    if op == Some(Operation::WritesStatus) {
        return write(model, st, page);
    }
    st
}

// The operation is forgotten, and WEL clears.
#[tactic(auto, unfolding(crate::specs::Operations::forgotten))]
fn forget(st: State) -> State
    ensures { result ≡ forgotten st }
{
    State {
        wel: false,
        busy: 0,
        command: 0xFF,
        address: 0xFFFFFF,
        ..st
    }
}

// The time of the operation that runs, op, has run out: its cells and kept bits change, and it is forgotten.
#[tactic(auto, unfolding(crate::specs::Operations::finished))]
pub fn finish(
    model: u32,
    op: Option<Operation>,
    st: State,
    page: &mut [u8],
    array: &mut [u8],
) -> State
    requires { (op ≡ runs model st) × Operable model st page.old array.old }
    ensures { Left (finished model (chip_of st page.old array.old)) result page.new array.new }
{
    finish_cells(model, op, Address(st.address), page, array);
    let kept = finish_bits(model, op, st, page);
    page.fill(0xFF);
    forget(kept)
}

// ---- the power was cut

// How many pattern bytes there have to be, of an array of n cells.
pub fn pattern_length(op: Option<Operation>, count: u32, n: usize) -> usize
    ensures { result ≡ pattern_length op count n }
{
    match op {
        None => 0,
        Some(Operation::WritesStatus) => count as usize,
        Some(Operation::Programs) => 256,
        Some(Operation::ErasesSector) => 4096,
        Some(Operation::ErasesHalf) => 32768,
        Some(Operation::ErasesBlock) => 65536,
        Some(Operation::ErasesChip) => n,
    }
}

// The cells that it leaves.
fn cut_cells(
    model: u32,
    op: Option<Operation>,
    at: Address,
    page: &[u8],
    pattern: &[u8],
    array: &mut [u8],
)
    requires { (length array.old ≡ (model_of model).length) × (place_ok model op at.0 ≡ true) × (length page.now ≡ 256) × (length pattern.now ≡ pattern_length op at.0 (length array.old)) }
    ensures { array.new ≡ cut_cells op at page.now pattern.now array.old }
{
    match op {
        None | Some(Operation::WritesStatus) => {}
        Some(Operation::Programs) => flash::tear_page(array, at, page, pattern),
        Some(Operation::ErasesSector) => {
            flash::leave(array, at.in_sector().first_address(), pattern);
        }
        Some(Operation::ErasesHalf) => {
            flash::leave(array, at.in_half_block().first_address(), pattern);
        }
        Some(Operation::ErasesBlock) => {
            flash::leave(array, at.in_block().first_address(), pattern);
        }
        Some(Operation::ErasesChip) => flash::leave(array, Address(0), pattern),
    }
}

// SRWD and BP at their places in the status byte.
fn bits_of(st: State) -> u8
    requires { st.bp ≤ 15 }
    ensures { result ≡ bits_of st }
{
    states::flag(st.srwd, 128) + 4 * st.bp
}

// What is left of a status write.
#[tactic(auto, unfolding(crate::specs::Operations::torn_bits))]
fn tear_bits(model: u32, st: State, page: &[u8], pattern: &[u8]) -> State
    requires { BpFits model st }
    ensures { result ≡ torn_bits model st page.now pattern.now }
{
    let row = models::model_of(model);
    let new = write(model, st, page);
    let left = cells::torn(bits_of(st), bits_of(new), parts::byte_at(pattern, 0));
    let config = cells::torn(st.config, new.config, parts::byte_at(pattern, 1));
    keep(st, 128 <= left, left / 4 % (row.highest_bp + 1), config)
}

// The kept bits that it leaves.
fn cut_bits(model: u32, op: Option<Operation>, st: State, page: &[u8], pattern: &[u8]) -> State
    requires { BpFits model st }
    ensures { result ≡ cut_bits model op st page.now pattern.now }
{
    if op == Some(Operation::WritesStatus) {
        return tear_bits(model, st, page, pattern);
    }
    st
}

// The power is cut while op runs: the unit or the kept bits have what the pattern leaves, and no page data are left.
#[tactic(auto, unfolding(crate::specs::Operations::torn_chip))]
pub fn tear(
    model: u32,
    op: Option<Operation>,
    st: State,
    page: &mut [u8],
    array: &mut [u8],
    pattern: &[u8],
) -> State
    requires { (op ≡ runs model st) × (Operable model st page.old array.old) × (BpFits model st) × (length pattern.now ≡ pattern_length (runs model st) st.address (length array.old)) }
    ensures { Left (torn_chip model (chip_of st page.old array.old) pattern.now) result page.new array.new }
{
    cut_cells(model, op, Address(st.address), page, pattern, array);
    let kept = cut_bits(model, op, st, page, pattern);
    page.fill(0xFF);
    kept
}
