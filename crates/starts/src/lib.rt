// The commands that start an operation with page data: the data bytes go into the page data, and no cell changes yet.
#![tactic(auto)]

ghost use Rattle.std.specs.Prelude.{◌≡◌, ◌+◌, ◌≤◌, length, drop};
ghost use Rattle.units.specs.Kinds.{page_start, page_offset};
ghost use Rattle.parts.specs.Parts.{part};
ghost use Rattle.fold.specs.Strict.{over_old};
ghost use Rattle.commands.specs.declared.Operation.TheVariants.{Programs};
ghost use Rattle.effects.specs.Effects.{write_status, program_page, goes_over};
ghost use Rattle.effects.specs.ContractForms.{Starts};

use commands::Operation;
use effects::Reply;
use states::{Record, State};
use units::Address;

// 01: its data bytes, from position 1, are kept from offset 0 on.
pub fn write_status(rec: Record, st: State, page: &mut [u8], bytes: &[u8]) -> Reply
    requires { (length page.old ≡ 256) × (2 ≤ length bytes.now) × (length bytes.now ≤ 3) }
    ensures { Starts (write_status rec st page.old bytes.now) result page.new }
{
    let n = bytes.len() - 1;
    parts::copy(&mut page[..n], &bytes[1..]);
    let time = states::operation_time(rec, Some(Operation::WritesStatus));
    effects::quiet(
        Ok(()),
        effects::start(st, parts::byte_at(bytes, 0), n as u32, time),
    )
}

// 02: the data bytes, from position 4, are handed on to the fold.
pub fn program_page(rec: Record, st: State, page: &mut [u8], at: Address, bytes: &[u8]) -> Reply
    requires { (length page.old ≡ 256) × (5 ≤ length bytes.now) }
    ensures { Starts (program_page rec st page.old at bytes.now) result page.new }
{
    let fold = fold::program_page(page, at.page_offset(), &bytes[4..]);
    let time = states::operation_time(rec, Some(Operation::Programs));
    let command = parts::byte_at(bytes, 0);
    effects::taken(effects::start(st, command, at.0, time), fold)
}

// Whether the strict setting refuses an operation: a program, where a cell of the addressed page would not end up holding the byte that counts for it.
// Only that page is looked at, and only with the setting on.
pub fn is_over(op: Option<Operation>, strict: bool, array: &[u8], at: Address, bytes: &[u8]) -> bool
    requires { (op ≡ Some Programs → 5 ≤ length bytes.now) × (page_start at + 256 ≤ length array.now) }
    ensures { result ≡ goes_over op strict at array.now bytes.now }
{
    if !strict {
        return false;
    }
    if op == Some(Operation::Programs) {
        return page_over(array, at, bytes);
    }
    false
}

// Whether some cell of the addressed page would not end up holding the byte that counts for it.
fn page_over(array: &[u8], at: Address, bytes: &[u8]) -> bool
    requires { (5 ≤ length bytes.now) × (page_start at + 256 ≤ length array.now) }
    ensures { result ≡ over_old (page_offset at) (drop 4 bytes.now) (part array.now (page_start at) 256) }
{
    let start = at.page_start().0 as usize;
    fold::over_old(&array[start..start + 256], at.page_offset(), &bytes[4..])
}
