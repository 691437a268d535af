// The array of a chip, which the caller lends: erase a unit, program a page, read from an address, and the page of an address. Nothing here
// knows a command.
#![tactic(auto)]

ghost use Rattle.std.specs.Prelude.{◌≡◌, ◌+◌, ◌≤◌, ◌<◌, length};
ghost use Rattle.units.specs.Kinds.{page_start, page_offset};
ghost use Rattle.cells.specs.Cell.{erased};
ghost use Rattle.parts.specs.Parts.{lay};
ghost use Rattle.rings.specs.Ring.{ring};
ghost use Rattle.fold.specs.Fold.{folds};
ghost use Rattle.flash.specs.Arrays.{all_erased, programmed, page_torn, page_of};

use units::{Address, EraseUnit};

// Erases the unit: only its bytes are passed to the fill.
#[tactic(auto, using(parts::proofs::Lay::put_back))]
pub fn erase<U: EraseUnit>(array: &mut [u8], unit: U)
    requires { (U.start unit < 4294967296) × (U.start unit + U.SIZE ≤ length array.old) }
    ensures { array.new ≡ lay array.old (U.start unit) (erased U.SIZE) }
{
    let start = unit.first_address().0 as usize;
    array[start..start + U::SIZE as usize].fill(0xFF);
}

// Erases every cell.
#[tactic(auto, unfolding(crate::specs::Arrays::all_erased))]
pub fn erase_all(array: &mut [u8])
    ensures { array.new ≡ all_erased array.old }
{
    array.fill(0xFF);
}

// Programs the bytes sent into the page that holds the address, and says whether they folded: only that page is passed on.
pub fn program(array: &mut [u8], a: Address, sent: &[u8]) -> bool
    requires { page_start a + 256 ≤ length array.old }
    ensures { (array.new ≡ programmed array.old a sent.now) × (result ≡ folds (page_offset a) (length sent.now)) }
{
    let start = a.page_start().0 as usize;
    fold::program_page(&mut array[start..start + 256], a.page_offset(), sent)
}

// What a cut leaves of the page that holds the address, while its data bytes were programmed into it: only that page is passed on.
pub fn tear_page(array: &mut [u8], a: Address, bytes: &[u8], pattern: &[u8])
    requires { (page_start a + 256 ≤ length array.old) × (length bytes.now ≡ 256) × (length pattern.now ≡ 256) }
    ensures { array.new ≡ page_torn array.old a bytes.now pattern.now }
{
    let start = a.page_start().0 as usize;
    cells::tear_into(&mut array[start..start + 256], bytes, pattern);
}

// The cells from an address on become the bytes left in them.
#[tactic(auto, using(parts::proofs::Lay::put_back))]
pub fn leave(array: &mut [u8], from: Address, bytes: &[u8])
    requires { from.0 + length bytes.now ≤ length array.old }
    ensures { array.new ≡ lay array.old from.0 bytes.now }
{
    let start = from.0 as usize;
    parts::copy(&mut array[start..start + bytes.len()], bytes);
}

// Fills out with the cells from the address on, and after the last address with those from 0 on.
pub fn read(array: &[u8], a: Address, out: &mut [u8])
    requires { a.0 < length array.now }
    ensures { out.new ≡ ring array.now a.0 (length out.old) }
{
    rings::read_ring(array, a.0 as usize, out);
}

// The page that the address falls in, modulo the array's length, as that part of the array itself; an empty part where no model's array is so long.
pub fn page_view(array: &[u8], a: Address) -> &[u8]
    ensures { result.now ≡ page_of array.now a }
{
    let size = array.len();
    if models::is_length(size) {
        let here = Address(a.0 % size as u32);
        let start = here.page_start().0 as usize;
        return &array[start..start + 256];
    }
    &array[0..0]
}
