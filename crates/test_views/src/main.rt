// The page view of arrays of models 1 and 2 and of none (an array of model 3 is too long for a stack): a row for each length and address, with how many cells the view has and what they hold.
// Cell i holds i, plus 3 for each page before it and 7 for each block, modulo 256.
#![tactic(auto)]

use text::Sheet;
use units::Address;

// The arrays of models 1 and 2, and lengths that no model has.
const LENGTHS: [usize; 8] = [65536, 262144, 0, 1, 256, 65535, 65537, 131072];

// The first page, one in the middle and the last of each model, and addresses beyond the array.
const ADDRESSES: [u32; 14] = [
    0x000000, 0x0000FF, 0x000100, 0x008080, 0x00FF00, 0x00FFFF, 0x010000, 0x020180, 0x03FF00,
    0x03FFFF, 0x040000, 0x05ABCD, 0xFFFFFF, 0xFFFFFFFF,
];

// The cells in two hex digits each, written at once; a view has at most 256.
fn say_cells(rt: &impl Print, cells: &[u8]) {
    let mut digits = [0u8; 512];
    if cells.len() <= 256 {
        let mut sheet = Sheet::new(&mut digits, 0);
        sheet.hex(cells);
        let end = sheet.end();
        if let Some(text) = digits.get(..end) {
            let _ = rt.write_all(text);
        }
    }
}

// An address in six hex digits or more.
fn say_view(rt: &impl Print, array: &[u8], address: u32) {
    let page = flash::page_view(array, Address(address));
    let (length, view) = (array.len(), page.len());
    let _ = print!(rt; "{length}\t{address:06x}\t{view}\t");
    say_cells(rt, page);
    let _ = println!(rt; "");
}

// The views of one array.
fn say_views(rt: &impl Print, array: &[u8]) {
    for address in ADDRESSES {
        say_view(rt, array, address);
    }
}

// An array of each length: the first cells of a larger one.
fn say_lengths(rt: &impl Print, cells: &[u8]) {
    for length in LENGTHS {
        if let Some(array) = cells.get(..length) {
            say_views(rt, array);
        }
    }
}

fn cell_of(i: usize) -> u8 {
    let sum = i % 256 + 3 * (i / 256 % 256) + 7 * (i / 65536 % 256);
    (sum % 256) as u8
}

fn number_cells(cells: &mut [u8]) {
    for (i, cell) in cells.iter_mut().enumerate() {
        *cell = cell_of(i);
    }
}

fn main(rt: HostRuntime) {
    let mut cells = [0u8; 262144];
    number_cells(&mut cells);
    let _ = println!(rt; "length\taddress\tcells\tview");
    say_lengths(&rt, &cells);
}
