// The models as rows, what is read off a row, and the protected ranges.
#![tactic(auto)]

ghost use Rattle.std.specs.Prelude.{◌≡◌};
ghost use Rattle.models.specs.Models.{is_model, is_length, is_sectors, model_of, address_of, range_of, is_protected};

use units::{Address, Block};

// A model's row: the array's length in bytes, sectors, half blocks and blocks; the highest BP; whether it has the configuration register and the
// erase of a half block, and whether WEL falls when a unit is protected; the three identification bytes and the signature.
#[derive(Clone, Copy, PartialEq, Eq)]
pub struct Model {
    pub length: u32,
    pub sectors: u32,
    pub half_blocks: u32,
    pub blocks: u32,
    pub highest_bp: u8,
    pub register: bool,
    pub half_erase: bool,
    pub latch_falls: bool,
    pub maker: u8,
    pub family: u8,
    pub density: u8,
    pub signature: u8,
}

// Protected blocks: the first, and how many.
#[derive(Clone, Copy, PartialEq, Eq)]
pub struct Range(pub Block, pub u32);

// The models' rows.
const KH25L512: Model = Model {
    length: 65536,
    sectors: 16,
    half_blocks: 2,
    blocks: 1,
    highest_bp: 3,
    register: false,
    half_erase: false,
    latch_falls: false,
    maker: 0xC2,
    family: 0x20,
    density: 0x10,
    signature: 0x05,
};

const KH25L2006E: Model = Model {
    length: 262144,
    sectors: 64,
    half_blocks: 8,
    blocks: 4,
    highest_bp: 3,
    register: false,
    half_erase: false,
    latch_falls: false,
    maker: 0xC2,
    family: 0x20,
    density: 0x12,
    signature: 0x11,
};

const KH25L12845G: Model = Model {
    length: 16777216,
    sectors: 4096,
    half_blocks: 512,
    blocks: 256,
    highest_bp: 15,
    register: true,
    half_erase: true,
    latch_falls: true,
    maker: 0xC2,
    family: 0x20,
    density: 0x18,
    signature: 0x17,
};

// Whether a model has that number.
pub fn is_model(number: u32) -> bool
    ensures { result ≡ is_model number }
{
    (number == 1) | ((number == 2) | (number == 3))
}

// Whether some model's array is that long.
pub fn is_length(bytes: usize) -> bool
    ensures { result ≡ is_length bytes }
{
    (bytes == 65536) | ((bytes == 262144) | (bytes == 16777216))
}

// Whether a model has that many sectors.
pub fn is_sectors(n: usize) -> bool
    ensures { result ≡ is_sectors n }
{
    (n == 16) | ((n == 64) | (n == 4096))
}

// The row of the model of that number; of a number that no model has, the first row.
pub fn model_of(number: u32) -> Model
    ensures { result ≡ model_of number }
{
    match number {
        2 => KH25L2006E,
        3 => KH25L12845G,
        _ => KH25L512,
    }
}

// The address of three bytes, high byte first, modulo the array's length.
pub fn address_of(number: u32, high: u8, middle: u8, low: u8) -> Address
    ensures { result ≡ address_of number high middle low }
{
    let row = model_of(number);
    Address((u32::from(high) * 65536 + (u32::from(middle) * 256 + u32::from(low))) % row.length)
}

// The protected range of a model at a BP, at the top of the array or at its bottom; of a BP that it does not have, and at the bottom of a model without
// the register, none. BP 1 protects one block, and each BP more twice as many, as far as the chip has them.
pub fn range_of(number: u32, bottom: bool, bp: u8) -> Range
    ensures { result ≡ range_of number bottom bp }
{
    let row = model_of(number);
    if (row.highest_bp < bp) | (bottom & !row.register) {
        return Range(Block(0), 0);
    }
    let most = (1 << bp as u32) / 2;
    if row.blocks <= most {
        return Range(Block(0), row.blocks);
    }
    if bottom {
        return Range(Block(0), most);
    }
    Range(Block(row.blocks - most), most)
}

// Whether the block is in the protected range.
pub fn is_protected(number: u32, bottom: bool, bp: u8, block: Block) -> bool
    ensures { result ≡ is_protected number bottom bp block }
{
    let range = range_of(number, bottom, bp);
    let first = range.0;
    (first.0 <= block.0) & (block.0 < first.0 + range.1)
}
