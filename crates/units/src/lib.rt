// The numbers of the sheets as kinds of their own: addresses, sectors, half blocks and blocks, and addresses of the SFDP table.
#![tactic(auto)]

ghost use Rattle.std.specs.Prelude.{◌≡◌, ◌<◌, ℕ};
ghost use Rattle.units.specs.Kinds.{sector_of, half_block_of, block_of, page_start, page_offset, block_of_sector, block_of_half, first_of_half, first_of_block, sector_start, half_block_start, block_start, sfdp_address};

// A byte address, the numbers of a sector, of a half block of 32 KiB and of a block, and an address of the SFDP table: five kinds, so that none passes for another.
#[derive(Clone, Copy, PartialEq, Eq)]
pub struct Address(pub u32);

#[derive(Clone, Copy, PartialEq, Eq)]
pub struct Sector(pub u32);

#[derive(Clone, Copy, PartialEq, Eq)]
pub struct HalfBlock(pub u32);

#[derive(Clone, Copy, PartialEq, Eq)]
pub struct Block(pub u32);

#[derive(Clone, Copy, PartialEq, Eq)]
pub struct SfdpAddress(pub u32);

// What an erase makes FF: so many bytes, from its first address on.
pub trait EraseUnit: Copy {
    ghost SIZE: { ℕ };

    const SIZE: u32;

    ghost start: { Self → ℕ };

    // The unit's number is one of a 32-bit address.
    fn first_address(self) -> Address
        requires { start self < 4294967296 }
        ensures { result.0 ≡ start self };
}

impl Address {
    // Three methods, and no `From`: a call says which unit it means.
    // The sector that holds the address.
    pub fn in_sector(self) -> Sector
        ensures { result ≡ sector_of self }
    {
        Sector(self.0 / 4096)
    }

    // The half block that holds it.
    pub fn in_half_block(self) -> HalfBlock
        ensures { result ≡ half_block_of self }
    {
        HalfBlock(self.0 / 32768)
    }

    // The block that holds it.
    pub fn in_block(self) -> Block
        ensures { result ≡ block_of self }
    {
        Block(self.0 / 65536)
    }

    // The first address of its page.
    pub fn page_start(self) -> Address
        ensures { result.0 ≡ page_start self }
    {
        Address(self.0 / 256 * 256)
    }

    // Its offset in the page: the low address byte.
    pub fn page_offset(self) -> u8
        ensures { result ≡ page_offset self }
    {
        (self.0 % 256) as u8
    }
}

impl Sector {
    // The block that holds the sector.
    pub fn in_block(self) -> Block
        ensures { result ≡ block_of_sector self }
    {
        Block(self.0 / 16)
    }
}

impl EraseUnit for Sector {
    ghost SIZE = { 4096 };

    const SIZE: u32 = 4096;

    ghost start = { sector_start };

    fn first_address(self) -> Address {
        Address(self.0 * 4096)
    }
}

impl HalfBlock {
    // The block that holds the half block.
    pub fn in_block(self) -> Block
        ensures { result ≡ block_of_half self }
    {
        Block(self.0 / 2)
    }

    // Its first sector.
    pub fn first_sector(self) -> Sector
        requires { self.0 < 131072 }
        ensures { result ≡ first_of_half self }
    {
        Sector(8 * self.0)
    }
}

impl EraseUnit for HalfBlock {
    ghost SIZE = { 32768 };

    const SIZE: u32 = 32768;

    ghost start = { half_block_start };

    fn first_address(self) -> Address {
        Address(self.0 * 32768)
    }
}

impl Block {
    // Its first sector.
    pub fn first_sector(self) -> Sector
        requires { self.0 < 65536 }
        ensures { result ≡ first_of_block self }
    {
        Sector(16 * self.0)
    }
}

impl EraseUnit for Block {
    ghost SIZE = { 65536 };

    const SIZE: u32 = 65536;

    ghost start = { block_start };

    fn first_address(self) -> Address {
        Address(self.0 * 65536)
    }
}

impl SfdpAddress {
    // The address of three bytes, the high byte first, as they were sent.
    pub fn sent(high: u8, middle: u8, low: u8) -> SfdpAddress
        ensures { result ≡ sfdp_address high middle low }
    {
        SfdpAddress(u32::from(high) * 65536 + (u32::from(middle) * 256 + u32::from(low)))
    }
}
