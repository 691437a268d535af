// The SFDP table: a host's reader over any bytes, and the writer. Nothing here knows a chip.
#![tactic(auto)]

ghost use Rattle.std.specs.Prelude.{OnOk, ◌≡◌, ◌∷◌, [], ◌+◌, ◌*◌, ◌≤◌, ◌<◌, ◌^◌, cond, is_some, length, unwrap_or};
ghost use Rattle.parts.specs.Parts.{spelt};
ghost use Rattle.sfdp.specs.Sfdp.{is_signed, headers_of, words_of, pointer_of, is_long, is_out, some_below, table_refusal, density_at, erases_at, contents_of, revision_of, header_of, erase_of, entry, pairs, small_bits, small_opcode, slots, image_of, is_list, table_for, Writes, TakenList};

use answers::{Answer, Refusal};
use units::SfdpAddress;

// What a host reads of the whole: how many parameter headers, the density field, how many erase types.
#[derive(Clone, Copy, Default)]
pub struct Contents {
    pub headers: u32,
    pub density: u32,
    pub types: u32,
}

// The table's revision.
#[derive(Clone, Copy, Default)]
pub struct Version {
    pub minor: u32,
    pub major: u32,
}

// One parameter header: its table's owner, revision, length in double words and start.
#[derive(Clone, Copy, Default)]
pub struct Parameter {
    pub id: u32,
    pub minor: u32,
    pub major: u32,
    pub words: u32,
    pub pointer: u32,
}

// One slot for an erase type.
#[derive(Clone, Copy, Default)]
pub struct Slot {
    pub exponent: u32,
    pub opcode: u32,
}

// ---- the reader

// Whether the bytes begin with the signature.
fn is_signed(bytes: &[u8]) -> bool
    requires { 8 ≤ length bytes.now }
    ensures { result ≡ is_signed bytes.now }
{
    bytes.starts_with(b"SFDP")
}

// How many parameter headers the bytes announce.
fn headers(bytes: &[u8]) -> u32
    requires { 8 ≤ length bytes.now }
    ensures { (result ≡ headers_of bytes.now) × (result ≤ 256) }
{
    u32::from(bytes[6]) + 1
}

// The length of a header's table, in double words.
fn words(bytes: &[u8], i: usize) -> u32
    requires { 16 + 8 * i ≤ length bytes.now }
    ensures { (result ≡ words_of bytes.now i) × (result ≤ 255) }
{
    u32::from(bytes[8 + 8 * i + 3])
}

// Where a header's table starts.
fn pointer(bytes: &[u8], i: usize) -> u32
    requires { 16 + 8 * i ≤ length bytes.now }
    ensures { (result ≡ pointer_of bytes.now i) × (result < 2 ^ 24) }
{
    let at = 8 + 8 * i;
    u32::from_le_bytes([bytes[at + 4], bytes[at + 5], bytes[at + 6], 0])
}

// Whether the table of some header is longer than the bytes.
fn some_long(bytes: &[u8], count: usize) -> bool
    requires { (count ≤ 256) × (8 + 8 * count ≤ length bytes.now) }
    ensures { result ≡ some_below (is_long bytes.now) count }
{
    (0..count).any(
        |i|
            requires { 16 + 8 * i ≤ length bytes.now }
        { bytes.len() < 4 * words(bytes, i) as usize },
    )
}

// Whether it leaves them.
fn some_out(bytes: &[u8], count: usize) -> bool
    requires { (count ≤ 256) × (8 + 8 * count ≤ length bytes.now) }
    ensures { result ≡ some_below (is_out bytes.now) count }
{
    (0..count).any(
        |i|
            requires { 16 + 8 * i ≤ length bytes.now }
        { bytes.len() < (pointer(bytes, i) + 4 * words(bytes, i)) as usize },
    )
}

// 30, 31 or 32, the first that applies to the bytes.
#[tactic(auto, unfolding(crate::specs::Sfdp::table_refusal))]
fn refusal(bytes: &[u8]) -> Answer
    ensures first { result ≡ table_refusal bytes.now }
    ensures inside { OnOk result ((8 + 8 * headers_of bytes.now ≤ length bytes.now) × (pointer_of bytes.now 0 + 36 ≤ length bytes.now)) }
{
    let n = bytes.len();
    if n < 8 || !is_signed(bytes) {
        return Err(Refusal::NoSignature);
    }
    let count = headers(bytes) as usize;
    if n < 8 + 8 * count || words(bytes, 0) < 9 {
        return Err(Refusal::BadHeader);
    }
    // A table that is longer than the bytes leaves them too: where none does, the headers were gone through once.
    if !some_out(bytes, count) {
        return Ok(());
    }
    if some_long(bytes, count) {
        return Err(Refusal::BadHeader);
    }
    Err(Refusal::BadPointer)
}

// The density field of a table that starts there.
fn density_at(bytes: &[u8], start: usize) -> u32
    requires { start + 36 ≤ length bytes.now }
    ensures { result ≡ density_at bytes.now start }
{
    u32::from_le_bytes([
        bytes[start + 4],
        bytes[start + 5],
        bytes[start + 6],
        bytes[start + 7],
    ])
}

// How many erase types the table that starts there has: a slot with an exponent of 0 holds none.
fn types_at(bytes: &[u8], start: usize) -> u32
    requires { start + 36 ≤ length bytes.now }
    ensures { result ≡ length (erases_at bytes.now start) }
{
    u32::from(bytes[start + 28] != 0)
        + u32::from(bytes[start + 30] != 0)
        + u32::from(bytes[start + 32] != 0)
        + u32::from(bytes[start + 34] != 0)
}

// The bytes as a whole.
#[tactic(auto, unfolding(crate::specs::Sfdp::contents_of, crate::specs::Sfdp::entry_of))]
pub fn read(bytes: &[u8]) -> Result<Contents, Refusal>
    ensures { result ≡ contents_of bytes.now }
{
    refusal(bytes)?;
    let start = pointer(bytes, 0) as usize;
    Ok(Contents {
        headers: headers(bytes),
        density: density_at(bytes, start),
        types: types_at(bytes, start),
    })
}

// The revision that they name.
#[tactic(auto, unfolding(crate::specs::Sfdp::revision_of))]
pub fn revision(bytes: &[u8]) -> Result<Version, Refusal>
    ensures { result ≡ revision_of bytes.now }
{
    refusal(bytes)?;
    Ok(Version {
        minor: u32::from(bytes[4]),
        major: u32::from(bytes[5]),
    })
}

// The parameter header of that index, counted from 0, if there is one.
#[tactic(auto, unfolding(crate::specs::Sfdp::header_of))]
pub fn header(bytes: &[u8], index: u32) -> Result<Option<Parameter>, Refusal>
    ensures { result ≡ header_of bytes.now index }
{
    refusal(bytes)?;
    if headers(bytes) <= index {
        return Ok(None);
    }
    let i = index as usize;
    let at = 8 + 8 * i;
    Ok(Some(Parameter {
        id: u32::from(bytes[at]),
        minor: u32::from(bytes[at + 1]),
        major: u32::from(bytes[at + 2]),
        words: words(bytes, i),
        pointer: pointer(bytes, i),
    }))
}

// The erase type in that slot, 1 to 4, as it stands.
#[tactic(auto, unfolding(crate::specs::Sfdp::erase_of))]
pub fn erase(bytes: &[u8], slot: u32) -> Result<Option<Slot>, Refusal>
    ensures { result ≡ erase_of bytes.now slot }
{
    refusal(bytes)?;
    if !(1..=4).contains(&slot) {
        return Ok(None);
    }
    let at = pointer(bytes, 0) as usize + 26 + 2 * slot as usize;
    Ok(Some(Slot {
        exponent: u32::from(bytes[at]),
        opcode: u32::from(bytes[at + 1]),
    }))
}

// ---- the writer

// Whether the numbers are up to four pairs of an exponent, which is not 0, and an opcode, each of which fits a byte.
fn is_list(erases: &[u32]) -> bool
    ensures { result ≡ is_list erases.now }
{
    let (types, rest) = erases.as_chunks::<2>();
    rest.is_empty()
        && types.len() <= 4
        && types
            .iter()
            .all(|t| (1..=255).contains(&t[0]) && t[1] <= 255)
}

// The four slots, 00 FF in those that are not needed.
fn four_slots(erases: &[u32]) -> [u8; 8]
    requires { TakenList erases.now }
    ensures { result ≡ slots 4 (pairs erases.now) }
{
    let mut slots = [0x00, 0xFF, 0x00, 0xFF, 0x00, 0xFF, 0x00, 0xFF];
    for (i, number) in erases.iter().enumerate() {
        slots[i] = *number as u8;
    }
    slots
}

// The opcode that erases 4 KiB, if one of four slots has it.
fn small_opcode(slots: &[u8; 8]) -> Option<u8>
    ensures opcode { unwrap_or result 0xFF ≡ small_opcode (pairs slots.now) }
    ensures bits { cond (is_some result) 1 3 ≡ small_bits (pairs slots.now) }
{
    let (types, _) = slots.as_chunks::<2>();
    types.iter().find(|t| t[0] == 0x0C).map(|t| t[1])
}

// The table of a record that the writer takes, over a page of 112 bytes.
fn lay_page(density: u32, erases: &[u32], page: &mut [u8])
    requires { TakenList erases.now × (length page.old ≡ 112) }
    ensures { page.new ≡ image_of (entry density (pairs erases.now)) }
{
    let slots = four_slots(erases);
    let small = small_opcode(&slots);
    sfdp_image::drive(SfdpAddress(0), page);
    page[0x30] = if small.is_some() { 0xE5 } else { 0xE7 };
    page[0x31] = small.unwrap_or(0xFF);
    page[0x34..0x38].copy_from_slice(&density.to_le_bytes());
    page[0x4C..0x54].copy_from_slice(&slots);
}

// The table of a record, into the first 112 bytes of out; the rest stays. 33, and nothing is written, where a field does not fit, an exponent is 0 or out is too small.
pub fn write(density: u64, erases: &[u32], out: &mut [u8]) -> Answer
    ensures { Writes (table_for density erases.now out.old) result out.new }
{
    let Ok(density) = u32::try_from(density) else {
        return Err(Refusal::BadEntry);
    };
    if !is_list(erases) || out.len() < 112 {
        return Err(Refusal::BadEntry);
    }
    lay_page(density, erases, &mut out[..112]);
    Ok(())
}
