// What C calls of the SFDP table: a host's reader over any bytes, and the writer.
ghost use Rattle.sfdp.specs.Sfdp.{contents_of, revision_of, header_of, erase_of, table_for};
ghost use Rattle.pod.specs.Sfdp.{ReadsTable, ReadsRevision, ReadsHeader, ReadsErase, WritesTable};

// The bytes as a whole: the answer's number; headers gets how many parameter headers, density the field, types how many erase types.
#[unsafe(no_mangle)]
pub extern "C" fn gwo_sfdp_read(
    bytes: &[u8],
    headers: &mut u32,
    density: &mut u32,
    types: &mut u32,
) -> u32
    ensures { ReadsTable (contents_of bytes.now) result headers.new density.new types.new }
{
    let read = sfdp::read(bytes);
    let c = read.unwrap_or_default();
    *headers = c.headers;
    *density = c.density;
    *types = c.types;
    answers::number_of(read.and(Ok(())))
}

// The revision.
#[unsafe(no_mangle)]
pub extern "C" fn gwo_sfdp_revision(bytes: &[u8], minor: &mut u32, major: &mut u32) -> u32
    ensures { ReadsRevision (revision_of bytes.now) result minor.new major.new }
{
    let read = sfdp::revision(bytes);
    let v = read.unwrap_or_default();
    *minor = v.minor;
    *major = v.major;
    answers::number_of(read.and(Ok(())))
}

// The parameter header of an index from 0.
#[unsafe(no_mangle)]
pub extern "C" fn gwo_sfdp_header(
    bytes: &[u8],
    index: u32,
    id: &mut u32,
    minor: &mut u32,
    major: &mut u32,
    words: &mut u32,
    pointer: &mut u32,
) -> u32
    ensures { ReadsHeader (header_of bytes.now index) result id.new minor.new major.new words.new pointer.new }
{
    let read = sfdp::header(bytes, index);
    let p = read.unwrap_or_default().unwrap_or_default();
    *id = p.id;
    *minor = p.minor;
    *major = p.major;
    *words = p.words;
    *pointer = p.pointer;
    answers::number_of(read.and(Ok(())))
}

// The erase type of a slot 1 to 4.
#[unsafe(no_mangle)]
pub extern "C" fn gwo_sfdp_erase(
    bytes: &[u8],
    slot: u32,
    exponent: &mut u32,
    opcode: &mut u32,
) -> u32
    ensures { ReadsErase (erase_of bytes.now slot) result exponent.new opcode.new }
{
    let read = sfdp::erase(bytes, slot);
    let s = read.unwrap_or_default().unwrap_or_default();
    *exponent = s.exponent;
    *opcode = s.opcode;
    answers::number_of(read.and(Ok(())))
}

// The table of a record into the first 112 bytes of out: 0, or 33 and nothing is written.
#[unsafe(no_mangle)]
pub extern "C" fn gwo_sfdp_write(density: u64, erases: &[u32], out: &mut [u8]) -> u32
    ensures { WritesTable (table_for density erases.now out.old) result out.new }
{
    answers::number_of(sfdp::write(density, erases, out))
}
