// The chip: any frame, on values and slices.
#![tactic(auto)]

ghost use Rattle.std.specs.Prelude.{◌≡◌, []};
ghost use Rattle.states.specs.States.{chip_of};
ghost use Rattle.effects.specs.ContractForms.{Gives};
ghost use Rattle.chip.specs.Frames.{sent_of, head_read, accepted_of, frame_of};
ghost use Rattle.chip.specs.ContractForms.{Does, Ready};

use answers::Refusal;
use commands::{Command, Operation};
use effects::Reply;
use ladder::Head;
use states::{Record, State};
use units::Address;

// What the frame says: its command and its address, beside what the call is given.
fn read(model: u32, unread: Head, bytes: &[u8]) -> Head
    ensures { result ≡ head_read model unread bytes.now }
{
    let address = models::address_of(
        model,
        parts::byte_at(bytes, 1),
        parts::byte_at(bytes, 2),
        parts::byte_at(bytes, 3),
    );
    // The command last: its table and that of what it asks for become one.
    let command = commands::decode(model, parts::byte_at(bytes, 0));
    Head {
        command,
        address,
        ..unread
    }
}

// An accepted frame, by its command. What it counts was counted before. It has all that a frame is given and says, since each command takes another part of it.
fn accepted(
    rec: Record,
    st: State,
    c: Command,
    page: &mut [u8],
    array: &[u8],
    at: Address,
    bytes: &[u8],
    out: &mut [u8],
) -> Reply
    requires { Ready rec (chip_of st page.old array.now) c at bytes.now out.old }
    ensures { Does (accepted_of rec (chip_of st page.old array.now) c at bytes.now [] out.old) result page.new out.new }
{
    match c {
        Command::WriteEnable => effects::write_enable(st),
        Command::WriteDisable => effects::write_disable(st),
        Command::ReadStatus => shows::read_status(st, bytes, out),
        Command::ReadConfig => shows::read_config(st, bytes, out),
        Command::WriteStatus => starts::write_status(rec, st, page, bytes),
        Command::Read => shows::read_from(4, st, array, at, bytes, out),
        Command::FastRead => shows::read_from(5, st, array, at, bytes, out),
        Command::EraseSector => effects::erase(rec, st, Some(Operation::ErasesSector), at, bytes),
        Command::EraseHalf => effects::erase(rec, st, Some(Operation::ErasesHalf), at, bytes),
        Command::EraseBlock => effects::erase(rec, st, Some(Operation::ErasesBlock), at, bytes),
        Command::EraseChip => effects::erase(
            rec,
            st,
            Some(Operation::ErasesChip),
            Address(0xFFFFFF),
            bytes,
        ),
        Command::Program => starts::program_page(rec, st, page, at, bytes),
        Command::ReadId => shows::read_id(rec, st, bytes, out),
        Command::Wake => shows::wake(rec, st, bytes, out),
        Command::ReadMaker => shows::read_maker(rec, st, bytes, out),
        Command::Sleep => effects::sleep(rec, st),
        Command::Unknown => effects::quiet(Ok(()), st),
        Command::Withdrawn => effects::quiet(Ok(()), st),
        Command::ReadSfdp => shows::read_sfdp(st, bytes, out),
    }
}

// Any frame, of any record, state, page data, array, wear table, tail and output. What the call is given is looked at before what the frame says. The array is not written.
// The ten one by one: each of the two callers has them so, and would write a struct out for one call.
pub fn frame(
    rec: Record,
    st: State,
    page: &mut [u8],
    array: &[u8],
    wear: &mut [u32],
    bytes: &[u8],
    tail: u32,
    wp: bool,
    strict: bool,
    out: &mut [u8],
) -> Reply
    ensures { Gives (frame_of rec (chip_of st page.old array.now) (sent_of bytes.now tail wp strict wear.old out.old)) result page.new wear.new out.new }
{
    let unread = Head {
        cells: array.len(),
        sectors: wear.len(),
        page: states::page_ok(rec.model, st, page),
        count: bytes.len(),
        tail,
        wp,
        room: out.len(),
        command: Command::Unknown,
        address: Address(0),
        over: false,
        worn: false,
    };
    if let Err(refusal) = ladder::given(rec, st, unread) {
        return effects::quiet(Err(refusal), st);
    }
    let h = read(rec.model, unread, bytes);
    if let Err(refusal) = ladder::said(rec, st, h) {
        return effects::refuse(rec.model, Err(refusal), st);
    }
    let op = commands::operation_of(h.command);
    if starts::is_over(op, strict, array, h.address, bytes) {
        return effects::quiet(Err(Refusal::NotErased), st);
    }
    if !counts::count(wear, op, h.address) {
        return effects::quiet(Err(Refusal::WornOut), st);
    }
    accepted(rec, st, h.command, page, array, h.address, bytes, out)
}
