// The commands: what a byte means, and what the refusals ask of each command.
#![tactic(auto)]

ghost use Rattle.std.specs.Prelude.{◌≡◌};
ghost use Rattle.commands.specs.Commands.{look_up, sfdp_read, own as Commands·own, decode_of, row as Commands·row, most_written, traits_of, length_ok, operation_of, started_by};

// A byte that is none and a withdrawn one are variants too: each has a row of the table and an answer of its own, so an Option
// would hold two kinds of nothing.
#[derive(Clone, Copy)]
pub enum Command {
    WriteEnable,
    WriteDisable,
    ReadStatus,
    ReadConfig,
    WriteStatus,
    Read,
    FastRead,
    EraseSector,
    EraseHalf,
    EraseBlock,
    EraseChip,
    Program,
    ReadId,
    Wake,
    ReadMaker,
    Sleep,
    Unknown,
    Withdrawn,
    ReadSfdp,
}

// 5A, which only model 2 has. It is told before the others that differ, so that a byte that is no command stays cheap.
fn sfdp_read(model: u32) -> Command
    ensures { result ≡ sfdp_read model }
{
    if model == 2 {
        Command::ReadSfdp
    } else {
        Command::Unknown
    }
}

// The other bytes that do not mean the same on every model.
fn own(model: u32, byte: u8) -> Command
    ensures { result ≡ look_up byte (Commands·own model) }
{
    if model == 3 {
        return match byte {
            0x52 => Command::EraseHalf,
            0x15 => Command::ReadConfig,
            _ => Command::Unknown,
        };
    }
    match byte {
        0x52 => Command::Withdrawn,
        _ => Command::Unknown,
    }
}

// The command of a frame's first byte on the model of that number.
#[tactic(auto, unfolding(crate::specs::Commands::decode_of))]
pub fn decode(model: u32, byte: u8) -> Command
    ensures { result ≡ decode_of model byte }
{
    match byte {
        0x06 => Command::WriteEnable,
        0x04 => Command::WriteDisable,
        0x05 => Command::ReadStatus,
        0x01 => Command::WriteStatus,
        0x03 => Command::Read,
        0x0B => Command::FastRead,
        0x20 => Command::EraseSector,
        0xD8 => Command::EraseBlock,
        0x60 => Command::EraseChip,
        0xC7 => Command::EraseChip,
        0x02 => Command::Program,
        0x9F => Command::ReadId,
        0xAB => Command::Wake,
        0x90 => Command::ReadMaker,
        0xB9 => Command::Sleep,
        0x5A => sfdp_read(model),
        _ => own(model, byte),
    }
}

// What keeps a chip busy.
#[derive(Clone, Copy, PartialEq, Eq)]
pub enum Operation {
    WritesStatus,
    Programs,
    ErasesSector,
    ErasesHalf,
    ErasesBlock,
    ErasesChip,
}

// The operation that a command starts, if it starts one.
pub fn operation_of(c: Command) -> Option<Operation>
    ensures { result ≡ operation_of c }
{
    match c {
        Command::WriteStatus => Some(Operation::WritesStatus),
        Command::EraseSector => Some(Operation::ErasesSector),
        Command::EraseHalf => Some(Operation::ErasesHalf),
        Command::EraseBlock => Some(Operation::ErasesBlock),
        Command::EraseChip => Some(Operation::ErasesChip),
        Command::Program => Some(Operation::Programs),
        _ => None,
    }
}

// The operation that a command byte starts on the model of that number.
pub fn started_by(model: u32, byte: u8) -> Option<Operation>
    ensures { result ≡ started_by model byte }
{
    operation_of(decode(model, byte))
}

// What the refusals ask of a command: whether it is one, and whether it is withdrawn; whether it is taken while busy and while
// asleep; whether it needs WEL, heeds SRWD, and changes one unit or the whole chip; its frame: low to high bytes without tail, or
// least bytes and more with any tail.
#[derive(Clone, Copy)]
pub struct Traits {
    pub known: bool,
    pub withdrawn: bool,
    pub while_busy: bool,
    pub while_asleep: bool,
    pub latch: bool,
    pub lock: bool,
    pub unit: bool,
    pub whole: bool,
    pub low: usize,
    pub high: usize,
    pub least: usize,
}

// The longest frame, and a length that no frame has.
const MOST: usize = 65541;

const NEVER: usize = 65542;

// Yes and no, as the table has them.
const Y: bool = true;

const N: bool = false;

// A row by its columns: as a struct with named fields each of the sixteen rows would be ten lines.
fn row(
    while_busy: bool,
    while_asleep: bool,
    latch: bool,
    lock: bool,
    unit: bool,
    whole: bool,
    low: usize,
    high: usize,
    least: usize,
) -> Traits
    ensures { result ≡ Commands·row while_busy while_asleep latch lock unit whole low high least }
{
    Traits {
        known: true,
        withdrawn: false,
        while_busy,
        while_asleep,
        latch,
        lock,
        unit,
        whole,
        low,
        high,
        least,
    }
}

// A byte that is no command.
const UNKNOWN: Traits = Traits {
    known: false,
    withdrawn: false,
    while_busy: false,
    while_asleep: false,
    latch: false,
    lock: false,
    unit: false,
    whole: false,
    low: 0,
    high: 0,
    least: 0,
};

// A command that was withdrawn: of any length.
const WITHDRAWN: Traits = Traits {
    known: true,
    withdrawn: true,
    ..UNKNOWN
};

// The longest status write.
fn most_written(register: bool) -> usize
    ensures { result ≡ most_written register }
{
    if register { 3 } else { 2 }
}

// The command's row of the table. A model with the configuration register takes one data byte more in a status write.
#[tactic(auto, unfolding(crate::specs::Commands::traits_of))]
pub fn traits_of(register: bool, c: Command) -> Traits
    ensures { result ≡ traits_of register c }
{
    match c {
        //      busy  latch unit  low, high, least
        //         sleep lock  whole
        Command::WriteEnable => // 06
            row(N, N, N, N, N, N, 1, 1, NEVER),
        Command::WriteDisable => // 04
            row(N, N, N, N, N, N, 1, 1, NEVER),
        Command::ReadStatus => // 05
            row(Y, N, N, N, N, N, 1, 1, 1),
        Command::ReadConfig => // 15
            row(Y, N, N, N, N, N, 1, 1, 1),
        Command::WriteStatus => // 01
            row(N, N, Y, Y, N, N, 2, most_written(register), NEVER),
        Command::Read => // 03
            row(N, N, N, N, N, N, 4, 4, 4),
        Command::FastRead => // 0B
            row(N, N, N, N, N, N, 5, 5, 5),
        Command::EraseSector => // 20
            row(N, N, Y, N, Y, N, 4, 4, NEVER),
        Command::EraseHalf => // 52 of model 3
            row(N, N, Y, N, Y, N, 4, 4, NEVER),
        Command::EraseBlock => // D8
            row(N, N, Y, N, Y, N, 4, 4, NEVER),
        Command::EraseChip => // 60, C7
            row(N, N, Y, N, N, Y, 1, 1, NEVER),
        Command::Program => // 02
            row(N, N, Y, N, Y, N, 5, MOST, NEVER),
        Command::ReadId => // 9F
            row(N, N, N, N, N, N, 1, 1, 1),
        Command::Wake => // AB
            row(N, Y, N, N, N, N, 1, 1, 5),
        Command::ReadMaker => // 90
            row(N, N, N, N, N, N, 4, 4, 4),
        Command::Sleep => // B9
            row(N, N, N, N, N, N, 1, 1, NEVER),
        Command::Unknown => UNKNOWN,
        Command::Withdrawn => WITHDRAWN, // 52 of models 1 and 2
        Command::ReadSfdp => // 5A of model 2
            row(N, N, N, N, N, N, 5, 5, 5),
    }
}

// Whether the command takes a frame of n bytes and that tail.
#[tactic(auto, unfolding(crate::specs::Commands::length_ok))]
pub fn length_ok(t: Traits, n: usize, tail: u32) -> bool
    ensures { result ≡ length_ok t n tail }
{
    (((t.low <= n) & (n <= t.high)) & (tail == 0)) | (t.least <= n)
}
