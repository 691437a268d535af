// What C hands over: the record as ten numbers, and the state packed in 16 bytes, with the page data 272. The page data are neither read nor written here.
#![tactic(auto)]

ghost use Rattle.std.specs.Prelude.{◌≡◌, ◌∷◌, [], ◌≤◌, length};
ghost use Rattle.parts.specs.Parts.{spelt};
ghost use Rattle.packing.specs.Packing.{record_of, place_spelt, packed, page_in, read_of, is_packing, busy_in};

use states::{Record, State};

// The record of ten numbers, in the order in which C passes them.
pub fn record_of(
    model: u32,
    status_us: u32,
    page_us: u32,
    sector_us: u32,
    block_us: u32,
    chip_us: u32,
    half_us: u32,
    sleep_us: u32,
    wake_us: u32,
    sign_us: u32,
) -> Record
    ensures { result ≡ record_of model status_us page_us sector_us block_us chip_us half_us sleep_us wake_us sign_us }
{
    Record {
        model,
        status_write: status_us,
        page: page_us,
        sector: sector_us,
        block: block_us,
        chip: chip_us,
        half: half_us,
        sleep: sleep_us,
        wake: wake_us,
        sign: sign_us,
    }
}

// The number of four bytes, the low byte first.
fn time_of(a: u8, b: u8, c: u8, d: u8) -> u32
    ensures { result ≡ spelt (a ∷ b ∷ c ∷ d ∷ []) }
{
    u32::from_le_bytes([a, b, c, d])
}

// The number of three bytes, the high byte first.
fn place_of(high: u8, middle: u8, low: u8) -> u32
    ensures { result ≡ place_spelt high middle low }
{
    u32::from_be_bytes([0, high, middle, low])
}

// The busy time that 272 bytes spell; 0 of any other number of bytes: C lends a slice of any length. It is read once and handed on to the next two,
// which costs a call 8 instructions less than reading it in each.
pub fn busy_in(state: &[u8]) -> u32
    ensures { result ≡ busy_in state.now }
{
    if state.len() == 272 {
        return time_of(state[4], state[5], state[6], state[7]);
    }
    0
}

// Whether the lent bytes, which spell that busy time, are a packing: 272 of them, bit 6 of the status clear, WIP as the time makes it, the flag 0 or 1, and a
// zero.
pub fn is_packed(state: &[u8], busy: u32) -> bool
    requires { busy ≡ busy_in state.now }
    ensures { result ≡ is_packing state.now }
{
    if state.len() != 272 {
        return false;
    }
    let status = state[0];
    let wip = (busy != 0) as u8;
    (status / 64 % 2 == 0) & ((status % 2 == wip) & ((state[1] <= 1) & (state[3] == 0)))
}

// The state that 272 bytes spell, with that busy time.
pub fn unpack(state: &[u8], busy: u32) -> State
    requires { (length state.now ≡ 272) × (busy ≡ busy_in state.now) }
    ensures { result ≡ read_of state.now }
{
    let status = state[0];
    State {
        srwd: 128 <= status,
        bp: status / 4 % 16,
        config: state[2],
        wel: status / 2 % 2 == 1,
        asleep: state[1] == 1,
        busy,
        settle: time_of(state[8], state[9], state[10], state[11]),
        command: state[12],
        address: place_of(state[13], state[14], state[15]),
    }
}

// The state, packed into the first 16 of the lent bytes; the others stay.
pub fn pack(st: State, state: &mut [u8])
    requires { (st.bp ≤ 15) × (length state.old ≡ 272) }
    ensures { state.new ≡ packed st (page_in state.old) }
{
    state[0] = states::status(st);
    state[1] = st.asleep as u8;
    state[2] = st.config;
    state[3] = 0;
    state[4..8].copy_from_slice(&st.busy.to_le_bytes());
    state[8..12].copy_from_slice(&st.settle.to_le_bytes());
    state[12] = st.command;
    // Byte by byte: by to_be_bytes the compiler keeps the address of a frame twice, and gwo_frame takes 16 bytes of stack more.
    state[13] = (st.address / 65536 % 256) as u8;
    state[14] = (st.address / 256 % 256) as u8;
    state[15] = (st.address % 256) as u8;
}
