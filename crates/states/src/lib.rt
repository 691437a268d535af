// Records, states, page data and the status byte.
#![tactic(auto)]

ghost use Rattle.std.specs.Prelude.{◌≡◌, ◌&&◌, ◌<◌, ◌≤◌, leb};
ghost use Rattle.states.specs.States.{in_range, half_ok, record_ok, longest_settle, config_ok, operation_time, place_ok, level_ok, idle_ok, runs_ok, state_ok, used_bytes, page_fits, page_ok, tb_of, flag as States·flag, status_of, power_on, bench_kh25l512, bench_kh25l2006e, bench_kh25l12845g};

use commands::Operation;

// The model's number, and its times in microseconds: busy after each operation (that of a half block's erase is 0 on a model that has none), and
// settling after B9, the short AB and the long AB.
#[derive(Clone, Copy)]
pub struct Record {
    pub model: u32,
    pub status_write: u32,
    pub page: u32,
    pub sector: u32,
    pub block: u32,
    pub chip: u32,
    pub half: u32,
    pub sleep: u32,
    pub wake: u32,
    pub sign: u32,
}

// SRWD, BP, the write enable latch, the deep power-down flag, the microseconds still busy, the configuration register, the
// microseconds still to settle; and of the operation that runs its command byte and its address, or how many data bytes a status write has. An idle chip has
// FF and FFFFFF there.
#[derive(Clone, Copy)]
pub struct State {
    pub srwd: bool,
    pub bp: u8,
    pub wel: bool,
    pub asleep: bool,
    pub busy: u32,
    pub config: u8,
    pub settle: u32,
    pub command: u8,
    pub address: u32,
}

#[tactic(auto, unfolding(crate::specs::States::in_range))]
fn in_range(us: u32) -> bool
    ensures { result ≡ in_range us }
{
    (1..=1_000_000_000).contains(&us)
}

// The sixth time is in its range on a model with the erase of a half block, and 0 on the others.
#[tactic(auto, unfolding(crate::specs::States::half_ok))]
fn half_ok(model: u32, us: u32) -> bool
    ensures { result ≡ half_ok model us }
{
    let row = models::model_of(model);
    if row.half_erase {
        return in_range(us);
    }
    us == 0
}

// Whether the model exists and each busy time is in its range.
#[tactic(auto, unfolding(crate::specs::States::record_ok))]
pub fn record_ok(rec: Record) -> bool
    ensures { result ≡ record_ok rec }
{
    models::is_model(rec.model)
        & ((in_range(rec.status_write)
            & (in_range(rec.page)
                & (in_range(rec.sector) & (in_range(rec.block) & in_range(rec.chip)))))
            & (half_ok(rec.model, rec.half)
                & (in_range(rec.sleep) & (in_range(rec.wake) & in_range(rec.sign)))))
}

// How long an operation runs; no time where none does.
pub fn operation_time(rec: Record, op: Option<Operation>) -> u32
    ensures { result ≡ operation_time rec op }
{
    match op {
        None => 0,
        Some(Operation::WritesStatus) => rec.status_write,
        Some(Operation::Programs) => rec.page,
        Some(Operation::ErasesSector) => rec.sector,
        Some(Operation::ErasesHalf) => rec.half,
        Some(Operation::ErasesBlock) => rec.block,
        Some(Operation::ErasesChip) => rec.chip,
    }
}

// The longest of the settling times.
#[tactic(auto, unfolding(crate::specs::States::longest_settle))]
fn longest_settle(rec: Record) -> u32
    ensures { result ≡ longest_settle rec }
{
    rec.sleep.max(rec.wake.max(rec.sign))
}

// The register's reserved bits, 5 and 2, are 0; where there is no register all are.
#[tactic(auto, unfolding(crate::specs::States::config_ok))]
fn config_ok(register: bool, config: u8) -> bool
    ensures { result ≡ config_ok register config }
{
    if config == 0 {
        return true;
    }
    register & ((config / 32 % 2 == 0) & (config / 4 % 2 == 0))
}

// Whether the protected range is at the bottom of the array: TB, bit 3 of the register.
#[tactic(auto, unfolding(crate::specs::States::tb_of))]
pub fn tb(st: State) -> bool
    ensures { result ≡ tb_of st }
{
    st.config / 8 % 2 == 1
}

// What is left to settle is at most the longest of the settling times.
fn settle_ok(rec: Record, us: u32) -> bool
    ensures { result ≡ leb us (longest_settle rec) }
{
    if us == 0 {
        return true;
    }
    us <= longest_settle(rec)
}

// Whether the address fits the operation: below the array's length where it has one; a status write has one data byte, or where there is the register two.
fn place_ok(model: u32, op: Option<Operation>, place: u32) -> bool
    ensures { result ≡ place_ok model op place }
{
    let row = models::model_of(model);
    match op {
        None | Some(Operation::ErasesChip) => place == 0xFFFFFF,
        Some(Operation::WritesStatus) => (place == 1) | (row.register & (place == 2)),
        _ => place < row.length,
    }
}

// BP and the register are in their range.
fn level_ok(model: u32, st: State) -> bool
    ensures { result ≡ level_ok model st }
{
    let row = models::model_of(model);
    (st.bp <= row.highest_bp) & config_ok(row.register, st.config)
}

// Whether the state of a chip that is not busy is valid: it remembers no operation, and may settle.
#[tactic(auto, unfolding(crate::specs::States::idle_ok))]
pub fn idle_ok(rec: Record, st: State) -> bool
    ensures { result ≡ (level_ok rec.model st && idle_ok rec st) }
{
    level_ok(rec.model, st)
        & (settle_ok(rec, st.settle) & ((st.command == 0xFF) & (st.address == 0xFFFFFF)))
}

// Whether that of a busy one is, which runs op: its time is not over, WEL is set, it is not in deep power-down, and does not settle.
pub fn busy_ok(rec: Record, st: State, op: Option<Operation>) -> bool
    ensures { result ≡ (level_ok rec.model st && runs_ok rec st op) }
{
    level_ok(rec.model, st)
        & (((st.busy <= operation_time(rec, op)) & place_ok(rec.model, op, st.address))
            & ((st.wel & !st.asleep) & (st.settle == 0)))
}

// Whether the state is valid under the record.
#[tactic(auto, unfolding(crate::specs::States::state_ok, crate::specs::States::busy_ok))]
pub fn state_ok(rec: Record, st: State) -> bool
    ensures { result ≡ state_ok rec st }
{
    if st.busy == 0 {
        return idle_ok(rec, st);
    }
    busy_ok(rec, st, commands::started_by(rec.model, st.command))
}

// How many bytes of the page data the operation uses, from the first on.
fn used_bytes(op: Option<Operation>, place: u32) -> u32
    ensures { result ≡ used_bytes op place }
{
    match op {
        Some(Operation::WritesStatus) => place,
        Some(Operation::Programs) => 256,
        _ => 0,
    }
}

// Whether page data fit an operation: 256 bytes, FF where it does not use them. They are looked at in one pass.
pub fn page_fits(op: Option<Operation>, place: u32, page: &[u8]) -> bool
    ensures { result ≡ page_fits op place page.now }
{
    if page.len() != 256 {
        return false;
    }
    let used = used_bytes(op, place) as usize;
    if 256 <= used {
        return true;
    }
    parts::all_are(&page[used..256], 0xFF)
}

// Whether they fit the state: a chip that is not busy uses none.
#[tactic(auto, unfolding(crate::specs::States::page_ok, crate::specs::States::used_page))]
pub fn page_ok(model: u32, st: State, page: &[u8]) -> bool
    ensures { result ≡ page_ok model st page.now }
{
    if st.busy == 0 {
        return page_fits(None, st.address, page);
    }
    page_fits(commands::started_by(model, st.command), st.address, page)
}

// The value where the flag is on, and 0 where it is off.
pub fn flag(on: bool, value: u8) -> u8
    ensures { (result ≡ States·flag on value) × (result ≤ value) }
{
    if on { value } else { 0 }
}

// The status byte.
#[tactic(auto, unfolding(crate::specs::States::status_of))]
pub fn status(st: State) -> u8
    requires { st.bp < 32 }
    ensures { result ≡ status_of st }
{
    flag(st.srwd, 128) + (4 * st.bp + (flag(st.wel, 2) + flag(st.busy != 0, 1)))
}

// The state of a chip from the factory.
pub fn power_on() -> State
    ensures { result ≡ power_on }
{
    State {
        srwd: false,
        bp: 0,
        config: 0,
        wel: false,
        asleep: false,
        busy: 0,
        settle: 0,
        command: 0xFF,
        address: 0xFFFFFF,
    }
}

// The bench record of model 1.
pub fn bench_kh25l512() -> Record
    ensures { result ≡ bench_kh25l512 }
{
    Record {
        model: 1,
        status_write: 15000,
        page: 5000,
        sector: 120000,
        block: 2000000,
        chip: 2000000,
        half: 0,
        sleep: 10,
        wake: 10,
        sign: 10,
    }
}

// The bench record of model 2.
pub fn bench_kh25l2006e() -> Record
    ensures { result ≡ bench_kh25l2006e }
{
    Record {
        model: 2,
        status_write: 40000,
        page: 3000,
        sector: 200000,
        block: 2000000,
        chip: 3800000,
        half: 0,
        sleep: 10,
        wake: 9,
        sign: 9,
    }
}

// The bench record of model 3.
pub fn bench_kh25l12845g() -> Record
    ensures { result ≡ bench_kh25l12845g }
{
    Record {
        model: 3,
        status_write: 40000,
        page: 750,
        sector: 400000,
        block: 2000000,
        chip: 100000000,
        half: 1000000,
        sleep: 10,
        wake: 30,
        sign: 30,
    }
}
