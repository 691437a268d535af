// The commands that drive bytes out.
#![tactic(auto)]

ghost use Rattle.std.specs.Prelude.{◌≡◌, ◌≤◌, ◌<◌, length};
ghost use Rattle.effects.specs.Effects.{read_status, read_config, read_from, read_id, waking_time, wake as Effects·wake, maker_bytes, read_maker, read_sfdp};
ghost use Rattle.effects.specs.ContractForms.{Shows, Room};

use effects::Reply;
use models::Model;
use states::{Record, State};
use units::{Address, SfdpAddress};

// 05
pub fn read_status(st: State, bytes: &[u8], out: &mut [u8]) -> Reply
    requires { (st.bp ≤ 15) × Room 1 bytes.now out.old }
    ensures { Shows (read_status st bytes.now out.old) result out.new }
{
    let n = bytes.len();
    out[1..n].fill(states::status(st));
    effects::driven(st, 1, n as u32)
}

// 15
pub fn read_config(st: State, bytes: &[u8], out: &mut [u8]) -> Reply
    requires { Room 1 bytes.now out.old }
    ensures { Shows (read_config st bytes.now out.old) result out.new }
{
    let n = bytes.len();
    out[1..n].fill(st.config);
    effects::driven(st, 1, n as u32)
}

// 03 from position 4, 0B from position 5
#[tactic(auto, using(parts::proofs::Lay::put_back), unfolding(effects::specs::Effects::read_from))]
pub fn read_from(
    first: u32,
    st: State,
    array: &[u8],
    at: Address,
    bytes: &[u8],
    out: &mut [u8],
) -> Reply
    requires { (at.0 < length array.now) × Room first bytes.now out.old }
    ensures { Shows (read_from first st array.now at bytes.now out.old) result out.new }
{
    let n = bytes.len();
    flash::read(array, at, &mut out[first as usize..n]);
    effects::driven(st, first, n as u32)
}

// 9F
pub fn read_id(rec: Record, st: State, bytes: &[u8], out: &mut [u8]) -> Reply
    requires { Room 1 bytes.now out.old }
    ensures { Shows (read_id rec st bytes.now out.old) result out.new }
{
    let n = bytes.len();
    let row = models::model_of(rec.model);
    let id = [row.maker, row.family, row.density];
    rings::repeat(&mut out[1..n], &id);
    effects::driven(st, 1, n as u32)
}

// What a chip that was asleep settles for after an AB of n bytes.
fn waking_time(rec: Record, st: State, n: usize) -> u32
    ensures { result ≡ waking_time rec st n }
{
    if !st.asleep {
        return 0;
    }
    if 4 < n { rec.sign } else { rec.wake }
}

// AB
pub fn wake(rec: Record, st: State, bytes: &[u8], out: &mut [u8]) -> Reply
    requires { Room 1 bytes.now out.old }
    ensures { Shows (Effects·wake rec st bytes.now out.old) result out.new }
{
    let n = bytes.len();
    let awake = effects::doze(st, false, waking_time(rec, st, n));
    if 4 < n {
        let row = models::model_of(rec.model);
        out[4..n].fill(row.signature);
        return effects::driven(awake, 4, n as u32);
    }
    effects::quiet(Ok(()), awake)
}

// The two bytes of 90 in their order.
fn maker_bytes(row: Model, fourth: u8) -> [u8; 2]
    ensures { result ≡ maker_bytes row fourth }
{
    if fourth % 2 == 1 {
        [row.signature, row.maker]
    } else {
        [row.maker, row.signature]
    }
}

// 90
pub fn read_maker(rec: Record, st: State, bytes: &[u8], out: &mut [u8]) -> Reply
    requires { Room 4 bytes.now out.old }
    ensures { Shows (read_maker rec st bytes.now out.old) result out.new }
{
    let n = bytes.len();
    let row = models::model_of(rec.model);
    let pair = maker_bytes(row, parts::byte_at(bytes, 3));
    rings::repeat(&mut out[4..n], &pair);
    effects::driven(st, 4, n as u32)
}

// 5A
pub fn read_sfdp(st: State, bytes: &[u8], out: &mut [u8]) -> Reply
    requires { Room 5 bytes.now out.old }
    ensures { Shows (read_sfdp st bytes.now out.old) result out.new }
{
    let n = bytes.len();
    let at = SfdpAddress::sent(
        parts::byte_at(bytes, 1),
        parts::byte_at(bytes, 2),
        parts::byte_at(bytes, 3),
    );
    sfdp_image::drive(at, &mut out[5..n]);
    effects::driven(st, 5, n as u32)
}
