// Register writes, reset and disconnect: the calls that may ring other peers.
ghost use Rattle.std.specs.Prelude.{◌≡◌};
ghost use Rattle.device.specs.Call.{call};
ghost use Rattle.device.specs.Call;
ghost use Rattle.device.specs.Effect.{entered, register_stored};
ghost use Rattle.device.specs.Registers.{register_at};
ghost use Rattle.device.specs.World.{slot_at};
ghost use Rattle.words.specs.Layout.{hub_of};
ghost use Rattle.hub.specs.Admission.{Ready};
ghost use Rattle.hub.specs.Promises.{Runs, Serves};
ghost use Rattle.hub.specs.Restarts.{connected, restarted};

use super::refusals::{Access, Lending, Space};
use super::{Refusal, refusals};
use deliveries::Deliveries;

// The State Table entry of a peer takes a value in any case; only where State has changed is vector 0 rung at every other id.
// `state` and `changed` are two parameters, as `entered` of the definitions takes them.
fn announce(hub: &mut [u32], region: &mut [u8], id: u64, state: u32, changed: bool) -> Deliveries
    requires { Ready hub.old region.old id }
    ensures { Runs hub.old hub.new region.old region.new id (entered id state changed) result }
{
    memory::put_state(region, id as usize, state);
    if !changed {
        return deliveries::none();
    }
    deliveries::ring_others(hub, id)
}

// A store to a register while Command bit 1 is on.
fn store_register(
    hub: &mut [u32],
    region: &mut [u8],
    id: u64,
    offset: u64,
    value: u32,
) -> Deliveries
    requires { Ready hub.old region.old id }
    ensures { Runs hub.old hub.new region.old region.new id
        (register_stored id (slot_at (hub_of hub.old) id) (register_at offset) value) result }
{
    let p = words::peer(hub, id as usize);
    // By the offset that a guest gives, which `register_at` of the definitions takes too.
    match offset {
        0x08 => {
            words::put_peer(hub, id as usize, registers::with_interrupt(p, value));
            deliveries::none()
        }
        0x0C => deliveries::ring_one(
            hub,
            registers::rung_peer(value),
            registers::rung_vector(value),
        ),
        0x10 => {
            let q = registers::with_state(p, value);
            words::put_peer(hub, id as usize, q);
            let changed = registers::state_changes(p.state, q.state);
            announce(hub, region, id, q.state, changed)
        }
        _ => deliveries::none(),
    }
}

#[tactic(auto, using(crate::proofs::RefusalLaws::register_write_refusal, crate::proofs::RunLaws::serves_refused))]
pub fn register_write(
    hub: &mut [u32],
    region: &mut [u8],
    records: u64,
    id: u64,
    offset: u64,
    width: u64,
    value: u32,
) -> Result<Deliveries, Refusal>
    ensures { Serves hub.old hub.new region.old region.new
        (call id (Call.Act.register_write records offset width value)) result }
{
    let access = Access {
        offset,
        size: width,
    };
    let lent = Lending::both(region, records);
    let caller = refusals::space_refusal(hub, lent, id, Space::Registers, access)?;
    if !registers::memory_on(caller.peer) {
        return Ok(deliveries::none());
    }
    Ok(store_register(hub, region, id, offset, value))
}

// What a peer restarts for.
#[derive(Clone, Copy)]
enum Restart {
    Reset,
    Disconnect,
}

impl Restart {
    // Whether the peer is connected afterwards: 1 or 0, as its word has it.
    fn connected(self) -> u32
        ensures { result ≡ connected self }
    {
        match self {
            Restart::Reset => 1,
            Restart::Disconnect => 0,
        }
    }
}

// The peer's registers and entries take their reset values, its State Table entry 0; the others are rung if that is a change.
// Inlined, so that the list is not copied.
#[tactic(auto, using(crate::proofs::RunLaws::restarted_refusal, crate::proofs::RunLaws::serves_refused))]
#[inline(always)]
fn restarted(
    hub: &mut [u32],
    region: &mut [u8],
    records: u64,
    id: u64,
    why: Restart,
) -> Result<Deliveries, Refusal>
    ensures { Serves hub.old hub.new region.old region.new (call id (restarted why records)) result }
{
    let caller = refusals::admitted(hub, Lending::both(region, records), id)?;
    words::put_reset(hub, id as usize, why.connected());
    let changed = registers::state_changes(caller.peer.state, 0);
    Ok(announce(hub, region, id, 0, changed))
}

pub fn reset(
    hub: &mut [u32],
    region: &mut [u8],
    records: u64,
    id: u64,
) -> Result<Deliveries, Refusal>
    ensures { Serves hub.old hub.new region.old region.new (call id (Call.Act.reset records)) result }
{
    restarted(hub, region, records, id, Restart::Reset)
}

pub fn disconnect(
    hub: &mut [u32],
    region: &mut [u8],
    records: u64,
    id: u64,
) -> Result<Deliveries, Refusal>
    ensures { Serves hub.old hub.new region.old region.new (call id (Call.Act.disconnect records)) result }
{
    restarted(hub, region, records, id, Restart::Disconnect)
}
