// Writes of configuration space and of the MSI-X region.
ghost use Rattle.device.specs.Call.{call};
ghost use Rattle.device.specs.Call;
ghost use Rattle.hub.specs.Answered.{done_reply};
ghost use Rattle.hub.specs.Promises.{Changes};

use super::refusals::{Access, Lending, Space};
use super::{Refusal, refusals};

pub fn configuration_write(
    hub: &mut [u32],
    id: u64,
    offset: u64,
    width: u64,
    value: u32,
) -> Result<(), Refusal>
    ensures { Changes hub.old hub.new (call id (Call.Act.configuration_write offset width value)) (done_reply result) }
{
    let access = Access {
        offset,
        size: width,
    };
    let caller = refusals::space_refusal(hub, Lending::NOTHING, id, Space::Configuration, access)?;
    let written = configuration::write(
        caller.settings,
        caller.peer,
        offset,
        width,
        u64::from(value),
    );
    words::put_peer(hub, id as usize, written);
    Ok(())
}

// A store while Command bit 1 is off, or outside the entries, is accepted and does nothing.
pub fn msix_write(
    hub: &mut [u32],
    id: u64,
    offset: u64,
    width: u64,
    value: u32,
) -> Result<(), Refusal>
    ensures { Changes hub.old hub.new (call id (Call.Act.msix_write offset width value)) (done_reply result) }
{
    let access = Access {
        offset,
        size: width,
    };
    let caller = refusals::space_refusal(hub, Lending::NOTHING, id, Space::Registers, access)?;
    if !registers::memory_on(caller.peer) {
        return Ok(());
    }
    if !msix::in_table(caller.settings, offset) {
        return Ok(());
    }
    let v = (offset / 16) as usize;
    let e = words::entry(hub, id as usize, v);
    words::put_entry(
        hub,
        id as usize,
        v,
        msix::with_word(e, offset % 16 / 4, value),
    );
    Ok(())
}
