// The library that a host links: one export for each call. It passes the call on to the function of the same name in crates/ivshmem,
// and has its clauses word for word.
#![tactic(auto)]

ghost use Rattle.std.specs.Prelude.{◌≡◌, ℕ, cond, length};
ghost use Rattle.device.specs.Call.{Act, call};
ghost use Rattle.device.specs.Sound.{sound};
ghost use Rattle.words.specs.Layout.{hub_of};
ghost use Rattle.hub.specs.Promises.{Answers, Changes, Loads, SetsUp, Stores};
ghost use Rattle.hub.specs.Queries.{connected_answer};
ghost use Rattle.ivshmem.specs.Promises.{AnswersInNumbers, HandsOut, given};

use device::{Delivery, Reply};
use ivshmem::{Counted, SectionNumbers, SetUpNumbers, guest, host};

// The number of this interface. It stands in the function's name, so that what was compiled for another one does not link.
#[unsafe(no_mangle)]
pub extern "C" fn ivshmem_interface_2() -> u32
    ensures { result ≡ 2 }
{
    host::ivshmem_interface_2()
}

#[unsafe(no_mangle)]
pub extern "C" fn ivshmem_set_up_hub(hub: &mut [u32], region: &mut [u8], s: SetUpNumbers) -> Reply
    ensures { SetsUp hub.old hub.new region.old region.new (given s) result }
{
    host::ivshmem_set_up_hub(hub, region, s)
}

#[unsafe(no_mangle)]
pub extern "C" fn ivshmem_connect(hub: &mut [u32], id: u64) -> Reply
    ensures { Changes hub.old hub.new (call id Act.connect) result }
{
    host::ivshmem_connect(hub, id)
}

#[unsafe(no_mangle)]
pub extern "C" fn ivshmem_is_sound(hub: &[u32]) -> u32
    ensures { result ≡ cond (sound (hub_of hub.now)) 1 0 }
{
    host::ivshmem_is_sound(hub)
}

#[unsafe(no_mangle)]
pub extern "C" fn ivshmem_is_connected(hub: &[u32], id: u64) -> Reply
    ensures { result ≡ connected_answer (hub_of hub.now) id }
{
    host::ivshmem_is_connected(hub, id)
}

#[unsafe(no_mangle)]
pub extern "C" fn ivshmem_configuration_read(hub: &[u32], id: u64, offset: u64, width: u64) -> Reply
    ensures { Answers hub.now (call id (Act.configuration_read offset width)) result }
{
    guest::ivshmem_configuration_read(hub, id, offset, width)
}

#[unsafe(no_mangle)]
pub extern "C" fn ivshmem_configuration_write(
    hub: &mut [u32],
    id: u64,
    offset: u64,
    width: u64,
    value: u32,
) -> Reply
    ensures { Changes hub.old hub.new (call id (Act.configuration_write offset width value)) result }
{
    guest::ivshmem_configuration_write(hub, id, offset, width, value)
}

#[unsafe(no_mangle)]
pub extern "C" fn ivshmem_register_read(hub: &[u32], id: u64, offset: u64, width: u64) -> Reply
    ensures { Answers hub.now (call id (Act.register_read offset width)) result }
{
    guest::ivshmem_register_read(hub, id, offset, width)
}

#[unsafe(no_mangle)]
pub extern "C" fn ivshmem_msix_read(hub: &[u32], id: u64, offset: u64, width: u64) -> Reply
    ensures { Answers hub.now (call id (Act.msix_read offset width)) result }
{
    guest::ivshmem_msix_read(hub, id, offset, width)
}

#[unsafe(no_mangle)]
pub extern "C" fn ivshmem_msix_write(
    hub: &mut [u32],
    id: u64,
    offset: u64,
    width: u64,
    value: u32,
) -> Reply
    ensures { Changes hub.old hub.new (call id (Act.msix_write offset width value)) result }
{
    guest::ivshmem_msix_write(hub, id, offset, width, value)
}

#[unsafe(no_mangle)]
pub extern "C" fn ivshmem_section_question(
    hub: &[u32],
    id: u64,
    offset: u64,
    size: u64,
) -> SectionNumbers
    ensures { AnswersInNumbers hub.now (call id (Act.question offset size)) result }
{
    guest::ivshmem_section_question(hub, id, offset, size)
}

#[unsafe(no_mangle)]
pub extern "C" fn ivshmem_load(
    hub: &[u32],
    region: &[u8],
    id: u64,
    offset: u64,
    buffer: &mut [u8],
) -> Reply
    ensures { Loads hub.now region.now buffer.old buffer.new
        (call id (Act.load offset (length buffer.old))) result }
{
    guest::ivshmem_load(hub, region, id, offset, buffer)
}

#[unsafe(no_mangle)]
pub extern "C" fn ivshmem_store(
    hub: &[u32],
    region: &mut [u8],
    id: u64,
    offset: u64,
    stored: &[u8],
) -> Reply
    ensures { Stores hub.now region.old region.new (call id (Act.store offset stored.now)) result }
{
    guest::ivshmem_store(hub, region, id, offset, stored)
}

#[unsafe(no_mangle)]
pub extern "C" fn ivshmem_register_write(
    hub: &mut [u32],
    region: &mut [u8],
    table: &mut [Delivery],
    id: u64,
    offset: u64,
    width: u64,
    value: u32,
) -> Counted
    ensures { HandsOut hub.old hub.new region.old region.new
        table.old table.new id (λ (n : ℕ). Act.register_write n offset width value) result }
{
    ivshmem::ivshmem_register_write(hub, region, table, id, offset, width, value)
}

#[unsafe(no_mangle)]
pub extern "C" fn ivshmem_reset(
    hub: &mut [u32],
    region: &mut [u8],
    table: &mut [Delivery],
    id: u64,
) -> Counted
    ensures { HandsOut hub.old hub.new region.old region.new
        table.old table.new id Act.reset result }
{
    ivshmem::ivshmem_reset(hub, region, table, id)
}

#[unsafe(no_mangle)]
pub extern "C" fn ivshmem_disconnect(
    hub: &mut [u32],
    region: &mut [u8],
    table: &mut [Delivery],
    id: u64,
) -> Counted
    ensures { HandsOut hub.old hub.new region.old region.new
        table.old table.new id Act.disconnect result }
{
    ivshmem::ivshmem_disconnect(hub, region, table, id)
}
