// The calls that only read.
#![tactic(auto, unfolding(device::specs::Effect::effect, device::specs::Refusal::lent_to, device::specs::Refusal::access_of), using(crate::proofs::ReplyLaws::calls))]

ghost use Rattle.device.specs.Call.{call};
ghost use Rattle.device.specs.Call;
ghost use Rattle.hub.specs.Answered.{section_reply, value_reply};
ghost use Rattle.hub.specs.Promises.{Answers, AnswersQuestion};
ghost use Rattle.hub.specs.Reads.{region_read};

use super::refusals::{Access, Lending, Space};
use super::{Refusal, refusals};
use device::SectionAnswer;

// The two regions of 4096 bytes, which are one `Space`; no read of configuration space comes here.
#[derive(Clone, Copy)]
enum Region {
    Registers,
    Msix,
}

pub fn configuration_read(hub: &[u32], id: u64, offset: u64, width: u64) -> Result<u32, Refusal>
    ensures { Answers hub.now (call id (Call.Act.configuration_read offset width)) (value_reply result) }
{
    let access = Access {
        offset,
        size: width,
    };
    let caller = refusals::space_refusal(hub, Lending::NOTHING, id, Space::Configuration, access)?;
    let value = configuration::read(caller.settings, caller.peer, offset, width);
    Ok(value as u32)
}

// A read of either region. With Command bit 1 off it is all ones.
#[tactic(auto, unfolding(device::specs::Effect::effect, device::specs::Msix::msix_read, device::specs::Msix::table_word, device::specs::Msix::in_table), using(crate::proofs::ReadLaws::region_reads))]
fn region_read(hub: &[u32], id: u64, region: Region, access: Access) -> Result<u32, Refusal>
    ensures { Answers hub.now (call id (region_read region access.offset access.size)) (value_reply result) }
{
    let caller = refusals::space_refusal(hub, Lending::NOTHING, id, Space::Registers, access)?;
    if !registers::memory_on(caller.peer) {
        return Ok(registers::UNMAPPED as u32);
    }
    match region {
        Region::Registers => {
            let value = registers::read(caller.settings, id, caller.peer, access.offset);
            Ok(value as u32)
        }
        Region::Msix => {
            if !msix::in_table(caller.settings, access.offset) {
                return Ok(0);
            }
            let e = words::entry(hub, id as usize, (access.offset / 16) as usize);
            Ok(msix::word(e, access.offset % 16 / 4))
        }
    }
}

pub fn register_read(hub: &[u32], id: u64, offset: u64, width: u64) -> Result<u32, Refusal>
    ensures { Answers hub.now (call id (Call.Act.register_read offset width)) (value_reply result) }
{
    let access = Access {
        offset,
        size: width,
    };
    region_read(hub, id, Region::Registers, access)
}

pub fn msix_read(hub: &[u32], id: u64, offset: u64, width: u64) -> Result<u32, Refusal>
    ensures { Answers hub.now (call id (Call.Act.msix_read offset width)) (value_reply result) }
{
    let access = Access {
        offset,
        size: width,
    };
    region_read(hub, id, Region::Msix, access)
}

// Which section a range lies in, and whether the asking peer may store to it.
pub fn section_question(
    hub: &[u32],
    id: u64,
    offset: u64,
    length: u64,
) -> Result<SectionAnswer, Refusal>
    ensures { AnswersQuestion hub.now (call id (Call.Act.question offset length)) (section_reply result) }
{
    let range = Access {
        offset,
        size: length,
    };
    let kind = refusals::range_refusal(hub, Lending::NOTHING, id, range)?;
    Ok(sections::answer(id, kind))
}
