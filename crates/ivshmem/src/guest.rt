// The calls by a guest, but for register writes, which may ring and are in lib.rt.
ghost use Rattle.std.specs.Prelude.{◌≡◌, length};
ghost use Rattle.device.specs.Call.{Act, call};
ghost use Rattle.device.specs.Sections.{kind_number, owner_number};
ghost use Rattle.hub.specs.Answered.{section_reply};
ghost use Rattle.hub.specs.Promises.{Answers, Changes, Loads, Stores};
ghost use Rattle.ivshmem.specs.Promises.{AnswersInNumbers, in_numbers};

use super::{SectionNumbers, replies};
use device::{Reply, SectionAnswer, SectionKind};
use hub::Refusal;

pub fn ivshmem_configuration_read(hub: &[u32], id: u64, offset: u64, width: u64) -> Reply
    ensures { Answers hub.now (call id (Act.configuration_read offset width)) result }
{
    replies::value(hub::configuration_read(hub, id, offset, width))
}

pub fn ivshmem_configuration_write(
    hub: &mut [u32],
    id: u64,
    offset: u64,
    width: u64,
    value: u32,
) -> Reply
    ensures { Changes hub.old hub.new (call id (Act.configuration_write offset width value)) result }
{
    replies::done(hub::configuration_write(hub, id, offset, width, value))
}

pub fn ivshmem_register_read(hub: &[u32], id: u64, offset: u64, width: u64) -> Reply
    ensures { Answers hub.now (call id (Act.register_read offset width)) result }
{
    replies::value(hub::register_read(hub, id, offset, width))
}

pub fn ivshmem_msix_read(hub: &[u32], id: u64, offset: u64, width: u64) -> Reply
    ensures { Answers hub.now (call id (Act.msix_read offset width)) result }
{
    replies::value(hub::msix_read(hub, id, offset, width))
}

pub fn ivshmem_msix_write(hub: &mut [u32], id: u64, offset: u64, width: u64, value: u32) -> Reply
    ensures { Changes hub.old hub.new (call id (Act.msix_write offset width value)) result }
{
    replies::done(hub::msix_write(hub, id, offset, width, value))
}

// A section's kind, and its owner's id where it has one, as C has them.
#[tactic(auto, unfolding(device::specs::Sections::kind_number, device::specs::Sections::owner_number))]
fn kind_and_owner(kind: SectionKind) -> (u32, u32)
    ensures kind { result.0 ≡ kind_number kind }
    ensures owner { result.1 ≡ owner_number kind }
{
    match kind {
        SectionKind::Nothing => (0, 0),
        SectionKind::StateTable => (1, 0),
        SectionKind::ReadWrite => (2, 0),
        SectionKind::Output(owner) => (3, u32::from(owner.0)),
    }
}

impl From<Result<SectionAnswer, Refusal>> for SectionNumbers {
    ghost from_gives = { λ outcome numbers. numbers ≡ in_numbers (section_reply outcome) };

    #[tactic(auto, unfolding(device::specs::Sections::kind_number, device::specs::Sections::owner_number))]
    fn from(outcome: Result<SectionAnswer, Refusal>) -> Self {
        let reply = replies::done(outcome);
        match outcome {
            Ok(section) => {
                let (kind, owner) = kind_and_owner(section.kind);
                Self {
                    reply,
                    kind,
                    owner,
                    store: u32::from(section.store),
                }
            }
            Err(_) => Self {
                reply,
                kind: 0,
                owner: 0,
                store: 0,
            },
        }
    }
}

pub fn ivshmem_section_question(hub: &[u32], id: u64, offset: u64, size: u64) -> SectionNumbers
    ensures { AnswersInNumbers hub.now (call id (Act.question offset size)) result }
{
    SectionNumbers::from(hub::section_question(hub, id, offset, size))
}

pub fn ivshmem_load(hub: &[u32], region: &[u8], id: u64, offset: u64, buffer: &mut [u8]) -> Reply
    ensures { Loads hub.now region.now buffer.old buffer.new
        (call id (Act.load offset (length buffer.old))) result }
{
    replies::done(hub::load(hub, region, id, offset, buffer))
}

pub fn ivshmem_store(hub: &[u32], region: &mut [u8], id: u64, offset: u64, stored: &[u8]) -> Reply
    ensures { Stores hub.now region.old region.new (call id (Act.store offset stored.now)) result }
{
    replies::done(hub::store(hub, region, id, offset, stored))
}
