// The sections of the shared region: which one holds a range, and who may store to it.
#![tactic(auto)]

ghost use Rattle.std.specs.Prelude.{◌≡◌, true, ◌+◌, ◌<◌, ◌^◌, MatchOption};
ghost use Rattle.device.specs.SetUp.{accepted};
ghost use Rattle.device.specs.Sections.{outputs, section_in, section_of, somewhere, may_store, answer_of};
ghost use Rattle.device.specs.declared.SectionKind.TheVariants.{Nothing, Output};

use device::{PeerId, SectionAnswer, SectionKind, Settings};

// No offset of the region is larger.
const MOST_BYTES: u64 = 0x40000000;

// A clause says that the settings are accepted, here and below: `Settings` is of crate device, and a type around it would be made
// and taken apart at each call.
// The owner of the output section that holds a range: the section that its first byte lies in, if the range ends there too.
fn owner_of(s: Settings, offset: u64, length: u64) -> Option<PeerId>
    requires numbers { accepted s ≡ true }
    requires range { (0 < length) × (offset + length < 2 ^ 64) }
    ensures { MatchOption result (section_in offset length (outputs s 0 s.peers) ≡ Nothing)
        (λ owner. section_in offset length (outputs s 0 s.peers) ≡ Output owner) }
{
    let first = s.table + s.common;
    let past = offset.checked_sub(first)?;
    let i = past.checked_div(s.output)?;
    if s.peers <= i {
        return None;
    }
    if first + i * s.output + s.output < offset + length {
        return None;
    }
    Some(PeerId(i as u16))
}

pub fn section_of(s: Settings, offset: u64, length: u64) -> SectionKind
    requires numbers { accepted s ≡ true }
    requires range { 0 < length }
    ensures { result ≡ section_of s offset length }
{
    // A far offset does not come to the division, which would be one of 64 bits for it: a refused store takes 1.3 of the time so.
    if MOST_BYTES < offset {
        return SectionKind::Nothing;
    }
    let Some(end) = offset.checked_add(length) else {
        return SectionKind::Nothing;
    };
    if end <= s.table {
        return SectionKind::StateTable;
    }
    if s.table <= offset && end <= s.table + s.common {
        return SectionKind::ReadWrite;
    }
    match owner_of(s, offset, length) {
        Some(owner) => SectionKind::Output(owner),
        None => SectionKind::Nothing,
    }
}

// Whether a range that lies there lies in a section at all.
#[tactic(auto, unfolding(device::specs::Sections::somewhere))]
pub fn is_somewhere(kind: SectionKind) -> bool
    ensures { result ≡ somewhere kind }
{
    !matches!(kind, SectionKind::Nothing)
}

#[tactic(auto, unfolding(device::specs::Sections::may_store))]
pub fn may_store(who: u64, kind: SectionKind) -> bool
    ensures { result ≡ may_store who kind }
{
    match kind {
        SectionKind::Nothing | SectionKind::StateTable => false,
        SectionKind::ReadWrite => true,
        SectionKind::Output(owner) => u64::from(owner.0) == who,
    }
}

#[tactic(auto, unfolding(device::specs::Sections::answer_of))]
pub fn answer(who: u64, kind: SectionKind) -> SectionAnswer
    ensures { result ≡ answer_of who kind }
{
    SectionAnswer {
        kind,
        store: may_store(who, kind),
    }
}
