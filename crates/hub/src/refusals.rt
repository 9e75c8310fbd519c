// The checks of a call, in the order of the rules.
#![tactic(auto, unfolding(common::specs::Tests::first), using(crate::proofs::RefusalLaws::row_by_row))]

ghost use Rattle.std.specs.Prelude.{◌≡◌, true, ◌++◌, length, IfOk, OnOk};
ghost use Rattle.common.specs.Tests.{first};
ghost use Rattle.device.specs.Sections.{section_of};
ghost use Rattle.device.specs.SetUp.{accepted};
ghost use Rattle.words.specs.Layout.{hub_of};
ghost use Rattle.hub.specs.Admission.{region_lent, both_lent, other_length, fewer_records, admission, allows, size_of, space_rows, range_rows, store_rows, Admitted, Found, Inside, InSection};
ghost use Rattle.hub.specs.Answered.{number_in};

use super::Refusal;
use device::{Peer, SectionKind, Settings};

// What the host lends to a call: the region, by its length, and a delivery table, by its records.
#[derive(Clone, Copy)]
pub struct Lending {
    pub region: Option<u64>,
    pub records: Option<u64>,
}

impl Lending {
    pub const NOTHING: Self = Self {
        region: None,
        records: None,
    };

    pub fn region(region: &[u8]) -> Self
        ensures { result ≡ region_lent (length region.now) }
    {
        Self {
            region: Some(region.len() as u64),
            records: None,
        }
    }

    pub fn both(region: &[u8], records: u64) -> Self
        ensures { result ≡ both_lent (length region.now) records }
    {
        Self {
            region: Some(region.len() as u64),
            records: Some(records),
        }
    }

    fn has_other_length(self, bytes: u64) -> bool
        ensures { result ≡ other_length self.region bytes }
    {
        self.region.is_some_and(|region| region != bytes)
    }

    fn has_fewer_records(self, peers: u64) -> bool
        ensures { result ≡ fewer_records self.records peers }
    {
        self.records.is_some_and(|records| records < peers)
    }
}

// A caller that is let pass, as the hub has it. `Admitted` and `Found` are clauses, and no invariant of it: they tell of words that
// the call goes on to change.
#[derive(Clone, Copy)]
pub struct Caller {
    pub settings: Settings,
    pub peer: Peer,
}

// Where an access begins, and how many bytes it has.
#[derive(Clone, Copy)]
pub struct Access {
    pub offset: u64,
    pub size: u64,
}

// What an access that is not to the shared region reaches into: the MSI-X region is read and written as the register region is.
#[derive(Clone, Copy)]
pub enum Space {
    Configuration,
    Registers,
}

impl Space {
    fn size(self) -> u64
        ensures { result ≡ size_of self }
    {
        match self {
            Space::Configuration => 256,
            Space::Registers => 4096,
        }
    }

    fn allows(self, width: u64) -> bool
        ensures { result ≡ allows self width }
    {
        match self {
            Space::Configuration => matches!(width, 1 | 2 | 4),
            Space::Registers => width == 4,
        }
    }

    // 6, 7 and 8.
    fn check(self, access: Access) -> Result<(), Refusal>
        ensures { number_in result ≡ first (space_rows (size_of self) (allows self access.size) access.offset access.size) }
    {
        if !self.allows(access.size) {
            return Err(Refusal::BadWidth);
        }
        if access.offset % access.size != 0 {
            return Err(Refusal::Misaligned);
        }
        if self.size() - access.size < access.offset {
            return Err(Refusal::OutOfRange);
        }
        Ok(())
    }
}

// 10, 2, 11, 3 and 4: the hub, what is lent, and the id.
pub fn admitted(hub: &[u32], lent: Lending, id: u64) -> Result<Caller, Refusal>
    ensures is { number_in result ≡ first (admission (hub_of hub.now) lent id) }
    ensures found { IfOk result (Found hub.now lent id) }
{
    if !soundness::sound(hub) {
        return Err(Refusal::UnsoundHub);
    }
    let settings = words::settings(hub);
    if lent.has_other_length(soundness::total(settings)) {
        return Err(Refusal::BadRegion);
    }
    if lent.has_fewer_records(settings.peers) {
        return Err(Refusal::ShortTable);
    }
    if settings.peers <= id {
        return Err(Refusal::NoSuchPeer);
    }
    let peer = words::peer(hub, id as usize);
    if peer.connected != 1 {
        return Err(Refusal::NotConnected);
    }
    Ok(Caller { settings, peer })
}

// A call with an access to a space.
pub fn space_refusal(
    hub: &[u32],
    lent: Lending,
    id: u64,
    into: Space,
    access: Access,
) -> Result<Caller, Refusal>
    ensures is { number_in result ≡ first (admission (hub_of hub.now) lent id
        ++ space_rows (size_of into) (allows into access.size) access.offset access.size) }
    ensures found { IfOk result (Found hub.now lent id) }
    ensures inside { OnOk result (Inside (size_of into) (allows into access.size) access.offset access.size) }
{
    let caller = admitted(hub, lent, id)?;
    into.check(access)?;
    Ok(caller)
}

// 6 and 8 for a range of the shared region, and the section that it lies in.
fn range(s: Settings, range: Access) -> Result<SectionKind, Refusal>
    requires { accepted s ≡ true }
    ensures is { number_in result ≡ first (range_rows s range.offset range.size) }
    ensures section { IfOk result (λ kind. kind ≡ section_of s range.offset range.size) }
{
    if range.size == 0 {
        return Err(Refusal::BadWidth);
    }
    let kind = sections::section_of(s, range.offset, range.size);
    if !sections::is_somewhere(kind) {
        return Err(Refusal::OutOfRange);
    }
    Ok(kind)
}

// A call with a range of the shared region.
pub fn range_refusal(
    hub: &[u32],
    lent: Lending,
    id: u64,
    within: Access,
) -> Result<SectionKind, Refusal>
    ensures is { number_in result ≡ first (admission (hub_of hub.now) lent id
        ++ range_rows (hub_of hub.now).settings within.offset within.size) }
    ensures caller { OnOk result (Admitted hub.now lent id) }
    ensures inside { OnOk result (InSection (hub_of hub.now).settings within.offset within.size) }
    ensures section { IfOk result (λ kind. kind ≡ section_of (hub_of hub.now).settings within.offset within.size) }
{
    let caller = admitted(hub, lent, id)?;
    range(caller.settings, within)
}

// The same with 9, for a range that is to be stored to.
pub fn store_refusal(hub: &[u32], lent: Lending, id: u64, within: Access) -> Result<(), Refusal>
    ensures is { number_in result ≡ first ((admission (hub_of hub.now) lent id ++ range_rows
        (hub_of hub.now).settings within.offset within.size)
        ++ store_rows (hub_of hub.now).settings id within.offset within.size) }
    ensures caller { OnOk result (Admitted hub.now lent id) }
    ensures inside { OnOk result (InSection (hub_of hub.now).settings within.offset within.size) }
{
    let kind = range_refusal(hub, lent, id, within)?;
    if !sections::may_store(id, kind) {
        return Err(Refusal::ReadOnly);
    }
    Ok(())
}
