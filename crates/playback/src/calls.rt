// The calls that records ask for: one function for each kind, as the hub has one for each. All are inlined, and so are `call` and the
// functions that write an answer: else each answer is copied with the room for a list of deliveries, and a read takes 1.2 of the time.
ghost use Rattle.std.specs.Prelude.{◌≡◌, ℕ, List, [], ◌∷◌, IfOk};
ghost use Rattle.device.specs.Call.{Act};
ghost use Rattle.device.specs.Sizes.{max_peers};
ghost use Rattle.hub.specs.Answered.{done_reply};
ghost use Rattle.hub.specs.Promises.{SetsUp};
ghost use Rattle.playback.specs.Log.{Request, field, call_in};
ghost use Rattle.playback.specs.Promises.{Answers};

use super::answers::Accepted;
use super::fields::Fields;
use device::Settings;
use hub::Refusal;

#[inline(always)]
pub fn set_up(hub: &mut [u32], region: &mut [u8], s: Settings) -> Result<Accepted, Refusal>
    ensures sets { SetsUp hub.old hub.new region.old region.new s (done_reply result) }
    ensures done { IfOk result (λ answer. answer ≡ Accepted.Done) }
{
    hub::set_up(hub, region, s)?;
    Ok(Accepted::Done)
}

#[inline(always)]
pub fn connect(hub: &mut [u32], fields: Fields) -> Result<Accepted, Refusal>
    ensures { (region : List ℕ) → Answers hub.old hub.new region region
        (Request.does (call_in fields.entry.bytes.now Act.connect)) result }
{
    hub::connect(hub, fields.id())?;
    Ok(Accepted::Done)
}

#[inline(always)]
pub fn disconnect(hub: &mut [u32], region: &mut [u8], fields: Fields) -> Result<Accepted, Refusal>
    ensures { Answers hub.old hub.new region.old region.new
        (Request.does (call_in fields.entry.bytes.now (Act.disconnect max_peers))) result }
{
    let list = hub::disconnect(hub, region, device::max_peers() as u64, fields.id())?;
    Ok(Accepted::Delivered(list))
}

#[inline(always)]
pub fn reset(hub: &mut [u32], region: &mut [u8], fields: Fields) -> Result<Accepted, Refusal>
    ensures { Answers hub.old hub.new region.old region.new
        (Request.does (call_in fields.entry.bytes.now (Act.reset max_peers))) result }
{
    let list = hub::reset(hub, region, device::max_peers() as u64, fields.id())?;
    Ok(Accepted::Delivered(list))
}

#[inline(always)]
pub fn configuration_read(hub: &[u32], fields: Fields) -> Result<Accepted, Refusal>
    ensures { (region : List ℕ) → Answers hub.now hub.now region region
        (Request.reads (call_in fields.entry.bytes.now (Act.configuration_read (field 3 2 fields.entry.bytes.now)
        (field 5 1 fields.entry.bytes.now)))) result }
{
    let value = hub::configuration_read(hub, fields.id(), fields.offset(), fields.width())?;
    Ok(Accepted::Value(value))
}

#[inline(always)]
pub fn configuration_write(hub: &mut [u32], fields: Fields) -> Result<Accepted, Refusal>
    ensures { (region : List ℕ) → Answers hub.old hub.new region region
        (Request.does (call_in fields.entry.bytes.now (Act.configuration_write (field 3 2 fields.entry.bytes.now)
        (field 5 1 fields.entry.bytes.now) (field 6 4 fields.entry.bytes.now)))) result }
{
    hub::configuration_write(
        hub,
        fields.id(),
        fields.offset(),
        fields.width(),
        fields.value(6),
    )?;
    Ok(Accepted::Done)
}

#[inline(always)]
pub fn register_read(hub: &[u32], fields: Fields) -> Result<Accepted, Refusal>
    ensures { (region : List ℕ) → Answers hub.now hub.now region region
        (Request.reads (call_in fields.entry.bytes.now (Act.register_read (field 3 2 fields.entry.bytes.now) 4))) result }
{
    let value = hub::register_read(hub, fields.id(), fields.offset(), 4)?;
    Ok(Accepted::Value(value))
}

#[inline(always)]
pub fn register_write(
    hub: &mut [u32],
    region: &mut [u8],
    fields: Fields,
) -> Result<Accepted, Refusal>
    ensures { Answers hub.old hub.new region.old region.new
        (Request.does (call_in fields.entry.bytes.now (Act.register_write max_peers
        (field 3 2 fields.entry.bytes.now) 4 (field 5 4 fields.entry.bytes.now)))) result }
{
    let n = device::max_peers() as u64;
    let list = hub::register_write(
        hub,
        region,
        n,
        fields.id(),
        fields.offset(),
        4,
        fields.value(5),
    )?;
    Ok(Accepted::Delivered(list))
}

#[inline(always)]
pub fn msix_read(hub: &[u32], fields: Fields) -> Result<Accepted, Refusal>
    ensures { (region : List ℕ) → Answers hub.now hub.now region region
        (Request.reads (call_in fields.entry.bytes.now (Act.msix_read (field 3 2 fields.entry.bytes.now) 4))) result }
{
    let value = hub::msix_read(hub, fields.id(), fields.offset(), 4)?;
    Ok(Accepted::Value(value))
}

#[inline(always)]
pub fn msix_write(hub: &mut [u32], fields: Fields) -> Result<Accepted, Refusal>
    ensures { (region : List ℕ) → Answers hub.old hub.new region region
        (Request.does (call_in fields.entry.bytes.now (Act.msix_write (field 3 2 fields.entry.bytes.now) 4
        (field 5 4 fields.entry.bytes.now)))) result }
{
    hub::msix_write(hub, fields.id(), fields.offset(), 4, fields.value(5))?;
    Ok(Accepted::Done)
}

#[inline(always)]
pub fn load(hub: &[u32], region: &[u8], fields: Fields) -> Result<Accepted, Refusal>
    ensures { Answers hub.now hub.now region.now region.now
        (Request.loads (call_in fields.entry.bytes.now (Act.load (field 3 4 fields.entry.bytes.now) 1))) result }
{
    let mut loaded = [0u8; 1];
    hub::load(
        hub,
        region,
        fields.id(),
        fields.shared_offset(),
        &mut loaded,
    )?;
    Ok(Accepted::Value(u32::from(loaded[0])))
}

#[inline(always)]
pub fn store(hub: &[u32], region: &mut [u8], fields: Fields) -> Result<Accepted, Refusal>
    ensures { Answers hub.now hub.now region.old region.new
        (Request.does (call_in fields.entry.bytes.now (Act.store (field 3 4 fields.entry.bytes.now)
        ((field 7 1 fields.entry.bytes.now) ∷ [])))) result }
{
    let bytes = fields.bytes;
    hub::store(
        hub,
        region,
        fields.id(),
        fields.shared_offset(),
        &bytes[7..8],
    )?;
    Ok(Accepted::Done)
}
