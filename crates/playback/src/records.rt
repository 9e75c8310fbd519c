// Records: how long each is, and what a whole one is answered by.
ghost use Rattle.std.specs.Prelude.{◌≡◌, ◌<◌, ◌≤◌, false, true, MatchResult};
ghost use Rattle.device.specs.SetUp.{accepted, total};
ghost use Rattle.device.specs.World.{World};
ghost use Rattle.words.specs.Layout.{hub_words};
ghost use Rattle.hub.specs.Answered.{number_of};
ghost use Rattle.playback.specs.Answers.{answer, max_total, set_up_number};
ghost use Rattle.playback.specs.Kinds.{kind_number};
ghost use Rattle.playback.specs.Log.{Request, kind_of, record_length, request_of, settings_in};
ghost use Rattle.playback.specs.Player.{after};
ghost use Rattle.playback.specs.Promises.{anew, Answers, Goes, Lent, world_in};

use super::answers::{self, Accepted};
use super::fields::Fields;
use super::kinds::{Kind, UnknownKind};
use super::{Progress, Taken, calls};
use device::Settings;
use hub::Refusal;

// Of the record that begins with this byte. An unknown kind has no body.
pub fn length(byte: u8) -> usize
    ensures { result ≡ record_length byte }
{
    match Kind::try_from(byte) {
        Ok(kind) => kind.record_length(),
        Err(UnknownKind) => 1,
    }
}

// Where the player stands after a set-up with these numbers, if they are accepted and its region is large enough.
fn playable(s: Settings) -> Result<Progress, Refusal>
    ensures { MatchResult result (λ p. (accepted s ≡ true) × (total s ≤ max_total)
        × (p ≡ record { words = hub_words s.peers s.vectors; bytes = total s; held = 0; stopped = false }))
        (λ e. (number_of e ≡ 1) × (set_up_number s ≡ 1)) }
{
    if !soundness::accepted(s) {
        return Err(Refusal::BadSetting);
    }
    let total = soundness::total(s);
    if total > super::REGION_BYTES as u64 {
        return Err(Refusal::BadSetting);
    }
    Ok(Progress {
        words: words::hub_words(s.peers as usize, s.vectors as usize),
        bytes: total as usize,
        held: 0,
        stopped: false,
    })
}

fn set_up(
    hub: &mut [u32],
    region: &mut [u8],
    fields: Fields,
    out: &mut [u8; super::LONGEST_ANSWER],
) -> Taken
    requires { Lent hub.old region.old fields.bytes.now anew }
    ensures { (w : World) → Goes hub.new region.new fields.entry.bytes.now out.old out.new
        result.progress result.written (after (answer w (Request.set_up (settings_in fields.entry.bytes.now)))) }
{
    let s = fields.settings();
    match playable(s) {
        Ok(progress) => {
            let outcome = calls::set_up(
                &mut hub[..progress.words],
                &mut region[..progress.bytes],
                s,
            );
            let written = answers::write(hub, outcome, out);
            Taken { progress, written }
        }
        Err(refusal) => {
            let written = answers::write(hub, Err(refusal), out);
            let progress = Progress::start();
            Taken { progress, written }
        }
    }
}

// A call, by its kind. The hub and the region are the parts of the lent memory that are in use.
#[inline(always)]
fn call(kind: Kind, hub: &mut [u32], region: &mut [u8], fields: Fields) -> Result<Accepted, Refusal>
    requires { 0 < kind_number kind }
    ensures { Answers hub.old hub.new region.old region.new
        (request_of (kind_number kind) fields.entry.bytes.now) result }
{
    match kind {
        Kind::SetUp => unreachable!(),
        Kind::Connect => calls::connect(hub, fields),
        Kind::Disconnect => calls::disconnect(hub, region, fields),
        Kind::Reset => calls::reset(hub, region, fields),
        Kind::ConfigurationRead => calls::configuration_read(hub, fields),
        Kind::ConfigurationWrite => calls::configuration_write(hub, fields),
        Kind::RegisterRead => calls::register_read(hub, fields),
        Kind::RegisterWrite => calls::register_write(hub, region, fields),
        Kind::MsixRead => calls::msix_read(hub, fields),
        Kind::MsixWrite => calls::msix_write(hub, fields),
        Kind::Load => calls::load(hub, region, fields),
        Kind::Store => calls::store(hub, region, fields),
    }
}

// A record of a known kind.
fn play(
    kind: Kind,
    hub: &mut [u32],
    region: &mut [u8],
    fields: Fields,
    p: Progress,
    out: &mut [u8; super::LONGEST_ANSWER],
) -> Taken
    requires { Lent hub.old region.old fields.bytes.now p }
    ensures { Goes hub.new region.new fields.entry.bytes.now out.old out.new
        result.progress result.written
        (after (answer (world_in hub.old region.old p.words p.bytes) (request_of (kind_number kind) fields.entry.bytes.now))) }
{
    if let Kind::SetUp = kind {
        return set_up(hub, region, fields, out);
    }
    let outcome = call(kind, &mut hub[..p.words], &mut region[..p.bytes], fields);
    let written = answers::write(&hub[..p.words], outcome, out);
    Taken {
        progress: Progress {
            held: 0,
            stopped: false,
            ..p
        },
        written,
    }
}

// A whole record, on the lent memory.
pub fn answer(
    hub: &mut [u32],
    region: &mut [u8],
    fields: Fields,
    p: Progress,
    out: &mut [u8; super::LONGEST_ANSWER],
) -> Taken
    requires { Lent hub.old region.old fields.bytes.now p }
    ensures { Goes hub.new region.new fields.entry.bytes.now out.old out.new
        result.progress result.written
        (after (answer (world_in hub.old region.old p.words p.bytes) (request_of (kind_of fields.entry.bytes.now)
        fields.entry.bytes.now))) }
{
    match Kind::try_from(fields.bytes[0]) {
        Ok(kind) => play(kind, hub, region, fields, p, out),
        Err(UnknownKind) => {
            out[0] = 0x85;
            Taken {
                progress: Progress {
                    held: 0,
                    stopped: true,
                    ..p
                },
                written: 1,
            }
        }
    }
}
