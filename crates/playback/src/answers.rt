// What calls are answered by, and the answers, written to the front of a buffer. Each function that writes one returns its bytes.
ghost use Rattle.std.specs.Prelude.{◌≡◌, ◌+◌, ◌*◌, ◌≤◌, length, [], map, take};
ghost use Rattle.common.specs.Lists.{over};
ghost use Rattle.words.specs.Layout.{hub_of};
ghost use Rattle.deliveries.specs.Listed.{listed};
ghost use Rattle.gate.specs.RingOutcome.{sent_at};
ghost use Rattle.playback.specs.Answers;
ghost use Rattle.playback.specs.Answers.{accepted_bytes, outcome_bytes, refused_by, valued, delivered, all_delivered};
ghost use Rattle.playback.specs.Promises.{Writes};

use deliveries::Deliveries;
use device::{Delivery, Vector};
use hub::Refusal;

// What an accepted call is answered by.
#[derive(Clone, Copy)]
pub enum Accepted {
    Done,
    Delivered(Deliveries),
    Value(u32),
}

fn put(out: &mut [u8], bytes: &[u8])
    requires { length bytes.now ≤ length out.old }
    ensures { out.new ≡ over bytes.now out.old }
{
    out[..bytes.len()].copy_from_slice(bytes);
}

fn refused(out: &mut [u8], number: u32) -> usize
    requires { 2 ≤ length out.old }
    ensures { Writes out.old out.new (refused_by number) result }
{
    put(out, &[0x80, (number % 256) as u8]);
    2
}

fn done(out: &mut [u8]) -> usize
    requires { 1 ≤ length out.old }
    ensures { Writes out.old out.new (Answers.done []) result }
{
    put(out, &[0x81]);
    1
}

fn value(out: &mut [u8], x: u32) -> usize
    requires { 5 ≤ length out.old }
    ensures { Writes out.old out.new (valued x) result }
{
    put(out, &[0x82]);
    put(&mut out[1..], &x.to_le_bytes());
    5
}

fn put_delivery(out: &mut [u8], d: Delivery)
    requires { 17 ≤ length out.old }
    ensures { out.new ≡ over (delivered d) out.old }
{
    put(out, &[0x83]);
    put(&mut out[1..], &d.target.0.to_le_bytes());
    put(&mut out[3..], &d.vector.0.to_le_bytes());
    put(&mut out[5..], &d.address.to_le_bytes());
    put(&mut out[13..], &d.payload.to_le_bytes());
}

fn put_deliveries(hub: &[u32], ids: &[u8], v: Vector, out: &mut [u8])
    requires { 17 * length ids.now ≤ length out.old }
    ensures { out.new ≡ over (all_delivered (map (sent_at (hub_of hub.now) v) ids.now)) out.old }
{
    for (i, id) in ids.iter().enumerate() {
        put_delivery(&mut out[17 * i..], deliveries::sent(hub, *id, v));
    }
}

// Done, and each delivery.
fn served(hub: &[u32], list: Deliveries, out: &mut [u8; super::LONGEST_ANSWER]) -> usize
    ensures { Writes out.old out.new (Answers.done (listed (hub_of hub.now) list)) result }
{
    let ids = list.delivered();
    put(out, &[0x81]);
    put_deliveries(hub, ids, list.vector, &mut out[1..]);
    1 + 17 * ids.len()
}

#[inline(always)]
fn write_accepted(hub: &[u32], answer: Accepted, out: &mut [u8; super::LONGEST_ANSWER]) -> usize
    ensures { Writes out.old out.new (accepted_bytes (hub_of hub.now) answer) result }
{
    match answer {
        Accepted::Done => done(out),
        Accepted::Delivered(list) => served(hub, list, out),
        Accepted::Value(x) => value(out, x),
    }
}

// A call's answer, on the hub as it is after the call.
#[inline(always)]
pub fn write(
    hub: &[u32],
    outcome: Result<Accepted, Refusal>,
    out: &mut [u8; super::LONGEST_ANSWER],
) -> usize
    ensures { Writes out.old out.new (outcome_bytes (hub_of hub.now) outcome) result }
{
    match outcome {
        Ok(answer) => write_accepted(hub, answer, out),
        Err(refusal) => refused(out, refusal.number()),
    }
}
