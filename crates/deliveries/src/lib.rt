// Deliveries by value, in ring order, and the rings at every other id.
#![tactic(auto)]

ghost use Rattle.std.specs.Prelude.{◌≡◌, ◌<◌, ◌≤◌, length, take};
ghost use Rattle.device.specs.Ring;
ghost use Rattle.device.specs.Ring.{peer_id, vector};
ghost use Rattle.words.specs.Layout.{hub_of};
ghost use Rattle.gate.specs.RingOutcome.{sent_at, outcome_list, Usable};
ghost use Rattle.deliveries.specs.Listed.{listed, Lists, ring_but, handed_out};

use device::{Delivery, PeerId, Vector};
use words::Entries;

// Who was delivered to, in ring order, and the vector: a call rings one vector, each id at most once. Address and data stand in
// the targets' entries, which no ring changes.
// A count beside an array, and no list with a `push`: the compiler copies that, and a reset at 4 by 4 takes 1.12 of the time.
// No invariant of the count: the fields are public, and it would ask more of whoever makes a list. `hand_out` asks for it, here and
// in `ivshmem`, and `Lists` gives it.
#[derive(Clone, Copy)]
pub struct Deliveries {
    pub count: usize,
    pub vector: Vector,
    pub targets: [u8; device::MAX_PEERS],
}

impl Deliveries {
    // The ids delivered to, in ring order.
    pub fn delivered(&self) -> &[u8]
        ensures { result.now ≡ take self.now.count self.now.targets }
    {
        &self.targets[..self.count.min(device::MAX_PEERS)]
    }
}

// Count 0: the list is empty, whatever hub its records would be made from.
pub fn none() -> Deliveries
    ensures { result.count ≡ 0 }
{
    let vector = Vector(0);
    Deliveries {
        count: 0,
        vector,
        targets: [0; device::MAX_PEERS],
    }
}

// One ring, and its deliveries: one or none. The id stands at every place of the list, as a byte: one that is delivered to fits.
pub fn ring_one(hub: &mut [u32], t: PeerId, v: Vector) -> Deliveries
    requires { Usable hub.old }
    ensures hub { hub_of hub.new ≡ (Ring.ring (hub_of hub.old) t v).hub }
    ensures deliveries { Lists (hub_of hub.new) result (Ring.ring (hub_of hub.old) t v).deliveries }
{
    let delivered = gate::ring(hub, t, v);
    Deliveries {
        count: usize::from(delivered),
        vector: v,
        targets: [(t.0 % 256) as u8; device::MAX_PEERS],
    }
}

// One turn of the rings at every other id: the sender is not rung.
fn ring_other(hub: &mut [u32], i: u16, who: u64) -> bool
    requires usable { Usable hub.old }
    requires known { i < (hub_of hub.old).settings.peers }
    ensures hub { hub_of hub.new ≡ (ring_but who (hub_of hub.old) i).hub }
    ensures deliveries { outcome_list (hub_of hub.old) (peer_id i) (vector 0) result ≡ (ring_but who (hub_of hub.old) i).deliveries }
{
    if u64::from(i) == who {
        return false;
    }
    gate::ring(hub, PeerId(i), Vector(0))
}

// Vector 0 rung at every other id, ascending.
pub fn ring_others(hub: &mut [u32], who: u64) -> Deliveries
    requires { Usable hub.old }
    ensures hub { hub_of hub.new ≡ (Ring.ring_others who (hub_of hub.old)).hub }
    ensures deliveries { Lists (hub_of hub.new) result (Ring.ring_others who (hub_of hub.old)).deliveries }
{
    let peers = words::settings(hub).peers;
    // An array of its own, so that it is not copied: with a list that has a `push`, a reset at 4 by 4 takes 1.12 of the time.
    let mut targets = [0; device::MAX_PEERS];
    let mut count = 0;
    for i in 0..peers as u16 {
        if ring_other(hub, i, who) {
            targets[count] = i as u8;
            count += 1;
        }
    }
    Deliveries {
        count,
        vector: Vector(0),
        targets,
    }
}

// The record of one delivery, made from the target's entry.
fn sent_in(entries: &Entries<'_>, target: u8, v: Vector) -> Delivery
    ensures { result ≡ sent_at (hub_of entries.now.hub.now) v target }
{
    let e = entries.at(usize::from(target), usize::from(v.0));
    Delivery {
        address: words::joined(e.low, e.high),
        payload: e.payload,
        target: PeerId(u16::from(target)),
        vector: v,
    }
}

pub fn sent(hub: &[u32], target: u8, v: Vector) -> Delivery
    ensures { result ≡ sent_at (hub_of hub.now) v target }
{
    sent_in(&Entries::of(hub), target, v)
}

// The deliveries written over the lent table from the front, and their count. The later records stay.
pub fn hand_out(hub: &[u32], table: &mut [Delivery], list: Deliveries) -> usize
    requires { (list.count ≤ length list.targets) × (list.count ≤ length table.old) }
    ensures { (table.new ≡ handed_out (listed (hub_of hub.now) list) table.old) × (result ≡ list.count) }
{
    let entries = Entries::of(hub);
    // An array of its own, so that it is not copied: over `list.delivered()` a doorbell takes 1.07 of the time.
    let targets = list.targets;
    for (i, target) in targets[..list.count].iter().enumerate() {
        table[i] = sent_in(&entries, *target, list.vector);
    }
    list.count
}
