// The calls of the library that a host links, one function for each; crates/ivshmem_c exports them. Numbers are plain and memory is
// lent. The calls that may ring other peers are here; host.rt and guest.rt have the others.
#![tactic(auto)]

ghost use Rattle.std.specs.Prelude.{ℕ, ◌≡◌, ◌≤◌, length, IfOk, MatchResult};
ghost use Rattle.device.specs.Call.{Act};
ghost use Rattle.words.specs.Layout.{hub_of};
ghost use Rattle.deliveries.specs.Listed.{listed, handed_out};
ghost use Rattle.hub.specs.Answered.{done_reply};
ghost use Rattle.ivshmem.specs.Promises.{HandsOut};

use deliveries::Deliveries;
use device::{Delivery, Reply};
use hub::Refusal;

pub mod guest;
pub mod host;
mod replies;

// The numbers that a hub is set up with, as a host hands them in.
#[repr(C)]
#[derive(Clone, Copy)]
pub struct SetUpNumbers {
    pub peers: u64,
    pub vectors: u64,
    pub table: u64,
    pub common: u64,
    pub output: u64,
    pub base: u64,
    pub protocol: u16,
    pub vendor: u16,
    pub subsystem: u16,
}

// An answer, and the number of records written, which is for the host alone. C has a struct of numbers for a `Result`.
#[repr(C)]
#[derive(Clone, Copy)]
pub struct Counted {
    pub reply: Reply,
    pub count: usize,
}

// The answer to the section question, in numbers, since C has no `SectionKind`: the kind, the owner's id where there is one, and 1
// where the peer may store.
#[repr(C)]
#[derive(Clone, Copy)]
pub struct SectionNumbers {
    pub reply: Reply,
    pub kind: u32,
    pub owner: u32,
    pub store: u32,
}

// The deliveries of a call written over the table from the front. A refusal has none.
fn hand_out(hub: &[u32], table: &mut [Delivery], served: Result<Deliveries, Refusal>) -> Counted
    requires { IfOk served (λ list. (list.count ≤ length list.targets) × (list.count ≤ length table.old)) }
    ensures reply { result.reply ≡ done_reply served }
    ensures table { MatchResult served (λ list. table.new ≡ handed_out (listed (hub_of hub.now) list) table.old)
        (λ _. table.new ≡ table.old) }
    ensures count { MatchResult served (λ list. result.count ≡ list.count) (λ _. result.count ≡ 0) }
{
    let count = match served {
        Ok(list) => deliveries::hand_out(hub, table, list),
        Err(_) => 0,
    };
    Counted {
        reply: replies::done(served),
        count,
    }
}

pub fn ivshmem_register_write(
    hub: &mut [u32],
    region: &mut [u8],
    table: &mut [Delivery],
    id: u64,
    offset: u64,
    width: u64,
    value: u32,
) -> Counted
    ensures { HandsOut hub.old hub.new region.old region.new
        table.old table.new id (λ (n : ℕ). Act.register_write n offset width value) result }
{
    let served = hub::register_write(hub, region, table.len() as u64, id, offset, width, value);
    hand_out(hub, table, served)
}

pub fn ivshmem_reset(hub: &mut [u32], region: &mut [u8], table: &mut [Delivery], id: u64) -> Counted
    ensures { HandsOut hub.old hub.new region.old region.new
        table.old table.new id Act.reset result }
{
    let served = hub::reset(hub, region, table.len() as u64, id);
    hand_out(hub, table, served)
}

pub fn ivshmem_disconnect(
    hub: &mut [u32],
    region: &mut [u8],
    table: &mut [Delivery],
    id: u64,
) -> Counted
    ensures { HandsOut hub.old hub.new region.old region.new
        table.old table.new id Act.disconnect result }
{
    let served = hub::disconnect(hub, region, table.len() as u64, id);
    hand_out(hub, table, served)
}
