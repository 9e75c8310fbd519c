// The numbers accepted at set-up.
ghost use Rattle.std.specs.Prelude.{◌≡◌, true, ◌^◌, ◌<◌, SomeIff};
ghost use Rattle.device.specs.SetUp;

use device::Settings;

// The most bytes that all sections may have together.
const MOST_BYTES: u64 = 0x40000000;

// The lowest base: below it is low memory, where firmware stands.
const MIN_BASE: u64 = 0x100000;

// Guest physical addresses have 64 bits.
const ADDRESSES: u128 = 0x10000000000000000;

// The bytes of all sections together, where the number has 64 bits.
fn sum(s: Settings) -> Option<u64>
    ensures { SomeIff result (SetUp.total s < 2 ^ 64) (SetUp.total s) }
{
    s.peers
        .checked_mul(s.output)?
        .checked_add(s.table)?
        .checked_add(s.common)
}

fn tested(s: Settings, all: u64) -> bool
    requires { all ≡ SetUp.total s }
    ensures { result ≡ SetUp.accepted s }
{
    (2 <= s.peers)
        & (s.peers <= device::max_peers() as u64)
        & (1 <= s.vectors)
        & (s.vectors <= device::max_vectors() as u64)
        & (s.table != 0)
        & (s.table % 4096 == 0)
        & (s.peers <= s.table / 4)
        & (s.common % 4096 == 0)
        & (s.output % 4096 == 0)
        & (all <= MOST_BYTES)
        & (s.base % 4096 == 0)
        & (MIN_BASE <= s.base)
        & (u128::from(s.base) + u128::from(all) <= ADDRESSES)
        & (s.protocol < 65536)
        & (s.vendor < 65536)
        & (s.subsystem < 65536)
}

pub fn accepted(s: Settings) -> bool
    ensures { result ≡ SetUp.accepted s }
{
    sum(s).is_some_and(|all| tested(s, all))
}

// The region's length. A clause says that the settings are accepted: `Settings` is of crate device, and a type around it would be
// made and taken apart at each call.
pub fn total(s: Settings) -> u64
    requires { SetUp.accepted s ≡ true }
    ensures { result ≡ SetUp.total s }
{
    sum(s).unwrap()
}
