// The first ten words: the settings.
ghost use Rattle.std.specs.Prelude.{true, ◌≡◌, ◌+◌, ◌*◌, ◌^◌, ◌<◌, ◌≤◌, length};
ghost use Rattle.words.specs.Layout.{hub_words, hub_of, fits, settings_of, Storable};
ghost use Rattle.words.specs.Parts.{settings_words, Set};

use device::Settings;

// The number of which these are the low and the high word.
pub fn joined(low: u32, high: u32) -> u64
    ensures { result ≡ low + 2 ^ 32 * high }
{
    u64::from(low) + 4294967296 * u64::from(high)
}

// By hand for the reason given at `settings_words`.
fn settings_from(hub: &[u32]) -> Settings
    requires { 10 ≤ length hub.now }
    ensures { result ≡ settings_of hub.now }
{
    Settings {
        peers: u64::from(hub[0]),
        vectors: u64::from(hub[1]),
        table: u64::from(hub[2]),
        common: u64::from(hub[3]),
        output: u64::from(hub[4]),
        base: joined(hub[5], hub[6]),
        protocol: u64::from(hub[7]),
        vendor: u64::from(hub[8]),
        subsystem: u64::from(hub[9]),
    }
}

pub fn settings(hub: &[u32]) -> Settings
    requires { fits hub.now ≡ true }
    ensures { result ≡ (hub_of hub.now).settings }
{
    settings_from(hub)
}

// By hand: the array and `Settings` are of other crates, so no `From` can stand here, nor in crate device, whose source is what its
// theorems speak of.
fn settings_words(s: Settings) -> [u32; 10]
    requires { Storable s }
    ensures { result ≡ settings_words s }
{
    [
        s.peers as u32,
        s.vectors as u32,
        s.table as u32,
        s.common as u32,
        s.output as u32,
        (s.base % 4294967296) as u32,
        (s.base / 4294967296) as u32,
        s.protocol as u32,
        s.vendor as u32,
        s.subsystem as u32,
    ]
}

// The words then are a hub of these settings, whatever stands in its slots.
pub fn put_settings(hub: &mut [u32], s: Settings)
    requires size { length hub.old ≡ hub_words s.peers s.vectors }
    requires small { Storable s }
    ensures { Set hub.old hub.new s }
{
    hub[..10].copy_from_slice(&settings_words(s));
}
