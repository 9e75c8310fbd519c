// Whole runs of entries at once: those of several peers stand together in each column, so the compiler can vectorise. Words are
// collected by or, and tested once at the end.
ghost use Rattle.std.specs.Prelude.{◌&&◌, ◌≡◌, ◌+◌, ◌*◌, ◌≤◌, length};
ghost use Rattle.common.specs.Bytes.{only};
ghost use Rattle.common.specs.Tests.{below};
ghost use Rattle.device.specs.Sound.{entry_reset};
ghost use Rattle.words.specs.Layout.{hub_of, word};
ghost use Rattle.words.specs.Parts.{entry_from};
ghost use Rattle.words.specs.Runs.{Run, Stands, run_of};

use super::sizes::Counts;

// Where the entries of a run of peers stand in the first column, how many they are, and how far the columns are apart.
#[derive(Clone, Copy)]
struct Places {
    start: usize,
    size: usize,
    column: usize,
}

impl Places {
    fn of_run(hub: &[u32], from: usize, to: usize) -> Self
        requires { Run hub.now from to }
        ensures { Stands hub.now from to result }
    {
        let counts = Counts::stored(hub);
        Places {
            start: counts.entry_start(from, 0),
            size: (to - from) * counts.vectors,
            column: counts.column(),
        }
    }
}

// Two loops and not one with a closure over an entry: that tests the masks of each entry, in 1.3 of the time at 64 by 16.
// No word of a run has a bit set but those of the masks, in the first column and in the last.
fn words_only(hub: &[u32], at: Places, low: u32, control: u32) -> bool
    requires { at.start + at.size + 3 * at.column ≤ length hub.now }
    ensures { result ≡ below at.size (λ k. only low (word hub.now (at.start + k)) && only control (word hub.now (at.start + k + 3 * at.column))) }
{
    let mut lows = 0;
    let mut controls = 0;
    for k in 0..at.size {
        lows |= hub[at.start + k];
        controls |= hub[at.start + k + 3 * at.column];
    }
    ((lows & low) == lows) & ((controls & control) == controls)
}

// The words of a run hold their reset values, in all four columns.
fn words_reset(hub: &[u32], at: Places) -> bool
    requires { at.start + at.size + 3 * at.column ≤ length hub.now }
    ensures { result ≡ below at.size (λ k. entry_reset (entry_from hub.now (at.start + k) at.column)) }
{
    let mut faults = 0;
    for k in 0..at.size {
        let low = at.start + k;
        faults = faults
            | hub[low]
            | hub[low + at.column]
            | hub[low + 2 * at.column]
            | (hub[low + 3 * at.column] ^ 1);
    }
    faults == 0
}

// Two ids and no range, here and in `entries_reset`: the definition `run_of` takes two.
// No entry of the peers from one id up to another has a bit set but those of these masks, in its address-low and control words.
pub fn entries_only(hub: &[u32], from: usize, to: usize, low: u32, control: u32) -> bool
    requires { Run hub.now from to }
    ensures { result ≡ run_of (hub_of hub.now) from to (λ e. only low e.low && only control e.control) }
{
    words_only(hub, Places::of_run(hub, from, to), low, control)
}

// Every entry of these peers holds its reset values.
pub fn entries_reset(hub: &[u32], from: usize, to: usize) -> bool
    requires { Run hub.now from to }
    ensures { result ≡ run_of (hub_of hub.now) from to entry_reset }
{
    words_reset(hub, Places::of_run(hub, from, to))
}
