// Which calls are refused, and why.
ghost use Rattle.std.specs.Prelude.{◌≡◌, length, fold, max};
ghost use Rattle.reader.specs.Parts.{Due, step_number};
ghost use Rattle.reader.specs.Reading.{state, good, refusal, refusal_number};
ghost use Rattle.reader.specs.Sizes.{ids};

use super::Progress;
use super::steps::Step;
use std::error::Error;
use std::fmt;

// Why a call is refused.
#[derive(Clone, Copy, Debug, PartialEq, Eq)]
pub enum Refusal {
    // a number of vectors outside its range
    Vectors,
    // counts of another number
    Counts,
    // a progress, or counts, that no reader has
    Progress,
}

impl Refusal {
    pub fn number(self) -> u32
        ensures { result ≡ refusal_number self }
    {
        match self {
            Refusal::Vectors => 1,
            Refusal::Counts => 2,
            Refusal::Progress => 10,
        }
    }
}

impl fmt::Display for Refusal {
    fn fmt<W: fmt::Write>(&self, f: &mut fmt::Formatter<W>) -> fmt::Result {
        match self {
            Refusal::Vectors => write!(f, "the number of vectors is not 1 to 16"),
            Refusal::Counts => write!(f, "there are not 64 counts"),
            Refusal::Progress => write!(f, "no reader has this progress and these counts"),
        }
    }
}

impl Error for Refusal {}

// The largest count. Compared with the bounds once, it spares a test of each count.
fn largest(counts: &[u8]) -> u8
    ensures { result ≡ fold max 0 counts.now }
{
    counts.iter().copied().max().unwrap_or(0)
}

// A progress and counts that a reader may have at a step.
fn is_good(step: Step, p: Progress, counts: &[u8], vectors: u64) -> bool
    requires due { p.due ≡ step_number step }
    requires size { length counts.now ≡ ids }
    ensures { result ≡ good vectors (state p counts.now) }
{
    let most = u64::from(largest(counts));
    ((p.own as usize) < super::IDS)
        & (p.held <= 8)
        & (most <= vectors)
        & ((Step::Id < step) | (p.own == 0))
        & ((Step::Memory < step) | (most == 0))
}

// The step that is due, or the refusal: first the vectors, then the counts' number, then what they and the progress say.
pub fn due(p: Progress, counts: &[u8], vectors: u64) -> Result<Step, Refusal>
    ensures { Due (refusal vectors (state p counts.now)) p.due result }
{
    let ok = (1 <= vectors) & (vectors <= super::MOST_VECTORS);
    if !ok {
        return Err(Refusal::Vectors);
    }
    if counts.len() != super::IDS {
        return Err(Refusal::Counts);
    }
    let step = Step::try_from(p.due)?;
    if !is_good(step, p, counts, vectors) {
        return Err(Refusal::Progress);
    }
    Ok(step)
}
