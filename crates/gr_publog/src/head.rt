//! How a lane stands, by its first bytes, and which of two lanes is present.

ghost use Rattle.std.specs.Prelude.{◌≡◌, ◌≤◌, length, min, MatchResult, IfOk, Ok};
ghost use Rattle.gr_publog.specs.Text.{glog, header_fault, generation_in, head_in, IsStanding};
ghost use Rattle.gr_publog.specs.Lanes.{chosen};
ghost use Rattle.gr_publog.specs.Gives.{Fails};

use crate::numbers::eight;
use crate::record::{LogFault, MAX_TICK};

/// How a lane stands.
#[derive(Clone, Copy, Debug, PartialEq, Eq)]
pub enum Standing {
    /// It has at most 6 bytes, or its byte 5 is not 1: it is not read.
    Shut,
    /// Open, of the first version.
    Old,
    /// Open, of the second version, with its generation.
    New(u64),
}

/// Which of two lanes is present, and how it stands.
#[derive(Clone, Copy, Debug, PartialEq, Eq)]
pub enum Present {
    /// None: both are shut.
    Neither,
    /// The first one.
    First(Standing),
    /// The second one.
    Second(Standing),
}

/// The place of the first byte that differs from `GLOG`, or 4.
fn glog_fault(bytes: &[u8]) -> u64
    ensures { result ≡ header_fault 0 glog bytes.now }
{
    match bytes {
        [b'G', b'L', b'O', b'G', ..] => 4,
        [b'G', b'L', b'O', ..] => 3,
        [b'G', b'L', ..] => 2,
        [b'G', ..] => 1,
        _ => 0,
    }
}

/// The generation in the head of a lane of so many bytes.
fn generation_in(total: u64, front: &[u8]) -> Result<Standing, LogFault>
    requires { min total 14 ≤ length front.now }
    ensures gives { let read = generation_in total front.now in
        MatchResult result (λ x. read ≡ Ok x) (λ e. Fails e read) }
    ensures sound { IfOk result (λ x. IsStanding total x) }
{
    if total < 14 {
        return Err(LogFault::Damaged { at: total });
    }
    let generation = eight(&front[6..14]);
    if generation < 1 || generation > MAX_TICK {
        return Err(LogFault::Damaged { at: 6 });
    }
    Ok(Standing::New(generation))
}

/// How a lane of so many bytes stands, by its first 14 or all that it has. The first version stands in the first lane
/// alone.
#[tactic(auto, unfolding(crate::specs::Text::head_in))]
pub(crate) fn head_in(first: bool, total: u64, front: &[u8]) -> Result<Standing, LogFault>
    requires { min total 14 ≤ length front.now }
    ensures gives { let read = head_in first total front.now in
        MatchResult result (λ x. read ≡ Ok x) (λ e. Fails e read) }
    ensures sound { IfOk result (λ x. IsStanding total x) }
{
    if total <= 6 || front[5] != 1 {
        return Ok(Standing::Shut);
    }
    let fault = glog_fault(front);
    if fault < 4 {
        return Err(LogFault::Damaged { at: fault });
    }
    if front[4] == 2 {
        return generation_in(total, front);
    }
    if first && front[4] == 1 {
        return Ok(Standing::Old);
    }
    Err(LogFault::Damaged { at: 4 })
}

/// Which of two lanes is present: one of the second version before one of the first, and of two of the second version
/// the one with the greater generation.
pub(crate) fn chosen(first: Standing, second: Standing) -> Result<Present, LogFault>
    ensures { let read = chosen first second in
        MatchResult result (λ x. read ≡ Ok x) (λ e. Fails e read) }
{
    match first {
        Standing::Shut => match second {
            Standing::Shut => Ok(Present::Neither),
            Standing::Old => Ok(Present::Second(second)),
            Standing::New(_) => Ok(Present::Second(second)),
        },
        Standing::Old => match second {
            Standing::Shut => Ok(Present::First(first)),
            Standing::Old => Ok(Present::Second(second)),
            Standing::New(_) => Ok(Present::Second(second)),
        },
        Standing::New(generation) => match second {
            Standing::Shut => Ok(Present::First(first)),
            Standing::Old => Ok(Present::First(first)),
            Standing::New(other) => later(generation, other),
        },
    }
}

/// Which of two lanes of the second version is present.
fn later(generation: u64, other: u64) -> Result<Present, LogFault>
    ensures { let read = chosen (Standing.New generation) (Standing.New other) in
        MatchResult result (λ x. read ≡ Ok x) (λ e. Fails e read) }
{
    if generation == other {
        return Err(LogFault::Damaged { at: 6 });
    }
    if other < generation {
        Ok(Present::First(Standing::New(generation)))
    } else {
        Ok(Present::Second(Standing::New(other)))
    }
}
