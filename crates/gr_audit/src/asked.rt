//! Reading the scenario that stands before journals.

ghost use Rattle.std.specs.Prelude.{◌≡◌, IfOk, IfErr};
ghost use Rattle.gr_scenario.specs.Scenario.{IsScenario, IsTooLarge};
ghost use Rattle.gr_audit.specs.Asked.{asked_by};

use gr_journal::split;
use gr_scenario::Asked;
use gr_sched::MAX_INPUT_BYTES;
use std::alloc::{AllocError, Global};

/// Reads the scenario that stands before journals. That there are too many bytes, those of the journals among them,
/// comes first. Want of memory does not hide that there are too many bytes or steps.
pub fn read_scenario(alloc: Global, bytes: &[u8]) -> Result<Asked, AllocError>
    ensures asked { IfOk result (λ asked. asked ≡ asked_by bytes.now) }
    ensures ready { IfOk result IsScenario }
    ensures large_at_once { IfErr result (λ refused. IsTooLarge (asked_by bytes.now) → ⊥) }
{
    if bytes.len() > MAX_INPUT_BYTES {
        return Ok(Asked::TooManyBytes);
    }
    let (front, _) = split(bytes);
    gr_scenario::read(alloc, front)
}
