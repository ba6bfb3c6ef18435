//! Reading what the bytes of a source ask.

ghost use Rattle.std.specs.Prelude.{◌≡◌, ◌≤◌, nat_lt, if◌then◌else◌, length, IfOk, IfErr};
ghost use Rattle.gr_sched.specs.declared.step.TheConstants.{MAX_INPUT_BYTES, MAX_STEPS};
ghost use Rattle.gr_sched.specs.Text.{counted_lines};
ghost use Rattle.gr_topo.specs.Read.{topology_text};
ghost use Rattle.gr_scenario.specs.declared.asked.Asked.TheVariants.{TooManySteps};
ghost use Rattle.gr_scenario.specs.Scenario.{asked_of_parts, asked_by, IsScenario, IsTooLarge};

use crate::asked::Asked;
use crate::law::steps_that_are_read;
use crate::refusals::{line_of_step, line_of_topology};
use gr_sched::{MAX_INPUT_BYTES, MAX_STEPS, count, parse, split};
use gr_topo::Topology;
use std::alloc::{AllocError, Global};

/// Reads the bytes of a source. That there are too many bytes comes first, then that there are too many steps, then
/// what is wrong with the topology, and then what is wrong with a step. Want of memory hides neither size.
pub fn read(alloc: Global, bytes: &[u8]) -> Result<Asked, AllocError>
    ensures asked { IfOk result (λ asked. asked ≡ asked_by bytes.now) }
    ensures ready { IfOk result IsScenario }
    ensures large_at_once { IfErr result (λ refused. IsTooLarge (asked_by bytes.now) → ⊥) }
{
    if bytes.len() > MAX_INPUT_BYTES {
        return Ok(Asked::TooManyBytes);
    }
    let (front, back) = split(bytes);
    read_parts(alloc, front, back)
}

/// Whether there are more steps than a schedule may have. It is asked only where reading ends with a fault, so that
/// where all is well each line is walked once.
fn has_too_many_steps(back: &[u8]) -> bool
    ensures { result ≡ nat_lt MAX_STEPS (length (counted_lines back.now)) }
{
    count(back) > MAX_STEPS
}

/// Reads the two parts of a scenario: the topology, and then the steps with its names.
fn read_parts(alloc: Global, front: &[u8], back: &[u8]) -> Result<Asked, AllocError>
    requires { length back.now ≤ MAX_INPUT_BYTES }
    ensures asked { let many = nat_lt MAX_STEPS (length (counted_lines back.now)) in IfOk result (λ asked.
        asked ≡ if many then TooManySteps else asked_of_parts (topology_text front.now) back.now) }
    ensures ready { IfOk result IsScenario }
    ensures few { IfErr result (λ refused. length (counted_lines back.now) ≤ MAX_STEPS) }
{
    match Topology::read(alloc, front) {
        Ok(topology) => read_steps(alloc, topology, back),
        Err(_) if has_too_many_steps(back) => Ok(Asked::TooManySteps),
        Err(fault) => Ok(Asked::Refused(line_of_topology(alloc, &fault)?)),
    }
}

/// Reads the steps with the names of a topology.
fn read_steps(alloc: Global, topology: Topology, back: &[u8]) -> Result<Asked, AllocError>
    requires { length back.now ≤ MAX_INPUT_BYTES }
    ensures asked { let many = nat_lt MAX_STEPS (length (counted_lines back.now)) in IfOk result (λ asked.
        asked ≡ if many then TooManySteps else asked_of_parts (Ok topology) back.now) }
    ensures ready { IfOk result IsScenario }
    ensures few { IfErr result (λ refused. length (counted_lines back.now) ≤ MAX_STEPS) }
{
    match parse(alloc, back, &topology) {
        Ok(steps) => {
            // Proof only: the steps that are read are steps of the topology.
            steps_that_are_read();
            Ok(Asked::Scenario { topology, steps })
        }
        Err(_) if has_too_many_steps(back) => Ok(Asked::TooManySteps),
        Err(fault) => Ok(Asked::Refused(line_of_step(alloc, fault)?)),
    }
}
