//! The command `audit`.

ghost use Rattle.std.specs.Prelude.{◌≡◌, ◌≢◌, ◌⊎◌, ℕ, ◌++◌, List, [], ◌∷◌, Ok, IfOk};
ghost use Rattle.gr_out.specs.Bytes.{with_more};
ghost use Rattle.gr_out.specs.Page.{TakesFront};
ghost use Rattle.gr_scenario.specs.Scenario.{IsTooLarge};
ghost use Rattle.gr_scenario.specs.Steps.{AreStepsOf};
ghost use Rattle.gr_journal.specs.Gives.{Gives};
ghost use Rattle.gr_audit.specs.Asked.{asked_by};
ghost use Rattle.gr_top.specs.Auditing.{why_word, verdict_line, bad_line, said_of, IsRight, WasAudited};
ghost use Rattle.gr_top.specs.Answers.{said_answer, audit_answer};
ghost use Rattle.gr_top.specs.Top.{IsAnswered, IsWhole, IsCut};
ghost use Rattle.gr_top.specs.Status.{SinkStatus, WholeOrCut, DoneOrCut};

use crate::printing::{print, print_line};
use gr_audit::{AuditFault, Verdict, Why, audit, read_scenario, stuck_is_exact};
use gr_audit_run::Brokers;
use gr_audit_theorems::a_yes_is_one_honest_run;
use gr_event::Text;
use gr_journal::split;
use gr_model::topologies::every_topology_is_a_tree;
use gr_out::Sink;
use gr_report::steps_fit_the_theorems;
use gr_scenario::Asked;
use gr_sched::Steps;
use gr_topo::Topology;
use std::alloc::{AllocError, Global};
use std::mem::forget;

/// Answers the bytes of a scenario and of journals: the journals are audited. Gives the status.
pub(crate) fn audit_bytes<K: Sink>(alloc: Global, bytes: &[u8], sink: &mut K) -> u8
    ensures audited { result ≡ 0 → WasAudited (K.taken sink.old) (K.taken sink.new) bytes.now }
    ensures answered { IsWhole result →
        IsAnswered result (K.taken sink.old) (K.taken sink.new) (audit_answer bytes.now (asked_by bytes.now)) }
    ensures front { IsCut result →
        TakesFront (K.taken sink.old) (K.taken sink.new) (audit_answer bytes.now (asked_by bytes.now)).text }
    ensures large_at_once { IsTooLarge (asked_by bytes.now) → result ≢ 7 }
    ensures known { result ≢ 1 }
    ensures sink { SinkStatus result (K.faults sink.old) (K.faults sink.new) }
    ensures complete { WholeOrCut result }
{
    match read_scenario(alloc, bytes) {
        Ok(Asked::TooManyBytes) => print(sink, b"too-large bytes\n", 9),
        Ok(Asked::TooManySteps) => print(sink, b"too-large steps\n", 9),
        Ok(Asked::Refused(line)) => print_line(line, sink),
        Ok(Asked::Scenario { topology, steps }) => {
            let status = audit_journals(alloc, &topology, &steps, bytes, sink);
            // The process ends, and gives all memory back at once.
            forget(steps);
            forget(topology);
            status
        }
        Err(_) => 7,
    }
}

/// Audits the journals that stand behind a scenario, and prints what is said of them. Gives the status.
fn audit_journals<K: Sink>(
    alloc: Global,
    topo: &Topology,
    steps: &Steps,
    bytes: &[u8],
    sink: &mut K,
) -> u8
    requires asked { asked_by bytes.now ≡ Asked.Scenario topo.now steps.now }
    requires steps { AreStepsOf topo.now steps.now }
    ensures audited { result ≡ 0 → WasAudited (K.taken sink.old) (K.taken sink.new) bytes.now }
    ensures answered { IsWhole result → IsAnswered result (K.taken sink.old) (K.taken sink.new)
        (said_answer (said_of topo.now steps.now bytes.now)) }
    ensures front { IsCut result → TakesFront (K.taken sink.old) (K.taken sink.new)
        (said_answer (said_of topo.now steps.now bytes.now)).text }
    ensures known { result ≢ 1 }
    ensures sink { SinkStatus result (K.faults sink.old) (K.faults sink.new) }
    ensures complete { WholeOrCut result }
{
    every_verdict_is_right(topo, steps);
    match audited(alloc, topo, steps, bytes) {
        Ok(verdict) => print_verdict(alloc, verdict, sink),
        Err(AuditFault::BadLine { line }) => print_bad_line(alloc, line, sink),
        Err(AuditFault::Clients) => print(sink, b"audit 2 clients\n", 2),
        Err(AuditFault::Memory) => 7,
    }
}

/// What is said of the journals that stand behind a scenario: their brokers run over what came to them.
fn audited(
    alloc: Global,
    topo: &Topology,
    steps: &Steps,
    bytes: &[u8],
) -> Result<Verdict, AuditFault>
    requires asked { asked_by bytes.now ≡ Asked.Scenario topo.now steps.now }
    requires steps { AreStepsOf topo.now steps.now }
    ensures { Gives (λ v. v) result (said_of topo.now steps.now bytes.now) }
{
    let (_, journals) = split(bytes);
    audit(alloc, topo, &Brokers { steps }, journals)
}

/// What is said of journals is right, over every topology that was read and its steps. The function does nothing: its
/// contract is the theorem.
fn every_verdict_is_right(topo: &Topology, steps: &Steps)
    requires { AreStepsOf topo.now steps.now }
    ensures { (bytes : List ℕ) (verdict : Verdict) → said_of topo.now steps.now bytes ≡ Ok verdict
        → IsRight topo.now steps.now bytes verdict }
{
    every_topology_is_a_tree(topo);
    steps_fit_the_theorems();
    a_yes_is_one_honest_run();
    stuck_is_exact();
    let _ = topo.brokers();
    let _ = steps;
}

/// Prints a verdict. Gives the status.
fn print_verdict<K: Sink>(alloc: Global, verdict: Verdict, sink: &mut K) -> u8
    ensures printed { result ≡ 0 →
        K.taken sink.new ≡ with_more (K.taken sink.old) (verdict_line verdict ++ 10 ∷ []) }
    ensures front { IsCut result →
        TakesFront (K.taken sink.old) (K.taken sink.new) (verdict_line verdict ++ 10 ∷ []) }
    ensures sink { SinkStatus result (K.faults sink.old) (K.faults sink.new) }
    ensures complete { DoneOrCut result }
{
    match verdict_line(alloc, verdict) {
        Ok(line) => print(sink, line.as_slice(), 0),
        Err(_) => 7,
    }
}

/// Prints which line is none of a journal. Gives the status.
fn print_bad_line<K: Sink>(alloc: Global, line: u32, sink: &mut K) -> u8
    ensures printed { result ≡ 2 →
        K.taken sink.new ≡ with_more (K.taken sink.old) (bad_line line ++ 10 ∷ []) }
    ensures front { IsCut result → TakesFront (K.taken sink.old) (K.taken sink.new) (bad_line line ++ 10 ∷ []) }
    ensures sink { SinkStatus result (K.faults sink.old) (K.faults sink.new) }
    ensures complete { (result ≡ 2) ⊎ IsCut result }
{
    match bad_line(alloc, line) {
        Ok(line) => print_line(line, sink),
        Err(_) => 7,
    }
}

/// The line of a verdict, with its end.
fn verdict_line(alloc: Global, verdict: Verdict) -> Result<Text, AllocError>
    ensures { IfOk result (λ line. line ≡ verdict_line verdict ++ 10 ∷ []) }
{
    match verdict {
        Verdict::Yes => Text::from_slice(alloc, b"yes\n"),
        Verdict::No { line, why } => {
            let mut text = Text::from_slice(alloc, b"no")?;
            text.append_number(b' ', u64::from(line))?;
            text.append_word(b' ', why_word(why))?;
            text.push(b'\n')?;
            Ok(text)
        }
    }
}

/// The word of a reason.
fn why_word<'a>(why: Why) -> &'a [u8]
    ensures { result.now ≡ why_word why }
{
    match why {
        Why::NotHosted => b"not-hosted",
        Why::Differs => b"differs",
        Why::Unoffered => b"unoffered",
    }
}

/// The line that says which line is none of a journal.
fn bad_line(alloc: Global, line: u32) -> Result<Text, AllocError>
    ensures { IfOk result (λ text. text ≡ bad_line line) }
{
    let mut text = Text::from_slice(alloc, b"audit 1 bad-line")?;
    text.append_number(b' ', u64::from(line))?;
    Ok(text)
}
