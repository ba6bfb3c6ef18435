//! The commands `serve` and `trace`.

ghost use Rattle.std.specs.Prelude.{◌≡◌, ◌≢◌, ◌⊎◌, Ok, IfOk, IfErr, IfSome};
ghost use Rattle.gr_out.specs.Page.{TakesFront};
ghost use Rattle.gr_scenario.specs.Scenario.{asked_by, IsTooLarge};
ghost use Rattle.gr_scenario.specs.Steps.{AreStepsOf};
ghost use Rattle.gr_top.specs.Words.{texts_of};
ghost use Rattle.gr_top.specs.Hosting.{hosting_of};
ghost use Rattle.gr_top.specs.Serving.{is_unheard, serving_over, serving_of, OnRun, CanRun, around, RunsTo};
ghost use Rattle.gr_top.specs.Serving.{StopsBy, NotBegun};
ghost use Rattle.gr_top.specs.Serving.{IsDamaged, AllRead};
ghost use Rattle.gr_top.specs.Answers.{answer_in};
ghost use Rattle.gr_top.specs.Top.{IsAnswered, IsWhole, IsCut, IsStop};
ghost use Rattle.gr_top.specs.Status.{SinkStatus, DiskStatus, PostStatus};

use crate::hosting::{Hosting, clients_line, hosted_in};
use crate::printing::{print, print_line};
use crate::running::run;
use crate::voice::Voice;
use gr_audit::has_clients;
use gr_event::{Numbers, Text};
use gr_out::{Disk, Sink};
use gr_pace::Paced;
use gr_scenario::{Asked, read};
use gr_sched::Steps;
use gr_topo::Topology;
use std::alloc::{AllocError, Global};

/// What the bytes of a source and the words that name brokers ask.
#[derive(Drop)]
pub enum Serving {
    /// The bytes are more than a source may have.
    TooManyBytes,
    /// They have more counted lines behind the separator than a schedule may have.
    TooManySteps,
    /// They are no scenario, or the brokers cannot serve; with the line that says why.
    Refused(Text),
    /// The brokers are to serve.
    Run {
        /// The topology.
        topology: Topology,
        /// Its steps.
        steps: Steps,
        /// The brokers' numbers, in rising order and each once.
        brokers: Numbers,
    },
}

/// Answers the bytes of a scenario: the brokers that words name serve for so many turns. Gives the status.
pub(crate) fn serve_bytes<D: Disk, P: Paced, K: Sink>(
    alloc: Global,
    bytes: &[u8],
    voice: Voice,
    words: &[&str],
    turns: u64,
    disk: &mut D,
    post: &mut P,
    sink: &mut K,
) -> u8
    ensures answered { IsWhole result → IfSome (answer_in (serving_of voice (texts_of words.now) (asked_by bytes.now)))
        (IsAnswered result (K.taken sink.old) (K.taken sink.new)) }
    ensures front { IsCut result → IfSome (answer_in (serving_of voice (texts_of words.now) (asked_by bytes.now)))
        (λ answer. TakesFront (K.taken sink.old) (K.taken sink.new) answer.text) }
    ensures served { result ≡ 0 → OnRun (serving_of voice (texts_of words.now) (asked_by bytes.now))
        (λ t lines hosted. RunsTo voice t lines hosted turns P.tells D.tells
        (around (K.taken sink.old) (P.journal post.old) (D.lane_of disk.old))
        (around (K.taken sink.new) (P.journal post.new) (D.lane_of disk.new)) (Ok tt)) }
    ensures stopped { IsCut result ⊎ IsStop result → OnRun (serving_of voice (texts_of words.now) (asked_by bytes.now))
        (λ t lines hosted. NotBegun
        (around (K.taken sink.old) (P.journal post.old) (D.lane_of disk.old))
        (around (K.taken sink.new) (P.journal post.new) (D.lane_of disk.new)) result
        ⊎ StopsBy voice t lines hosted turns P.tells D.tells
        (around (K.taken sink.old) (P.journal post.old) (D.lane_of disk.old))
        (around (K.taken sink.new) (P.journal post.new) (D.lane_of disk.new)) result) }
    ensures damaged { result ≡ 6 → D.tells → OnRun (serving_of voice (texts_of words.now) (asked_by bytes.now))
        (λ t lines hosted. IsDamaged t hosted (D.lane_of disk.old)) }
    ensures undamaged { result ≡ 0 → D.tells → OnRun (serving_of voice (texts_of words.now) (asked_by bytes.now))
        (λ t lines hosted. AllRead t hosted (D.lane_of disk.old)) }
    ensures runs { IsWhole result → OnRun (serving_of voice (texts_of words.now) (asked_by bytes.now))
        (λ t lines hosted. result ≡ 0) }
    ensures refuses { IsStop result → IfSome (answer_in (serving_of voice (texts_of words.now) (asked_by bytes.now)))
        (λ answer. ⊥) }
    ensures untouched { (result ≡ 2) ⊎ (result ≡ 9) → (disk.new ≡ disk.old) × (post.new ≡ post.old) }
    ensures known { result ≢ 1 }
    ensures large_at_once { IsTooLarge (asked_by bytes.now) → result ≢ 7 }
    ensures disk { DiskStatus result (D.faults disk.old) (D.stops disk.old) (D.faults disk.new) (D.stops disk.new) }
    ensures post { PostStatus result (P.faults post.old) (P.faults post.new) }
    ensures sink { SinkStatus result (K.faults sink.old) (K.faults sink.new) }
    ensures complete { IsWhole result ⊎ (IsCut result ⊎ IsStop result) }
{
    match serving_in(alloc, bytes, voice, words) {
        Ok(serving) => serve_asked(alloc, serving, voice, turns, disk, post, sink),
        Err(_) => 7,
    }
}

/// Answers what is asked: brokers serve for so many turns, or the line that says why not is printed. Gives the status.
fn serve_asked<D: Disk, P: Paced, K: Sink>(
    alloc: Global,
    serving: Serving,
    voice: Voice,
    turns: u64,
    disk: &mut D,
    post: &mut P,
    sink: &mut K,
) -> u8
    requires { OnRun serving (CanRun voice) }
    ensures answered { IsWhole result → IfSome (answer_in serving)
        (IsAnswered result (K.taken sink.old) (K.taken sink.new)) }
    ensures front { IsCut result → IfSome (answer_in serving)
        (λ answer. TakesFront (K.taken sink.old) (K.taken sink.new) answer.text) }
    ensures served { result ≡ 0 → OnRun serving (λ t lines hosted. RunsTo voice t lines hosted turns P.tells D.tells
        (around (K.taken sink.old) (P.journal post.old) (D.lane_of disk.old))
        (around (K.taken sink.new) (P.journal post.new) (D.lane_of disk.new)) (Ok tt)) }
    ensures stopped { IsCut result ⊎ IsStop result →
        OnRun serving (λ t lines hosted. StopsBy voice t lines hosted turns P.tells D.tells
        (around (K.taken sink.old) (P.journal post.old) (D.lane_of disk.old))
        (around (K.taken sink.new) (P.journal post.new) (D.lane_of disk.new)) result) }
    ensures damaged { result ≡ 6 → D.tells →
        OnRun serving (λ t lines hosted. IsDamaged t hosted (D.lane_of disk.old)) }
    ensures undamaged { result ≡ 0 → D.tells →
        OnRun serving (λ t lines hosted. AllRead t hosted (D.lane_of disk.old)) }
    ensures runs { IsWhole result → OnRun serving (λ t lines hosted. result ≡ 0) }
    ensures refuses { IsStop result → IfSome (answer_in serving) (λ answer. ⊥) }
    ensures untouched { (result ≡ 2) ⊎ (result ≡ 9) → (disk.new ≡ disk.old) × (post.new ≡ post.old) }
    ensures known { result ≢ 1 }
    ensures large { (serving ≡ Serving.TooManyBytes) ⊎ (serving ≡ Serving.TooManySteps) → result ≢ 7 }
    ensures disk { DiskStatus result (D.faults disk.old) (D.stops disk.old) (D.faults disk.new) (D.stops disk.new) }
    ensures post { PostStatus result (P.faults post.old) (P.faults post.new) }
    ensures sink { SinkStatus result (K.faults sink.old) (K.faults sink.new) }
    ensures complete { IsWhole result ⊎ (IsCut result ⊎ IsStop result) }
{
    match serving {
        Serving::TooManyBytes => print(sink, b"too-large bytes\n", 9),
        Serving::TooManySteps => print(sink, b"too-large steps\n", 9),
        Serving::Refused(line) => print_line(line, sink),
        Serving::Run {
            topology,
            steps,
            brokers,
        } => run(
            alloc,
            voice,
            &topology,
            &steps,
            brokers.as_slice(),
            turns,
            disk,
            post,
            sink,
        ),
    }
}

/// Reads what is asked: the scenario first, and then which of its brokers serve.
pub(crate) fn serving_in(
    alloc: Global,
    bytes: &[u8],
    voice: Voice,
    words: &[&str],
) -> Result<Serving, AllocError>
    ensures serving { IfOk result (λ s. s ≡ serving_of voice (texts_of words.now) (asked_by bytes.now)) }
    ensures ready { IfOk result (λ s. OnRun s (CanRun voice)) }
    ensures large_at_once { IfErr result (λ refused. IsTooLarge (asked_by bytes.now) → ⊥) }
{
    match read(alloc, bytes) {
        Ok(Asked::TooManyBytes) => Ok(Serving::TooManyBytes),
        Ok(Asked::TooManySteps) => Ok(Serving::TooManySteps),
        Ok(Asked::Refused(line)) => Ok(Serving::Refused(line)),
        Ok(Asked::Scenario { topology, steps }) => serving_over(
            alloc, voice, topology, steps, words,
        ),
        Err(_) => Err(AllocError),
    }
}

/// Whether brokers of a topology can write this: a journal only where no publisher has a client.
fn is_unheard(voice: Voice, topo: &Topology) -> bool
    ensures { result ≡ is_unheard voice topo.now }
{
    match voice {
        Voice::Report => true,
        Voice::Journal => !has_clients(topo),
    }
}

/// What is asked of a topology that was read with its steps.
fn serving_over(
    alloc: Global,
    voice: Voice,
    topology: Topology,
    steps: Steps,
    words: &[&str],
) -> Result<Serving, AllocError>
    requires { AreStepsOf topology steps }
    ensures serving { IfOk result (λ s.
        s ≡ serving_over voice topology steps (hosting_of topology (texts_of words.now))) }
    ensures ready { IfOk result (λ s. OnRun s (CanRun voice)) }
{
    match hosted_in(alloc, &topology, words) {
        Ok(Hosting::Refused(line)) => Ok(Serving::Refused(line)),
        Ok(Hosting::Hosted(brokers)) => {
            if !is_unheard(voice, &topology) {
                return Ok(Serving::Refused(clients_line(alloc)?));
            }
            Ok(Serving::Run {
                topology,
                steps,
                brokers,
            })
        }
        Err(_) => Err(AllocError),
    }
}
