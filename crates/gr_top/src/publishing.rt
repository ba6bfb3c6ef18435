//! The command `publish`.

ghost use Rattle.std.specs.Prelude.{◌≡◌, ◌≢◌, ◌⊎◌, ◌≤◌, length, Ok, IfOk, IfErr, IfSome};
ghost use Rattle.gr_out.specs.Page.{TakesFront};
ghost use Rattle.gr_sched.specs.declared.step.TheConstants.{MAX_STEPS};
ghost use Rattle.gr_scenario.specs.Scenario.{asked_by, IsTooLarge};
ghost use Rattle.gr_top.specs.Submitter.{submitter_of};
ghost use Rattle.gr_top.specs.Publishing.{publishing_over, publishing_of, OnPublish, CanPublish, outside, PublishesTo};
ghost use Rattle.gr_top.specs.Publishing.{StopsPublishing, NotPublished};
ghost use Rattle.gr_top.specs.Answers.{publish_answer};
ghost use Rattle.gr_top.specs.Top.{IsAnswered, IsWhole, IsCut};
ghost use Rattle.gr_top.specs.Status.{SinkStatus, PostStatus};

use crate::printing::{print, print_line};
use crate::submitter::{Submitter, submitter_in};
use crate::submitting::submit;
use gr_event::Text;
use gr_out::{Post, Sink};
use gr_scenario::{Asked, read};
use gr_sched::Steps;
use gr_topo::Topology;
use std::alloc::{AllocError, Global};

/// What the bytes of a source and the word that names a publisher ask.
#[derive(Drop)]
pub enum Publishing {
    /// The bytes are more than a source may have.
    TooManyBytes,
    /// They have more counted lines behind the separator than a schedule may have.
    TooManySteps,
    /// They are no scenario, or no client can submit; with the line that says why.
    Refused(Text),
    /// The client of a publisher is to submit.
    Run {
        /// The topology.
        topology: Topology,
        /// Its steps.
        steps: Steps,
        /// The publisher's number.
        publisher: u16,
    },
}

/// Answers the bytes of a scenario: the client of the publisher that a word names submits, for so many turns. Gives the
/// status.
pub(crate) fn publish_bytes<P: Post, K: Sink>(
    alloc: Global,
    bytes: &[u8],
    word: &str,
    turns: u64,
    post: &mut P,
    sink: &mut K,
) -> u8
    ensures answered { IsWhole result → IfSome (publish_answer (publishing_of word.now (asked_by bytes.now)))
        (IsAnswered result (K.taken sink.old) (K.taken sink.new)) }
    ensures front { IsCut result → IfSome (publish_answer (publishing_of word.now (asked_by bytes.now)))
        (λ answer. TakesFront (K.taken sink.old) (K.taken sink.new) answer.text) }
    ensures published { result ≡ 0 → OnPublish (publishing_of word.now (asked_by bytes.now))
        (λ t lines p. PublishesTo t lines p turns P.tells
        (outside (K.taken sink.old) (P.journal post.old)) (outside (K.taken sink.new) (P.journal post.new)) (Ok tt)) }
    ensures stopped { IsCut result ⊎ (result ≡ 8) → OnPublish (publishing_of word.now (asked_by bytes.now))
        (λ t lines p. NotPublished
        (outside (K.taken sink.old) (P.journal post.old)) (outside (K.taken sink.new) (P.journal post.new)) result
        ⊎ StopsPublishing t lines p turns P.tells
        (outside (K.taken sink.old) (P.journal post.old)) (outside (K.taken sink.new) (P.journal post.new)) result) }
    ensures runs { IsWhole result → OnPublish (publishing_of word.now (asked_by bytes.now))
        (λ t lines p. result ≡ 0) }
    ensures refuses { result ≡ 8 → IfSome (publish_answer (publishing_of word.now (asked_by bytes.now)))
        (λ answer. ⊥) }
    ensures untouched { (result ≡ 2) ⊎ (result ≡ 9) → post.new ≡ post.old }
    ensures known { result ≢ 1 }
    ensures large_at_once { IsTooLarge (asked_by bytes.now) → result ≢ 7 }
    ensures post { PostStatus result (P.faults post.old) (P.faults post.new) }
    ensures sink { SinkStatus result (K.faults sink.old) (K.faults sink.new) }
    ensures complete { IsWhole result ⊎ (IsCut result ⊎ (result ≡ 8)) }
{
    match publishing_in(alloc, bytes, word) {
        Ok(publishing) => publish_asked(alloc, publishing, turns, post, sink),
        Err(_) => 7,
    }
}

/// Answers what is asked: a client submits for so many turns, or the line that says why not is printed. Gives the
/// status.
fn publish_asked<P: Post, K: Sink>(
    alloc: Global,
    publishing: Publishing,
    turns: u64,
    post: &mut P,
    sink: &mut K,
) -> u8
    requires { OnPublish publishing CanPublish }
    ensures answered { IsWhole result → IfSome (publish_answer publishing)
        (IsAnswered result (K.taken sink.old) (K.taken sink.new)) }
    ensures front { IsCut result → IfSome (publish_answer publishing)
        (λ answer. TakesFront (K.taken sink.old) (K.taken sink.new) answer.text) }
    ensures published { result ≡ 0 → OnPublish publishing (λ t lines p. PublishesTo t lines p turns P.tells
        (outside (K.taken sink.old) (P.journal post.old)) (outside (K.taken sink.new) (P.journal post.new)) (Ok tt)) }
    ensures stopped { IsCut result ⊎ (result ≡ 8) →
        OnPublish publishing (λ t lines p. StopsPublishing t lines p turns P.tells
        (outside (K.taken sink.old) (P.journal post.old)) (outside (K.taken sink.new) (P.journal post.new)) result) }
    ensures runs { IsWhole result → OnPublish publishing (λ t lines p. result ≡ 0) }
    ensures refuses { result ≡ 8 → IfSome (publish_answer publishing) (λ answer. ⊥) }
    ensures untouched { (result ≡ 2) ⊎ (result ≡ 9) → post.new ≡ post.old }
    ensures known { result ≢ 1 }
    ensures large { (publishing ≡ Publishing.TooManyBytes) ⊎ (publishing ≡ Publishing.TooManySteps) → result ≢ 7 }
    ensures post { PostStatus result (P.faults post.old) (P.faults post.new) }
    ensures sink { SinkStatus result (K.faults sink.old) (K.faults sink.new) }
    ensures complete { IsWhole result ⊎ (IsCut result ⊎ (result ≡ 8)) }
{
    match publishing {
        Publishing::TooManyBytes => print(sink, b"too-large bytes\n", 9),
        Publishing::TooManySteps => print(sink, b"too-large steps\n", 9),
        Publishing::Refused(line) => print_line(line, sink),
        Publishing::Run {
            topology,
            steps,
            publisher,
        } => submit(alloc, &topology, &steps, publisher, turns, post, sink),
    }
}

/// Reads what is asked: the scenario first, and then which publisher's client submits.
pub(crate) fn publishing_in(
    alloc: Global,
    bytes: &[u8],
    word: &str,
) -> Result<Publishing, AllocError>
    ensures publishing { IfOk result (λ p. p ≡ publishing_of word.now (asked_by bytes.now)) }
    ensures ready { IfOk result (λ p. OnPublish p CanPublish) }
    ensures large_at_once { IfErr result (λ refused. IsTooLarge (asked_by bytes.now) → ⊥) }
{
    match read(alloc, bytes) {
        Ok(Asked::TooManyBytes) => Ok(Publishing::TooManyBytes),
        Ok(Asked::TooManySteps) => Ok(Publishing::TooManySteps),
        Ok(Asked::Refused(line)) => Ok(Publishing::Refused(line)),
        Ok(Asked::Scenario { topology, steps }) => publishing_over(alloc, topology, steps, word),
        Err(_) => Err(AllocError),
    }
}

/// What is asked of a topology that was read with its steps.
fn publishing_over(
    alloc: Global,
    topology: Topology,
    steps: Steps,
    word: &str,
) -> Result<Publishing, AllocError>
    requires { length steps ≤ MAX_STEPS }
    ensures publishing { IfOk result (λ p. p ≡ publishing_over topology steps (submitter_of topology word.now)) }
    ensures ready { IfOk result (λ p. OnPublish p CanPublish) }
{
    match submitter_in(alloc, &topology, word) {
        Ok(Submitter::Refused(line)) => Ok(Publishing::Refused(line)),
        Ok(Submitter::Client(publisher)) => Ok(Publishing::Run {
            topology,
            steps,
            publisher,
        }),
        Err(_) => Err(AllocError),
    }
}
