//! The top call.

ghost use Rattle.std.specs.Prelude.{◌≡◌, ◌≢◌, ◌⊎◌, false, Ok, IfSome};
ghost use Rattle.gr_out.specs.Faults.{Rose};
ghost use Rattle.gr_out.specs.Bytes.{IsAtEnd};
ghost use Rattle.gr_out.specs.Page.{TakesFront};
ghost use Rattle.gr_publog.specs.Crash.{EitherRose};
ghost use Rattle.gr_scenario.specs.Scenario.{asked_by};
ghost use Rattle.gr_top.specs.Words.{texts_of, task_by, is_known, IsReading, IsServing, IsPosting};
ghost use Rattle.gr_top.specs.Serving.{IfRun, around, RunsTo, StopsBy, NotBegun, IsDamaged};
ghost use Rattle.gr_top.specs.Serving.{AllRead};
ghost use Rattle.gr_top.specs.Publishing.{IfPublish, outside, PublishesTo, StopsPublishing};
ghost use Rattle.gr_top.specs.Publishing.{NotPublished};
ghost use Rattle.gr_top.specs.Auditing.{WasAudited};
ghost use Rattle.gr_top.specs.Answers.{answer_of, answer_to};
ghost use Rattle.gr_top.specs.Top.{WasReplayed, AtMostCut, IsAnswered, IsWhole, IsCut, IsStop};
ghost use Rattle.gr_top.specs.Status.{SourceStatus, SinkStatus, DiskStatus, PostStatus, WholeOrCut};

use crate::auditing::audit_bytes;
use crate::broker_words::BrokerWords;
use crate::covering::cover_bytes;
use crate::input::Input;
use crate::matching::match_bytes;
use crate::printing::print;
use crate::publishing::publish_bytes;
use crate::replaying::replay_bytes;
use crate::serving::serve_bytes;
use crate::soaking::print_soak;
use crate::voice::Voice;
use crate::word::Word;
use crate::words::{Task, task_of};
use gr_out::{Disk, Post, ReadFault, Sink, Source, read_all};
use gr_pace::Paced;
use gr_sched::MAX_INPUT_BYTES;
use std::alloc::Global;

/// What is printed for words that are no command.
const USAGE: &[u8] =
    b"usage: gryphon replay | serve TURNS BROKER... | trace TURNS BROKER... | publish P TURNS | \
    audit | match | cover | soak N\n";

/// Carries out the command that the words name, over a source and a sink; brokers that serve have a disk and a post,
/// and a client that submits has the post. Gives the exit status.
///
/// - 0: the command was carried out; the sink took all that it prints.
/// - 1: the words are no command's; the sink took the usage line.
/// - 2: the source's bytes are not what the command reads, or the named brokers cannot serve, or no client can submit
///   for the named publisher; the sink took the line that says why.
/// - 3: the source failed; the sink took nothing.
/// - 4: the sink failed; it took a front of what was to be printed.
/// - 5: the disk failed while brokers served; the sink took the lines of all calls before.
/// - 6: the lanes of a publisher at a broker that was to serve hold no log; the sink took the lines of all calls
///   before, and the line that names the publisher and the place.
/// - 7: want of memory; the sink took a front of what was to be printed.
/// - 8: the post failed while brokers served, or a client submitted; the sink took the lines of all calls before.
/// - 9: the source has too many bytes or lines; the sink took the line that says which.
pub fn gryphon<S: Source, K: Sink, D: Disk, P: Paced>(
    alloc: Global,
    words: &[&str],
    source: &mut S,
    sink: &mut K,
    disk: &mut D,
    post: &mut P,
) -> u8
    // The headline, of every schedule that was replayed.
    ensures headline { result ≡ 0 → task_by (texts_of words.now) ≡ Task.Replay →
        IfSome (S.left source.old) (λ bytes. WasReplayed (K.taken sink.old) (K.taken sink.new) (asked_by bytes)) }
    // The same of what was printed where the sink failed or memory was wanting: it is a front of such a report.
    ensures cut { IsCut result → task_by (texts_of words.now) ≡ Task.Replay →
        IfSome (S.left source.old) (λ bytes. AtMostCut (K.taken sink.old) (K.taken sink.new) (asked_by bytes)) }
    ensures read_to_its_end { IsReading (task_by (texts_of words.now)) → (result ≡ 0) ⊎ (result ≡ 2) →
        IsAtEnd (S.left source.new) }

    // Of journals that were audited: where the verdict is yes, they are one honest run.
    ensures audited { result ≡ 0 → task_by (texts_of words.now) ≡ Task.Audit →
        IfSome (S.left source.old) (λ bytes. WasAudited (K.taken sink.old) (K.taken sink.new) bytes) }

    // Of brokers that serve, and write their report or their journal: a run that was carried out, with its headline
    // of a report, and one that was stopped; and that the lanes held logs, or which was the first that did not.
    ensures served { result ≡ 0 → IfRun (task_by (texts_of words.now)) (S.left source.old)
        (λ voice turns t lines hosted. RunsTo voice t lines hosted turns P.tells D.tells
        (around (K.taken sink.old) (P.journal post.old) (D.lane_of disk.old))
        (around (K.taken sink.new) (P.journal post.new) (D.lane_of disk.new)) (Ok tt)) }
    ensures stopped { IsCut result ⊎ IsStop result → IfRun (task_by (texts_of words.now)) (S.left source.old)
        (λ voice turns t lines hosted. NotBegun
        (around (K.taken sink.old) (P.journal post.old) (D.lane_of disk.old))
        (around (K.taken sink.new) (P.journal post.new) (D.lane_of disk.new)) result
        ⊎ StopsBy voice t lines hosted turns P.tells D.tells
        (around (K.taken sink.old) (P.journal post.old) (D.lane_of disk.old))
        (around (K.taken sink.new) (P.journal post.new) (D.lane_of disk.new)) result) }
    ensures damaged { result ≡ 6 → D.tells → IfRun (task_by (texts_of words.now)) (S.left source.old)
        (λ voice turns t lines hosted. IsDamaged t hosted (D.lane_of disk.old)) }
    ensures undamaged { result ≡ 0 → D.tells → IfRun (task_by (texts_of words.now)) (S.left source.old)
        (λ voice turns t lines hosted. AllRead t hosted (D.lane_of disk.old)) }

    // Of a client that submits: a run that was carried out, and one that was stopped.
    ensures published { result ≡ 0 → IfPublish (task_by (texts_of words.now)) (S.left source.old)
        (λ turns t lines p. PublishesTo t lines p turns P.tells
        (outside (K.taken sink.old) (P.journal post.old)) (outside (K.taken sink.new) (P.journal post.new)) (Ok tt)) }
    ensures publish_stopped { IsCut result ⊎ (result ≡ 8) →
        IfPublish (task_by (texts_of words.now)) (S.left source.old) (λ turns t lines p. NotPublished
        (outside (K.taken sink.old) (P.journal post.old)) (outside (K.taken sink.new) (P.journal post.new)) result
        ⊎ StopsPublishing t lines p turns P.tells
        (outside (K.taken sink.old) (P.journal post.old)) (outside (K.taken sink.new) (P.journal post.new)) result) }

    // No other command, and none that is refused, comes to the disk or the post; a client has no disk.
    ensures disk_untouched { (IsServing (task_by (texts_of words.now)) → ⊥)
        ⊎ ((result ≡ 2) ⊎ ((result ≡ 3) ⊎ (result ≡ 9))) → disk.new ≡ disk.old }
    ensures post_untouched { (IsPosting (task_by (texts_of words.now)) → ⊥)
        ⊎ ((result ≡ 2) ⊎ ((result ≡ 3) ⊎ (result ≡ 9))) → post.new ≡ post.old }

    // What is printed: all of the one answer to the task, a front of it, or nothing.
    ensures answered { IsWhole result → IfSome (answer_to (task_by (texts_of words.now)) (S.left source.old))
        (IsAnswered result (K.taken sink.old) (K.taken sink.new)) }
    ensures front { IsCut result → IfSome (answer_to (task_by (texts_of words.now)) (S.left source.old))
        (λ answer. TakesFront (K.taken sink.old) (K.taken sink.new) answer.text) }
    ensures nothing { result ≡ 3 → K.taken sink.new ≡ K.taken sink.old }

    // When each status comes: 1 by the words alone, 2 and 9 by the bytes and words alone, 0 too but where brokers
    // serve or a client submits, and 3, 4, 5 and 8 by a fault that was counted.
    ensures usage_only { result ≡ 1 → task_by (texts_of words.now) ≡ Task.Usage }
    ensures usage_always { task_by (texts_of words.now) ≡ Task.Usage → (result ≡ 1) ⊎ IsCut result }
    ensures unknown { is_known (texts_of words.now) ≡ false → (result ≡ 1) ⊎ (result ≡ 4) }
    ensures unread { (IsReading (task_by (texts_of words.now)) → ⊥) → (result ≢ 3) × (source.new ≡ source.old) }
    ensures stop_only { (result ≡ 5) ⊎ (result ≡ 6) → IsServing (task_by (texts_of words.now)) }
    ensures post_only { result ≡ 8 → IsPosting (task_by (texts_of words.now)) }
    ensures refuses { IsStop result → IfSome (answer_to (task_by (texts_of words.now)) (S.left source.old))
        (λ answer. ⊥) }
    ensures runs { IsWhole result → IfRun (task_by (texts_of words.now)) (S.left source.old)
        (λ voice turns t lines hosted. result ≡ 0) }
    ensures publish_runs { IsWhole result → IfPublish (task_by (texts_of words.now)) (S.left source.old)
        (λ turns t lines p. result ≡ 0) }
    ensures source { SourceStatus result (S.faults source.old) (S.faults source.new) }
    ensures sink { SinkStatus result (K.faults sink.old) (K.faults sink.new) }
    ensures disk { DiskStatus result (D.faults disk.old) (D.stops disk.old) (D.faults disk.new) (D.stops disk.new) }
    ensures post { PostStatus result (P.faults post.old) (P.faults post.new) }
    ensures complete { (result ≡ 3) ⊎ (IsWhole result ⊎ (IsCut result ⊎ IsStop result)) }
    // Where no fault was counted, the status is that of the answer, but for want of memory; that of brokers that serve
    // is 0, but for lanes that hold no log and want of memory; and that of a client is 0, but for want of memory.
    ensures completeness { (Rose (S.faults source.old) (S.faults source.new) → ⊥)
        → (Rose (K.faults sink.old) (K.faults sink.new) → ⊥)
        → IfSome (answer_to (task_by (texts_of words.now)) (S.left source.old))
        (λ answer. (result ≡ answer.status) ⊎ (result ≡ 7)) }
    ensures completeness_of_runs { (Rose (S.faults source.old) (S.faults source.new) → ⊥)
        → (Rose (K.faults sink.old) (K.faults sink.new) → ⊥)
        → (EitherRose (D.faults disk.old) (D.faults disk.new) (D.stops disk.old) (D.stops disk.new) → ⊥)
        → (Rose (P.faults post.old) (P.faults post.new) → ⊥)
        → IfRun (task_by (texts_of words.now)) (S.left source.old)
        (λ voice turns t lines hosted. (result ≡ 0) ⊎ ((result ≡ 6) ⊎ (result ≡ 7))) }
    ensures completeness_of_publishing { (Rose (S.faults source.old) (S.faults source.new) → ⊥)
        → (Rose (K.faults sink.old) (K.faults sink.new) → ⊥)
        → (Rose (P.faults post.old) (P.faults post.new) → ⊥)
        → IfPublish (task_by (texts_of words.now)) (S.left source.old)
        (λ turns t lines p. (result ≡ 0) ⊎ (result ≡ 7)) }
{
    match task_of(alloc, words) {
        Ok(Task::Usage) => print(sink, USAGE, 1),
        Ok(Task::Replay) => from_source(alloc, Input::Scenario, source, sink),
        Ok(
            Task::Serve {
                voice,
                turns,
                brokers,
            },
        ) => serve_source(alloc, voice, &brokers, turns, source, sink, disk, post),
        Ok(Task::Publish { publisher, turns }) => {
            publish_source(alloc, &publisher, turns, source, sink, post)
        }
        Ok(Task::Audit) => from_source(alloc, Input::Journals, source, sink),
        Ok(Task::Match) => from_source(alloc, Input::MatchText, source, sink),
        Ok(Task::Cover) => from_source(alloc, Input::CoverText, source, sink),
        Ok(Task::Soak { count }) => print_soak(alloc, count, sink),
        Err(_) => 7,
    }
}

/// Reads the bytes of a source, and has the named brokers of the scenario that they are serve for so many turns, and
/// write their report or their journal. Gives the status.
fn serve_source<S: Source, K: Sink, D: Disk, P: Paced>(
    alloc: Global,
    voice: Voice,
    words: &BrokerWords<'_>,
    turns: u64,
    source: &mut S,
    sink: &mut K,
    disk: &mut D,
    post: &mut P,
) -> u8
    ensures read_to_its_end { (result ≡ 0) ⊎ (result ≡ 2) → IsAtEnd (S.left source.new) }
    ensures answered { IsWhole result → IfSome (answer_to (Task.Serve voice turns words.now) (S.left source.old))
        (IsAnswered result (K.taken sink.old) (K.taken sink.new)) }
    ensures front { IsCut result → IfSome (answer_to (Task.Serve voice turns words.now) (S.left source.old))
        (λ answer. TakesFront (K.taken sink.old) (K.taken sink.new) answer.text) }
    ensures nothing { result ≡ 3 → K.taken sink.new ≡ K.taken sink.old }
    ensures served { result ≡ 0 → IfRun (Task.Serve voice turns words.now) (S.left source.old)
        (λ voice turns t lines hosted. RunsTo voice t lines hosted turns P.tells D.tells
        (around (K.taken sink.old) (P.journal post.old) (D.lane_of disk.old))
        (around (K.taken sink.new) (P.journal post.new) (D.lane_of disk.new)) (Ok tt)) }
    ensures stopped { IsCut result ⊎ IsStop result → IfRun (Task.Serve voice turns words.now) (S.left source.old)
        (λ voice turns t lines hosted. NotBegun
        (around (K.taken sink.old) (P.journal post.old) (D.lane_of disk.old))
        (around (K.taken sink.new) (P.journal post.new) (D.lane_of disk.new)) result
        ⊎ StopsBy voice t lines hosted turns P.tells D.tells
        (around (K.taken sink.old) (P.journal post.old) (D.lane_of disk.old))
        (around (K.taken sink.new) (P.journal post.new) (D.lane_of disk.new)) result) }
    ensures damaged { result ≡ 6 → D.tells → IfRun (Task.Serve voice turns words.now) (S.left source.old)
        (λ voice turns t lines hosted. IsDamaged t hosted (D.lane_of disk.old)) }
    ensures undamaged { result ≡ 0 → D.tells → IfRun (Task.Serve voice turns words.now) (S.left source.old)
        (λ voice turns t lines hosted. AllRead t hosted (D.lane_of disk.old)) }
    ensures runs { IsWhole result → IfRun (Task.Serve voice turns words.now) (S.left source.old)
        (λ voice turns t lines hosted. result ≡ 0) }
    ensures refuses { IsStop result → IfSome (answer_to (Task.Serve voice turns words.now) (S.left source.old))
        (λ answer. ⊥) }
    ensures untouched { (result ≡ 2) ⊎ ((result ≡ 3) ⊎ (result ≡ 9))
        → (disk.new ≡ disk.old) × (post.new ≡ post.old) }
    ensures known { result ≢ 1 }
    ensures source { SourceStatus result (S.faults source.old) (S.faults source.new) }
    ensures sink { SinkStatus result (K.faults sink.old) (K.faults sink.new) }
    ensures disk { DiskStatus result (D.faults disk.old) (D.stops disk.old) (D.faults disk.new) (D.stops disk.new) }
    ensures post { PostStatus result (P.faults post.old) (P.faults post.new) }
    ensures complete { (result ≡ 3) ⊎ (IsWhole result ⊎ (IsCut result ⊎ IsStop result)) }
{
    let bytes = match read_all(alloc, source, MAX_INPUT_BYTES + 1) {
        Ok(bytes) => bytes,
        Err(ReadFault::Failed) => return 3,
        Err(ReadFault::Memory) => return 7,
    };
    serve_bytes(
        alloc,
        bytes.as_slice(),
        voice,
        words.as_slice(),
        turns,
        disk,
        post,
        sink,
    )
}

/// Reads the bytes of a source, and has the client of the named publisher of the scenario that they are submit for so
/// many turns. Gives the status.
fn publish_source<S: Source, K: Sink, P: Post>(
    alloc: Global,
    word: &Word<'_>,
    turns: u64,
    source: &mut S,
    sink: &mut K,
    post: &mut P,
) -> u8
    ensures read_to_its_end { (result ≡ 0) ⊎ (result ≡ 2) → IsAtEnd (S.left source.new) }
    ensures answered { IsWhole result → IfSome (answer_to (Task.Publish word.now turns) (S.left source.old))
        (IsAnswered result (K.taken sink.old) (K.taken sink.new)) }
    ensures front { IsCut result → IfSome (answer_to (Task.Publish word.now turns) (S.left source.old))
        (λ answer. TakesFront (K.taken sink.old) (K.taken sink.new) answer.text) }
    ensures nothing { result ≡ 3 → K.taken sink.new ≡ K.taken sink.old }
    ensures published { result ≡ 0 → IfPublish (Task.Publish word.now turns) (S.left source.old)
        (λ turns t lines p. PublishesTo t lines p turns P.tells
        (outside (K.taken sink.old) (P.journal post.old)) (outside (K.taken sink.new) (P.journal post.new)) (Ok tt)) }
    ensures stopped { IsCut result ⊎ (result ≡ 8) →
        IfPublish (Task.Publish word.now turns) (S.left source.old) (λ turns t lines p. NotPublished
        (outside (K.taken sink.old) (P.journal post.old)) (outside (K.taken sink.new) (P.journal post.new)) result
        ⊎ StopsPublishing t lines p turns P.tells
        (outside (K.taken sink.old) (P.journal post.old)) (outside (K.taken sink.new) (P.journal post.new)) result) }
    ensures runs { IsWhole result → IfPublish (Task.Publish word.now turns) (S.left source.old)
        (λ turns t lines p. result ≡ 0) }
    ensures refuses { result ≡ 8 → IfSome (answer_to (Task.Publish word.now turns) (S.left source.old))
        (λ answer. ⊥) }
    ensures untouched { (result ≡ 2) ⊎ ((result ≡ 3) ⊎ (result ≡ 9)) → post.new ≡ post.old }
    ensures known { result ≢ 1 }
    ensures diskless { (result ≢ 5) × (result ≢ 6) }
    ensures source { SourceStatus result (S.faults source.old) (S.faults source.new) }
    ensures sink { SinkStatus result (K.faults sink.old) (K.faults sink.new) }
    ensures post { PostStatus result (P.faults post.old) (P.faults post.new) }
    ensures complete { (result ≡ 3) ⊎ (IsWhole result ⊎ (IsCut result ⊎ (result ≡ 8))) }
{
    let bytes = match read_all(alloc, source, MAX_INPUT_BYTES + 1) {
        Ok(bytes) => bytes,
        Err(ReadFault::Failed) => return 3,
        Err(ReadFault::Memory) => return 7,
    };
    publish_bytes(alloc, bytes.as_slice(), word.as_str(), turns, post, sink)
}

/// Reads the bytes of a source, and answers them by what they are read as. Gives the status.
fn from_source<S: Source, K: Sink>(alloc: Global, input: Input, source: &mut S, sink: &mut K) -> u8
    ensures audited { result ≡ 0 → input ≡ Input.Journals →
        IfSome (S.left source.old) (λ bytes. WasAudited (K.taken sink.old) (K.taken sink.new) bytes) }
    ensures replayed { result ≡ 0 → input ≡ Input.Scenario →
        IfSome (S.left source.old) (λ bytes. WasReplayed (K.taken sink.old) (K.taken sink.new) (asked_by bytes)) }
    ensures cut { IsCut result → input ≡ Input.Scenario →
        IfSome (S.left source.old) (λ bytes. AtMostCut (K.taken sink.old) (K.taken sink.new) (asked_by bytes)) }
    ensures read_to_its_end { (result ≡ 0) ⊎ (result ≡ 2) → IsAtEnd (S.left source.new) }
    ensures answered { IsWhole result → IfSome (S.left source.old)
        (λ bytes. IsAnswered result (K.taken sink.old) (K.taken sink.new) (answer_of input bytes)) }
    ensures front { IsCut result → IfSome (S.left source.old)
        (λ bytes. TakesFront (K.taken sink.old) (K.taken sink.new) (answer_of input bytes).text) }
    ensures nothing { result ≡ 3 → K.taken sink.new ≡ K.taken sink.old }
    ensures known { result ≢ 1 }
    ensures source { SourceStatus result (S.faults source.old) (S.faults source.new) }
    ensures sink { SinkStatus result (K.faults sink.old) (K.faults sink.new) }
    ensures complete { (result ≡ 3) ⊎ (IsWhole result ⊎ IsCut result) }
{
    let bytes = match read_all(alloc, source, MAX_INPUT_BYTES + 1) {
        Ok(bytes) => bytes,
        Err(ReadFault::Failed) => return 3,
        Err(ReadFault::Memory) => return 7,
    };
    answer(alloc, input, bytes.as_slice(), sink)
}

/// Answers bytes by what they are read as. Gives the status.
fn answer<K: Sink>(alloc: Global, input: Input, bytes: &[u8], sink: &mut K) -> u8
    ensures audited { result ≡ 0 → input ≡ Input.Journals →
        WasAudited (K.taken sink.old) (K.taken sink.new) bytes.now }
    ensures replayed { result ≡ 0 → input ≡ Input.Scenario →
        WasReplayed (K.taken sink.old) (K.taken sink.new) (asked_by bytes.now) }
    ensures cut { IsCut result → input ≡ Input.Scenario →
        AtMostCut (K.taken sink.old) (K.taken sink.new) (asked_by bytes.now) }
    ensures answered { IsWhole result →
        IsAnswered result (K.taken sink.old) (K.taken sink.new) (answer_of input bytes.now) }
    ensures front { IsCut result →
        TakesFront (K.taken sink.old) (K.taken sink.new) (answer_of input bytes.now).text }
    ensures known { result ≢ 1 }
    ensures sink { SinkStatus result (K.faults sink.old) (K.faults sink.new) }
    ensures complete { WholeOrCut result }
{
    match input {
        Input::Scenario => replay_bytes(alloc, bytes, sink),
        Input::MatchText => match_bytes(alloc, bytes, sink),
        Input::CoverText => cover_bytes(alloc, bytes, sink),
        Input::Journals => audit_bytes(alloc, bytes, sink),
    }
}
