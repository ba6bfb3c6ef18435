//! The top call.

ghost use Rattle.std.specs.Prelude.{◌≡◌, ◌≢◌, ◌⊎◌, false, Ok, IfSome};
ghost use Rattle.gr_out.specs.Faults.{Rose};
ghost use Rattle.gr_out.specs.Bytes.{IsAtEnd};
ghost use Rattle.gr_out.specs.Page.{TakesFront};
ghost use Rattle.gr_publog.specs.Crash.{EitherRose};
ghost use Rattle.gr_scenario.specs.Scenario.{asked_by};
ghost use Rattle.gr_top.specs.declared.words.Task.TheVariants as Task;
ghost use Rattle.gr_top.specs.Words.{texts_of, task_by, is_known, IsReading, IsServing, IsPosting};
ghost use Rattle.gr_top.specs.Serving.{IfRun, around, RunsTo, StopsBy, NotBegun, IsDamaged};
ghost use Rattle.gr_top.specs.Serving.{AllRead};
ghost use Rattle.gr_top.specs.Publishing.{IfPublish, outside, PublishesTo, StopsPublishing};
ghost use Rattle.gr_top.specs.Publishing.{NotPublished};
ghost use Rattle.gr_top.specs.Auditing.{WasAudited};
ghost use Rattle.gr_top.specs.Answers.{answer_to};
ghost use Rattle.gr_top.specs.Top.{WasReplayed, AtMostCut, IsAnswered, IsWhole, IsCut, IsStop};
ghost use Rattle.gr_top.specs.Status.{SourceStatus, SinkStatus, DiskStatus, PostStatus};

use gr_out::{Disk, Sink, Source};
use gr_pace::Paced;
use std::alloc::Global;

/// Carries out the command that the words name, over a source and a sink; brokers that serve have a disk and a post,
/// and a client that submits has the post. Gives the exit status.
///
/// - 0: the command was carried out; the sink took all that it prints.
/// - 1: the words are no command's; the sink took the usage line.
/// - 2: the source's bytes are not what the command reads, or the named brokers cannot serve, or no client can submit
///   for the named publisher; the sink took the line that says why.
/// - 3: the source failed; the sink took nothing.
/// - 4: the sink failed; it took a front of what was to be printed.
/// - 5: the disk failed while brokers served; the sink took the lines of all calls before.
/// - 6: the lanes of a publisher at a broker that was to serve hold no log; the sink took the lines of all calls
///   before, and the line that names the publisher and the place.
/// - 7: want of memory; the sink took a front of what was to be printed.
/// - 8: the post failed while brokers served, or a client submitted; the sink took the lines of all calls before.
/// - 9: the source has too many bytes or lines; the sink took the line that says which.
pub fn gryphon<S: Source, K: Sink, D: Disk, P: Paced>(
    alloc: Global,
    words: &[&str],
    source: &mut S,
    sink: &mut K,
    disk: &mut D,
    post: &mut P,
) -> u8
    // The headline, of every schedule that was replayed.
    ensures headline { result ≡ 0 → task_by (texts_of words.now) ≡ Task.Replay →
        IfSome (S.left source.old) (λ bytes. WasReplayed (K.taken sink.old) (K.taken sink.new) (asked_by bytes)) }
    // The same of what was printed where the sink failed or memory was wanting: it is a front of such a report.
    ensures cut { IsCut result → task_by (texts_of words.now) ≡ Task.Replay →
        IfSome (S.left source.old) (λ bytes. AtMostCut (K.taken sink.old) (K.taken sink.new) (asked_by bytes)) }
    ensures read_to_its_end { IsReading (task_by (texts_of words.now)) → (result ≡ 0) ⊎ (result ≡ 2) →
        IsAtEnd (S.left source.new) }

    // Of journals that were audited: where the verdict is yes, they are one honest run.
    ensures audited { result ≡ 0 → task_by (texts_of words.now) ≡ Task.Audit →
        IfSome (S.left source.old) (λ bytes. WasAudited (K.taken sink.old) (K.taken sink.new) bytes) }

    // Of brokers that serve, and write their report or their journal: a run that was carried out, with its headline
    // of a report, and one that was stopped; and that the lanes held logs, or which was the first that did not.
    ensures served { result ≡ 0 → IfRun (task_by (texts_of words.now)) (S.left source.old)
        (λ voice turns t lines hosted. RunsTo voice t lines hosted turns P.tells D.tells
        (around (K.taken sink.old) (P.journal post.old) (D.lane_of disk.old))
        (around (K.taken sink.new) (P.journal post.new) (D.lane_of disk.new)) (Ok tt)) }
    ensures stopped { IsCut result ⊎ IsStop result → IfRun (task_by (texts_of words.now)) (S.left source.old)
        (λ voice turns t lines hosted. NotBegun
        (around (K.taken sink.old) (P.journal post.old) (D.lane_of disk.old))
        (around (K.taken sink.new) (P.journal post.new) (D.lane_of disk.new)) result
        ⊎ StopsBy voice t lines hosted turns P.tells D.tells
        (around (K.taken sink.old) (P.journal post.old) (D.lane_of disk.old))
        (around (K.taken sink.new) (P.journal post.new) (D.lane_of disk.new)) result) }
    ensures damaged { result ≡ 6 → D.tells → IfRun (task_by (texts_of words.now)) (S.left source.old)
        (λ voice turns t lines hosted. IsDamaged t hosted (D.lane_of disk.old)) }
    ensures undamaged { result ≡ 0 → D.tells → IfRun (task_by (texts_of words.now)) (S.left source.old)
        (λ voice turns t lines hosted. AllRead t hosted (D.lane_of disk.old)) }

    // Of a client that submits: a run that was carried out, and one that was stopped.
    ensures published { result ≡ 0 → IfPublish (task_by (texts_of words.now)) (S.left source.old)
        (λ turns t lines p. PublishesTo t lines p turns P.tells
        (outside (K.taken sink.old) (P.journal post.old)) (outside (K.taken sink.new) (P.journal post.new)) (Ok tt)) }
    ensures publish_stopped { IsCut result ⊎ (result ≡ 8) →
        IfPublish (task_by (texts_of words.now)) (S.left source.old) (λ turns t lines p. NotPublished
        (outside (K.taken sink.old) (P.journal post.old)) (outside (K.taken sink.new) (P.journal post.new)) result
        ⊎ StopsPublishing t lines p turns P.tells
        (outside (K.taken sink.old) (P.journal post.old)) (outside (K.taken sink.new) (P.journal post.new)) result) }

    // No other command, and none that is refused, comes to the disk or the post; a client has no disk.
    ensures disk_untouched { (IsServing (task_by (texts_of words.now)) → ⊥)
        ⊎ ((result ≡ 2) ⊎ ((result ≡ 3) ⊎ (result ≡ 9))) → disk.new ≡ disk.old }
    ensures post_untouched { (IsPosting (task_by (texts_of words.now)) → ⊥)
        ⊎ ((result ≡ 2) ⊎ ((result ≡ 3) ⊎ (result ≡ 9))) → post.new ≡ post.old }

    // What is printed: all of the one answer to the task, a front of it, or nothing.
    ensures answered { IsWhole result → IfSome (answer_to (task_by (texts_of words.now)) (S.left source.old))
        (IsAnswered result (K.taken sink.old) (K.taken sink.new)) }
    ensures front { IsCut result → IfSome (answer_to (task_by (texts_of words.now)) (S.left source.old))
        (λ answer. TakesFront (K.taken sink.old) (K.taken sink.new) answer.text) }
    ensures nothing { result ≡ 3 → K.taken sink.new ≡ K.taken sink.old }

    // When each status comes: 1 by the words alone, 2 and 9 by the bytes and words alone, 0 too but where brokers
    // serve or a client submits, and 3, 4, 5 and 8 by a fault that was counted.
    ensures usage_only { result ≡ 1 → task_by (texts_of words.now) ≡ Task.Usage }
    ensures usage_always { task_by (texts_of words.now) ≡ Task.Usage → (result ≡ 1) ⊎ IsCut result }
    ensures unknown { is_known (texts_of words.now) ≡ false → (result ≡ 1) ⊎ (result ≡ 4) }
    ensures unread { (IsReading (task_by (texts_of words.now)) → ⊥) → (result ≢ 3) × (source.new ≡ source.old) }
    ensures stop_only { (result ≡ 5) ⊎ (result ≡ 6) → IsServing (task_by (texts_of words.now)) }
    ensures post_only { result ≡ 8 → IsPosting (task_by (texts_of words.now)) }
    ensures refuses { IsStop result → IfSome (answer_to (task_by (texts_of words.now)) (S.left source.old))
        (λ answer. ⊥) }
    ensures runs { IsWhole result → IfRun (task_by (texts_of words.now)) (S.left source.old)
        (λ voice turns t lines hosted. result ≡ 0) }
    ensures publish_runs { IsWhole result → IfPublish (task_by (texts_of words.now)) (S.left source.old)
        (λ turns t lines p. result ≡ 0) }
    ensures source { SourceStatus result (S.faults source.old) (S.faults source.new) }
    ensures sink { SinkStatus result (K.faults sink.old) (K.faults sink.new) }
    ensures disk { DiskStatus result (D.faults disk.old) (D.stops disk.old) (D.faults disk.new) (D.stops disk.new) }
    ensures post { PostStatus result (P.faults post.old) (P.faults post.new) }
    ensures complete { (result ≡ 3) ⊎ (IsWhole result ⊎ (IsCut result ⊎ IsStop result)) }
    // Where no fault was counted, the status is that of the answer, but for want of memory; that of brokers that serve
    // is 0, but for lanes that hold no log and want of memory; and that of a client is 0, but for want of memory.
    ensures completeness { (Rose (S.faults source.old) (S.faults source.new) → ⊥)
        → (Rose (K.faults sink.old) (K.faults sink.new) → ⊥)
        → IfSome (answer_to (task_by (texts_of words.now)) (S.left source.old))
        (λ answer. (result ≡ answer.status) ⊎ (result ≡ 7)) }
    ensures completeness_of_runs { (Rose (S.faults source.old) (S.faults source.new) → ⊥)
        → (Rose (K.faults sink.old) (K.faults sink.new) → ⊥)
        → (EitherRose (D.faults disk.old) (D.faults disk.new) (D.stops disk.old) (D.stops disk.new) → ⊥)
        → (Rose (P.faults post.old) (P.faults post.new) → ⊥)
        → IfRun (task_by (texts_of words.now)) (S.left source.old)
        (λ voice turns t lines hosted. (result ≡ 0) ⊎ ((result ≡ 6) ⊎ (result ≡ 7))) }
    ensures completeness_of_publishing { (Rose (S.faults source.old) (S.faults source.new) → ⊥)
        → (Rose (K.faults sink.old) (K.faults sink.new) → ⊥)
        → (Rose (P.faults post.old) (P.faults post.new) → ⊥)
        → IfPublish (task_by (texts_of words.now)) (S.left source.old)
        (λ turns t lines p. (result ≡ 0) ⊎ (result ≡ 7)) }
{
    gr_top::gryphon(alloc, words, source, sink, disk, post)
}
