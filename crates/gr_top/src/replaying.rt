//! The command `replay`.

ghost use Rattle.std.specs.Prelude.{◌≡◌, ◌≢◌};
ghost use Rattle.gr_out.specs.Bytes.{with_more};
ghost use Rattle.gr_out.specs.Page.{TakesFront};
ghost use Rattle.gr_model.specs.NetOf.{net_of};
ghost use Rattle.gr_model.specs.World.{report_of};
ghost use Rattle.gr_scenario.specs.Scenario.{asked_by, IsTooLarge};
ghost use Rattle.gr_scenario.specs.Steps.{AreStepsOf};
ghost use Rattle.gr_replay.specs.Replayed.{replayed_text};
ghost use Rattle.gr_top.specs.Answers.{replay_answer};
ghost use Rattle.gr_top.specs.Top.{MeetsHeadline, WasReplayed, AtMostCut, IsAnswered, IsWhole, IsCut};
ghost use Rattle.gr_top.specs.Status.{SinkStatus, WholeOrCut, DoneOrCut};

use crate::headline::every_report_meets_the_headline;
use crate::printing::{print, print_line};
use gr_out::{MemDisk, RunFault, Sink};
use gr_replay::replay;
use gr_scenario::{Asked, read};
use gr_sched::Steps;
use gr_topo::Topology;
use std::alloc::Global;
use std::mem::forget;

/// Answers the bytes of a scenario: its steps are carried out. Gives the status.
pub(crate) fn replay_bytes<K: Sink>(alloc: Global, bytes: &[u8], sink: &mut K) -> u8
    ensures replayed { result ≡ 0 → WasReplayed (K.taken sink.old) (K.taken sink.new) (asked_by bytes.now) }
    ensures cut { IsCut result → AtMostCut (K.taken sink.old) (K.taken sink.new) (asked_by bytes.now) }
    ensures answered { IsWhole result →
        IsAnswered result (K.taken sink.old) (K.taken sink.new) (replay_answer (asked_by bytes.now)) }
    ensures front { IsCut result →
        TakesFront (K.taken sink.old) (K.taken sink.new) (replay_answer (asked_by bytes.now)).text }
    ensures large_at_once { IsTooLarge (asked_by bytes.now) → result ≢ 7 }
    ensures known { result ≢ 1 }
    ensures sink { SinkStatus result (K.faults sink.old) (K.faults sink.new) }
    ensures complete { WholeOrCut result }
{
    match read(alloc, bytes) {
        Ok(Asked::TooManyBytes) => print(sink, b"too-large bytes\n", 9),
        Ok(Asked::TooManySteps) => print(sink, b"too-large steps\n", 9),
        Ok(Asked::Refused(line)) => print_line(line, sink),
        Ok(Asked::Scenario { topology, steps }) => {
            let status = carry_out(alloc, topology, &steps, sink);
            // The process ends, and gives all memory back at once.
            forget(steps);
            status
        }
        Err(_) => 7,
    }
}

/// Carries out the steps of a scenario over its topology, with logs that are kept in memory. Gives the status.
fn carry_out<K: Sink>(alloc: Global, topology: Topology, steps: &Steps, sink: &mut K) -> u8
    requires { AreStepsOf topology steps.now }
    ensures printed { result ≡ 0 → K.taken sink.new ≡ with_more (K.taken sink.old) (replayed_text topology steps.now) }
    ensures front { IsCut result → TakesFront (K.taken sink.old) (K.taken sink.new) (replayed_text topology steps.now) }
    ensures meets { MeetsHeadline topology steps.now (report_of (net_of topology) steps.now) }
    ensures sink { SinkStatus result (K.faults sink.old) (K.faults sink.new) }
    ensures complete { DoneOrCut result }
{
    every_report_meets_the_headline(&topology, steps);
    let mut disk = match MemDisk::new(alloc, &[]) {
        Ok(disk) => disk,
        Err(_) => return 7,
    };
    let done = replay(alloc, topology, steps, &mut disk, sink);
    forget(disk);
    match done {
        Ok(()) => 0,
        Err(RunFault::Write) => 4,
        Err(RunFault::Memory) => 7,
        // A disk in memory that starts empty, and of which no call is to fail.
        Err(RunFault::Disk | RunFault::Damaged { .. } | RunFault::Post) => unreachable!(),
    }
}
