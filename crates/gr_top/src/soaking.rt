//! The command `soak`.

ghost use Rattle.std.specs.Prelude.{◌≡◌, ◌≤◌};
ghost use Rattle.gr_out.specs.Bytes.{with_more};
ghost use Rattle.gr_out.specs.Page.{TakesFront};
ghost use Rattle.gr_soak.specs.Report.{soak_report};
ghost use Rattle.gr_top.specs.Top.{IsCut};
ghost use Rattle.gr_top.specs.Status.{SinkStatus, DoneOrCut};

use gr_out::{RunFault, Sink};
use gr_soak::soak;
use std::alloc::Global;

/// Makes and replays the scenario of a soak of so many turns, and prints counts over its report. Gives the status.
pub(crate) fn print_soak<K: Sink>(alloc: Global, count: u64, sink: &mut K) -> u8
    requires { (1 ≤ count) × (count ≤ 2000) }
    ensures printed { result ≡ 0 → K.taken sink.new ≡ with_more (K.taken sink.old) (soak_report count) }
    ensures front { IsCut result → TakesFront (K.taken sink.old) (K.taken sink.new) (soak_report count) }
    ensures sink { SinkStatus result (K.faults sink.old) (K.faults sink.new) }
    ensures complete { DoneOrCut result }
{
    match soak(alloc, count, sink) {
        Ok(()) => 0,
        Err(RunFault::Write) => 4,
        Err(RunFault::Memory) => 7,
        Err(RunFault::Disk | RunFault::Damaged { .. } | RunFault::Post) => unreachable!(),
    }
}
