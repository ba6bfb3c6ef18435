//! What a broker's call tells is put, and what it sends is offered.

ghost use Rattle.std.specs.Prelude.{◌≡◌, ℕ, suc, ◌+◌, ◌∷◌, [], ◌++◌, List, length};
ghost use Rattle.std.specs.Prelude.{IfOk, OnOk, OnErr, IsOkUnless};
ghost use Rattle.std.specs.List.{AllByRecursion};
ghost use Rattle.gr_frame.specs.declared.Frame.{Frame};
ghost use Rattle.gr_frame.specs.Cut.{AreFrames};
ghost use Rattle.gr_out.specs.Entry.{offered};
ghost use Rattle.gr_out.specs.Page.{TakesBut, TakesFront};
ghost use Rattle.gr_model.specs.NetOf.{net_of};
ghost use Rattle.gr_model.specs.Orders.{fed};
ghost use Rattle.gr_model.specs.Text.{labels_of, whole_line};
ghost use Rattle.gr_model.specs.World.{sent_line, sent_lines};
ghost use Rattle.gr_model_calls.specs.Edges.{GoesOverEdge};
ghost use Rattle.gr_report.specs.Named.{AllNamed};
ghost use Rattle.gr_outbox.specs.Said.{frame_said};
ghost use Rattle.gr_node.specs.Seen.{seen, told_to, text_of};
ghost use Rattle.gr_node.specs.Keeps.{PutKeeps, TellKeeps};
ghost use Rattle.gr_node.specs.Plan.{offers_of};
ghost use Rattle.gr_node.specs.Went.{Begins};

use crate::node::{Node, Site};
use crate::ordering::put_heard;
use gr_broker::Outcome;
use gr_frame::Frames;
use gr_model::Report;
use gr_out::{Page, Post, PostFault, RunFault, Sink};
use gr_outbox::sent_report;
use gr_report::put_line;
use gr_topo::Topology;
use std::alloc::Global;

/// Who sends to whom, by the line of a frame.
fn ends(line: &Report) -> (u16, u16)
    ensures { (n : ℕ) (f : Frame) → line.now ≡ sent_line n f → result ≡ (f.head.from, f.head.to) }
{
    match line {
        Report::SentKnow { from, to, .. } => (*from, *to),
        Report::SentWant { from, to, .. } => (*from, *to),
        Report::SentExpect { from, to, .. } => (*from, *to),
        // No frame has another line.
        _ => (0, 0),
    }
}

/// Puts the line of a frame with its number, and gives who sends to whom.
fn put_sent<K: Sink>(
    alloc: Global,
    topo: &Topology,
    number: u64,
    bytes: &[u8],
    page: &mut Page,
    sink: &mut K,
) -> Result<(u16, u16), RunFault>
    requires over { GoesOverEdge (net_of topo.now) (frame_said bytes.now) }
    ensures told { OnOk result (TakesBut (K.taken sink.old) (K.taken sink.new)
        (page.old.held ++ whole_line (labels_of topo.now) (sent_line number (frame_said bytes.now))) page.new.held) }
    ensures front { OnErr result (TakesFront (K.taken sink.old) (K.taken sink.new)
        (page.old.held ++ whole_line (labels_of topo.now) (sent_line number (frame_said bytes.now)))) }
    ensures ends { let head = (frame_said bytes.now).head in IfOk result (λ ends. ends ≡ (head.from, head.to)) }
    ensures puts { PutKeeps (K.faults sink.old) (K.faults sink.new) result }
{
    let line = match sent_report(alloc, number, bytes) {
        Ok(line) => line,
        Err(_) => return Err(RunFault::Memory),
    };
    match put_line(topo, &line, page, sink) {
        Ok(()) => Ok(ends(&line)),
        Err(fault) => Err(fault),
    }
}

/// Offers the bytes of a frame or of a note. An offer that fails is a loss.
pub fn offer<P: Post>(from: u16, to: u16, bytes: &[u8], post: &mut P) -> Result<(), RunFault>
    ensures sent { P.tells → OnOk result (P.journal post.new ≡ P.journal post.old ++ offered from to bytes.now ∷ []) }
    ensures unsent { P.tells → OnErr result (P.journal post.new ≡ P.journal post.old) }
    ensures cause { IsOkUnless result RunFault.Memory }
    ensures post { P.faults post.new ≡ P.faults post.old }
{
    match post.offer(from, to, bytes) {
        Ok(()) => Ok(()),
        Err(fault) => match fault {
            PostFault::Failed => Ok(()),
            PostFault::Memory => Err(RunFault::Memory),
        },
    }
}

/// Puts the line of a frame with its number, and then offers it. After a fault it is not offered.
fn offer_frame<P: Post, K: Sink>(
    alloc: Global,
    topo: &Topology,
    number: u64,
    bytes: &[u8],
    post: &mut P,
    page: &mut Page,
    sink: &mut K,
) -> Result<(), RunFault>
    requires over { GoesOverEdge (net_of topo.now) (frame_said bytes.now) }
    ensures told { OnOk result (TakesBut (K.taken sink.old) (K.taken sink.new)
        (page.old.held ++ whole_line (labels_of topo.now) (sent_line number (frame_said bytes.now))) page.new.held) }
    ensures front { OnErr result (TakesFront (K.taken sink.old) (K.taken sink.new)
        (page.old.held ++ whole_line (labels_of topo.now) (sent_line number (frame_said bytes.now)))) }
    ensures sent { let head = (frame_said bytes.now).head in P.tells → OnOk result (P.journal post.new
        ≡ P.journal post.old ++ offered head.from head.to bytes.now ∷ []) }
    ensures unsent { P.tells → OnErr result (P.journal post.new ≡ P.journal post.old) }
    ensures keeps { TellKeeps (K.faults sink.old) (K.faults sink.new) (P.faults post.old) (P.faults post.new) result }
{
    match put_sent(alloc, topo, number, bytes, page, sink) {
        Ok((from, to)) => offer(from, to, bytes, post),
        Err(fault) => Err(fault),
    }
}

/// Of each frame, in order, its line is put, with the number behind those offered before, and it is offered.
fn offer_frames<P: Post, K: Sink>(
    alloc: Global,
    topo: &Topology,
    sent: &Frames,
    offers: &mut u64,
    post: &mut P,
    page: &mut Page,
    sink: &mut K,
) -> Result<(), RunFault>
    requires over { (fs : List Frame)
        × (AreFrames sent.now.frames fs × AllByRecursion (GoesOverEdge (net_of topo.now)) fs) }
    ensures told { (fs : List Frame) → AreFrames sent.now.frames fs
        → OnOk result (TakesBut (K.taken sink.old) (K.taken sink.new)
        (page.old.held ++ text_of topo.now (sent_lines (suc offers.old) fs)) page.new.held) }
    ensures front { (fs : List Frame) → AreFrames sent.now.frames fs
        → OnErr result (TakesFront (K.taken sink.old) (K.taken sink.new)
        (page.old.held ++ text_of topo.now (sent_lines (suc offers.old) fs))) }
    ensures sent { P.tells → (fs : List Frame) → AreFrames sent.now.frames fs
        → OnOk result (P.journal post.new ≡ P.journal post.old ++ offers_of fs) }
    ensures sent_front { P.tells → (fs : List Frame) → AreFrames sent.now.frames fs
        → OnErr result (Begins (P.journal post.old) (P.journal post.new) (offers_of fs)) }
    ensures offers { OnOk result (offers.new ≡ offers.old + length sent.now.frames) }
    ensures keeps { TellKeeps (K.faults sink.old) (K.faults sink.new) (P.faults post.old) (P.faults post.new) result }
{
    'frames: for i in 0..sent.len() {
        let Some(number) = offers.checked_add(1) else {
            return Err(RunFault::Memory);
        };
        match offer_frame(alloc, topo, number, sent.frame(i), post, page, sink) {
            Ok(()) => *offers = number,
            Err(fault) => return Err(fault),
        }
    }
    Ok(())
}

/// Puts the lines of an outcome, which the subscribers that get one list over all publishers hear; then of each frame,
/// in order, its line is put, with the number behind those offered before, and it is offered. An offer that fails is a
/// loss, and the rest goes on.
///
/// `Memory` where memory is refused, and `Write` only where the sink failed; a front of the lines is told then, and a
/// front of the frames offered.
pub(crate) fn tell<P: Post, K: Sink>(
    site: &Site<'_>,
    told: Outcome,
    node: &mut Node,
    post: &mut P,
    page: &mut Page,
    sink: &mut K,
) -> Result<(), RunFault>
    requires named { AllNamed site.now.topo.now told.reports }
    requires over { (fs : List Frame)
        × (AreFrames told.frames.frames fs × AllByRecursion (GoesOverEdge (net_of site.now.topo.now)) fs) }
    ensures told { (fs : List Frame) → AreFrames told.frames.frames fs
        → OnOk result (TakesBut (K.taken sink.old) (K.taken sink.new)
        (page.old.held ++ text_of site.now.topo.now (told.reports ++ sent_lines (suc node.old.offers) fs)) page.new.held) }
    ensures front { (fs : List Frame) → AreFrames told.frames.frames fs
        → OnErr result (TakesFront (K.taken sink.old) (K.taken sink.new)
        (page.old.held ++ text_of site.now.topo.now (told.reports ++ sent_lines (suc node.old.offers) fs))) }
    ensures sent { P.tells → (fs : List Frame) → AreFrames told.frames.frames fs
        → OnOk result (P.journal post.new ≡ P.journal post.old ++ offers_of fs) }
    ensures sent_front { P.tells → (fs : List Frame) → AreFrames told.frames.frames fs
        → OnErr result (Begins (P.journal post.old) (P.journal post.new) (offers_of fs)) }
    ensures offers { OnOk result (node.new.offers ≡ node.old.offers + length told.frames.frames) }
    ensures rest { seen node.new ≡ told_to (seen node.old) node.new.offers node.new.orders }
    ensures heard { OnOk result (node.new.orders ≡ fed node.old.orders told.reports) }
    ensures keeps { TellKeeps (K.faults sink.old) (K.faults sink.new) (P.faults post.old) (P.faults post.new) result }
{
    match put_heard(
        site.topo,
        told.reports.as_slice(),
        &mut node.orders,
        page,
        sink,
    ) {
        Ok(()) => offer_frames(
            site.alloc,
            site.topo,
            told.frames.bytes(),
            &mut node.offers,
            post,
            page,
            sink,
        ),
        Err(fault) => Err(fault),
    }
}
