//! A datagram is taken at a hosted broker. A note that submits an event there is published and then answered; any other
//! note is dropped with its line.

ghost use Rattle.std.specs.Prelude.{◌≡◌, ◌≢◌, ℕ, ◌<◌, ◌≤◌, ◌++◌, [], ◌∷◌, length, Ok};
ghost use Rattle.std.specs.Prelude.{IsSome, IfOk, IfErr, OnOk, OnErr, IsOkUnless};
ghost use Rattle.gr_event.specs.declared.event.Event.{Event as Said};
ghost use Rattle.gr_out.specs.Page.{TakesBut, TakesFront};
ghost use Rattle.gr_note.specs.declared.TheConstants.{MAX_NUMBER};
ghost use Rattle.gr_note.specs.Fault.{fault_number};
ghost use Rattle.gr_note.specs.Decode.{note_decoded};
ghost use Rattle.gr_note.specs.Limits.{IsInRange};
ghost use Rattle.gr_topo.specs.Topology.{host_of};
ghost use Rattle.gr_model.specs.NetOf.{net_of};
ghost use Rattle.gr_model.specs.Text.{labels_of, whole_line};
ghost use Rattle.gr_model.specs.Arrivals.{takes_notes};
ghost use Rattle.gr_node.specs.Seen.{seen, broker_in, log_here};
ghost use Rattle.gr_node.specs.Of.{NodeFits};
ghost use Rattle.gr_node.specs.Keeps.{IsServing, PutKeeps, TurnKeeps};
ghost use Rattle.gr_node.specs.Lasting.{ActsKeep};
ghost use Rattle.gr_node.specs.Plan.{publishes, calls, answers, note_acts, datagram_acts, reply_to, reply_entry};
ghost use Rattle.gr_node.specs.Went.{outside, Went, IsTurnFault};

use crate::bindings::node_of_client;
use crate::node::{Node, Site};
use crate::telling::offer;
use crate::turning::{publish, receive};
use gr_event::Event;
use gr_model::Report;
use gr_note::{Note, NoteFault, NoteKind, begins_note, decode, encode};
use gr_out::{Disk, Page, Post, RunFault, Sink};
use gr_report::put_line;
use std::alloc::Global;

/// Whether a broker takes what a publisher submits: the publisher has a client, and is at the broker.
fn takes_notes(site: &Site<'_>, b: u16, p: u16) -> bool
    ensures { result ≡ takes_notes (net_of site.now.topo.now) b p }
{
    if p >= site.topo.publishers() {
        return false;
    }
    match site.topo.client(p) {
        Some(_) => site.topo.host(p) == b,
        None => false,
    }
}

/// The answer to a publish with this number, by the number of the last event after it.
fn reply_to(p: u16, number: u64, last: u64) -> Note
    requires { last ≤ MAX_NUMBER }
    ensures reply { (e : Said) → result ≡ reply_to last (p, (number, e)) }
    ensures range { IsInRange result }
{
    let next = last + 1;
    if number == next {
        return Note::Spent { publisher: p };
    }
    Note::Next { publisher: p, next }
}

/// Answers a publish that was made for a client: which number is waited for, or that no tick is left. An answer that
/// the post could not send is lost.
fn answer<P: Post>(
    site: &Site<'_>,
    node: &Node,
    p: u16,
    number: u64,
    post: &mut P,
) -> Result<(), RunFault>
    requires fits { NodeFits site.now.topo.now (seen node.now) }
    requires publisher { p < length site.now.topo.now.publishers }
    ensures sent { (e : Said) → let t = site.now.topo.now in
        let last : ℕ = (log_here t (seen node.entry.now) p).last in P.tells → OnOk result
        (P.journal post.new ≡ P.journal post.old ++ reply_entry t last (p, (number, e)) ∷ []) }
    ensures unsent { P.tells → OnErr result (P.journal post.new ≡ P.journal post.old) }
    ensures cause { IsOkUnless result RunFault.Memory }
    ensures post { P.faults post.new ≡ P.faults post.old }
{
    let reply = reply_to(p, number, node.last_at(site.topo, p));
    match encode(site.alloc, &reply) {
        Ok(bytes) => offer(
            site.topo.host(p),
            node_of_client(site.topo, p),
            bytes.as_slice(),
            post,
        ),
        Err(_) => Err(RunFault::Memory),
    }
}

/// What a client of a hosted publisher submits is published, and once that is logged it is answered.
fn submit<D: Disk, P: Post, K: Sink>(
    site: &Site<'_>,
    node: &mut Node,
    p: u16,
    number: u64,
    event: &Event,
    disk: &mut D,
    post: &mut P,
    page: &mut Page,
    sink: &mut K,
) -> Result<(), RunFault>
    requires serving { IsServing site.now.topo.now site.now.hosted.now D.tells (D.lane_of disk.old) (seen node.old) }
    requires publisher { p < length site.now.topo.now.publishers }
    requires here { IsSome (broker_in (seen node.old) (host_of site.now.topo.now p)) }
    ensures went { Went site.now.topo.now site.now.hosted.now P.tells
        (calls (publishes (p, (number, event.now))) ∷ (answers (p, (number, event.now)) ∷ []))
        (seen node.old) (seen node.new) (outside (K.taken sink.old) page.old.held (P.journal post.old))
        (outside (K.taken sink.new) page.new.held (P.journal post.new)) result }
    ensures serving { OnOk result
        (IsServing site.now.topo.now site.now.hosted.now D.tells (D.lane_of disk.new) (seen node.new)) }
    ensures kept { D.tells → ActsKeep site.now.topo.now site.now.hosted.now (seen node.old)
        (calls (publishes (p, (number, event.now))) ∷ (answers (p, (number, event.now)) ∷ []))
        (D.lane_of disk.old) (D.lane_of disk.new) }
    ensures keeps { TurnKeeps site.now.topo.now site.now.hosted.now D.tells D.lane_of D.faults D.stops disk.old disk.new
        (K.faults sink.old) (K.faults sink.new) (P.faults post.old) (P.faults post.new) result }
    ensures cause { IfErr result IsTurnFault }
{
    match publish(site, node, p, number, event, disk, post, page, sink) {
        Ok(()) => answer(site, node, p, number, post),
        Err(fault) => Err(fault),
    }
}

/// The note that bytes spell, or why they spell none.
fn read_note(alloc: Global, bytes: &[u8]) -> Result<Result<Note, NoteFault>, RunFault>
    ensures read { IfOk result (λ read. read ≡ note_decoded bytes.now) }
    ensures known { IfOk result (λ read. IfErr read (λ f. f.kind ≢ NoteKind.Memory)) }
    ensures cause { IfErr result (λ e. e ≡ RunFault.Memory) }
{
    match decode(alloc, bytes) {
        Ok(note) => Ok(Ok(note)),
        Err(fault) => match fault.kind {
            NoteKind::Memory => Err(RunFault::Memory),
            _ => Ok(Err(fault)),
        },
    }
}

/// The line of a datagram that begins as a note, and is none.
fn bad_note(b: u16, fault: NoteFault) -> Report
    ensures { result ≡ Report.DroppedBadNote b (fault_number fault.kind) fault.at }
{
    Report::DroppedBadNote {
        broker: b,
        fault: fault.kind.number(),
        at: fault.at as u64,
    }
}

/// Puts the line of a note that is no Submit, or none of a client of the broker.
fn put_stray<K: Sink>(
    site: &Site<'_>,
    b: u16,
    p: u16,
    page: &mut Page,
    sink: &mut K,
) -> Result<(), RunFault>
    requires { b < length site.now.topo.now.brokers }
    ensures told { OnOk result (TakesBut (K.taken sink.old) (K.taken sink.new) (page.old.held
        ++ whole_line (labels_of site.now.topo.now) (Report.DroppedStrayNote b p)) page.new.held) }
    ensures front { OnErr result (TakesFront (K.taken sink.old) (K.taken sink.new) (page.old.held
        ++ whole_line (labels_of site.now.topo.now) (Report.DroppedStrayNote b p))) }
    ensures puts { PutKeeps (K.faults sink.old) (K.faults sink.new) result }
{
    let line = Report::DroppedStrayNote {
        broker: b,
        publisher: p,
    };
    put_line(site.topo, &line, page, sink)
}

/// Takes a note at a hosted broker: what it submits there is published and answered, and any other is dropped.
fn take_read<D: Disk, P: Post, K: Sink>(
    site: &Site<'_>,
    node: &mut Node,
    b: u16,
    note: &Note,
    disk: &mut D,
    post: &mut P,
    page: &mut Page,
    sink: &mut K,
) -> Result<(), RunFault>
    requires serving { IsServing site.now.topo.now site.now.hosted.now D.tells (D.lane_of disk.old) (seen node.old) }
    requires here { IsSome (broker_in (seen node.old) b) }
    ensures went { Went site.now.topo.now site.now.hosted.now P.tells
        (note_acts (net_of site.now.topo.now) b (Ok note.now))
        (seen node.old) (seen node.new) (outside (K.taken sink.old) page.old.held (P.journal post.old))
        (outside (K.taken sink.new) page.new.held (P.journal post.new)) result }
    ensures serving { OnOk result
        (IsServing site.now.topo.now site.now.hosted.now D.tells (D.lane_of disk.new) (seen node.new)) }
    ensures kept { D.tells → ActsKeep site.now.topo.now site.now.hosted.now (seen node.old)
        (note_acts (net_of site.now.topo.now) b (Ok note.now))
        (D.lane_of disk.old) (D.lane_of disk.new) }
    ensures keeps { TurnKeeps site.now.topo.now site.now.hosted.now D.tells D.lane_of D.faults D.stops disk.old disk.new
        (K.faults sink.old) (K.faults sink.new) (P.faults post.old) (P.faults post.new) result }
    ensures cause { IfErr result IsTurnFault }
{
    match note {
        Note::Submit {
            publisher,
            number,
            event,
        } => {
            if takes_notes(site, b, *publisher) {
                return submit(
                    site, node, *publisher, *number, event, disk, post, page, sink,
                );
            }
            put_stray(site, b, *publisher, page, sink)
        }
        Note::Next { publisher, .. } => put_stray(site, b, *publisher, page, sink),
        Note::Spent { publisher } => put_stray(site, b, *publisher, page, sink),
    }
}

/// Takes a datagram that begins as a note at a hosted broker.
fn take_note<D: Disk, P: Post, K: Sink>(
    site: &Site<'_>,
    node: &mut Node,
    b: u16,
    bytes: &[u8],
    disk: &mut D,
    post: &mut P,
    page: &mut Page,
    sink: &mut K,
) -> Result<(), RunFault>
    requires serving { IsServing site.now.topo.now site.now.hosted.now D.tells (D.lane_of disk.old) (seen node.old) }
    requires here { IsSome (broker_in (seen node.old) b) }
    ensures went { Went site.now.topo.now site.now.hosted.now P.tells
        (note_acts (net_of site.now.topo.now) b (note_decoded bytes.now))
        (seen node.old) (seen node.new) (outside (K.taken sink.old) page.old.held (P.journal post.old))
        (outside (K.taken sink.new) page.new.held (P.journal post.new)) result }
    ensures serving { OnOk result
        (IsServing site.now.topo.now site.now.hosted.now D.tells (D.lane_of disk.new) (seen node.new)) }
    ensures kept { D.tells → ActsKeep site.now.topo.now site.now.hosted.now (seen node.old)
        (note_acts (net_of site.now.topo.now) b (note_decoded bytes.now))
        (D.lane_of disk.old) (D.lane_of disk.new) }
    ensures keeps { TurnKeeps site.now.topo.now site.now.hosted.now D.tells D.lane_of D.faults D.stops disk.old disk.new
        (K.faults sink.old) (K.faults sink.new) (P.faults post.old) (P.faults post.new) result }
    ensures cause { IfErr result IsTurnFault }
{
    let read = match read_note(site.alloc, bytes) {
        Ok(read) => read,
        Err(fault) => return Err(fault),
    };
    match &read {
        Ok(note) => take_read(site, node, b, note, disk, post, page, sink),
        Err(fault) => put_line(site.topo, &bad_note(b, *fault), page, sink),
    }
}

/// Takes a datagram at a hosted broker: as a note, where its first bytes are those of notes, and else as a frame.
pub(crate) fn take_datagram<D: Disk, P: Post, K: Sink>(
    site: &Site<'_>,
    node: &mut Node,
    b: u16,
    bytes: &[u8],
    disk: &mut D,
    post: &mut P,
    page: &mut Page,
    sink: &mut K,
) -> Result<(), RunFault>
    requires serving { IsServing site.now.topo.now site.now.hosted.now D.tells (D.lane_of disk.old) (seen node.old) }
    requires here { IsSome (broker_in (seen node.old) b) }
    ensures went { Went site.now.topo.now site.now.hosted.now P.tells
        (datagram_acts (net_of site.now.topo.now) b bytes.now)
        (seen node.old) (seen node.new) (outside (K.taken sink.old) page.old.held (P.journal post.old))
        (outside (K.taken sink.new) page.new.held (P.journal post.new)) result }
    ensures serving { OnOk result
        (IsServing site.now.topo.now site.now.hosted.now D.tells (D.lane_of disk.new) (seen node.new)) }
    ensures kept { D.tells → ActsKeep site.now.topo.now site.now.hosted.now (seen node.old)
        (datagram_acts (net_of site.now.topo.now) b bytes.now)
        (D.lane_of disk.old) (D.lane_of disk.new) }
    ensures keeps { TurnKeeps site.now.topo.now site.now.hosted.now D.tells D.lane_of D.faults D.stops disk.old disk.new
        (K.faults sink.old) (K.faults sink.new) (P.faults post.old) (P.faults post.new) result }
    ensures cause { IfErr result IsTurnFault }
{
    if begins_note(bytes) {
        return take_note(site, node, b, bytes, disk, post, page, sink);
    }
    receive(site, node, b, bytes, post, page, sink)
}
