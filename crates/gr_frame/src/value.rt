//! The values that the runs of a frame carry.

ghost use Rattle.std.specs.Prelude.{◌≡◌, ◌≢◌, ◌+◌, ◌≤◌, ◌<◌, ◌^◌, ℕ, length, IfOk, MatchResult, Ok, Err};
ghost use Rattle.gr_event.specs.Event.{event_size, event_bytes};
ghost use Rattle.gr_event.specs.Limits.{IsEvent};
ghost use Rattle.gr_event.specs.Decode.{event_decoded};
ghost use Rattle.gr_event.specs.declared.event.EventFault.TheVariants.{Memory as EventMemory};
ghost use Rattle.gr_event.specs.Gives.{Fails as EventFails};
ghost use Rattle.gr_know.specs.declared.values.K.TheVariants.{D};
ghost use Rattle.gr_know.proofs.ValueLaws.{K_decides};
ghost use Rattle.gr_curio.proofs.ValueLaws.{Q3_decides};
ghost use Rattle.gr_tick.specs.Runs.{Decides_same};
ghost use Rattle.gr_frame.specs.Form.{Form};
ghost use Rattle.gr_frame.specs.Bytes.{known_bytes, wanted_bytes, known_run_size, wanted_run_size};
ghost use Rattle.gr_frame.specs.Decode.{run_size, known_form, wanted_form, kind_number, event_refused, event_of};
ghost use Rattle.gr_frame.specs.Decode.{event_at, known_value_at, wanted_value_at};
ghost use Rattle.gr_frame.specs.Limits.{IsKnown, IsWanted};
ghost use Rattle.gr_frame.specs.Gives.{Gives, Fails};
ghost use Rattle.gr_frame.specs.declared.TheConstants.{MAX_FRAME_BYTES};

use crate::fault::{FrameFault, FrameKind};
use crate::field::{byte_at, fault, field_at, put_u16, u16_at};
use gr_curio::Q3;
use gr_event::{Event, EventFault};
use gr_know::K;
use gr_tick::{Lattice, Run};
use std::alloc::Global;

/// Which body a frame has.
#[derive(Clone, Copy, Debug, PartialEq, Eq)]
pub enum BodyKind {
    /// What is known.
    Knowledge,
    /// What is known, behind a list of joins.
    JoinedKnowledge,
    /// What is asked for or acknowledged.
    Curiosity,
    /// A tick up to which all is to be asked for.
    Expect,
}

impl BodyKind {
    /// Its number in the bytes of a frame.
    pub fn number(self) -> u8
        ensures { result ≡ kind_number self }
    {
        match self {
            BodyKind::Knowledge | BodyKind::JoinedKnowledge => 1,
            BodyKind::Curiosity => 2,
            BodyKind::Expect => 3,
        }
    }
}

/// A value of a run, with its form in the bytes of a frame.
pub trait FrameValue: Lattice {
    /// Its bytes, the size of a run that has it, how it is read, and when two are the same.
    ghost form: { Form Self };

    /// What holds of every value.
    ghost fits: { Self → Type 0 };

    /// The value that stands at a place of the bytes.
    fn read(alloc: Global, bytes: &[u8], at: usize) -> Result<Self, FrameFault>
        requires short { length bytes.now ≤ MAX_FRAME_BYTES }
        requires inside { at ≤ length bytes.now }
        ensures gives { Gives result (form.read bytes.now at) }
        ensures some { IfOk result (λ v. v ≢ Self.least) }
        ensures within { IfOk result (λ v. at + length (form.bytes v) ≤ length bytes.now) };

    /// How many bytes a run takes.
    fn run_size(run: &Run<Self>) -> usize
        ensures size { result ≡ form.size run.now }
        ensures spelled { run.now.value ≢ Self.least → result ≡ run_size form run.now }
        ensures least { 17 ≤ result }
        ensures most { result ≤ 8211 }
        ensures fits { fits run.now.value };

    /// Writes the bytes of the value into a slice of exactly their size.
    fn put(&self, into: &mut [u8])
        requires { length into.old ≡ length (form.bytes self.now) }
        ensures bytes { into.new ≡ form.bytes self.now }
        ensures fits { fits self.now };

    /// The test of the form says exactly when two values are the same.
    ghost decides: { Decides_same form.same };
}

impl FrameValue for K {
    ghost form = { known_form };

    ghost fits = { IsKnown };

    ghost decides = { K_decides };

    #[tactic(auto, unfolding(crate::specs::Decode::known_value_at, crate::specs::Decode::known_of_kind))]
    fn read(alloc: Global, bytes: &[u8], at: usize) -> Result<K, FrameFault> {
        match byte_at(bytes, at)? {
            1 => Ok(K::S),
            2 => Ok(K::D(event_at(alloc, bytes, at + 1)?)),
            3 => Ok(K::F),
            _ => Err(fault(FrameKind::BadKind, at)),
        }
    }

    fn run_size(run: &Run<K>) -> usize {
        match &run.value {
            K::D(event) => 19 + event.size(),
            K::Q | K::S | K::F => 17,
        }
    }

    fn put(&self, into: &mut [u8]) {
        match self {
            K::Q => {}
            K::S => into[0] = 1,
            K::D(event) => put_event(event, into),
            K::F => into[0] = 3,
        }
    }
}

impl FrameValue for Q3 {
    ghost form = { wanted_form };

    ghost fits = { IsWanted };

    ghost decides = { Q3_decides };

    #[tactic(auto, unfolding(crate::specs::Decode::wanted_value_at))]
    fn read(_alloc: Global, bytes: &[u8], at: usize) -> Result<Q3, FrameFault> {
        match byte_at(bytes, at)? {
            1 => Ok(Q3::C),
            2 => Ok(Q3::A),
            _ => Err(fault(FrameKind::BadKind, at)),
        }
    }

    fn run_size(_run: &Run<Q3>) -> usize {
        17
    }

    fn put(&self, into: &mut [u8]) {
        match self {
            Q3::N => {}
            Q3::C => into[0] = 1,
            Q3::A => into[0] = 2,
        }
    }
}

/// The event behind its length of two bytes.
#[tactic(auto, unfolding(crate::specs::Decode::event_at))]
fn event_at(alloc: Global, bytes: &[u8], at: usize) -> Result<Event, FrameFault>
    requires short { length bytes.now ≤ MAX_FRAME_BYTES }
    requires inside { at ≤ length bytes.now }
    ensures gives { Gives result (event_at bytes.now at) }
    ensures within { IfOk result (λ e. at + 2 + length (event_bytes e) ≤ length bytes.now) }
{
    let size = u16_at(bytes, at)?;
    let form = field_at(bytes, at + 2, usize::from(size))?;
    match Event::decode(alloc, form) {
        Ok(event) => Ok(event),
        Err(refused) => Err(event_refused(refused, at + 2)),
    }
}

/// The fault of a frame whose event at a place does not decode.
fn event_refused(refused: EventFault, at: usize) -> FrameFault
    ensures { result ≡ event_refused at refused }
{
    match refused {
        EventFault::Memory => fault(FrameKind::Memory, 0),
        _ => fault(FrameKind::BadEvent, at),
    }
}

/// Writes the kind, the length and the bytes of an event into a slice of exactly their size.
fn put_event(event: &Event, into: &mut [u8])
    requires { length into.old ≡ 3 + event_size event.now }
    ensures bytes { into.new ≡ known_bytes (D event.now) }
    ensures event { IsEvent event.now }
{
    let (kind, behind) = into.split_at_mut(1);
    kind[0] = 2;
    let (size, form) = behind.split_at_mut(2);
    put_u16(event.size() as u16, size);
    event.encode_into(form);
}
