//! The side of a publisher's process.

ghost use Rattle.std.specs.Prelude.{◌≡◌, ◌≤◌, length, Ok};
ghost use Rattle.gr_note.specs.declared.TheConstants.{MAX_NUMBER};
ghost use Rattle.gr_client.specs.Client.{IsAmong, client_begun, heard_by, offered};
ghost use Rattle.gr_client.specs.Client.{begun_with, after_next, after_spent, after_note};

use crate::events::Events;
use gr_event::Memory;
use gr_note::Note;
use std::marker::Model;

/// How far a client is.
#[derive(Clone, Copy, Debug, PartialEq, Eq)]
pub enum Progress {
    /// Its event with this number is submitted next; those before it are logged.
    Running { next: u64 },
    /// All of its events are logged.
    Done,
    /// The host has no tick left for its events.
    Spent,
    /// The host waits for this number, which is past what the client can have submitted.
    Ahead { next: u64 },
}

/// The client of a publisher: it submits its events one by one, the first of them having the number 1, and each again
/// until the host says that it waits for a later one.
#[derive(Drop)]
pub struct Client {
    publisher: u16,
    events: Events,
    progress: Progress,
}

impl Model for Client {
    ghost use Rattle.std.specs.Prelude.{◌≤◌, length};
    ghost use Rattle.gr_note.specs.declared.TheConstants.{MAX_NUMBER};
    ghost use Rattle.gr_client.specs.Client.{ClientView, IsAmong};

    ghost Value = { ClientView };

    ghost view = { λ c. record { publisher = c.publisher; events = c.events; progress = c.progress } };

    ghost invariant = { λ c. (length c.events ≤ MAX_NUMBER) × IsAmong (length c.events) c.progress };
}

impl Client {
    /// A client that begins with the first of its events. Takes no memory.
    pub fn new(publisher: u16, events: Events) -> Client
        requires { length events ≤ MAX_NUMBER }
        ensures { result ≡ client_begun publisher events }
    {
        let progress = begun_with(events.len() as u64);
        Client {
            publisher,
            events,
            progress,
        }
    }

    /// The note to send: the event that is submitted next while the client runs, and none otherwise. It shares the
    /// event, takes no memory, and is never refused.
    #[tactic(auto, unfolding(crate::specs::Client::offered))]
    pub fn offer(&self) -> Result<Option<Note>, Memory>
        ensures offers { result ≡ Ok (offered self.now) }
        ensures among { IsAmong (length self.now.events) self.now.progress }
        ensures few { length self.now.events ≤ MAX_NUMBER }
    {
        match self.progress {
            Progress::Running { next } => {
                let event = self.events.event((next - 1) as usize).share();
                Ok(Some(Note::Submit {
                    publisher: self.publisher,
                    number: next,
                    event,
                }))
            }
            Progress::Done | Progress::Spent | Progress::Ahead { .. } => Ok(None),
        }
    }

    /// Hears a note. A client that runs goes on by a Next of its publisher with a greater number than its own, and ends
    /// by a Spent of its publisher; all other notes, and a client that has ended, change nothing. Takes no memory.
    #[tactic(auto, unfolding(crate::specs::Client::heard_by))]
    pub fn heard(&mut self, note: &Note)
        ensures { self.new ≡ heard_by self.old note.now }
    {
        self.progress = after_note(
            self.publisher,
            self.events.len() as u64,
            self.progress,
            note,
        );
    }

    /// Whose events it has.
    pub(crate) fn publisher(&self) -> u16
        ensures { result ≡ self.now.publisher }
    {
        self.publisher
    }

    /// How many events it has, at most 2^62.
    pub(crate) fn count(&self) -> u64
        ensures count { result ≡ length self.now.events }
        ensures few { length self.now.events ≤ MAX_NUMBER }
    {
        self.events.len() as u64
    }

    /// How far it is. Takes no memory.
    pub fn progress(&self) -> Progress
        ensures { result ≡ self.now.progress }
    {
        self.progress
    }
}

/// How far a client of so many events is at first.
fn begun_with(count: u64) -> Progress
    ensures begun { result ≡ begun_with count }
    ensures among { IsAmong count result }
{
    if count == 0 {
        Progress::Done
    } else {
        Progress::Running { next: 1 }
    }
}

/// How far a client of a publisher is after a note.
fn after_note(publisher: u16, count: u64, progress: Progress, note: &Note) -> Progress
    requires few { count ≤ MAX_NUMBER }
    requires among { IsAmong count progress }
    ensures after { result ≡ after_note publisher count progress note.now }
    ensures among { IsAmong count result }
{
    match note {
        Note::Next {
            publisher: told,
            next,
        } if *told == publisher => after_next(count, progress, *next),
        Note::Spent { publisher: told } if *told == publisher => after_spent(progress),
        Note::Submit { .. } | Note::Next { .. } | Note::Spent { .. } => progress,
    }
}

/// How far a client is that is told which number comes next.
fn after_next(count: u64, progress: Progress, next: u64) -> Progress
    requires few { count ≤ MAX_NUMBER }
    requires among { IsAmong count progress }
    ensures after { result ≡ after_next count progress next }
    ensures among { IsAmong count result }
{
    match progress {
        Progress::Running { next: now } if next > now => {
            if next <= count {
                Progress::Running { next }
            } else if next == count + 1 {
                Progress::Done
            } else {
                Progress::Ahead { next }
            }
        }
        other => other,
    }
}

/// How far a client is once its publisher is spent.
fn after_spent(progress: Progress) -> Progress
    ensures { result ≡ after_spent progress }
{
    match progress {
        Progress::Running { .. } => Progress::Spent,
        other => other,
    }
}
