//! Brokers: one broker of a topology, with what it knows and asks of each publisher and the logs of the publishers that
//! are here.
#![tactic(auto)]

//! A call takes the topology, a moment and what came, and answers what is told and sent. It first works out what it
//! will say by reading, then takes the memory for every edit, then edits in place, which cannot fail. So a call that
//! wants memory has changed nothing.
//!
//! `specs/Seen.antt` says what a contract sees of a broker, `specs/Of.antt` what holds between calls, and
//! `specs/Keeps.antt` what every call on a log keeps. Each call is one equation with the machine in
//! `gr_model/specs/Broker.antt`.
//!
//! | File | What it does | What its contracts cite |
//! |---|---|---|
//! | `broker` | The calls of a broker; they lend a `Seat` to those below. | `Hosted`, `Receipt`, `Opened` |
//! | `starting` | Starts: opens the logs of the publishers that are here. | `started`; `Opened`, `Starting` |
//! | `publishing` | For a publish, takes out a publisher's part and its log; puts the log back. | `Hosted` |
//! | `hosting` | At the host: logs an event and then learns it, marks silence, cuts. | `publish`, `wake_host`; `Host` |
//! | `joining` | For a join, takes them out too; logs it, holds it, then learns the silence up to it. | `Hosted` |
//! | `waking` | For a wake, takes out a part; wakes the host, or a broker below it. | `Hosted`, `Parts` |
//! | `receiving` | Takes a datagram: it is decoded, it must fit, not split, and not clash. | `Receipt` |
//! | `lane` | Which lanes of a disk have a publisher's log. | `Lanes` |
//! | `outcome` | Why a call is refused or a datagram dropped; lists to be used again. | none |
//! | `law` | Laws of the machine's calls. | `learn`, `receive`, `clashes` |
//!
//! What these calls do tick by tick is said by the rules `Publishes`, `TakesJoin`, `HostWakes`, `Wakes`, and `Comes`
//! for a frame, in `gr_model_calls/specs/Rules.antt`. Each is at the net that the held joins show: a late subscriber
//! wants what is past its join. What is learned, asked and answered for one publisher is in `gr_broker_relay`.

mod broker;
mod hosting;
mod joining;
mod lane;
mod law;
mod outcome;
mod publishing;
mod receiving;
mod starting;
mod waking;

pub use broker::{Broker, Started};
pub use gr_broker_relay::{Memory, Outcome};
pub use lane::log_lane;
pub use law::{clashes_have_a_least_tick, frames_pass_the_log, nothing_new_sends_nothing};
pub use outcome::{BrokerFault, Dropped, Received};
