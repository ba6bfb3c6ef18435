//! What a broker does for one publisher: it learns what comes, hands it over and forwards it to its children, answers
//! what they ask, asks upstream for what is unknown, and at the host says how far the log is to be cut.
#![tactic(auto)]

//! A call looks at a `Site`, where the broker stands in the publisher's tree, and edits a `Held`, what it keeps of that
//! publisher. Each is one equation with a call of the machine in `gr_model/specs/Broker.antt`: `learn`, `curiosity`,
//! `wake_below`, `expect` and `expect_frames`. `Tells` and `Adds` in `specs/Told.antt` say what is told and sent,
//! `held_view` in `specs/Held.antt` what is kept, `IsKept` in `specs/Kept.antt` what each call needs of that, and
//! `KeepsPart` in `specs/Keeps.antt` what it leaves of it. Nothing here calls a disk: of a log a call leaves all as it
//! was.
//!
//! | File | What it does | The machine's call: its rule | In `specs` |
//! |---|---|---|---|
//! | `learning` | Learns a piece: horizon, deliveries, frames down, final ticks. | `learn`: `NewTicks` | `Changes` |
//! | | Forgets events and moments of asks. | `kept_view`: `Forgets`, `KeepsMoments` | none |
//! | `answering` | A child asks and acknowledges: answers it, and asks upward. | `curiosity`: `ChildAsks` | `Answers` |
//! | `asking` | Woken below the host: asks and acknowledges upward. | `wake_below`: `Wakes`, `Asks` | none |
//! | | Told what to expect: the same, and tells the children. | `expect`: `Expects`, `SendsExpect` | none |
//! | `cutting` | Says how far the log is to be cut. | `done_upto`: `HostWakes` | `Cuts` |
//! | `sending` | Makes the frames to a child, and to the next broker up. | `know_frames`, `up_frames` | `Told` |
//! | `place` | Works out where the broker stands in each tree, once. | none | `Branch`, `Positions` |
//! | `site` | What a call reads: `Seat` for all publishers, `Site` for one. | none | `Held` |
//! | `held` | What is kept of one publisher. | `View` | `Held`, `Kept` |
//! | `outcome` | What a call tells and sends. | `Outcome` | `Told` |
//!
//! The rules say what each call does tick by tick; they are in `gr_model_calls/specs/Rules.antt`.

mod answering;
mod asking;
mod cutting;
mod held;
mod learning;
mod outcome;
mod place;
mod sending;
mod site;

pub use answering::take_curiosity;
pub use asking::{expect_children, take_expect, wake_below};
pub use cutting::cut_due;
pub use held::Held;
pub use learning::{Changes, apply_learning, learn, plan_learning, reserve_learning};
pub use outcome::{Memory, Outcome};
pub use place::{Child, Placed, Position, positions_at};
pub use site::{Seat, Site, site_at};
