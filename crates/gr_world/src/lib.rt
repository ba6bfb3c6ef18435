//! The world of a schedule: all brokers of a topology, and the frames between them in their bytes. Each call carries
//! out one step of the schedule, and is that step of the machine of definitions.
#![tactic(auto)]

//! `specs/Seen.antt` says what a contract sees of a world, `specs/Steps.antt` when a call is a step of the machine or
//! is refused, `specs/Of.antt` what holds between calls.
//!
//! | File | What it does | What its contracts cite |
//! |---|---|---|
//! | `world` | The world, its clock, and what its opening told. | `Seen`, `Of` |
//! | `opening` | Makes a world over a disk; crashes a broker. | `start`, `crash`; `Opened` |
//! | `starting` | Starts all brokers over their lanes, or one again after its lanes have crashed. | `Starting` |
//! | `steps` | The steps `publish`, `join`, `wake` and `deliver`. | `Makes` and `Refuses` in `Steps`, `Disk` |
//! | `calls` | One broker's call within a step. | `publish_now`, `join_now`, `wake_for`, `deliver_frame`; `Ran` |
//! | `sending` | Takes up what a call tells and sends: frames are numbered and kept. | `sent_lines`; `Taking` |
//! | `pair` | Orders a stop on both lanes of a log, and crashes both. | `Lanes` |
//! | `stopping` | A publish that stops inside: its host crashes and starts again. | `publish_stopped`; `Stopped` |
//! | `sweeping` | A sweep: three phases for each publisher. | `sweep_moment`, `sweep_for`; `Sweeps` |
//! | `delivering` | Delivers what is sent in a sweep, upward and down. | `deliver_up`, `hand_down`; `Sweeps` |
//! | `order` | Brokers by their depth below a host. | `inwards`, `outwards` |
//! | `heads` | Kind, receiver and publisher of a frame that is not read. | `is_want`, `is_know_to`; `Seen` |
//! | `showing` | What is shown, and the bytes of a frame. | `show`; `Shown` |
//! | `copying` | Copies of report lines. | none |
//! | `law` | What stands of every world that a run led to. | `Fits`, `Lasting` |
//! | `fault` | Why a call is refused. | `fault_in` in `Ran` |
//!
//! Where no file stands beside it, a name in small letters is a definition of the machine, in
//! `gr_model/specs/World.antt`, and one with a capital is a file of this crate's `specs`.

mod calls;
mod copying;
mod delivering;
mod fault;
mod heads;
pub mod law;
mod opening;
mod order;
mod pair;
mod sending;
mod showing;
mod starting;
mod steps;
mod stopping;
mod sweeping;
mod world;

pub use fault::{Memory, WorldFault};
pub use world::World;
