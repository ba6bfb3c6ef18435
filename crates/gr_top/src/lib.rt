//! The top call: what each command of `gryphon` reads, does, prints and answers, over a source, a sink, a disk and a
//! post. `replay` carries out a scenario and prints its report; `serve` runs the named brokers of its topology, and so
//! does `trace`, which prints their journal; `audit` says whether journals are one honest run; `publish` submits the
//! events of a publisher of it to its host; `match` prints for each event the filters that match it, and `cover` for
//! each two filters whether the one covers the other; `soak` makes a scenario, carries it out and prints counts over
//! its report. The contract of `gryphon` speaks in the words of `specs/Top.antt`.
#![tactic(auto)]

mod auditing;
mod broker_words;
mod covering;
pub mod headline;
mod hosting;
mod input;
mod matching;
mod printing;
mod publishing;
mod replaying;
mod running;
mod serving;
mod soaking;
mod submitter;
mod submitting;
mod top;
mod voice;
mod word;
mod words;

pub use top::gryphon;
