//! What a yes to journals is worth.
//!
//! `behaves` of `specs/Behaves.antt` is what a process of some brokers does at an arrival. Where the journals of
//! several processes are audited with yes, they are one honest run (`IsOneRun` in `specs/OneRun.antt`): the joint order
//! takes each arrival where its datagram was offered before, of the joint run the headline holds, and what each journal
//! says is its part of that run, with its frames numbered by itself.
#![tactic(auto)]

mod law;

pub use law::a_yes_is_one_honest_run;
