//! What holds of every schedule and of every server: the headline, and the theorems beside it, over every topology that
//! is a tree. There is no code here that runs.
//!
//! `specs/Statements.antt` says what the theorems speak of; `theorems` lists them. `specs/Examples.antt` has small
//! schedules with their whole reports.
#![tactic(auto)]

pub mod theorems;
