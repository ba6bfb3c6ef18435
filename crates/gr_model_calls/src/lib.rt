//! What each call of a broker and each step of a schedule keep, and the rules that each call follows tick by tick.
//! There is no code here: brokers, runs and the theorems cite it.
//!
//! `specs/Rules.antt` has the rules, `specs/Truth.antt` what is true of a tick at a broker, and `specs/Fits.antt` what
//! holds of every world that a schedule leads to.
#![tactic(auto)]
