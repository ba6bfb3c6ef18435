//! What holds of printed steps, and what the limits are. The functions here do nothing: their contracts are the laws.

ghost use Rattle.std.specs.Prelude.{◌≡◌, ◌^◌, ℕ, Ok};
ghost use Rattle.gr_sched.specs.declared.step.TheConstants.{MAX_INPUT_BYTES, MAX_NUMBER, MAX_STEPS};
ghost use Rattle.gr_sched.specs.declared.step.Step.{Step};
ghost use Rattle.gr_sched.specs.Naming.{Naming};
ghost use Rattle.gr_sched.specs.Grammar.{step_of};
ghost use Rattle.gr_sched.specs.Printed.{Writing, step_text, IsWritten};

/// A printed step reads back, on any line and with any names.
pub fn printed_steps_read_back()
    ensures { (names : Naming) (n : ℕ) (w : Writing) (s : Step)
        → IsWritten names w s → step_of names n (step_text w s) ≡ Ok s }
{}

/// What the limits of schedules are.
pub fn limits_of_schedules()
    ensures steps { MAX_STEPS ≡ 100000 }
    ensures number { MAX_NUMBER ≡ 2 ^ 62 }
    ensures bytes { MAX_INPUT_BYTES ≡ 4194304 }
{}
