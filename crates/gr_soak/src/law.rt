//! What the text of a soak reads as. The function does nothing: its contract is the law.

ghost use Rattle.std.specs.Prelude.{◌≡◌, ℕ, ◌≤◌};
ghost use Rattle.gr_scenario.specs.declared.asked.Asked.TheVariants.{Scenario};
ghost use Rattle.gr_scenario.specs.Scenario.{asked_by};
ghost use Rattle.gr_soak.specs.Text.{soak_text};
ghost use Rattle.gr_soak.specs.Steps.{soak_topology, soak_steps};

use crate::text::MAX_TURNS;

/// The text of a soak reads as a scenario: its topology, and the steps of its turns.
pub fn soaks_are_scenarios()
    ensures { (n : ℕ) → n ≤ MAX_TURNS → asked_by (soak_text n) ≡ Scenario soak_topology (soak_steps n) }
{}
