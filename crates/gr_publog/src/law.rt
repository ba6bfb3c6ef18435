//! Laws of lanes: each is the contract of a function that does nothing.

ghost use Rattle.std.specs.Prelude.{◌≡◌, ◌^◌};
ghost use Rattle.gr_publog.specs.declared.append.TheConstants.{LAST_GATE};
ghost use Rattle.gr_publog.specs.declared.record.TheConstants.{MAX_TICK};
ghost use Rattle.gr_publog.specs.State.{BeginsAsState, StaysState};
ghost use Rattle.gr_publog.specs.Text.{ReadsAsSpelled, SpellsWhatIsRead};
ghost use Rattle.gr_publog.specs.Lanes.{HoldsWhatIsFound};
ghost use Rattle.gr_publog.specs.Filled.{StandsFor};
ghost use Rattle.gr_publog.specs.Views.{StandsRead, StandsFound};
ghost use Rattle.gr_publog.specs.Rewrite.{ThreeOutcomes, FilledSame, ShutIs, FilledIs, TwoAre, LowerIs, Reclaims};

/// What a log holds keeps its order, record by record.
pub fn stays_a_state()
    ensures begins { BeginsAsState }
    ensures stays { StaysState }
{}

/// A lane that spells records behind a base reads as them, whatever stands behind the closed gate.
pub fn reads_what_is_spelled()
    ensures { ReadsAsSpelled }
{}

/// An open lane reads as nothing else: what it reads as is spelled by it.
pub fn spells_what_is_read()
    ensures { SpellsWhatIsRead }
{}

/// What two lanes hold is what stands in the one that is present.
#[tactic(auto, unfolding(crate::specs::Lanes::lanes_text, crate::specs::Lanes::pair_in))]
pub fn holds_what_is_found()
    ensures { HoldsWhatIsFound }
{}

/// Every image of a lane that is closed and filled anew is the old bytes, shut, or the new bytes.
pub fn three_outcomes()
    ensures { ThreeOutcomes }
{}

/// What stands behind place 6 is all that a filled lane keeps.
pub fn filled_same()
    ensures { FilledSame }
{}

/// A shut lane stands shut.
#[tactic(auto, unfolding(crate::specs::Text::head_in))]
pub fn shut_is()
    ensures { ShutIs }
{}

/// A filled lane stands open, with the generation that it was filled with.
#[tactic(auto, unfolding(crate::specs::Text::head_in))]
pub fn filled_is()
    ensures { FilledIs }
{}

/// Which of two lanes is present is told by how each stands.
#[tactic(auto, unfolding(crate::specs::Lanes::present_of))]
pub fn two_are()
    ensures { TwoAre }
{}

/// Of two generations the greater one is present.
pub fn lower_is()
    ensures { LowerIs }
{}

/// Each pair of images of two lanes, one of which is filled anew, holds what stood in them before, or what the lane was
/// filled with.
pub fn reclaims()
    ensures { Reclaims }
{
    shut_is();
    filled_is();
    two_are();
    lower_is();
}

/// What a lane is filled with stands for what a log holds, whatever stood in the lane before.
pub fn stands_for()
    ensures { StandsFor }
{}

/// Each pair of images that a crash may leave of two lanes in which a log stands holds what the log holds.
pub fn stands_read()
    ensures { StandsRead }
{
    shut_is();
    two_are();
    lower_is();
}

/// Each such pair stands for the log: it is opened as the same lane, with the same generation and size.
pub fn stands_found()
    ensures { StandsFound }
{
    shut_is();
    two_are();
    lower_is();
}

/// The last tick of a log, and its last generation.
pub fn last_tick_of_logs()
    ensures { MAX_TICK ≡ 2 ^ 62 }
{}

/// The greatest place of a gate behind which a record is appended: no lane of a real disk is so long.
pub fn last_gate_of_logs()
    ensures { LAST_GATE ≡ 2 ^ 62 }
{}
