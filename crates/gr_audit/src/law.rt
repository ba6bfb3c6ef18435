//! What the joint order and the comparison of texts are worth. The functions here do nothing: their contracts are the
//! laws.

ghost use Rattle.gr_audit.specs.Joint.{GoesFurthest, JointIsExact, StaysIsExact};
ghost use Rattle.gr_audit.specs.Verdict.{WrongIsExact};

/// No order of groups goes further than the joint order, in any journal; so all groups go in it exactly where they do
/// in some order, and exactly then no arrival stays.
pub fn stuck_is_exact()
    ensures furthest { GoesFurthest }
    ensures exact { JointIsExact }
    ensures stays { StaysIsExact }
{}

/// A text is wrong nowhere exactly where it is the other one.
pub fn wrong_is_exact()
    ensures { WrongIsExact }
{}
