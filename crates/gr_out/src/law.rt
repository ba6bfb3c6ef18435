//! What follows from the definitions alone.

ghost use Rattle.gr_out.specs.Lane.{Lane, content, MayLeave};

/// A crash may leave of a lane what it reads.
pub fn may_leave_what_it_reads()
    ensures { (l : Lane) → MayLeave l (content l) }
{}
