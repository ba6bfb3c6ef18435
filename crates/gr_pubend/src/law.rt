//! Laws of what is said of a log: each is the contract of a function that does nothing.

ghost use Rattle.gr_pubend.specs.Found.{SaidIsSettled, SaidGoesOn};

/// What is said of a log rises from its cut up to what is settled, within the limits.
pub fn said_is_settled()
    ensures { SaidIsSettled }
{}

/// What is said of a log goes on with each record, and with each cut.
pub fn said_goes_on()
    ensures { SaidGoesOn }
{}
