//! The words that begin a step.

ghost use Rattle.std.specs.Prelude.{◌≡◌};
ghost use Rattle.gr_sched.specs.Grammar.{verb_of};

/// What a step word asks for.
#[derive(Clone, Copy)]
pub enum Verb {
    /// `clock`
    Clock,
    /// `publish`
    Publish,
    /// `wake`
    Wake,
    /// `deliver`
    Deliver,
    /// `crash`
    Crash,
    /// `sweep`
    Sweep,
    /// `show`
    Show,
    /// `bytes`
    Bytes,
    /// `join`
    Join,
}

/// The step word that this is, if it is one.
pub fn verb_of(word: &[u8]) -> Option<Verb>
    ensures { result ≡ verb_of word.now }
{
    match word {
        b"clock" => Some(Verb::Clock),
        b"publish" => Some(Verb::Publish),
        b"wake" => Some(Verb::Wake),
        b"deliver" => Some(Verb::Deliver),
        b"crash" => Some(Verb::Crash),
        b"sweep" => Some(Verb::Sweep),
        b"show" => Some(Verb::Show),
        b"bytes" => Some(Verb::Bytes),
        b"join" => Some(Verb::Join),
        _ => None,
    }
}
