//! The lines that say why bytes are no match text.

ghost use Rattle.std.specs.Prelude.{◌≡◌, ◌≢◌, IfOk, string_bytes};
ghost use Rattle.gr_match_text.specs.Refusals.{match_line};

use crate::fault::MatchFault;
use gr_event::Text;
use std::alloc::{AllocError, Global};

/// The line of a match text's fault, as `match 1 bad-filter line 3 expected 4`. Want of memory has none.
pub(crate) fn line_of(alloc: Global, fault: MatchFault) -> Result<Text, AllocError>
    ensures line { IfOk result (λ text. text ≡ match_line fault) }
    ensures known { IfOk result (λ text. fault ≢ MatchFault.Memory) }
{
    match fault {
        MatchFault::Memory => Err(AllocError),
        MatchFault::BadFilter { line, fault } => {
            let word = fault.word();
            let place = fault.place();
            text_of(
                alloc,
                format!(in alloc; "match 1 bad-filter line {line} {word} {place}")?,
            )
        }
        MatchFault::BadEvent { line, fault } => {
            let word = fault.word();
            text_of(
                alloc,
                format!(in alloc; "match 2 bad-event line {line} {word}")?,
            )
        }
        MatchFault::TooMany { line } => {
            text_of(alloc, format!(in alloc; "match 3 too-many line {line}")?)
        }
        MatchFault::BadName { line } => {
            text_of(alloc, format!(in alloc; "match 4 bad-name line {line}")?)
        }
        MatchFault::Twice { line } => {
            text_of(alloc, format!(in alloc; "match 5 twice line {line}")?)
        }
    }
}

/// The bytes of a string as a text.
fn text_of(alloc: Global, text: String) -> Result<Text, AllocError>
    ensures { IfOk result (λ t. t ≡ string_bytes text) }
{
    Text::from_slice(alloc, text.as_bytes())
}
