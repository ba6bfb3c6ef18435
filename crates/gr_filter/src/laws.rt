//! What the reader of filters promises in the grammar's own words, and its limits. The functions do nothing: each
//! contract is a law.

ghost use Rattle.std.specs.Prelude.{◌≡◌, ◌↔◌, ℕ, List, Ok};
ghost use Rattle.gr_filter.specs.Tree.{Tree};
ghost use Rattle.gr_filter.specs.Grammar.{filter_text};
ghost use Rattle.gr_filter.specs.Productions.{IsFilterText};
ghost use Rattle.gr_filter.specs.declared.parser.TheConstants.{MAX_FILTER_BYTES, LEVELS};

/// A text is read as a filter exactly where its words derive the filter's tree by the productions, within 4,096 bytes
/// and 64 levels. So AND binds closer than OR, both group from the left, keywords have any case, and what stands
/// between words is only space; each text has one tree.
pub fn reads_what_derives()
    ensures { (bytes : List ℕ) (t : Tree) → (filter_text bytes ≡ Ok t) ↔ IsFilterText bytes t }
{}

/// What the limits of filters are.
pub fn limits_of_filters()
    ensures bytes { MAX_FILTER_BYTES ≡ 4096 }
    ensures levels { LEVELS ≡ 64 }
{}
