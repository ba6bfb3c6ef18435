//! What the limit is. The function here does nothing: its contract is the law.

ghost use Rattle.std.specs.Prelude.{◌≡◌};
ghost use Rattle.gr_cover_text.specs.declared.reading.TheConstants.{MAX_COMPARED};

/// How many filters may be compared.
pub fn limit_of_compared_filters()
    ensures { MAX_COMPARED ≡ 64 }
{}
