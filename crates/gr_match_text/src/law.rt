//! What the limits are. The function here does nothing: its contract is the law.

ghost use Rattle.std.specs.Prelude.{◌≡◌};
ghost use Rattle.gr_match_text.specs.declared.filter_list.TheConstants.{MAX_FILTERS};

/// How many filters a match text may have.
pub fn limit_of_filters()
    ensures { MAX_FILTERS ≡ 1024 }
{}
