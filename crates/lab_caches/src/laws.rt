//! A law over the definitions.
ghost use Rattle.lab_caches.specs.Rows.{EachRunCountsFetches};

/// Of each run the machine counts as many fetches as there are addresses, and as many misses as its own cache has over them.
pub fn runs_count_fetches()
    ensures { EachRunCountsFetches }
{}
