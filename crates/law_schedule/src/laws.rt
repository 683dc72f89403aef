//! What the linker keeps of greedy plans.
ghost use Rattle.std.specs.Prelude.{◌≡◌, ℕ, List};
ghost use Rattle.law_schedule.specs.Terms.{Place, SourceValue, IsSource, Site, IsLayout, Overlong, IsOverlong, Linked, Filling, IsLinked, IsGreedy, board};
ghost use Rattle.law_schedule.specs.Schedule.{IsScheduler};

/// A greedy plan is valid. So where greedy plans are proposed, each block has its greedy plan in the linked program, and no
/// proposal is rejected; the same holds of the layout in which an overlong branch was found.
pub fn greedy_is_kept()
    ensures linked { (filling : Filling) (source : SourceValue) (place : Place) (l : Linked)
        → (k : IsLinked IsGreedy filling source place l) → IsLayout IsGreedy source place k.sites × (l.rejected ≡ 0) }
    ensures too_long { (source : SourceValue) (place : Place) (found : Overlong)
        → (t : IsOverlong IsGreedy source place found) → IsLayout IsGreedy source place t.sites × (t.rejected ≡ 0) }
{}

/// Where a function gives the layout of each source by greedy plans, a source that is linked by greedy plans at the board's
/// place has that layout.
pub fn scheduler_links()
    ensures linked { (layout_of : SourceValue → List Site) → IsScheduler layout_of → (filling : Filling) (source : SourceValue) (l : Linked)
        → (k : IsLinked IsGreedy filling source board l) → layout_of source ≡ k.sites }
    ensures too_long { (layout_of : SourceValue → List Site) → IsScheduler layout_of → (source : SourceValue) (found : Overlong)
        → (t : IsOverlong IsGreedy source board found) → layout_of source ≡ t.sites }
{}

/// Each source has exactly one layout by greedy plans at a place.
pub fn greedy_layout_exists()
    ensures exists { (source : SourceValue) (place : Place) → IsSource source → (sites : List Site) × IsLayout IsGreedy source place sites }
    ensures unique { (source : SourceValue) (place : Place) (sites others : List Site)
        → IsLayout IsGreedy source place sites → IsLayout IsGreedy source place others → sites ≡ others }
{}

/// There is a function that gives the layout of each source by greedy plans.
pub fn scheduler_exists()
    ensures { (layout_of : SourceValue → List Site) × IsScheduler layout_of }
{}
