//! What is listed of a layout.
ghost use Rattle.std.specs.Prelude.{◌≡◌};
ghost use Rattle.mx_isa.specs.declared.Place.{Place};
ghost use Rattle.mx_source.specs.SourceValue.{SourceValue};
ghost use Rattle.mx_link.specs.declared.linked.Linked.{Linked};
ghost use Rattle.mx_link.specs.Origins.{from_target};
ghost use Rattle.mx_link.specs.Linked.{IsLinked};
ghost use Rattle.cmd_list.specs.Listing.{listing_text, linked_parts, layout_listing};

use mx_validate::Proposer;

/// What is listed of a linked program of which no proposal was rejected is what is listed of its layout.
pub fn layout_is_listed<P: Proposer>()
    ensures { (source : SourceValue) (place : Place) (l : Linked)
        → (k : IsLinked P.proposes from_target source place l) → l.rejected ≡ 0
        → listing_text source (linked_parts l) ≡ layout_listing source place k.sites }
{}
