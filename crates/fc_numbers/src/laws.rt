//! How places and offsets of kernel text go together. Nothing here runs: each function has a law as its contract.

ghost use Rattle.fc_numbers.specs.SpanLaws.{EndsAreNear, NearOffsets, NearPlaces, OffsetOfPlace, OffsetsAreBelow, OffsetsKeepPages, OffsetsRise, PlaceOfOffset, PlacesAreAbove, PlacesAreInText, TextHasPages};

/// A place of text is at or above the bound of the ranges.
#[tactic(auto, using(crate::proofs::TextLaws::places_above))]
pub fn places_are_above()
    ensures { PlacesAreAbove }
{}

/// The offset of a place of text is below the size of text.
#[tactic(auto, using(crate::proofs::TextLaws::offset_below))]
pub fn offsets_are_below()
    ensures { OffsetsAreBelow }
{}

/// The place of the offset of a place is that place.
#[tactic(auto, using(crate::proofs::TextLaws::place_offset))]
pub fn place_of_offset()
    ensures { PlaceOfOffset }
{}

/// The offset of the place of an offset is that offset.
#[tactic(auto, using(crate::proofs::TextLaws::offset_place))]
pub fn offset_of_place()
    ensures { OffsetOfPlace }
{}

/// The place of an offset is in text.
#[tactic(auto, using(crate::proofs::TextLaws::place_inside))]
pub fn places_are_in_text()
    ensures { PlacesAreInText }
{}

/// Two places of text less than a page apart are of one range.
#[tactic(auto, using(crate::proofs::TextLaws::offset_near))]
pub fn near_offsets()
    ensures { NearOffsets }
{}

/// Offsets rise with places.
#[tactic(auto, using(crate::proofs::TextLaws::offset_rises))]
pub fn offsets_rise()
    ensures { OffsetsRise }
{}

/// Within a range, places and offsets go on together.
#[tactic(auto, using(crate::proofs::TextLaws::place_near))]
pub fn near_places()
    ensures { NearPlaces }
{}

/// A page begins at the same places in both countings.
#[tactic(auto, using(crate::proofs::TextLaws::offset_page))]
pub fn offsets_keep_pages()
    ensures { OffsetsKeepPages }
{}

/// The end of a range lies behind its bytes, and not behind text.
#[tactic(auto, using(crate::proofs::TextLaws::end_near))]
pub fn ends_are_near()
    ensures { EndsAreNear }
{}

/// Text has whole pages.
#[tactic(auto, using(crate::proofs::TextLaws::size_pages))]
pub fn text_has_pages()
    ensures { TextHasPages }
{}
