//! What holds of load maps themselves. A call of one does nothing.

ghost use Rattle.load_map.specs.Whole.{SegmentsStayWhole, PlacesStayDistinct};

/// Each segment is placed as a whole.
pub fn segments_stay_whole()
    ensures { SegmentsStayWhole }
{}

/// Where neither link addresses nor placed ones meet, each placed address has one link address.
pub fn places_stay_distinct()
    ensures { PlacesStayDistinct }
{}
