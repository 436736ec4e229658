//! What holds of images themselves. A call of one does nothing.

ghost use Rattle.load_image.specs.parts.Laws.{SitesHoldTheirWords};

/// Of a sound object the words of each site and of the header of the GOT stand in the image whole, whichever slots are
/// unbound, and outside of them are the file's bytes.
pub fn sites_hold_their_words()
    ensures { SitesHoldTheirWords }
{}
