//! Laws on the numbers and on the layout of linked objects. A call of one does nothing.

ghost use Rattle.link_model.specs.Numbers.{HasNumbers};
ghost use Rattle.link_model.specs.parts.Laws.{SectionsLieApart, SitesLieApart, NeedsLieApart, WordsAreLinked, PassingIsFitting, NamesAreNumbered};

/// Each constant is the number that it is said to be.
pub fn numbers()
    ensures { HasNumbers }
{}

/// Each section lies in its part of its segment at a multiple of its alignment, and no two share a byte.
pub fn sections_lie_apart()
    ensures { SectionsLieApart }
{}

/// No two relocations share a byte, as far as they change something and each was tested against the earlier ones.
pub fn sites_lie_apart()
    ensures { SitesLieApart }
{}

/// Each need stands once in the GOT, behind its header, and no two share a byte.
pub fn needs_lie_apart()
    ensures { NeedsLieApart }
{}

/// The two segments are apart, each word that the linker writes stands in the file, and so do all other bytes of the
/// sections.
pub fn words_are_linked()
    ensures { WordsAreLinked }
{}

/// Of a relocation that passes its tests, each thing that they ask.
pub fn passing_is_fitting()
    ensures { PassingIsFitting }
{}

/// Names are numbered as they first appear, and the loader finds each that it sees by number and by name.
pub fn names_are_numbered()
    ensures { NamesAreNumbered }
{}
