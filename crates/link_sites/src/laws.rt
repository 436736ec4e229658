//! What holds of linked sites. A call of one does nothing.

ghost use Rattle.link_sites.specs.parts.Laws.{FixupsMeanRelative, LinkedSitesMean};

/// After loading each linked site means what its kind says.
pub fn linked_sites_mean()
    ensures { LinkedSitesMean }
{}

/// A word that is listed as a fixup means what a relative relocation of it means.
pub fn fixups_mean_relative()
    ensures { FixupsMeanRelative }
{}
