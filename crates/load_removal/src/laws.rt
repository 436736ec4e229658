//! What holds after modules were taken out. A call of one does nothing.

ghost use Rattle.load_removal.specs.parts.Laws.{OthersAreValid, RemovalsKeepAddresses, RemovalsKeepConsistent};

/// Where modules go in whole groups, of which no other module has need, the others are a process.
pub fn others_are_valid()
    ensures { OthersAreValid }
{}

/// A loader that is consistent stays so when such modules are taken out.
pub fn removals_keep_consistent()
    ensures { RemovalsKeepConsistent }
{}

/// A function whose module stays keeps its descriptor's address.
pub fn removals_keep_addresses()
    ensures { RemovalsKeepAddresses }
{}
