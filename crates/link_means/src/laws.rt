//! What holds of linked objects after loading. A call of one does nothing.

ghost use Rattle.link_means.specs.Linked.{LinkedMeans};
ghost use Rattle.link_means.specs.parts.Laws.{
  DistancesMean,
  IdleBranchesMean,
  LinkedIsOutput,
  SettledAddressesMean,
  SettledBranchesMean,
  WordsStay,
};

/// The written file of a linked object has the segments of the link, and what it leaves to the loader.
pub fn linked_is_output()
    ensures { LinkedIsOutput }
{}

/// A word of a kind that the loader doesn't fill stays as the linker writes it.
pub fn words_stay()
    ensures { WordsStay }
{}

/// A word with an address that the linker settles holds that address as it is placed.
pub fn settled_addresses_mean()
    ensures { SettledAddressesMean }
{}

/// A branch to what the inputs define leads there.
pub fn settled_branches_mean()
    ensures { SettledBranchesMean }
{}

/// A branch to what is nowhere defined goes on with the next instruction.
pub fn idle_branches_mean()
    ensures { IdleBranchesMean }
{}

/// A distance that the linker settles is that between the placed addresses.
pub fn distances_mean()
    ensures { DistancesMean }
{}

/// What is made of inputs that pass the tests is linked: loading makes each of their relocations mean what its kind says,
/// wherever the object lies.
pub fn linked_means()
    ensures { LinkedMeans }
{}
