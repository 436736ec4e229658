//! What holds of lists of fixups. A call of one does nothing.

ghost use Rattle.rofixup.specs.parts.Laws.{ListsReadBack, ValuesArePlaced};

/// A list that was made is read back: its sites, and behind them the GOT.
pub fn lists_read_back()
    ensures { ListsReadBack }
{}

/// Each value becomes what any word that holds its link address becomes.
pub fn values_are_placed()
    ensures { ValuesArePlaced }
{}
