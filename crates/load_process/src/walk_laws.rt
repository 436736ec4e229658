//! What holds of walks themselves. A call of one does nothing.

ghost use Rattle.load_process.specs.parts.WalkLaws.{WalksAreDetermined, WalksClose};

/// Over told files a root has one walk, or one refusal, and not both.
pub fn walks_are_determined()
    ensures { WalksAreDetermined }
{}

/// The names of a walk are the root and what is needed from it on, in breadth, each once.
pub fn walks_close()
    ensures { WalksClose }
{}
