//! What holds of placings themselves. Nothing here runs.

ghost use Rattle.std.specs.Prelude.{◌≡◌, ℕ, ◌↔◌, ◌++◌, List, Contains};
ghost use Rattle.placement.specs.Placed.{Placed, FailsAt};
ghost use Rattle.placement.specs.Space.{AreApart, all_held, ranges_at, SameRanges};
ghost use Rattle.placement.specs.declared.item.Held.{Held};
ghost use Rattle.placement.specs.declared.item.Item.{Item};

/// Items have one placing, or one first item that fails, and not both.
pub fn one_placing()
    ensures placed_once { (low high : ℕ) (held : List Held) (items : List Item) (xs ys : List ℕ) →
        Placed low high held items xs → Placed low high held items ys → xs ≡ ys }
    ensures fails_once { (low high : ℕ) (held : List Held) (items : List Item) (m n : ℕ) →
        FailsAt low high held items m → FailsAt low high held items n → m ≡ n }
    ensures not_both { (low high : ℕ) (held : List Held) (items : List Item) (xs : List ℕ) (n : ℕ) →
        Placed low high held items xs → ¬ FailsAt low high held items n }
{}

/// A placing asks which ranges are held, and not in which order they are listed.
pub fn regardless_of_order()
    ensures placed { (low high : ℕ) (xs ys : List Held) (items : List Item) (addrs : List ℕ) →
        SameRanges xs ys → Placed low high xs items addrs → Placed low high ys items addrs }
    ensures fails { (low high : ℕ) (xs ys : List Held) (items : List Item) (n : ℕ) →
        SameRanges xs ys → FailsAt low high xs items n → FailsAt low high ys items n }
{}

/// What is held once items are held is what was held and the ranges of these items, and nothing else.
pub fn holds_just_these()
    ensures { (items : List Item) (addrs : List ℕ) (held : List Held) →
        SameRanges (all_held items addrs held) (held ++ ranges_at items addrs) }
{}

/// Ranges that meet nowhere still meet nowhere once placed items are held too.
pub fn keeps_apart()
    ensures { (low high : ℕ) (held : List Held) (items : List Item) (addrs : List ℕ) →
        AreApart held → Placed low high held items addrs → AreApart (all_held items addrs held) }
{}
