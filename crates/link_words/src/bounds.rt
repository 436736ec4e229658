//! Where the segments of a linked object lie.

ghost use Rattle.std.specs.Prelude.{◌≡◌, ◌&&◌, List, int_le, int_lt, pos};
ghost use Rattle.elf_model.specs.declared.relocatable.RelObject.{RelObject};
ghost use Rattle.link_model.specs.declared.input.Mode.{Mode};
ghost use Rattle.link_model.specs.Places.{text_end, data_place, data_end};
ghost use Rattle.link_model.specs.SiteTests.{lies_between};
ghost use Rattle.link_words.specs.parts.Bounds.{AreBounds, AreNearBounds};

use crate::distance::is_between;

/// Where the segments of a linked object lie. Link addresses are whole numbers here, and may pass 32 bits.
#[derive(Clone, Copy, PartialEq, Eq)]
pub struct Bounds {
    /// The link address at which the text ends. It begins at 0.
    pub text_end: u64,
    /// The link address at which the data begins, and the GOT with it.
    pub data_place: u64,
    /// The link address at which the data ends.
    pub data_end: u64,
}

impl Bounds {
    /// Whether a whole number lies in the text, or at its end.
    pub(crate) fn text_reaches(&self, z: i64) -> bool
        requires { AreNearBounds self.now }
        ensures { (mode : Mode) (inputs : List RelObject) → AreBounds mode inputs self.now
            → result ≡ lies_between 0 (text_end mode inputs) z }
    {
        is_between(0, self.text_end, z)
    }

    /// Whether a whole number lies in the data, or at its end.
    pub(crate) fn data_reaches(&self, z: i64) -> bool
        requires { AreNearBounds self.now }
        ensures { (mode : Mode) (inputs : List RelObject) → AreBounds mode inputs self.now
            → result ≡ lies_between (data_place mode inputs) (data_end mode inputs) z }
    {
        is_between(self.data_place, self.data_end, z)
    }

    /// Whether a whole number lies in the text.
    pub(crate) fn text_holds(&self, z: i64) -> bool
        requires { AreNearBounds self.now }
        ensures { (mode : Mode) (inputs : List RelObject) → AreBounds mode inputs self.now
            → result ≡ (int_le (pos 0) z && int_lt z (pos (text_end mode inputs))) }
    {
        0 <= z && z < self.text_end as i64
    }
}
