//! Where statements stand.

ghost use Rattle.std.specs.Prelude.{◌≡◌, ◌<◌, ◌≤◌, ◌+◌, get_or, slice_set};
ghost use Rattle.a32_asm.specs.declared.limits.TheConstants.{SECTION_MAX};
ghost use Rattle.a32_asm.specs.declared.section.TheConstants.{SECTIONS};
ghost use Rattle.a32_asm.specs.Layout as spec;
ghost use Rattle.a32_asm.specs.Shown.{shown_statement};
ghost use Rattle.a32_asm.specs.parts.Fits.{IsStatement};

use crate::layout::chosen;
use crate::placing::size_of;
use crate::said::Statement;

/// Where the next statement stands.
#[derive(Clone, Copy)]
pub struct Spot {
    /// The section that is chosen.
    pub here: u8,
    /// The bytes of each section so far.
    pub sizes: [u32; 4],
}

impl Spot {
    /// That of the first statement.
    pub(crate) fn new() -> Spot
        ensures here { result.here ≡ spec.start.here }
        ensures sizes { result.sizes ≡ spec.start.sizes }
    {
        Spot {
            here: 0,
            sizes: [0; 4],
        }
    }

    /// The offset in the section that is chosen.
    pub(crate) fn offset(&self) -> u32
        requires { self.now.here < SECTIONS }
        ensures { result ≡ get_or self.now.sizes self.now.here 0 }
    {
        self.sizes[self.here as usize]
    }

    /// Goes behind a statement.
    pub(crate) fn pass(&mut self, statement: &Statement)
        requires inside { self.old.here < SECTIONS }
        requires fit { IsStatement (shown_statement statement.now) }
        requires room { get_or self.old.sizes self.old.here 0 + spec.size_of (get_or self.old.sizes self.old.here 0) (shown_statement statement.now) ≤ SECTION_MAX }
        ensures here { self.new.here ≡ spec.chosen (shown_statement statement.now) self.old.here }
        ensures sizes { self.new.sizes ≡ slice_set self.old.sizes self.old.here
            (get_or self.old.sizes self.old.here 0 + spec.size_of (get_or self.old.sizes self.old.here 0) (shown_statement statement.now)) }
    {
        let size = self.offset();
        self.sizes[self.here as usize] = size + size_of(size, statement) as u32;
        self.here = chosen(statement, self.here);
    }
}
