//! What lies at link addresses of modules.

ghost use Rattle.std.specs.Prelude.{◌≡◌, ◌||◌};
ghost use Rattle.elf_model.specs.Places.{is_held_in};
ghost use Rattle.load_model.specs.Sites as spec;
ghost use Rattle.load_sites.specs.parts.Linker.{linkage};

use crate::linker::Linker;
use elf_model::{Func, Place, Segment, Symbol, is_executable_in};
use load_model::Value;
use symbol_scope::Found;

/// Whether a segment holds the link address or ends at it.
fn reaches(segment: &Segment, v: u32) -> bool
    ensures { result ≡ (is_held_in segment.now v || spec.is_end_of_segment segment.now v) }
{
    let end = u64::from(segment.vaddr) + u64::from(segment.memsz);
    let v = u64::from(v);
    (u64::from(segment.vaddr) <= v && v < end) || v == end
}

fn has_place(segments: &[Segment], v: u32) -> bool
    ensures { result ≡ spec.has_place segments.now v }
{
    segments.iter().any(|segment| reaches(segment, v))
}

fn is_absolute(place: Place) -> bool
    ensures { result ≡ spec.is_absolute place }
{
    matches!(place, Place::Absolute)
}

/// A link address of the module, or a number.
fn symbol_value(m: u32, symbol: &Symbol) -> Value
    ensures { result ≡ spec.symbol_value m symbol.now }
{
    if is_absolute(symbol.place) {
        Value::Number(symbol.value)
    } else {
        Value::Address(Func {
            module: m,
            value: symbol.value,
        })
    }
}

impl<'a> Linker<'a> {
    /// Whether a link address of a module is placed with it.
    pub(crate) fn is_placed(&self, f: Func) -> bool
        ensures { result ≡ spec.is_placed (linkage self.now) f }
    {
        match self.object(f.module) {
            Some(object) => has_place(object.segments.as_slice(), f.value),
            None => false,
        }
    }

    /// Whether an instruction may stand at a link address of a module.
    pub(crate) fn is_code(&self, f: Func) -> bool
        ensures { result ≡ spec.is_code (linkage self.now) f }
    {
        if f.value % 4 != 0 {
            return false;
        }
        match self.object(f.module) {
            Some(object) => is_executable_in(object.segments.as_slice(), f.value),
            None => false,
        }
    }

    /// The value of the symbol that was found.
    pub(crate) fn value_of(&self, found: Found) -> Value
        ensures { result ≡ spec.value_of (linkage self.now) found }
    {
        let Some(object) = self.object(found.module) else {
            return Value::Number(0);
        };
        match object.symbols.as_slice().get(found.symbol as usize) {
            Some(symbol) => symbol_value(found.module, symbol),
            None => Value::Number(0),
        }
    }
}
