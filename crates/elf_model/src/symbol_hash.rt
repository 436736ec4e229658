//! The hash of symbol names.

ghost use Rattle.std.specs.Prelude.{◌≡◌};
ghost use Rattle.elf_model.specs.Hashed as spec;

use fd_base::Name;

/// A hash with one more byte of the name.
#[tactic(auto, unfolding(crate::specs::Hashed::step))]
fn step(h: u32, c: u8) -> u32
    ensures { result ≡ spec.step h c }
{
    let h = h.wrapping_mul(16).wrapping_add(u32::from(c));
    let top = h & 0xf000_0000;
    (h ^ (top >> 24)) & !top
}

/// The hash of a name, by which the hash table of an object finds its symbols.
#[tactic(auto, unfolding(crate::specs::Hashed::symbol_hash))]
pub fn hash(name: &Name) -> u32
    ensures { result ≡ spec.symbol_hash name.now }
{
    let mut h = 0;
    for c in name.as_slice() {
        h = step(h, *c);
    }
    h
}
