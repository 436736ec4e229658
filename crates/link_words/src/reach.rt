//! Who settles a symbol, and what it is.

ghost use Rattle.std.specs.Prelude.{◌≡◌};
ghost use Rattle.link_model.specs.DynamicSymbols as symbols;
ghost use Rattle.link_model.specs.Targets as spec;

use elf_model::constants::{STT_FILE, STT_SECTION, STV_DEFAULT, STV_PROTECTED};
use link_model::{Reach, Spot, Target};

/// The linker, by a definition of the inputs.
pub(crate) fn is_settled(reach: Reach) -> bool
    ensures { result ≡ spec.is_settled reach }
{
    matches!(reach, Reach::Settled)
}

/// The linker: it is nothing.
pub(crate) fn is_nothing(reach: Reach) -> bool
    ensures { result ≡ spec.is_nothing reach }
{
    matches!(reach, Reach::Nothing)
}

/// Whether the loader settles a symbol.
pub fn is_dynamic(reach: Reach) -> bool
    ensures { result ≡ spec.is_dynamic reach }
{
    matches!(reach, Reach::Dynamic)
}

/// A number, and no address.
pub(crate) fn is_absolute(spot: Spot) -> bool
    ensures { result ≡ spec.is_absolute spot }
{
    matches!(spot, Spot::Absolute(_))
}

/// Defined in no input.
pub(crate) fn is_nowhere(spot: Spot) -> bool
    ensures { result ≡ spec.is_nowhere spot }
{
    matches!(spot, Spot::Nowhere)
}

/// Whether others may see a symbol that is defined.
fn is_exported(t: &Target) -> bool
    ensures { result ≡ symbols.is_exported t.now }
{
    (t.visibility == STV_DEFAULT || t.visibility == STV_PROTECTED)
        && !(t.kind == STT_SECTION || t.kind == STT_FILE)
}

/// Whether the loader sees a symbol.
pub fn is_shown(t: &Target) -> bool
    ensures { result ≡ symbols.is_shown t.now }
{
    if is_nowhere(t.spot) {
        t.visibility == STV_DEFAULT
    } else {
        is_exported(t)
    }
}
