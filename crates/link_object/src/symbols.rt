//! The symbols that the loader sees.

ghost use Rattle.std.specs.Prelude.{◌≡◌, ◌^◌, ◌<◌, ◌∷◌, All, map, IfOk};
ghost use Rattle.elf_model.specs.Symbols as elf;
ghost use Rattle.link_model.specs.DynamicSymbols as spec;
ghost use Rattle.link_model.specs.Targets as targets;

use elf_model::constants::{STT_FUNC, STT_NOTYPE};
use elf_model::{Place, Symbol, Symbols};
use elf_read::null_symbol;
use fd_base::{Memory, Name, Seq};
use link_model::{Key, Mode, Spot, Target};
use link_names::Joined;
use link_places::Layout;
use std::alloc::{AllocError, Global};

/// A copy of a name.
fn name_of(alloc: Global, bytes: &[u8]) -> Result<Name, Memory>
    ensures { IfOk result (λ name. name ≡ bytes.now) }
{
    match Name::new(alloc, bytes) {
        Ok(name) => Ok(name),
        Err(_) => Err(AllocError),
    }
}

/// The name that the symbol of a key has.
fn name_of_key(alloc: Global, joined: &Joined<'_>, key: Key) -> Result<Option<Name>, Memory>
    ensures { IfOk result (λ name. name ≡ targets.name_of_key joined.now.inputs key) }
{
    match joined.name_of_key(key) {
        Some(name) => Ok(Some(name_of(alloc, name)?)),
        None => Ok(None),
    }
}

fn shown_place(spot: Spot) -> Place
    ensures { result ≡ spec.shown_place spot }
{
    match spot {
        Spot::Nowhere => Place::Undefined,
        Spot::Absolute(_) => Place::Absolute,
        Spot::Section(_, _) | Spot::Common(_) => Place::Here,
    }
}

/// Whether what is defined there can be called: at a multiple of 4 in the text.
fn is_callable(layout: &Layout<'_>, spot: Spot) -> bool
    ensures { result ≡ spec.is_callable layout.now.mode layout.now.text.inputs.now spot }
{
    let address = layout.address_of(spot);
    !matches!(spot, Spot::Absolute(_)) && address % 4 == 0 && address < layout.text_end()
}

/// What is defined as a function and can't be called loses its type.
fn shown_kind(layout: &Layout<'_>, target: &Target) -> u8
    ensures { result ≡ spec.shown_kind layout.now.mode layout.now.text.inputs.now target.now }
{
    let is_defined = !matches!(target.spot, Spot::Nowhere);
    if target.kind == STT_FUNC && is_defined && !is_callable(layout, target.spot) {
        STT_NOTYPE
    } else {
        target.kind
    }
}

fn dynamic_symbol(
    alloc: Global,
    joined: &Joined<'_>,
    layout: &Layout<'_>,
    target: &Target,
) -> Result<Symbol, Memory>
    requires { joined.now ≡ record { mode = layout.now.mode; inputs = layout.now.text.inputs.now } }
    ensures size { IfOk result (λ symbol. symbol.size < 2 ^ 32) }
    ensures symbol { IfOk result (λ symbol. symbol ≡ spec.dynamic_symbol layout.now.mode layout.now.text.inputs.now target.now) }
{
    let size = target.size;
    Ok(Symbol {
        name: name_of_key(alloc, joined, target.key)?,
        value: (layout.address_of(target.spot) % (1 << 32)) as u32,
        size,
        binding: target.binding,
        kind: shown_kind(layout, target),
        visibility: target.visibility,
        place: shown_place(target.spot),
    })
}

/// The null symbol, and these.
fn shown_symbols(
    alloc: Global,
    joined: &Joined<'_>,
    layout: &Layout<'_>,
    shown: &[Target],
) -> Result<Symbols, Memory>
    requires { joined.now ≡ record { mode = layout.now.mode; inputs = layout.now.text.inputs.now } }
    ensures sizes { IfOk result (λ symbols. All (λ s. s.size < 2 ^ 32) symbols) }
    ensures symbols { IfOk result (λ symbols. symbols
        ≡ elf.null_symbol ∷ map (spec.dynamic_symbol layout.now.mode layout.now.text.inputs.now) shown.now) }
{
    let mut symbols = Seq::new(alloc);
    symbols.push(null_symbol())?;
    for target in shown {
        symbols.push(dynamic_symbol(alloc, joined, layout, target)?)?;
    }
    Ok(symbols)
}

/// The symbols that the loader sees, from what they are once all are joined.
pub(crate) fn dynamic_symbols(
    alloc: Global,
    joined: &Joined<'_>,
    layout: &Layout<'_>,
    shown: &[Target],
) -> Result<Symbols, Memory>
    requires joined { joined.now ≡ record { mode = layout.now.mode; inputs = layout.now.text.inputs.now } }
    requires shown { shown.now ≡ spec.shown_targets layout.now.mode layout.now.text.inputs.now }
    ensures sizes { IfOk result (λ symbols. All (λ s. s.size < 2 ^ 32) symbols) }
    ensures symbols { IfOk result (λ symbols. symbols ≡ spec.symbols_for layout.now.mode layout.now.text.inputs.now) }
{
    match layout.mode {
        Mode::Static => Ok(Seq::new(alloc)),
        Mode::Program | Mode::Shared => shown_symbols(alloc, joined, layout, shown),
    }
}
