//! What each symbol is once all are joined.

ghost use Rattle.std.specs.Prelude.{◌≡◌, true, false, List, Contains, All, if◌then◌else◌};
ghost use Rattle.std.specs.Option.{option_map_or};
ghost use Rattle.elf_model.specs.declared.constants.TheConstants.{STT_NOTYPE};
ghost use Rattle.elf_model.specs.declared.relocatable.RelObject.{RelObject};
ghost use Rattle.link_model.specs.declared.target.Reach.TheVariants.{Dynamic, Settled};
ghost use Rattle.link_model.specs.Inputs.{symbols_of};
ghost use Rattle.link_model.specs.Joined.{definition_taken, first_of, is_common};
ghost use Rattle.link_model.specs.Targets as spec;

use crate::group::{all_weak, common_align, common_size, definition_taken, visibility_of};
use crate::mention::{Mention, is_common};
use crate::numbering::Inputs;
use elf_model::constants::{STB_GLOBAL, STB_WEAK, STT_NOTYPE, STV_DEFAULT};
use link_model::{Key, Mode, Reach, Spot, Target};

/// Whether another object can take the place of what the linked object defines.
fn is_preemptible(mode: Mode, visibility: u8) -> bool
    ensures { result ≡ spec.is_preemptible mode visibility }
{
    matches!(mode, Mode::Shared) && visibility == STV_DEFAULT
}

/// Whether no other object can define what the inputs don't.
pub(crate) fn is_closed(mode: Mode, visibility: u8) -> bool
    ensures { result ≡ spec.is_closed mode visibility }
{
    matches!(mode, Mode::Static) || visibility != STV_DEFAULT
}

/// Who settles what an input defines.
fn reach_of_defined(mode: Mode, visibility: u8) -> Reach
    ensures { result ≡ (if spec.is_preemptible mode visibility then Dynamic else Settled) }
{
    if is_preemptible(mode, visibility) {
        Reach::Dynamic
    } else {
        Reach::Settled
    }
}

/// The kind of the first symbol.
fn first_kind(group: &[Mention]) -> u8
    ensures { result ≡ option_map_or (λ x. (x.symbol).kind) (first_of group.now) STT_NOTYPE }
{
    match group.first() {
        Some(x) => x.symbol.kind,
        None => STT_NOTYPE,
    }
}

/// What no input defines: the name of number `k`.
fn undefined_target(mode: Mode, k: u32, group: &[Mention]) -> Target
    ensures { result ≡ spec.undefined_target mode k group.now }
{
    let visibility = visibility_of(group);
    Target {
        key: Key::Name(k),
        spot: Spot::Nowhere,
        reach: if is_closed(mode, visibility) {
            Reach::Nothing
        } else {
            Reach::Dynamic
        },
        binding: if all_weak(group) {
            STB_WEAK
        } else {
            STB_GLOBAL
        },
        kind: first_kind(group),
        visibility,
        size: 0,
        align: 1,
    }
}

/// What is defined by a common block: the name of number `k`.
fn block_target(mode: Mode, k: u32, group: &[Mention], taken: &Mention) -> Target
    requires { is_common (taken.now.symbol).place ≡ true }
    ensures { (inputs : List RelObject) → result ≡ spec.defined_target mode inputs k group.now taken.now }
{
    let visibility = visibility_of(group);
    Target {
        key: Key::Name(k),
        spot: Spot::Common(k),
        reach: reach_of_defined(mode, visibility),
        binding: taken.symbol.binding,
        kind: taken.symbol.kind,
        visibility,
        size: common_size(group),
        align: common_align(group),
    }
}

/// What is defined by a symbol at a place: the name of number `k`.
fn placed_target(mode: Mode, inputs: &Inputs, k: u32, group: &[Mention], taken: &Mention) -> Target
    requires placed { is_common (taken.now.symbol).place ≡ false }
    requires known { Contains (symbols_of inputs.now) taken.now }
    ensures { result ≡ spec.defined_target mode inputs.now k group.now taken.now }
{
    let visibility = visibility_of(group);
    Target {
        key: Key::Name(k),
        spot: inputs.spot_of(taken),
        reach: reach_of_defined(mode, visibility),
        binding: taken.symbol.binding,
        kind: taken.symbol.kind,
        visibility,
        size: taken.symbol.size,
        align: 1,
    }
}

/// What the symbols of a name are together: the name of number `k`.
pub(crate) fn joined_target(mode: Mode, inputs: &Inputs, k: u32, group: &[Mention]) -> Target
    requires { All (Contains (symbols_of inputs.now)) group.now }
    ensures { result ≡ spec.joined_target mode inputs.now k group.now (definition_taken group.now) }
{
    match definition_taken(group) {
        None => undefined_target(mode, k, group),
        Some(taken) if is_common(taken.symbol.place) => block_target(mode, k, group, taken),
        Some(taken) => placed_target(mode, inputs, k, group, taken),
    }
}

/// A symbol that is joined with no other.
pub(crate) fn own_target(inputs: &Inputs, x: &Mention) -> Target
    requires { Contains (symbols_of inputs.now) x.now }
    ensures { result ≡ spec.own_target inputs.now x.now }
{
    Target {
        key: Key::Own(x.input, x.number),
        spot: inputs.spot_of(x),
        reach: Reach::Settled,
        binding: x.symbol.binding,
        kind: x.symbol.kind,
        visibility: x.symbol.visibility,
        size: x.symbol.size,
        align: 1,
    }
}
