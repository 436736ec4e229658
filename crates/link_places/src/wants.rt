//! What a relocation wants to have in the GOT.

ghost use Rattle.std.specs.Prelude.{◌≡◌, OnOk};
ghost use Rattle.symbol_scope.specs.Closure.{with_new};
ghost use Rattle.link_model.specs.Needs as spec;
ghost use Rattle.link_places.specs.parts.NeedTable.{needs_in};

use crate::needs::NeedSet;
use crate::text::TextPlaces;
use elf_model::constants::{
    R_ARM_CALL, R_ARM_FUNCDESC, R_ARM_GOT_BREL, R_ARM_GOTFUNCDESC, R_ARM_GOTOFFFUNCDESC,
    R_ARM_JUMP24, R_ARM_PC24, R_ARM_PLT32,
};
use fd_base::Memory;
use link_model::{Need, Reach, Target};

fn is_branch(kind: u8) -> bool
    ensures { result ≡ spec.is_branch kind }
{
    matches!(kind, R_ARM_PC24 | R_ARM_PLT32 | R_ARM_CALL | R_ARM_JUMP24)
}

/// Whether a relocation is one of descriptors.
fn is_function_kind(kind: u8) -> bool
    ensures { result ≡ spec.is_function_kind kind }
{
    matches!(
        kind,
        R_ARM_GOTFUNCDESC | R_ARM_GOTOFFFUNCDESC | R_ARM_FUNCDESC
    )
}

/// The descriptor of what a symbol is: each function has one, whichever symbols name it.
pub fn descriptor_need(text: &TextPlaces, target: &Target) -> Need
    ensures { result ≡ spec.descriptor_need text.now.inputs.now target.now }
{
    if text.is_function(target.spot) {
        Need::Descriptor(text.function_address(target.spot))
    } else {
        Need::NoFunction(target.key)
    }
}

fn add_if(needs: &mut NeedSet, wanted: bool, need: Need) -> Result<(), Memory>
    ensures { OnOk result (needs_in needs.new ≡ with_new spec.is_same_need (needs_in needs.old) (spec.only_if wanted need)) }
{
    if wanted { needs.add(need) } else { Ok(()) }
}

/// Adds what a relocation of a kind wants that names a symbol.
pub(crate) fn add_wanted(
    needs: &mut NeedSet,
    text: &TextPlaces,
    kind: u8,
    target: &Target,
) -> Result<(), Memory>
    ensures { OnOk result (needs_in needs.new ≡ with_new spec.is_same_need (needs_in needs.old) (spec.needs_for text.now.inputs.now kind target.now)) }
{
    let is_settled = matches!(target.reach, Reach::Settled);
    if is_branch(kind) {
        let is_dynamic = matches!(target.reach, Reach::Dynamic);
        return add_if(needs, is_dynamic, Need::Slot(target.key));
    }
    if kind == R_ARM_GOT_BREL {
        return needs.add(Need::Word(target.key));
    }
    if kind == R_ARM_GOTFUNCDESC {
        needs.add(Need::FuncWord(target.key))?;
    }
    if is_function_kind(kind) {
        return add_if(needs, is_settled, descriptor_need(text, target));
    }
    Ok(())
}
