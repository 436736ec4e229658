//! Kinds of relocations.

ghost use Rattle.std.specs.Prelude.{◌≡◌, [], ◌∷◌};
ghost use Rattle.elf_model.specs.declared.constants.TheConstants.{R_ARM_ABS32, R_ARM_REL32, R_ARM_GOTOFF32, R_ARM_GOT_BREL, R_ARM_TARGET1, R_ARM_GOTFUNCDESC, R_ARM_GOTOFFFUNCDESC, R_ARM_FUNCDESC};
ghost use Rattle.elf_model.specs.Header.{is_one_of};
ghost use Rattle.link_model.specs.Needs as needs;
ghost use Rattle.link_model.specs.Sites as sites;
ghost use Rattle.link_model.specs.SiteTests as tests;

use elf_model::constants as elf;

/// The field of a branch.
pub(crate) fn is_branch(kind: u8) -> bool
    ensures { result ≡ needs.is_branch kind }
{
    matches!(
        kind,
        elf::R_ARM_PC24 | elf::R_ARM_PLT32 | elf::R_ARM_CALL | elf::R_ARM_JUMP24
    )
}

/// Whether relocations of a kind change nothing.
pub fn is_idle(kind: u8) -> bool
    ensures { result ≡ needs.is_idle kind }
{
    matches!(kind, elf::R_ARM_NONE | elf::R_ARM_V4BX)
}

/// Whether relocations of a kind are of descriptors.
pub fn is_function_kind(kind: u8) -> bool
    ensures { result ≡ needs.is_function_kind kind }
{
    matches!(
        kind,
        elf::R_ARM_GOTFUNCDESC | elf::R_ARM_GOTOFFFUNCDESC | elf::R_ARM_FUNCDESC
    )
}

/// Kinds whose word is an address.
pub(crate) fn is_address_kind(kind: u8) -> bool
    ensures { result ≡ sites.is_address_kind kind }
{
    matches!(kind, elf::R_ARM_ABS32 | elf::R_ARM_TARGET1)
}

/// Kinds whose word is a distance from the word itself or from the GOT.
pub(crate) fn is_distance_kind(kind: u8) -> bool
    ensures { result ≡ is_one_of (R_ARM_REL32 ∷ R_ARM_GOTOFF32 ∷ []) kind }
{
    matches!(kind, elf::R_ARM_REL32 | elf::R_ARM_GOTOFF32)
}

/// Kinds whose word is an offset that only the linker can give.
pub(crate) fn is_offset_kind(kind: u8) -> bool
    ensures { result ≡ is_one_of (R_ARM_REL32 ∷ R_ARM_GOTOFF32 ∷ R_ARM_GOTOFFFUNCDESC ∷ []) kind }
{
    is_distance_kind(kind) || kind == elf::R_ARM_GOTOFFFUNCDESC
}

/// Kinds that name a word of the GOT or a descriptor.
pub(crate) fn is_got_kind(kind: u8) -> bool
    ensures { result ≡ is_one_of (R_ARM_GOT_BREL ∷ R_ARM_GOTFUNCDESC ∷ R_ARM_GOTOFFFUNCDESC ∷ R_ARM_FUNCDESC ∷ []) kind }
{
    kind == elf::R_ARM_GOT_BREL || is_function_kind(kind)
}

/// Kinds whose word the loader may have to fill.
pub(crate) fn is_loaded_kind(kind: u8) -> bool
    ensures { result ≡ is_one_of (R_ARM_ABS32 ∷ R_ARM_TARGET1 ∷ R_ARM_FUNCDESC ∷ []) kind }
{
    is_address_kind(kind) || kind == elf::R_ARM_FUNCDESC
}

/// Kinds that the linker knows.
pub(crate) fn is_known(kind: u8) -> bool
    ensures { result ≡ tests.is_known kind }
{
    is_branch(kind)
        || is_idle(kind)
        || is_address_kind(kind)
        || is_distance_kind(kind)
        || is_got_kind(kind)
}
