//! Why a load is refused.

use elf_model::ElfRefusal;
use fd_base::Name;
use std::alloc::AllocError;

/// Why a program or a library isn't loaded. Of several causes the first is given. The files come first, in the order
/// in which they are needed: for each `TooManyModules`, `TooLong`, `NoFile` and `Elf`. Then come the places that
/// loading fills, over the new modules in order and in each over DT_REL, DT_JMPREL and the fixups in table order: for
/// each `Unresolved`, `NotCode` or `BadAddress`. Then come `DescriptorsFull` and `NoRoom`.
#[derive(Drop)]
pub enum LoadRefusal {
    /// What was asked for is not built yet, for the program of this name.
    NotBuilt(Name),
    /// The file of this name is no object: the first test that it fails.
    Elf(Name, ElfRefusal),
    /// There is no file of this name.
    NoFile(Name),
    /// The file of this name is longer than `MAX_FILE`.
    TooLong(Name),
    /// There is no number for one more module.
    TooManyModules,
    /// A symbol of a module that isn't weak has no definition: the module's number, and the symbol's name, if any.
    Unresolved(u32, Option<Name>),
    /// A module refers to a function by a symbol whose definition is no place of code: the module's number, and the
    /// symbol's name, if any.
    NotCode(u32, Option<Name>),
    /// More functions need a descriptor than slots are free. This many are free.
    DescriptorsFull(u32),
    /// The first segment without an address, counted from 0 among those that are to be placed.
    NoRoom(u32),
    /// What is to be written at a place leads to no address: the module's number, and the link address of the place.
    BadAddress(u32, u32),
}

/// Why nothing is loaded.
#[derive(Drop)]
pub enum LoadErr {
    Refused(LoadRefusal),
    /// The store's fault, which it has counted.
    StoreFault,
    /// Memory is wanted.
    Memory,
}

impl From<AllocError> for LoadErr {
    ghost use Rattle.std.specs.Prelude.{◌≡◌};
    ghost use Rattle.load_model.specs.declared.error.LoadErr.TheVariants.{Memory};

    ghost from_gives = { λ _ e. e ≡ Memory };

    fn from(_error: AllocError) -> Self {
        LoadErr::Memory
    }
}
