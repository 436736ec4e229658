//! Laws on the numbers of the tables and on the definitions of accepted files. A call of one does nothing.

ghost use Rattle.elf_model.specs.Numbers.{HasNumbers};
ghost use Rattle.elf_model.specs.Sound.{AcceptedIsSound};
ghost use Rattle.elf_model.specs.Object.{OneObject};
ghost use Rattle.elf_model.specs.RelSound.{AcceptedIsRelSound};
ghost use Rattle.elf_model.specs.Relocatable.{OneRelocatable};

/// Each constant is the number that the standards give it, and each limit is what it is said to be.
pub fn numbers()
    ensures { HasNumbers }
{}

/// Bytes are at most one object, and none where a test fails.
pub fn one_object()
    ensures { OneObject }
{}

/// Whatever is accepted can be placed: its segments fit and are apart, and all that loading fills lies whole
/// in one writable segment, apart from all else that it fills.
pub fn accepted_is_sound()
    ensures { AcceptedIsSound }
{}

/// Bytes are at most one relocatable file, and none where a test fails.
pub fn one_relocatable()
    ensures { OneRelocatable }
{}

/// Whatever is accepted as a relocatable file can be linked and written: its names have no zero byte, its sections
/// are aligned and have their bytes, and its symbols and relocations lead to what is there.
pub fn accepted_is_rel_sound()
    ensures { AcceptedIsRelSound }
{}
