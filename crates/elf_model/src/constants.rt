//! The numbers of the ELF tables, under the names that the standards give them: the gABI's for headers,
//! sections, symbols and dynamic tags, and those of ELF for the Arm Architecture for relocation kinds.

/// The machine number of Arm.
pub const EM_ARM: u16 = 40;
/// The OS/ABI byte of files that name none.
pub const ELFOSABI_NONE: u8 = 0;
/// The OS/ABI byte of Arm FDPIC objects.
pub const ELFOSABI_ARM_FDPIC: u8 = 65;
/// The EABI version, which stands in the top byte of e_flags.
pub const EF_ARM_EABI_VERSION: u8 = 5;

/// Where a field of the ELF header stands, in bytes from the start of the file: the OS/ABI.
pub const EI_OSABI: u32 = 7;
/// As above: the type of the file.
pub const E_TYPE: u32 = 16;
/// As above: the machine.
pub const E_MACHINE: u32 = 18;
/// As above: the version of the format.
pub const E_VERSION: u32 = 20;
/// As above: the link address at which a program begins.
pub const E_ENTRY: u32 = 24;
/// As above: the offset of the program headers.
pub const E_PHOFF: u32 = 28;
/// As above: the offset of the section headers.
pub const E_SHOFF: u32 = 32;
/// As above: flags of the processor.
pub const E_FLAGS: u32 = 36;
/// As above: the size of a program header, in bytes.
pub const E_PHENTSIZE: u32 = 42;
/// As above: how many program headers there are.
pub const E_PHNUM: u32 = 44;
/// As above: the size of a section header, in bytes.
pub const E_SHENTSIZE: u32 = 46;
/// As above: how many section headers there are.
pub const E_SHNUM: u32 = 48;
/// As above: which section has the names of the sections.
pub const E_SHSTRNDX: u32 = 50;

/// A relocatable file.
pub const ET_REL: u16 = 1;
/// An executable.
pub const ET_EXEC: u16 = 2;
/// A shared object.
pub const ET_DYN: u16 = 3;

/// The size of the ELF header, in bytes.
pub const EHDR_SIZE: u16 = 52;
/// The size of a program header, in bytes.
pub const PHDR_SIZE: u16 = 32;
/// The size of a section header, in bytes.
pub const SHDR_SIZE: u16 = 40;
/// The size of a symbol, in bytes.
pub const SYM_SIZE: u32 = 16;
/// The size of a relocation entry, in bytes.
pub const REL_SIZE: u32 = 8;
/// The size of a dynamic entry, in bytes.
pub const DYN_SIZE: u32 = 8;

/// Where a field stands in a program header, in bytes from its start: the kind.
pub const P_TYPE: usize = 0;
/// As above: the offset of the segment's bytes in the file.
pub const P_OFFSET: usize = 4;
/// As above: the link address.
pub const P_VADDR: usize = 8;
/// As above: how many bytes the file has.
pub const P_FILESZ: usize = 16;
/// As above: how many bytes there are in memory.
pub const P_MEMSZ: usize = 20;
/// As above: `PF_R`, `PF_W` and `PF_X`.
pub const P_FLAGS: usize = 24;
/// As above: the alignment, in bytes.
pub const P_ALIGN: usize = 28;

/// Where a field stands in a section header, in bytes from its start: the place of the name in the strings.
pub const SH_NAME: usize = 0;
/// As above: the kind.
pub const SH_TYPE: usize = 4;
/// As above: `SHF_WRITE` and the like.
pub const SH_FLAGS: usize = 8;
/// As above: the link address.
pub const SH_ADDR: usize = 12;
/// As above: the offset of the section's bytes in the file.
pub const SH_OFFSET: usize = 16;
/// As above: the size, in bytes.
pub const SH_SIZE: usize = 20;
/// As above: the section that this one goes with.
pub const SH_LINK: usize = 24;
/// As above: a number or a section, by the kind.
pub const SH_INFO: usize = 28;
/// As above: the alignment, in bytes.
pub const SH_ADDRALIGN: usize = 32;

/// Where a field stands in a symbol, in bytes from its start: the place of the name in the strings.
pub const ST_NAME: usize = 0;
/// As above: the value.
pub const ST_VALUE: usize = 4;
/// As above: the size, in bytes.
pub const ST_SIZE: usize = 8;
/// As above: the byte of the binding and the type.
pub const ST_INFO: usize = 12;
/// As above: the byte of the visibility.
pub const ST_OTHER: usize = 13;
/// As above: the section.
pub const ST_SHNDX: usize = 14;

/// Where a field stands in a dynamic entry, in bytes from its start: the tag.
pub const D_TAG: usize = 0;
/// As above: the value.
pub const D_VAL: usize = 4;

/// Where a field stands in a relocation entry, in bytes from its start: the site.
pub const R_OFFSET: usize = 0;
/// As above: the word of the symbol's number and the kind.
pub const R_INFO: usize = 4;

/// Where the number of chains stands in a hash table, in bytes from its start.
pub const HASH_NCHAIN: usize = 4;

/// The size of the words of the GOT that loading fills, which are its first, in bytes.
pub const GOT_HEADER_SIZE: u32 = 12;

/// A loadable segment.
pub const PT_LOAD: u32 = 1;
/// The dynamic section.
pub const PT_DYNAMIC: u32 = 2;
/// The name of an interpreter.
pub const PT_INTERP: u32 = 3;
/// The program headers themselves.
pub const PT_PHDR: u32 = 6;
/// Thread-local storage.
pub const PT_TLS: u32 = 7;

/// An executable segment.
pub const PF_X: u32 = 1;
/// A writable segment.
pub const PF_W: u32 = 2;
/// A readable segment.
pub const PF_R: u32 = 4;

/// A section of bytes.
pub const SHT_PROGBITS: u32 = 1;
/// A symbol table.
pub const SHT_SYMTAB: u32 = 2;
/// A string table.
pub const SHT_STRTAB: u32 = 3;
/// Relocations with addends of their own.
pub const SHT_RELA: u32 = 4;
/// A table of symbol hashes.
pub const SHT_HASH: u32 = 5;
/// The dynamic section.
pub const SHT_DYNAMIC: u32 = 6;
/// A note.
pub const SHT_NOTE: u32 = 7;
/// A section of zeros without bytes in the file.
pub const SHT_NOBITS: u32 = 8;
/// Relocations whose addends stand at their sites.
pub const SHT_REL: u32 = 9;
/// The symbols for dynamic linking.
pub const SHT_DYNSYM: u32 = 11;
/// Addresses of functions that are called at the start.
pub const SHT_INIT_ARRAY: u32 = 14;
/// Addresses of functions that are called at the end.
pub const SHT_FINI_ARRAY: u32 = 15;
/// A group of sections.
pub const SHT_GROUP: u32 = 17;

/// A section that is written at run time.
pub const SHF_WRITE: u32 = 1;
/// A section that has memory at run time.
pub const SHF_ALLOC: u32 = 2;
/// A section of instructions.
pub const SHF_EXECINSTR: u32 = 4;
/// A section of thread-local storage.
pub const SHF_TLS: u32 = 0x400;

/// A symbol that only its own file sees.
pub const STB_LOCAL: u8 = 0;
/// A symbol that every file sees.
pub const STB_GLOBAL: u8 = 1;
/// A global symbol that may be without a definition.
pub const STB_WEAK: u8 = 2;

/// A symbol of no stated type.
pub const STT_NOTYPE: u8 = 0;
/// A variable.
pub const STT_OBJECT: u8 = 1;
/// A function.
pub const STT_FUNC: u8 = 2;
/// A section.
pub const STT_SECTION: u8 = 3;
/// The name of a source file.
pub const STT_FILE: u8 = 4;
/// A variable in thread-local storage.
pub const STT_TLS: u8 = 6;

/// Visible as the binding says.
pub const STV_DEFAULT: u8 = 0;
/// Hidden, and reserved to the processor's use.
pub const STV_INTERNAL: u8 = 1;
/// Not visible to other objects.
pub const STV_HIDDEN: u8 = 2;
/// Visible, but never overridden by another object.
pub const STV_PROTECTED: u8 = 3;

/// The section index of a symbol without a definition.
pub const SHN_UNDEF: u16 = 0;
/// The section index of an absolute value.
pub const SHN_ABS: u16 = 0xfff1;
/// The section index of a common block.
pub const SHN_COMMON: u16 = 0xfff2;

/// The end of the dynamic entries.
pub const DT_NULL: u32 = 0;
/// The name of a needed object.
pub const DT_NEEDED: u32 = 1;
/// The size of the slots' relocations, in bytes.
pub const DT_PLTRELSZ: u32 = 2;
/// The address of the GOT.
pub const DT_PLTGOT: u32 = 3;
/// The address of the table of symbol hashes.
pub const DT_HASH: u32 = 4;
/// The address of the strings.
pub const DT_STRTAB: u32 = 5;
/// The address of the symbols.
pub const DT_SYMTAB: u32 = 6;
/// The address of relocations with addends of their own.
pub const DT_RELA: u32 = 7;
/// The size of the strings, in bytes.
pub const DT_STRSZ: u32 = 10;
/// The size of a symbol, in bytes.
pub const DT_SYMENT: u32 = 11;
/// The address of the function that is called at the start.
pub const DT_INIT: u32 = 12;
/// The address of the function that is called at the end.
pub const DT_FINI: u32 = 13;
/// The name of this object.
pub const DT_SONAME: u32 = 14;
/// Symbols are looked up in this object first.
pub const DT_SYMBOLIC: u32 = 16;
/// The address of the relocations.
pub const DT_REL: u32 = 17;
/// The size of the relocations, in bytes.
pub const DT_RELSZ: u32 = 18;
/// The size of a relocation, in bytes.
pub const DT_RELENT: u32 = 19;
/// Which kind of relocations the slots have.
pub const DT_PLTREL: u32 = 20;
/// A place for a debugger.
pub const DT_DEBUG: u32 = 21;
/// There are relocations in text.
pub const DT_TEXTREL: u32 = 22;
/// The address of the slots' relocations.
pub const DT_JMPREL: u32 = 23;
/// Every slot is bound at loading.
pub const DT_BIND_NOW: u32 = 24;
/// The address of the array of start functions.
pub const DT_INIT_ARRAY: u32 = 25;
/// The address of the array of end functions.
pub const DT_FINI_ARRAY: u32 = 26;
/// The size of the array of start functions, in bytes.
pub const DT_INIT_ARRAYSZ: u32 = 27;
/// The size of the array of end functions, in bytes.
pub const DT_FINI_ARRAYSZ: u32 = 28;
/// Flags, of which the three below are looked at.
pub const DT_FLAGS: u32 = 30;

/// In DT_FLAGS: as DT_SYMBOLIC.
pub const DF_SYMBOLIC: u32 = 2;
/// In DT_FLAGS: as DT_TEXTREL.
pub const DF_TEXTREL: u32 = 4;
/// In DT_FLAGS: as DT_BIND_NOW.
pub const DF_BIND_NOW: u32 = 8;

/// No relocation.
pub const R_ARM_NONE: u8 = 0;
/// A branch.
pub const R_ARM_PC24: u8 = 1;
/// The value of a symbol.
pub const R_ARM_ABS32: u8 = 2;
/// The distance of a symbol from the site.
pub const R_ARM_REL32: u8 = 3;
/// The value of a symbol, in a word of the GOT.
pub const R_ARM_GLOB_DAT: u8 = 21;
/// The placed address of a link address.
pub const R_ARM_RELATIVE: u8 = 23;
/// The distance of a symbol from the GOT.
pub const R_ARM_GOTOFF32: u8 = 24;
/// The offset of a symbol's word in the GOT.
pub const R_ARM_GOT_BREL: u8 = 26;
/// A branch, through the PLT where the symbol isn't settled.
pub const R_ARM_PLT32: u8 = 27;
/// A branch with link.
pub const R_ARM_CALL: u8 = 28;
/// A branch that may have a condition.
pub const R_ARM_JUMP24: u8 = 29;
/// A word that the platform defines: here as R_ARM_ABS32.
pub const R_ARM_TARGET1: u8 = 38;
/// A mark on a branch by register.
pub const R_ARM_V4BX: u8 = 40;
/// A distance of 31 bits.
pub const R_ARM_PREL31: u8 = 42;
/// The offset of the word with a descriptor's address in the GOT.
pub const R_ARM_GOTFUNCDESC: u8 = 161;
/// The offset of a descriptor from the GOT.
pub const R_ARM_GOTOFFFUNCDESC: u8 = 162;
/// The address of a function's descriptor.
pub const R_ARM_FUNCDESC: u8 = 163;
/// A function's descriptor: its address and its GOT.
pub const R_ARM_FUNCDESC_VALUE: u8 = 164;

/// The most loadable segments of an object.
pub const MAX_SEGMENTS: usize = 8;
/// The most symbols, DT_REL entries and JMPREL entries of an object, each by itself.
pub const MAX_ENTRIES: usize = 65_536;
/// The largest alignment of a kept section of a relocatable file, in bytes.
pub const MAX_SECTION_ALIGN: u32 = 4096;
/// The most bytes of a kept section of a relocatable file, and of all of them in the file.
pub const MAX_SECTION_BYTES: u32 = 4_194_304;
/// The most relocations of all kept sections of a relocatable file.
pub const MAX_SECTIONS_ENTRIES: u32 = 524_288;
/// The most needed names of an object.
pub const MAX_NEEDED: usize = 64;
