//! Executables and shared objects.

ghost use Rattle.std.specs.Prelude.{◌≡◌};
ghost use Rattle.elf_model.specs.Inits.{has_inits};

use fd_base::{Bytes, Name, Names, Seq, Words};

/// What an object is for.
#[derive(Clone, Copy, Debug, PartialEq, Eq)]
pub enum Kind {
    /// An executable.
    Exec,
    /// A shared object.
    Dyn,
}

/// A loadable segment. Past the bytes that the file holds its memory is zero.
#[derive(Drop)]
pub struct Segment {
    /// The link address of its first byte.
    pub vaddr: u32,
    /// The size of its memory, in bytes.
    pub memsz: u32,
    /// `PF_R`, `PF_W` and `PF_X`.
    pub flags: u32,
    /// The alignment of its memory, in bytes: 0 or a power of two.
    pub align: u32,
    /// The bytes that the file holds, from `vaddr` on.
    pub filled: Bytes,
}

/// Where a symbol is defined.
#[derive(Clone, Copy, PartialEq, Eq)]
pub enum Place {
    /// In no place of this file.
    Undefined,
    /// Nowhere: its value is no address.
    Absolute,
    /// At a link address of this object.
    Here,
    /// In a common block, which the linker is to place.
    Common,
    /// In the section of this number, counted from 0 among those that are kept.
    Section(u32),
    /// In a section that isn't kept.
    Dropped,
}

/// A symbol.
#[derive(Drop)]
pub struct Symbol {
    /// Its name, and none where that is empty.
    pub name: Option<Name>,
    /// Its link address, or the value of an absolute symbol.
    pub value: u32,
    /// Its size in bytes.
    pub size: u32,
    /// `STB_LOCAL`, `STB_GLOBAL`, `STB_WEAK` or another number below 16.
    pub binding: u8,
    /// `STT_NOTYPE`, `STT_FUNC` and the like, or another number below 16.
    pub kind: u8,
    /// `STV_DEFAULT` and the like.
    pub visibility: u8,
    /// Where it is defined.
    pub place: Place,
}

/// A relocation. Its addend is the file's word at the site.
#[derive(Clone, Copy, Debug, PartialEq, Eq)]
pub struct Rel {
    /// The link address of the word, or of the two words, that it fills.
    pub site: u32,
    /// `R_ARM_RELATIVE` and the like.
    pub kind: u8,
    /// The number of its symbol.
    pub symbol: u32,
}

/// A range of link addresses.
#[derive(Clone, Copy, PartialEq, Eq)]
pub struct Extent {
    /// Its first link address.
    pub addr: u32,
    /// Its size in bytes.
    pub size: u32,
}

/// What an object wants to have called at its start and its end. Nothing calls it yet.
#[derive(Clone, Copy, PartialEq, Eq)]
pub struct Inits {
    /// The value of DT_INIT.
    pub init: Option<u32>,
    /// The value of DT_FINI.
    pub fini: Option<u32>,
    /// The array of start functions, where it has bytes.
    pub init_array: Option<Extent>,
    /// The array of end functions, where it has bytes.
    pub fini_array: Option<Extent>,
}

impl Inits {
    /// Whether there is any.
    pub fn has_any(&self) -> bool
        ensures { result ≡ has_inits self.now }
    {
        self.init.is_some()
            || self.fini.is_some()
            || self.init_array.is_some()
            || self.fini_array.is_some()
    }
}

/// Segments in the order of their program headers.
pub type Segments = Seq<Segment>;
/// Symbols by number.
pub type Symbols = Seq<Symbol>;
/// Relocations in the order of their table.
pub type Rels = Seq<Rel>;

/// An executable or a shared object.
#[derive(Drop)]
pub struct Object {
    /// What it is for.
    pub kind: Kind,
    /// The link address at which a program begins.
    pub entry: u32,
    /// The loadable segments that have memory.
    pub segments: Segments,
    /// The link address of the GOT.
    pub got: u32,
    /// The names of the objects that it needs.
    pub needed: Names,
    /// The name that it gives itself.
    pub soname: Option<Name>,
    /// The symbols for dynamic linking. Symbol 0 is the null symbol.
    pub symbols: Symbols,
    /// The relocations of DT_REL, without those of kind `R_ARM_NONE`.
    pub rels: Rels,
    /// The relocations of DT_JMPREL, a `R_ARM_FUNCDESC_VALUE` for each slot.
    pub jmprels: Rels,
    /// The link addresses of the words that `.rofixup` lists, without its last entry, the GOT.
    pub fixups: Option<Words>,
    /// Symbols are looked up in this object first.
    pub symbolic: bool,
    /// Every slot is to be bound at loading.
    pub now: bool,
    /// What it wants to have called at its start and its end.
    pub inits: Inits,
}
