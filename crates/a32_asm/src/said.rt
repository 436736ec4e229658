//! What a line says, and what lines say of names.

use a32_text::InstrStatement;

/// The statement of a line.
#[derive(Clone, Copy)]
pub enum Statement<'a> {
    Nothing,
    Instr(InstrStatement<'a>),
    /// Chooses a section.
    Section(u8),
    Bind { name: &'a [u8], weak: bool },
    Show { name: &'a [u8], visibility: u8 },
    Kind { name: &'a [u8], kind: u8 },
    Word(u32),
    /// A word with a relocation of this kind on a name.
    WordOf { name: &'a [u8], kind: u8, add: u32 },
    Byte(u8),
    /// The bytes of a string, without the zero behind them.
    Text(&'a [u8]),
    Space(u32),
    Align(u32),
}

/// What a line says.
#[derive(Clone, Copy)]
pub struct Said<'a> {
    pub label: Option<&'a [u8]>,
    pub statement: Statement<'a>,
}

/// An offset in a section.
#[derive(Clone, Copy, Debug)]
pub struct Place {
    pub section: u8,
    pub offset: u32,
}

/// What lines said of a name: the last of each kind.
#[derive(Clone, Copy, Debug)]
pub struct Facts {
    pub label: Option<Place>,
    pub weak: Option<bool>,
    pub visibility: u8,
    pub kind: u8,
}
