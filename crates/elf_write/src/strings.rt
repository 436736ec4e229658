//! Names among strings.

ghost use Rattle.std.specs.Prelude.{◌≡◌, ◌++◌, ◌+◌, ◌^◌, ◌≤◌, All, OnOk, Some, IfSome, length, map};
ghost use Rattle.elf_model.specs.declared.constants.TheConstants.{MAX_ENTRIES};
ghost use Rattle.elf_model.specs.RelSound.{IsNameText};
ghost use Rattle.elf_write.specs.Strings as spec;

use elf_model::Symbol;
use fd_base::{Bytes, Memory, Name};

/// The names of the tables of a relocatable file.
pub const TABLE_NAMES: [u8; 26] = *b".symtab\0.strtab\0.shstrtab\0";

/// Puts a name with a zero byte behind it.
pub fn put_text(out: &mut Bytes, name: &Name) -> Result<(), Memory>
    ensures { OnOk result (out.new ≡ out.old ++ spec.name_bytes (Some name.now)) }
{
    out.extend_from_slice(name.as_slice())?;
    out.push(0)?;
    Ok(())
}

/// Puts a name with a zero byte behind it, where there is one.
pub fn put_name(out: &mut Bytes, name: &Option<Name>) -> Result<(), Memory>
    ensures { OnOk result (out.new ≡ out.old ++ spec.name_bytes name.now) }
{
    match name {
        Some(name) => put_text(out, name),
        None => Ok(()),
    }
}

/// Puts the strings of symbols.
pub fn put_symbol_strings(out: &mut Bytes, symbols: &[Symbol]) -> Result<(), Memory>
    ensures { OnOk result (out.new ≡ out.old ++ spec.strings (map (λ s. s.name) symbols.now)) }
{
    out.push(0)?;
    for symbol in symbols {
        put_name(out, &symbol.name)?;
    }
    Ok(())
}

/// How many bytes a name has among strings.
pub fn text_size(name: &Name) -> u32
    requires { IsNameText name.now }
    ensures size { result ≡ length (spec.name_bytes (Some name.now)) }
    ensures short { result ≤ 256 }
{
    name.as_slice().len() as u32 + 1
}

/// How many bytes a name has among strings, where there is one.
pub fn name_size(name: &Option<Name>) -> u32
    requires { IfSome name.now IsNameText }
    ensures size { result ≡ length (spec.name_bytes name.now) }
    ensures short { result ≤ 256 }
{
    match name {
        Some(name) => text_size(name),
        None => 0,
    }
}

/// How many bytes the strings of symbols have.
pub fn symbol_strings_size(symbols: &[Symbol]) -> u32
    requires few { length symbols.now ≤ MAX_ENTRIES }
    requires named { All (λ s. IfSome s.name IsNameText) symbols.now }
    ensures size { result ≡ length (spec.strings (map (λ s. s.name) symbols.now)) }
    ensures near { result ≤ 2 ^ 25 }
{
    let mut size = 1;
    for symbol in symbols {
        size += name_size(&symbol.name);
    }
    size
}

/// The offset of a name that would begin at this one.
pub fn place_of(at: u32, name: &Option<Name>) -> u32
    ensures { result ≡ spec.place_of at name.now }
{
    if name.is_some() { at } else { 0 }
}
