//! The lines of symbols.

ghost use Rattle.std.specs.Prelude.{◌≡◌, ◌++◌, OnOk};
ghost use Rattle.fd_base.specs.Fields as fields;
ghost use Rattle.elf_listing.specs.Listing as spec;

use elf_model::constants::{
    STB_GLOBAL, STB_LOCAL, STB_WEAK, STT_FILE, STT_FUNC, STT_NOTYPE, STT_OBJECT, STT_SECTION,
    STV_DEFAULT, STV_HIDDEN, STV_INTERNAL,
};
use elf_model::{Place, Symbol};
use fd_base::{
    Bytes, Memory, put_decimal_field, put_hex_field, put_index_field, put_name_field,
    put_word_field,
};

#[tactic(auto, unfolding(crate::specs::Listing::binding_word))]
fn put_binding(out: &mut Bytes, binding: u8) -> Result<(), Memory>
    ensures { OnOk result (out.new ≡ out.old ++ fields.word_field (spec.binding_word binding)) }
{
    match binding {
        STB_LOCAL => put_word_field(out, b"local"),
        STB_GLOBAL => put_word_field(out, b"global"),
        STB_WEAK => put_word_field(out, b"weak"),
        _ => put_decimal_field(out, u32::from(binding)),
    }
}

#[tactic(auto, unfolding(crate::specs::Listing::type_word))]
fn put_type(out: &mut Bytes, kind: u8) -> Result<(), Memory>
    ensures { OnOk result (out.new ≡ out.old ++ fields.word_field (spec.type_word kind)) }
{
    match kind {
        STT_NOTYPE => put_word_field(out, b"notype"),
        STT_OBJECT => put_word_field(out, b"object"),
        STT_FUNC => put_word_field(out, b"func"),
        STT_SECTION => put_word_field(out, b"section"),
        STT_FILE => put_word_field(out, b"file"),
        _ => put_decimal_field(out, u32::from(kind)),
    }
}

#[tactic(auto, unfolding(crate::specs::Listing::visibility_word))]
fn put_visibility(out: &mut Bytes, visibility: u8) -> Result<(), Memory>
    ensures { OnOk result (out.new ≡ out.old ++ fields.word_field (spec.visibility_word visibility)) }
{
    match visibility {
        STV_DEFAULT => put_word_field(out, b"default"),
        STV_INTERNAL => put_word_field(out, b"internal"),
        STV_HIDDEN => put_word_field(out, b"hidden"),
        _ => put_word_field(out, b"protected"),
    }
}

fn put_place(out: &mut Bytes, place: Place) -> Result<(), Memory>
    ensures { OnOk result (out.new ≡ out.old ++ fields.word_field (spec.place_word place)) }
{
    match place {
        Place::Undefined => put_word_field(out, b"undef"),
        Place::Absolute => put_word_field(out, b"abs"),
        Place::Here => put_word_field(out, b"here"),
        Place::Common => put_word_field(out, b"common"),
        Place::Dropped => put_word_field(out, b"dropped"),
        Place::Section(n) => {
            put_word_field(out, b"section")?;
            put_decimal_field(out, n)
        }
    }
}

#[tactic(auto, unfolding(crate::specs::Listing::symbol_line))]
fn put_symbol_line(out: &mut Bytes, i: usize, s: &Symbol) -> Result<(), Memory>
    ensures { OnOk result (out.new ≡ out.old ++ spec.symbol_line i s.now) }
{
    out.extend_from_slice(b"symbol")?;
    put_index_field(out, i)?;
    put_name_field(out, &s.name)?;
    put_binding(out, s.binding)?;
    put_type(out, s.kind)?;
    put_visibility(out, s.visibility)?;
    put_place(out, s.place)?;
    put_hex_field(out, s.value)?;
    put_decimal_field(out, s.size)?;
    out.push(b'\n')
}

/// Puts the lines of symbols.
pub fn put_symbols(out: &mut Bytes, symbols: &[Symbol]) -> Result<(), Memory>
    ensures { OnOk result (out.new ≡ out.old ++ fields.numbered spec.symbol_line 0 symbols.now) }
{
    for (i, symbol) in symbols.iter().enumerate() {
        put_symbol_line(out, i, symbol)?;
    }
    Ok(())
}
