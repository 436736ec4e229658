//! What a relocatable file holds.

ghost use Rattle.std.specs.Prelude.{◌≡◌, ◌++◌, IfOk, OnOk};
ghost use Rattle.fd_base.specs.Fields as fields;
ghost use Rattle.elf_listing.specs.RelListing as spec;

use crate::relocations::put_rels;
use crate::symbols::put_symbols;
use elf_model::{RelObject, RelSection};
use fd_base::{Bytes, Memory, put_decimal_field, put_index_field, put_name_field};
use std::alloc::Global;

#[tactic(auto, unfolding(crate::specs::RelListing::section_line))]
fn put_section_line(out: &mut Bytes, i: usize, s: &RelSection) -> Result<(), Memory>
    ensures { OnOk result (out.new ≡ out.old ++ spec.section_line i s.now) }
{
    out.extend_from_slice(b"section")?;
    put_index_field(out, i)?;
    put_name_field(out, &s.name)?;
    put_decimal_field(out, s.kind)?;
    put_decimal_field(out, s.flags)?;
    put_decimal_field(out, s.size)?;
    put_decimal_field(out, s.align)?;
    out.push(b'\n')
}

/// Puts the line of each section, with those of its relocations behind it.
fn put_sections(out: &mut Bytes, sections: &[RelSection]) -> Result<(), Memory>
    ensures { OnOk result (out.new ≡ out.old ++ fields.numbered spec.section_lines 0 sections.now) }
{
    for (i, section) in sections.iter().enumerate() {
        put_section_line(out, i, section)?;
        put_rels(out, b"rel", section.rels.as_slice())?;
    }
    Ok(())
}

/// What a relocatable file holds: a line that says what it is, then for each kept section, with its relocations, and
/// for each symbol.
pub fn relocatable_listing(alloc: Global, r: &RelObject) -> Result<Bytes, Memory>
    ensures { IfOk result (λ text. text ≡ spec.relocatable_listing r.entry.now) }
{
    let mut text = Bytes::from_slice(alloc, b"relocatable\n")?;
    put_sections(&mut text, r.sections.as_slice())?;
    put_symbols(&mut text, r.symbols.as_slice())?;
    Ok(text)
}
