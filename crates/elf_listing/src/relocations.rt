//! The lines of relocations.

ghost use Rattle.std.specs.Prelude.{◌≡◌, ◌++◌, OnOk};
ghost use Rattle.fd_base.specs.Fields as fields;
ghost use Rattle.elf_listing.specs.Listing as spec;

use elf_model::Rel;
use fd_base::{Bytes, Memory, put_decimal_field, put_hex_field, put_index_field};

#[tactic(auto, unfolding(crate::specs::Listing::rel_line))]
fn put_rel_line(out: &mut Bytes, table: &[u8], i: usize, r: &Rel) -> Result<(), Memory>
    ensures { OnOk result (out.new ≡ out.old ++ spec.rel_line table.now i r.now) }
{
    out.extend_from_slice(table)?;
    put_index_field(out, i)?;
    put_hex_field(out, r.site)?;
    put_decimal_field(out, u32::from(r.kind))?;
    put_decimal_field(out, r.symbol)?;
    out.push(b'\n')
}

/// Puts the lines of a table of relocations, each beginning with a word.
pub fn put_rels(out: &mut Bytes, table: &[u8], rels: &[Rel]) -> Result<(), Memory>
    ensures { OnOk result (out.new ≡ out.old ++ fields.numbered (spec.rel_line table.now) 0 rels.now) }
{
    for (i, rel) in rels.iter().enumerate() {
        put_rel_line(out, table, i, rel)?;
    }
    Ok(())
}
