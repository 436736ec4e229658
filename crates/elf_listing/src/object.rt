//! What an object holds.

ghost use Rattle.std.specs.Prelude.{◌≡◌, ◌++◌, IfOk, OnOk, All, [], unwrap_or};
ghost use Rattle.std.specs.List.{flat_map};
ghost use Rattle.elf_model.specs.Sound.{IsSized, IsSound};
ghost use Rattle.fd_base.specs.Fields as fields;
ghost use Rattle.elf_listing.specs.Listing as spec;

use crate::relocations::put_rels;
use crate::symbols::put_symbols;
use elf_model::{Kind, Object, Segment};
use fd_base::{Bytes, Memory, Name, put_decimal_field, put_hex_field, put_index_field, put_shown};
use std::alloc::Global;

#[tactic(auto, unfolding(crate::specs::Listing::object_line))]
fn put_object_line(out: &mut Bytes, o: &Object) -> Result<(), Memory>
    ensures { OnOk result (out.new ≡ out.old ++ spec.object_line o.entry.now) }
{
    out.extend_from_slice(b"object ")?;
    out.extend_from_slice(match o.kind {
        Kind::Exec => b"exec".as_slice(),
        Kind::Dyn => b"dyn".as_slice(),
    })?;
    out.extend_from_slice(b" entry")?;
    put_hex_field(out, o.entry)?;
    out.extend_from_slice(b" got")?;
    put_hex_field(out, o.got)?;
    out.push(b'\n')
}

#[tactic(auto, unfolding(crate::specs::Listing::segment_line))]
fn put_segment_line(out: &mut Bytes, i: usize, s: &Segment) -> Result<(), Memory>
    requires { IsSized s.now }
    ensures { OnOk result (out.new ≡ out.old ++ spec.segment_line i s.now) }
{
    out.extend_from_slice(b"segment")?;
    put_index_field(out, i)?;
    put_hex_field(out, s.vaddr)?;
    put_hex_field(out, s.filled.len() as u32)?;
    put_hex_field(out, s.memsz)?;
    put_decimal_field(out, s.flags)?;
    put_decimal_field(out, s.align)?;
    out.push(b'\n')
}

fn put_segments(out: &mut Bytes, segments: &[Segment]) -> Result<(), Memory>
    requires { All IsSized segments.now }
    ensures { OnOk result (out.new ≡ out.old ++ fields.numbered spec.segment_line 0 segments.now) }
{
    for (i, segment) in segments.iter().enumerate() {
        put_segment_line(out, i, segment)?;
    }
    Ok(())
}

#[tactic(auto, unfolding(crate::specs::Listing::needed_line))]
fn put_needed_line(out: &mut Bytes, name: &Name) -> Result<(), Memory>
    ensures { OnOk result (out.new ≡ out.old ++ spec.needed_line name.now) }
{
    out.extend_from_slice(b"needed ")?;
    put_shown(out, name)?;
    out.push(b'\n')
}

fn put_needed(out: &mut Bytes, names: &[Name]) -> Result<(), Memory>
    ensures { OnOk result (out.new ≡ out.old ++ flat_map spec.needed_line names.now) }
{
    for name in names {
        put_needed_line(out, name)?;
    }
    Ok(())
}

fn put_soname(out: &mut Bytes, soname: &Option<Name>) -> Result<(), Memory>
    ensures { OnOk result (out.new ≡ out.old ++ spec.soname_line soname.now) }
{
    match soname {
        None => Ok(()),
        Some(name) => {
            out.extend_from_slice(b"soname ")?;
            put_shown(out, name)?;
            out.push(b'\n')
        }
    }
}

#[tactic(auto, unfolding(crate::specs::Listing::fixup_line))]
fn put_fixup_line(out: &mut Bytes, i: usize, site: u32) -> Result<(), Memory>
    ensures { OnOk result (out.new ≡ out.old ++ spec.fixup_line i site) }
{
    out.extend_from_slice(b"fixup")?;
    put_index_field(out, i)?;
    put_hex_field(out, site)?;
    out.push(b'\n')
}

fn put_fixups(out: &mut Bytes, sites: &[u32]) -> Result<(), Memory>
    ensures { OnOk result (out.new ≡ out.old ++ fields.numbered spec.fixup_line 0 sites.now) }
{
    for (i, site) in sites.iter().enumerate() {
        put_fixup_line(out, i, *site)?;
    }
    Ok(())
}

/// Puts a line where it holds.
fn put_where(out: &mut Bytes, holds: bool, line: &[u8]) -> Result<(), Memory>
    ensures { OnOk result (out.new ≡ out.old ++ fields.line_where holds line.now) }
{
    if holds {
        out.extend_from_slice(line)
    } else {
        Ok(())
    }
}

fn put_flags(out: &mut Bytes, o: &Object) -> Result<(), Memory>
    ensures { OnOk result (out.new ≡ out.old ++ spec.flag_lines o.entry.now) }
{
    put_where(out, o.symbolic, b"flag symbolic\n")?;
    put_where(out, o.now, b"flag now\n")?;
    put_where(out, o.inits.has_any(), b"flag init\n")
}

/// The fixups, none where there is no list.
fn fixups(o: &Object) -> &[u32]
    ensures { result.now ≡ unwrap_or o.entry.now.fixups [] }
{
    match &o.fixups {
        Some(sites) => sites.as_slice(),
        None => &[],
    }
}

/// What an object holds: a line for the object, then for each segment, needed name, the soname, each symbol,
/// relocation, slot and fixup, and for each flag that is set.
pub fn object_listing(alloc: Global, o: &Object) -> Result<Bytes, Memory>
    requires { IsSound o.now }
    ensures { IfOk result (λ text. text ≡ spec.object_listing o.entry.now) }
{
    let mut text = Bytes::new(alloc);
    put_object_line(&mut text, o)?;
    put_segments(&mut text, o.segments.as_slice())?;
    put_needed(&mut text, o.needed.as_slice())?;
    put_soname(&mut text, &o.soname)?;
    put_symbols(&mut text, o.symbols.as_slice())?;
    put_rels(&mut text, b"rel", o.rels.as_slice())?;
    put_rels(&mut text, b"jmprel", o.jmprels.as_slice())?;
    put_fixups(&mut text, fixups(o))?;
    put_flags(&mut text, o)?;
    Ok(text)
}
