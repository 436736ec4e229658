//! The linked object.

ghost use Rattle.std.specs.Prelude.{◌≡◌, ◌<◌, ◌^◌, [], All, Some, None, unwrap_or, IfOk, if◌then◌else◌};
ghost use Rattle.elf_model.specs.RelSound.{IsRelSound};
ghost use Rattle.elf_model.specs.declared.object.Kind.TheVariants as kinds;
ghost use Rattle.link_model.specs.Inputs.{all_rels};
ghost use Rattle.link_model.specs.Object.{needed_of, object_of};
ghost use Rattle.link_model.specs.Places.{data_end};
ghost use Rattle.link_model.specs.Targets.{is_shared, is_static};
ghost use Rattle.link_checks.specs.parts.Entry.{entry_of};
ghost use Rattle.link_checks.specs.parts.Found.{AreFound};

use crate::extents::inits;
use crate::rels::Relocated;
use crate::segments::linked_segments;
use crate::symbols::dynamic_symbols;
use crate::words::linked_words;
use elf_model::{Kind, Object};
use fd_base::{Memory, Name, Names, Seq};
use link_checks::Linking;
use link_got::slot_rels;
use link_model::{Lib, Libs, Mode};
use link_words::Facts;
use std::alloc::Global;

fn kind(mode: Mode) -> Kind
    ensures { result ≡ (if is_shared mode then kinds.Dyn else kinds.Exec) }
{
    match mode {
        Mode::Shared => Kind::Dyn,
        Mode::Program | Mode::Static => Kind::Exec,
    }
}

/// The name that an object gives itself: only a shared one does.
fn own_name(alloc: Global, mode: Mode, soname: &Name) -> Result<Option<Name>, Memory>
    ensures { IfOk result (λ name. name ≡ (if is_shared mode then Some soname.now else None)) }
{
    match mode {
        Mode::Shared => Ok(Some(soname.copy(alloc)?)),
        Mode::Program | Mode::Static => Ok(None),
    }
}

/// The name that a library is needed by.
fn library_name(alloc: Global, library: &Lib) -> Result<Name, Memory>
    ensures { IfOk result (λ name. name ≡ unwrap_or library.now.object.soname library.now.name) }
{
    match &library.object.soname {
        Some(soname) => soname.copy(alloc),
        None => library.name.copy(alloc),
    }
}

fn library_names(alloc: Global, libs: &Libs) -> Result<Names, Memory>
    ensures { IfOk result (λ names. names ≡ needed_of libs.now) }
{
    let mut names = Seq::new(alloc);
    for library in libs.as_slice() {
        names.push(library_name(alloc, library)?)?;
    }
    Ok(names)
}

/// The names of the libraries that an object needs: none if it stands alone.
fn needed(alloc: Global, mode: Mode, libs: &Libs) -> Result<Names, Memory>
    ensures { IfOk result (λ names. names ≡ (if is_static mode then [] else needed_of libs.now)) }
{
    match mode {
        Mode::Static => Ok(Seq::new(alloc)),
        Mode::Program | Mode::Shared => library_names(alloc, libs),
    }
}

/// The object that inputs are linked to, from all that the link has settled, what has been looked up of all relocations,
/// and the link address where a program begins.
#[tactic(auto, unfolding(link_model::specs::Object::object_of))]
pub fn linked_object(
    alloc: Global,
    soname: &Name,
    libs: &Libs,
    linking: &Linking<'_>,
    facts: &[Facts],
    entry: u32,
) -> Result<Object, Memory>
    requires sound { All IsRelSound linking.now.layout.text.inputs.now }
    requires small { data_end linking.now.layout.mode linking.now.layout.text.inputs.now < 2 ^ 32 }
    requires found { AreFound linking.now.layout.mode linking.now.layout.text.inputs.now (all_rels linking.now.layout.text.inputs.now) facts.now }
    requires entry { entry ≡ entry_of linking.now.layout.mode linking.now.layout.text.inputs.now }
    ensures object { IfOk result (λ o. o ≡ object_of linking.now.layout.mode soname.now linking.now.layout.text.inputs.now libs.now) }
    ensures sizes { IfOk result (λ o. All (λ s. s.size < 2 ^ 32) o.symbols) }
{
    let joined = &linking.joined;
    let layout = &linking.layout;
    let words = linked_words(alloc, joined, layout, facts)?;
    let relocated = Relocated::new(alloc, joined, layout, &linking.shown, facts)?;
    Ok(Object {
        kind: kind(layout.mode),
        entry,
        segments: linked_segments(alloc, layout, joined.targets(), words.as_slice())?,
        got: layout.data_place() as u32,
        needed: needed(alloc, layout.mode, libs)?,
        soname: own_name(alloc, layout.mode, soname)?,
        symbols: dynamic_symbols(alloc, joined, layout, linking.shown.targets())?,
        rels: relocated.rels,
        jmprels: slot_rels(alloc, layout, &linking.shown)?,
        fixups: relocated.fixups,
        symbolic: false,
        now: false,
        inits: inits(alloc, layout)?,
    })
}
