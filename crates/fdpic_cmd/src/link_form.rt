//! The words of `link OUT MODE [lib=F].. IN..`.

ghost use Rattle.std.specs.Prelude.{◌≡◌, ◌≤◌, IfOk, length};
ghost use Rattle.fdpic_cmd.specs.Forms as forms;

use crate::command::{Command, Names, name_of};
use fd_base::{Bytes, Memory, Name, Seq};
use link_model::Mode;
use std::alloc::Global;

fn mode_of(word: &[u8]) -> Option<Mode>
    ensures { result ≡ forms.mode_of word.now }
{
    if word == b"program".as_slice() {
        Some(Mode::Program)
    } else if word == b"shared".as_slice() {
        Some(Mode::Shared)
    } else if word == b"static".as_slice() {
        Some(Mode::Static)
    } else {
        None
    }
}

/// The file of the library that a word names, where it names one.
fn library_in(alloc: Global, word: &[u8]) -> Result<Option<Name>, Memory>
    ensures { IfOk result (λ name. name ≡ forms.library_in word.now) }
{
    match word.strip_prefix(b"lib=") {
        Some(name) => name_of(alloc, name),
        None => Ok(None),
    }
}

/// The files of the libraries that the first words name.
fn libraries_of(alloc: Global, words: &[Bytes]) -> Result<Names, Memory>
    ensures libraries { IfOk result (λ names. names ≡ forms.libraries_of words.now) }
    ensures few { IfOk result (λ names. length names ≤ length words.now) }
{
    let mut names = Seq::new(alloc);
    for word in words {
        match library_in(alloc, word.as_slice())? {
            Some(name) => names.push(name)?,
            None => return Ok(names),
        }
    }
    Ok(names)
}

/// The words as names of files, where each is one.
#[tactic(auto, unfolding(crate::specs::Forms::name_of))]
fn names_of(alloc: Global, words: &[Bytes]) -> Result<Option<Names>, Memory>
    ensures { IfOk result (λ names. names ≡ forms.names_of words.now) }
{
    let mut names = Seq::new(alloc);
    for word in words {
        match name_of(alloc, word.as_slice())? {
            Some(name) => names.push(name)?,
            None => return Ok(None),
        }
    }
    Ok(Some(names))
}

/// `link OUT MODE [lib=F].. IN..`, by its parts.
fn link_with(
    out: Option<Name>,
    mode: Option<Mode>,
    libs: Names,
    inputs: Option<Names>,
) -> Option<Command>
    ensures { result ≡ forms.link_with out mode libs inputs }
{
    let inputs = inputs?;
    if inputs.is_empty() {
        return None;
    }
    Some(Command::Link {
        out: out?,
        mode: mode?,
        libs,
        inputs,
    })
}

/// `link OUT MODE [lib=F].. IN..`, by the words behind `link`.
pub(crate) fn link_of(alloc: Global, words: &[Bytes]) -> Result<Option<Command>, Memory>
    ensures { IfOk result (λ command. command ≡ forms.link_of words.now) }
{
    let [out, mode, files @ ..] = words else {
        return Ok(None);
    };
    if u32::try_from(files.len()).is_err() {
        return Ok(None);
    }
    let libs = libraries_of(alloc, files)?;
    let inputs = names_of(alloc, &files[libs.len()..])?;
    let out = name_of(alloc, out.as_slice())?;
    Ok(link_with(out, mode_of(mode.as_slice()), libs, inputs))
}
