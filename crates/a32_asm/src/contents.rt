//! What statements have put so far.

ghost use Rattle.std.specs.Prelude.{◌≡◌, ◌<◌, ◌≤◌, ◌%◌, true, IfOk, OnOk};
ghost use Rattle.a32_asm.specs.declared.limits.TheConstants.{RELS_MAX, SECTION_MAX};
ghost use Rattle.a32_asm.specs.declared.section.TheConstants.{SECTIONS};
ghost use Rattle.a32_asm.specs.Layout.{is_word};
ghost use Rattle.a32_asm.specs.SecondPass as spec;
ghost use Rattle.a32_asm.specs.Shown.{shown_put, shown_statement};
ghost use Rattle.a32_asm.specs.parts.Answers.{StepsTo};
ghost use Rattle.a32_asm.specs.parts.Fits.{IsStatement, AreInside};

use crate::content::put_bytes;
use crate::known::Known;
use crate::limits::RELS_MAX;
use crate::put::{Put, put_of};
use crate::refusal::LineErr;
use crate::said::Statement;
use crate::section::BSS;
use a32_text::AsmKind;
use fd_base::{Bytes, Memory, Seq};
use std::alloc::Global;
use std::marker::Model;

/// A relocation, by its name.
#[derive(Clone, Copy)]
pub struct RelTo<'a> {
    /// Its offset in the section.
    pub site: u32,
    pub kind: u8,
    pub name: &'a [u8],
}

/// The bytes and relocations of each section so far.
#[derive(Drop)]
pub(crate) struct Contents<'a> {
    pub(crate) filled: Vec<Bytes>,
    pub(crate) rels: Vec<Seq<RelTo<'a>>>,
}

impl<'a> Model for Contents<'a> {
    ghost use Rattle.std.specs.Prelude.{◌≡◌, map, length};
    ghost use Rattle.a32_asm.specs.declared.section.TheConstants.{SECTIONS};
    ghost use Rattle.a32_asm.specs.SecondPass.{Contents as Filled};
    ghost use Rattle.a32_asm.specs.Shown.{shown_rel};

    ghost Value = { Filled };

    ghost view = { λ s. record { filled = s.filled.items; rels = map (map shown_rel) s.rels.items } };

    ghost invariant = { λ s. (length s.filled.items ≡ SECTIONS) × (length s.rels.items ≡ SECTIONS) };
}

impl<'a> Contents<'a> {
    /// Nothing is put.
    pub(crate) fn new(alloc: Global) -> Result<Contents<'a>, Memory>
        ensures { IfOk result (λ contents. contents ≡ spec.nothing_yet) }
    {
        let filled = vec![in alloc;
            Bytes::new(alloc),
            Bytes::new(alloc),
            Bytes::new(alloc),
            Bytes::new(alloc),
        ]?;
        let rels = vec![in alloc;
            Seq::new(alloc),
            Seq::new(alloc),
            Seq::new(alloc),
            Seq::new(alloc),
        ]?;
        Ok(Contents { filled, rels })
    }

    /// Puts bytes, which `.bss` has none of.
    fn add_bytes(&mut self, section: u8, put: &Put) -> Result<(), Memory>
        requires { section < SECTIONS }
        ensures { OnOk result (self.new ≡ spec.with_bytes section (shown_put put.now).bytes self.old) }
    {
        if section == BSS {
            return Ok(());
        }
        put_bytes(&mut self.filled[section as usize], put)
    }

    /// Puts the relocation of a statement that has one.
    fn add_rel(&mut self, section: u8, offset: u32, put: &Put<'a>) -> Result<(), LineErr>
        requires { section < SECTIONS }
        ensures { StepsTo result self.new (spec.with_rel section offset (shown_put put.now).rel self.old) }
    {
        let Put::WordOf {
            word: _,
            kind,
            name,
        } = *put
        else {
            return Ok(());
        };
        let rels = &mut self.rels[section as usize];
        if RELS_MAX <= rels.len() {
            return Err(LineErr::Refused(AsmKind::Range));
        }
        let rel = RelTo {
            site: offset,
            kind,
            name,
        };
        if rels.push(rel).is_err() {
            return Err(LineErr::Memory);
        }
        Ok(())
    }

    /// Puts a statement at an offset of a section.
    pub(crate) fn add(
        &mut self,
        known: &Known,
        section: u8,
        offset: u32,
        statement: &Statement<'a>,
    ) -> Result<(), LineErr>
        requires inside { section < SECTIONS }
        requires fit { IsStatement (shown_statement statement.now) }
        requires here { offset ≤ SECTION_MAX }
        requires aligned { is_word (shown_statement statement.now) ≡ true → offset % 4 ≡ 0 }
        requires there { AreInside known.now }
        ensures { StepsTo result self.new
            (spec.with_put section offset self.old (spec.put_of known.now section offset (shown_statement statement.now))) }
    {
        let put = match put_of(known, section, offset, statement) {
            Ok(put) => put,
            Err(kind) => return Err(LineErr::Refused(kind)),
        };
        if self.add_bytes(section, &put).is_err() {
            return Err(LineErr::Memory);
        }
        self.add_rel(section, offset, &put)
    }
}
