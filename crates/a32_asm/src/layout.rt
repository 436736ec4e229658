//! What lines have made so far.

ghost use Rattle.std.specs.Prelude.{◌≡◌, ◌<◌, ◌≤◌, ◌+◌, ◌==◌, length, get_or, true, false, None, OnOk, IfErr, All};
ghost use Rattle.a32_asm.specs.declared.limits.TheConstants.{SECTION_MAX};
ghost use Rattle.a32_asm.specs.declared.section.TheConstants.{SECTIONS, BSS};
ghost use Rattle.a32_asm.specs.Layout as spec;
ghost use Rattle.a32_asm.specs.Shown.{shown_statement, shown_said, shown_bytes};
ghost use Rattle.a32_asm.specs.parts.Fits.{IsStatement, IsSaid};
ghost use Rattle.a32_asm.specs.parts.Answers.{IsOf};

use crate::known::Known;
use crate::limits::{NAMES_REFUSED, SECTION_MAX};
use crate::placing::{is_word, name_in, size_of};
use crate::refusal::LineErr;
use crate::said::{Place, Said, Statement};
use crate::section::BSS;
use a32_text::AsmKind;
use fd_base::Memory;
use std::alloc::Global;
use std::marker::Model;

/// Whether the bytes of a statement may stand at an offset.
#[tactic(auto, unfolding(crate::specs::Layout::fits_at))]
fn fits_at(offset: u32, statement: &Statement) -> bool
    requires { IsStatement (shown_statement statement.now) }
    ensures value { result ≡ spec.fits_at offset (shown_statement statement.now) }
    ensures room { result ≡ true → offset + spec.size_of offset (shown_statement statement.now) ≤ SECTION_MAX }
{
    !(is_word(statement) && offset % 4 != 0)
        && u64::from(offset) + size_of(offset, statement) <= u64::from(SECTION_MAX)
}

/// Adds a name, where there is one.
fn add_named<'a>(known: &mut Known<'a>, name: Option<&'a [u8]>) -> Result<(), Memory>
    ensures { OnOk result (known.new ≡ spec.with_named (shown_bytes name.entry) known.old) }
{
    match name {
        Some(name) => known.add(name),
        None => Ok(()),
    }
}

/// Adds the names of a line: its label's, and then its statement's.
pub(crate) fn add_names<'a>(known: &mut Known<'a>, said: &Said<'a>) -> Result<(), Memory>
    ensures { OnOk result (known.new ≡ spec.with_names (shown_said said.now) known.old) }
{
    add_named(known, said.label)?;
    add_named(known, name_in(&said.statement))
}

/// Whether the label of a line stands already at another place.
fn is_labelled(known: &Known, label: Option<&[u8]>) -> bool
    ensures { result ≡ spec.is_labelled (shown_bytes label.entry) known.now }
{
    match label {
        Some(name) => known.facts_of(name).label.is_some(),
        None => false,
    }
}

/// Keeps what a statement tells of its name.
fn tell(known: &mut Known, statement: &Statement)
    ensures { known.new ≡ spec.with_told (shown_statement statement.now) known.old }
{
    match *statement {
        Statement::Bind { name, weak } => {
            let mut facts = known.facts_of(name);
            facts.weak = Some(weak);
            known.set(name, facts);
        }
        Statement::Show { name, visibility } => {
            let mut facts = known.facts_of(name);
            facts.visibility = visibility;
            known.set(name, facts);
        }
        Statement::Kind { name, kind } => {
            let mut facts = known.facts_of(name);
            facts.kind = kind;
            known.set(name, facts);
        }
        _ => {}
    }
}

/// The section that is chosen behind a statement.
pub(crate) fn chosen(statement: &Statement, here: u8) -> u8
    ensures { result ≡ spec.chosen (shown_statement statement.now) here }
{
    match *statement {
        Statement::Section(number) => number,
        _ => here,
    }
}

/// The alignment that a statement asks for.
fn align_of(statement: &Statement) -> u32
    ensures { result ≡ spec.align_of (shown_statement statement.now) }
{
    match *statement {
        Statement::Align(n) => n,
        _ => 1,
    }
}

/// What lines have made so far.
#[derive(Drop)]
pub(crate) struct Made<'a> {
    /// The section that is chosen.
    here: u8,
    sizes: [u32; 4],
    aligns: [u32; 4],
    known: Known<'a>,
    labels: Vec<usize>,
}

impl<'a> Model for Made<'a> {
    ghost use Rattle.std.specs.Prelude.{◌<◌, ◌≤◌, All};
    ghost use Rattle.a32_asm.specs.declared.limits.TheConstants.{SECTION_MAX};
    ghost use Rattle.a32_asm.specs.declared.section.TheConstants.{SECTIONS};
    ghost use Rattle.a32_asm.specs.Layout.{Layout};

    ghost Value = { Layout };

    ghost view = { λ s. record { here = s.here; sizes = s.sizes; aligns = s.aligns; known = s.known; labels = s.labels.items } };

    ghost invariant = { λ s. s.here < SECTIONS };
}

impl<'a> Made<'a> {
    /// Nothing is made. Takes no memory.
    pub(crate) fn new(alloc: Global) -> Made<'a>
        ensures { result ≡ spec.start }
    {
        Made {
            here: 0,
            sizes: [0; 4],
            aligns: [4; 4],
            known: Known::new(alloc),
            labels: Vec::new(alloc),
        }
    }

    /// Whether `.bss` is chosen.
    pub(crate) fn in_bss(&self) -> bool
        ensures { result ≡ (self.now.here == BSS) }
    {
        self.here == BSS
    }

    /// The names so far.
    pub(crate) fn known(&self) -> &Known<'a>
        ensures { result.now ≡ self.now.known }
    {
        &self.known
    }

    /// The labels by definition, as places in the names.
    pub(crate) fn labels(&self) -> &[usize]
        ensures { result.now ≡ self.now.labels }
    {
        self.labels.as_slice()
    }

    /// The bytes of a section.
    pub(crate) fn section_size(&self, section: u8) -> u32
        requires { section < SECTIONS }
        ensures { result ≡ get_or self.now.sizes section 0 }
    {
        self.sizes[section as usize]
    }

    /// The alignment of a section.
    pub(crate) fn section_align(&self, section: u8) -> u32
        requires { section < SECTIONS }
        ensures { result ≡ get_or self.now.aligns section 0 }
    {
        self.aligns[section as usize]
    }

    /// The size of the section that is chosen.
    fn size_here(&self) -> u32
        ensures { result ≡ spec.size_here self.now }
    {
        self.sizes[self.here as usize]
    }

    /// Puts the label of a line.
    fn add_label(&mut self, label: Option<&[u8]>) -> Result<(), Memory>
        ensures value { OnOk result (self.new ≡ spec.with_label (shown_bytes label.entry) self.old) }
        ensures size { OnOk result (spec.size_here self.new ≡ spec.size_here self.old) }
    {
        let Some(name) = label else {
            return Ok(());
        };
        self.labels.push(self.known.place_of(name))?;
        let mut facts = self.known.facts_of(name);
        facts.label = Some(Place {
            section: self.here,
            offset: self.size_here(),
        });
        self.known.set(name, facts);
        Ok(())
    }

    /// Puts a statement.
    fn add_statement(&mut self, statement: &Statement)
        requires fit { IsStatement (shown_statement statement.now) }
        requires room { spec.size_here self.old + spec.size_of (spec.size_here self.old) (shown_statement statement.now) ≤ SECTION_MAX }
        ensures { self.new ≡ spec.with_statement (shown_statement statement.now) self.old }
    {
        let here = self.here as usize;
        let size = self.sizes[here];
        self.sizes[here] = size + size_of(size, statement) as u32;
        self.aligns[here] = align_of(statement).max(self.aligns[here]);
        tell(&mut self.known, statement);
        self.here = chosen(statement, self.here);
    }

    /// Takes what a line says, unless it is refused where it stands.
    #[tactic(auto, unfolding(crate::specs::Layout::with_said, crate::specs::Layout::place_refusal))]
    pub(crate) fn add(&mut self, said: &Said<'a>) -> Result<(), LineErr>
        requires { IsSaid (shown_said said.now) }
        ensures taken { OnOk result (self.new ≡ spec.with_said (shown_said said.now) self.old) }
        ensures free { OnOk result (spec.place_refusal self.old (shown_said said.now) ≡ None) }
        ensures refused { IfErr result (λ e. IsOf e (spec.place_refusal self.old (shown_said said.now))) }
    {
        if !fits_at(self.size_here(), &said.statement) {
            return Err(LineErr::Refused(AsmKind::Range));
        }
        if add_names(&mut self.known, said).is_err() {
            return Err(LineErr::Memory);
        }
        if NAMES_REFUSED <= self.known.len() {
            return Err(LineErr::Refused(AsmKind::Range));
        }
        if is_labelled(&self.known, said.label) {
            return Err(LineErr::Refused(AsmKind::LabelTwice));
        }
        if self.add_label(said.label).is_err() {
            return Err(LineErr::Memory);
        }
        self.add_statement(&said.statement);
        Ok(())
    }
}
