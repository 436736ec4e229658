//! The line of a status on the standard error.

ghost use Rattle.std.specs.Prelude.{◌≡◌, ◌++◌, IfOk, OnOk, codes};
ghost use Rattle.fd_base.specs.Texts.{shown};
ghost use Rattle.fd_base.specs.Fields.{decimal_field, name_field};
ghost use Rattle.fdpic_cmd.specs.Lines as spec;

use crate::status::{Refusal, Status};
use a32_asm::AsmKind;
use elf_model::{ElfKind, ElfRefusal};
use fd_base::{
    Bytes, Memory, Name, put_dec, put_decimal_field, put_hex_field, put_index_field,
    put_name_field, put_shown,
};
use job_text::JobKind;
use link_model::{LinkRefusal, Site};
use load_model::LoadRefusal;
use std::alloc::Global;

/// The word of a kind.
fn kind_word(kind: ElfKind) -> &'static [u8]
    ensures { result.now ≡ spec.kind_word kind }
{
    match kind {
        ElfKind::Short => b"Short",
        ElfKind::Ident => b"Ident",
        ElfKind::Machine => b"Machine",
        ElfKind::FileType => b"FileType",
        ElfKind::Header => b"Header",
        ElfKind::SegmentRange => b"SegmentRange",
        ElfKind::SegmentOverlap => b"SegmentOverlap",
        ElfKind::TooMany => b"TooMany",
        ElfKind::DynRange => b"DynRange",
        ElfKind::Rela => b"Rela",
        ElfKind::NoGot => b"NoGot",
        ElfKind::NoCount => b"NoCount",
        ElfKind::Table => b"Table",
        ElfKind::NameRange => b"NameRange",
        ElfKind::Tls => b"Tls",
        ElfKind::Thumb => b"Thumb",
        ElfKind::TextRel => b"TextRel",
        ElfKind::RelocType => b"RelocType",
        ElfKind::SiteRange => b"SiteRange",
        ElfKind::SiteOverlap => b"SiteOverlap",
        ElfKind::Group => b"Group",
        ElfKind::FunctionPlace => b"FunctionPlace",
    }
}

/// Puts a failing test.
#[tactic(auto, unfolding(crate::specs::Lines::test_text))]
fn put_test(out: &mut Bytes, refusal: &ElfRefusal) -> Result<(), Memory>
    ensures { OnOk result (out.new ≡ out.old ++ spec.test_text refusal.now) }
{
    out.extend_from_slice(kind_word(refusal.kind))?;
    out.extend_from_slice(b" at ")?;
    put_dec(out, refusal.at)
}

/// The word of a kind of jobs' refusals.
fn job_word(kind: JobKind) -> &'static [u8]
    ensures { result.now ≡ spec.job_word kind }
{
    match kind {
        JobKind::First => b"First",
        JobKind::Word => b"Word",
        JobKind::Form => b"Form",
        JobKind::Range => b"Range",
        JobKind::Twice => b"Twice",
        JobKind::TooMany => b"TooMany",
        JobKind::NoProgram => b"NoProgram",
        JobKind::Small => b"Small",
    }
}

/// The word of a kind of assemblies' refusals.
fn asm_word(kind: AsmKind) -> &'static [u8]
    ensures { result.now ≡ spec.asm_word kind }
{
    match kind {
        AsmKind::Mnemonic => b"Mnemonic",
        AsmKind::Operand => b"Operand",
        AsmKind::Range => b"Range",
        AsmKind::Directive => b"Directive",
        AsmKind::LabelTwice => b"LabelTwice",
        AsmKind::NoLabel => b"NoLabel",
        AsmKind::LineLong => b"LineLong",
    }
}

/// Puts what is wrong with a line of a text.
fn put_line(out: &mut Bytes, word: &[u8], kind: &[u8], line: u32) -> Result<(), Memory>
    ensures { OnOk result (out.new ≡ out.old ++ spec.line_text word.now kind.now line) }
{
    out.extend_from_slice(word)?;
    out.extend_from_slice(kind)?;
    out.extend_from_slice(b" line ")?;
    put_dec(out, line)
}

/// Puts that a file would have so many bytes.
fn put_too_long(out: &mut Bytes, n: u64) -> Result<(), Memory>
    ensures { OnOk result (out.new ≡ out.old ++ (codes "output too long" ++ decimal_field n)) }
{
    out.extend_from_slice(b"output too long")?;
    put_index_field(out, n as usize)
}

/// Puts a word and a name.
fn put_named(out: &mut Bytes, word: &[u8], name: &Name) -> Result<(), Memory>
    ensures { OnOk result (out.new ≡ out.old ++ (word.now ++ shown name.now)) }
{
    out.extend_from_slice(word)?;
    put_shown(out, name)
}

/// Puts a word, the number of a module and a symbol's name.
fn put_symbol(out: &mut Bytes, word: &[u8], m: u32, name: &Option<Name>) -> Result<(), Memory>
    ensures { OnOk result (out.new ≡ out.old ++ (word.now ++ decimal_field m ++ name_field name.now)) }
{
    out.extend_from_slice(word)?;
    put_decimal_field(out, m)?;
    put_name_field(out, name)
}

/// Puts a word and a number.
fn put_counted(out: &mut Bytes, word: &[u8], n: u32) -> Result<(), Memory>
    ensures { OnOk result (out.new ≡ out.old ++ (word.now ++ decimal_field n)) }
{
    out.extend_from_slice(word)?;
    put_decimal_field(out, n)
}

/// Puts what is said of a refused load.
#[tactic(auto, unfolding(crate::specs::Lines::load_text))]
fn put_load(out: &mut Bytes, refusal: &LoadRefusal) -> Result<(), Memory>
    ensures { OnOk result (out.new ≡ out.old ++ spec.load_text refusal.now) }
{
    match refusal {
        LoadRefusal::NotBuilt(name) => put_named(out, b"NotBuilt ", name),
        LoadRefusal::Elf(name, test) => {
            put_named(out, b"Elf ", name)?;
            out.push(b' ')?;
            put_test(out, test)
        }
        LoadRefusal::NoFile(name) => put_named(out, b"NoFile ", name),
        LoadRefusal::TooLong(name) => put_named(out, b"TooLong ", name),
        LoadRefusal::TooManyModules => out.extend_from_slice(b"TooManyModules"),
        LoadRefusal::Unresolved(m, name) => put_symbol(out, b"Unresolved", *m, name),
        LoadRefusal::NotCode(m, name) => put_symbol(out, b"NotCode", *m, name),
        LoadRefusal::DescriptorsFull(free) => put_counted(out, b"DescriptorsFull", *free),
        LoadRefusal::NoRoom(item) => put_counted(out, b"NoRoom", *item),
        LoadRefusal::BadAddress(m, site) => {
            put_counted(out, b"BadAddress", *m)?;
            put_hex_field(out, *site)
        }
    }
}

/// Puts a word, and the input, the section and the offset of a relocation.
fn put_site(out: &mut Bytes, word: &[u8], site: Site) -> Result<(), Memory>
    ensures { OnOk result (out.new ≡ out.old ++ (word.now ++ spec.site_text site)) }
{
    out.extend_from_slice(word)?;
    put_decimal_field(out, site.input)?;
    put_decimal_field(out, site.section)?;
    put_decimal_field(out, site.offset)
}

/// Puts what is said of a refused link.
#[tactic(auto, unfolding(crate::specs::Lines::link_text))]
fn put_link(out: &mut Bytes, refusal: &LinkRefusal) -> Result<(), Memory>
    ensures { OnOk result (out.new ≡ out.old ++ spec.link_text refusal.now) }
{
    match refusal {
        LinkRefusal::Elf(input) => put_counted(out, b"Elf", *input),
        LinkRefusal::Twice(name) => put_named(out, b"Twice ", name),
        LinkRefusal::Undefined(name) => put_named(out, b"Undefined ", name),
        LinkRefusal::CrossSegment(site) => put_site(out, b"CrossSegment", *site),
        LinkRefusal::RelocType(site) => put_site(out, b"RelocType", *site),
        LinkRefusal::ThumbBranch(site) => put_site(out, b"ThumbBranch", *site),
        LinkRefusal::NoEntry => out.extend_from_slice(b"NoEntry"),
        LinkRefusal::TooLarge => out.extend_from_slice(b"TooLarge"),
        LinkRefusal::LibElf(lib) => put_counted(out, b"LibElf", *lib),
    }
}

/// Puts what is said of a refusal.
#[tactic(auto, unfolding(crate::specs::Lines::refusal_text))]
fn put_refusal(out: &mut Bytes, refusal: &Refusal) -> Result<(), Memory>
    ensures { OnOk result (out.new ≡ out.old ++ spec.refusal_text refusal.now) }
{
    match refusal {
        Refusal::Elf(name, test) => {
            put_shown(out, name)?;
            out.extend_from_slice(b" elf ")?;
            put_test(out, test)
        }
        Refusal::NoFile(name) => put_named(out, b"no file ", name),
        Refusal::TooLong(name) => put_named(out, b"too long ", name),
        Refusal::Job(line, kind) => put_line(out, b"job ", job_word(*kind), *line),
        Refusal::Asm(refusal) => put_line(out, b"asm ", asm_word(refusal.kind), refusal.line),
        Refusal::Link(refusal) => {
            out.extend_from_slice(b"link ")?;
            put_link(out, refusal)
        }
        Refusal::OutTooLong(n) => put_too_long(out, *n),
        Refusal::Load(refusal) => {
            out.extend_from_slice(b"load ")?;
            put_load(out, refusal)
        }
    }
}

/// Puts what is said of a status.
#[tactic(auto, unfolding(crate::specs::Lines::status_text))]
fn put_status(out: &mut Bytes, status: &Status) -> Result<(), Memory>
    ensures { OnOk result (out.new ≡ out.old ++ spec.status_text status.now) }
{
    match status {
        Status::Done => Ok(()),
        Status::Memory => out.extend_from_slice(b"out of memory"),
        Status::Words => out.extend_from_slice(b"words"),
        Status::StoreFault => out.extend_from_slice(b"store fault"),
        Status::SinkFault => out.extend_from_slice(b"sink fault"),
        Status::Refused(refusal) => put_refusal(out, refusal),
        Status::Stopped(_) => out.extend_from_slice(b"stopped"),
    }
}

/// The line that tells a status.
pub fn line(alloc: Global, status: &Status) -> Result<Bytes, Memory>
    ensures { IfOk result (λ text. text ≡ spec.line (spec.status_text status.now)) }
{
    let mut text = Bytes::from_slice(alloc, b"fdpic: ")?;
    put_status(&mut text, status)?;
    text.push(b'\n')?;
    Ok(text)
}
