//! What one line says.

ghost use Rattle.std.specs.Prelude.{◌≡◌};
ghost use Rattle.std.specs.Option.{option_copied};
ghost use Rattle.job_text.specs.parts.Answers.{Says};
ghost use Rattle.job_text.specs.Statement as spec;

use crate::fields::Fields;
use crate::limits::{Bounds, Limits};
use crate::refusal::{JobKind, LineErr};
use fd_base::{Name, NameErr, Seq, Words, number};
use load_model::PlaceLine;
use run_model::Turn;
use std::alloc::Global;

/// The word that a line begins with.
#[derive(Clone, Copy)]
pub(crate) enum Word {
    Program,
    Memory,
    Descriptors,
    Stack,
    Steps,
    Mode,
    Place,
    Turn,
}

/// What a line says.
#[derive(Drop)]
pub(crate) enum Statement {
    Program(Name),
    Memory(u32),
    Descriptors(u32),
    Stack(u32),
    Steps(u32),
    /// Whether the mode is lazy.
    Mode(bool),
    Place(PlaceLine),
    Turn(Turn),
}

/// The word of a field.
fn word_of(field: &[u8]) -> Option<Word>
    ensures { result ≡ spec.word_of field.now }
{
    if field == b"program".as_slice() {
        return Some(Word::Program);
    }
    if field == b"memory".as_slice() {
        return Some(Word::Memory);
    }
    if field == b"descriptors".as_slice() {
        return Some(Word::Descriptors);
    }
    if field == b"stack".as_slice() {
        return Some(Word::Stack);
    }
    if field == b"steps".as_slice() {
        return Some(Word::Steps);
    }
    if field == b"mode".as_slice() {
        return Some(Word::Mode);
    }
    if field == b"place".as_slice() {
        return Some(Word::Place);
    }
    if field == b"turn".as_slice() {
        return Some(Word::Turn);
    }
    None
}

/// The field where there is just one.
fn only_field<'a>(fields: &mut Fields<'a>) -> Option<&'a [u8]>
    ensures { option_copied result ≡ spec.only_of fields.old }
{
    let field = fields.next()?;
    match fields.next() {
        Some(_) => None,
        None => Some(field),
    }
}

/// The number of the field where there is just one.
fn only_number(fields: &mut Fields) -> Option<u32>
    ensures { result ≡ spec.only_number fields.old }
{
    number(only_field(fields)?)
}

/// The two numbers of the fields where there are just two.
fn two_numbers(fields: &mut Fields) -> Option<(u32, u32)>
    ensures { result ≡ spec.two_numbers fields.old }
{
    let first = fields.next()?;
    let second = only_number(fields)?;
    Some((number(first)?, second))
}

/// The name that a field is.
fn name_of(alloc: Global, field: &[u8]) -> Result<Name, LineErr>
    ensures { Says result (spec.name_of field.now) }
{
    match Name::new(alloc, field) {
        Ok(name) => Ok(name),
        Err(NameErr::Memory) => Err(LineErr::Memory),
        Err(NameErr::Empty) => Err(LineErr::Refused(JobKind::Form)),
        Err(NameErr::TooLong) => Err(LineErr::Refused(JobKind::Form)),
        Err(NameErr::Zero(_)) => Err(LineErr::Refused(JobKind::Form)),
    }
}

/// The name behind `program`.
#[tactic(auto, unfolding(crate::specs::Statement::program_of))]
fn program(alloc: Global, fields: &mut Fields) -> Result<Name, LineErr>
    ensures { Says result (spec.program_of fields.old) }
{
    match only_field(fields) {
        Some(field) => name_of(alloc, field),
        None => Err(LineErr::Refused(JobKind::Form)),
    }
}

/// The number behind a word that sets one.
#[tactic(auto, unfolding(crate::specs::Statement::number_in))]
fn number_in(bounds: &Bounds, fields: &mut Fields) -> Result<u32, LineErr>
    ensures { Says result (spec.number_in bounds.now fields.old) }
{
    match only_number(fields) {
        Some(n) if bounds.contains(n) => Ok(n),
        Some(_) => Err(LineErr::Refused(JobKind::Range)),
        None => Err(LineErr::Refused(JobKind::Form)),
    }
}

/// Whether the mode of a field is lazy.
fn lazy_of(field: &[u8]) -> Option<bool>
    ensures { result ≡ spec.lazy_of field.now }
{
    if field == b"lazy".as_slice() {
        return Some(true);
    }
    if field == b"eager".as_slice() {
        return Some(false);
    }
    None
}

/// Whether the mode behind `mode` is lazy.
#[tactic(auto, unfolding(crate::specs::Statement::mode_of))]
fn mode(fields: &mut Fields) -> Result<bool, LineErr>
    ensures { Says result (spec.mode_of fields.old) }
{
    let field = match only_field(fields) {
        Some(field) => field,
        None => return Err(LineErr::Refused(JobKind::Form)),
    };
    match lazy_of(field) {
        Some(lazy) => Ok(lazy),
        None => Err(LineErr::Refused(JobKind::Form)),
    }
}

/// The addresses of the fields, of which there are 1 to `most`.
#[tactic(auto, using(crate::proofs::AddressFields::gathering))]
fn addresses(alloc: Global, most: u32, fields: &mut Fields) -> Result<Words, LineErr>
    ensures { Says result (spec.addresses_of most fields.old) }
{
    let mut addrs = Seq::new(alloc);
    while let Some(field) = fields.next() {
        let Some(addr) = number(field) else {
            return Err(LineErr::Refused(JobKind::Form));
        };
        if addrs.len() >= most as usize {
            return Err(LineErr::Refused(JobKind::Form));
        }
        addrs.push(addr)?;
    }
    if addrs.is_empty() {
        return Err(LineErr::Refused(JobKind::Form));
    }
    Ok(addrs)
}

/// The name and the addresses behind `place`.
#[tactic(auto, unfolding(crate::specs::Statement::place_of))]
fn place(alloc: Global, most: u32, fields: &mut Fields) -> Result<PlaceLine, LineErr>
    ensures { Says result (spec.place_of most fields.old) }
{
    match fields.next() {
        Some(field) => {
            let name = name_of(alloc, field)?;
            let addrs = addresses(alloc, most, fields)?;
            Ok(PlaceLine { name, addrs })
        }
        None => Err(LineErr::Refused(JobKind::Form)),
    }
}

/// The thread and the count behind `turn`.
#[tactic(auto, unfolding(crate::specs::Statement::turn_of))]
fn turn(threads: &Bounds, counts: &Bounds, fields: &mut Fields) -> Result<Turn, LineErr>
    ensures { Says result (spec.turn_of threads.now counts.now fields.old) }
{
    match two_numbers(fields) {
        Some((thread, count)) if threads.contains(thread) && counts.contains(count) => {
            Ok(Turn { thread, count })
        }
        Some(_) => Err(LineErr::Refused(JobKind::Range)),
        None => Err(LineErr::Refused(JobKind::Form)),
    }
}

/// What the word and the fields behind it say.
#[tactic(auto, using(crate::proofs::LineAnswers::says_as), unfolding(crate::specs::Statement::said_by))]
fn said_by(
    alloc: Global,
    limits: &Limits,
    word: Word,
    fields: &mut Fields,
) -> Result<Statement, LineErr>
    ensures { Says result (spec.said_by limits.now word fields.old) }
{
    match word {
        Word::Program => Ok(Statement::Program(program(alloc, fields)?)),
        Word::Memory => Ok(Statement::Memory(number_in(&limits.memory.bounds, fields)?)),
        Word::Descriptors => Ok(Statement::Descriptors(number_in(
            &limits.descriptors.bounds,
            fields,
        )?)),
        Word::Stack => Ok(Statement::Stack(number_in(&limits.stack.bounds, fields)?)),
        Word::Steps => Ok(Statement::Steps(number_in(&limits.steps.bounds, fields)?)),
        Word::Mode => Ok(Statement::Mode(mode(fields)?)),
        Word::Place => Ok(Statement::Place(place(alloc, limits.addresses, fields)?)),
        Word::Turn => Ok(Statement::Turn(turn(&limits.thread, &limits.count, fields)?)),
    }
}

/// Whether a field begins a comment.
fn is_comment(field: &[u8]) -> bool
    ensures { result ≡ spec.is_comment field.now }
{
    match field.first() {
        Some(byte) => *byte == b'#',
        None => false,
    }
}

/// What a line says. None where it has no field or is a comment.
#[tactic(auto, using(crate::proofs::LineAnswers::says_as), unfolding(crate::specs::Statement::statement_of))]
pub(crate) fn statement_of(
    alloc: Global,
    limits: &Limits,
    line: &[u8],
) -> Result<Option<Statement>, LineErr>
    ensures { Says result (spec.statement_of limits.now line.now) }
{
    let mut fields = Fields::new(line);
    let Some(first) = fields.next() else {
        return Ok(None);
    };
    if is_comment(first) {
        return Ok(None);
    }
    match word_of(first) {
        Some(word) => Ok(Some(said_by(alloc, limits, word, &mut fields)?)),
        None => Err(LineErr::Refused(JobKind::Word)),
    }
}
