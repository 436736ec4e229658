//! The commands and their words.

ghost use Rattle.std.specs.Prelude.{◌≡◌, IfOk, option_map};
ghost use Rattle.fd_base.specs.Texts.{number_of};
ghost use Rattle.fdpic_cmd.specs.declared.command.Command.TheVariants.{BindJob};
ghost use Rattle.fdpic_cmd.specs.Forms as forms;

use crate::link_form::link_of;
use fd_base::{Bytes, Memory, Name, NameErr, Seq, number};
use link_model::Mode;
use std::alloc::{AllocError, Global};

/// Names of files.
pub type Names = Seq<Name>;

/// A command with its words.
#[derive(Drop)]
pub enum Command {
    /// `as OUT IN`: assembles the text in file IN, and puts its relocatable file as OUT.
    As {
        out: Name,
        input: Name,
    },
    /// `bind F TEXT DATA`: loads the program in file F, with its first two segments placed at these addresses,
    /// and prints the slots of its process.
    Bind {
        file: Name,
        text: u32,
        data: u32,
    },
    /// `bind JOB`: loads the program of the job in this file, and prints the slots of its process.
    BindJob {
        job: Name,
    },
    /// `code F`: prints the words of the executable segments of the object in file F.
    Code {
        file: Name,
    },
    /// `link OUT MODE [lib=F].. IN..`: links the relocatable files IN, over the libraries F, and puts the object as OUT.
    Link {
        out: Name,
        mode: Mode,
        libs: Names,
        inputs: Names,
    },
    /// `run JOB`: loads the program of the job in this file and runs it, and prints the report of the run.
    Run {
        job: Name,
    },
    /// `show F`: prints what the relocatable file or the object in file F holds.
    Show {
        file: Name,
    },
}

/// A word as the name of a file, where it is one.
#[tactic(auto, unfolding(crate::specs::Forms::name_of))]
pub(crate) fn name_of(alloc: Global, word: &[u8]) -> Result<Option<Name>, Memory>
    ensures { IfOk result (λ name. name ≡ forms.name_of word.now) }
{
    match Name::new(alloc, word) {
        Ok(name) => Ok(Some(name)),
        Err(NameErr::Memory) => Err(AllocError),
        Err(NameErr::Empty) => Ok(None),
        Err(NameErr::TooLong) => Ok(None),
        Err(NameErr::Zero(_)) => Ok(None),
    }
}

/// `as OUT IN`, by its two words.
fn as_files_of(alloc: Global, out: &[u8], input: &[u8]) -> Result<Option<Command>, Memory>
    ensures { IfOk result (λ command. command ≡ forms.as_with (forms.name_of out.now) (forms.name_of input.now)) }
{
    match (name_of(alloc, out)?, name_of(alloc, input)?) {
        (Some(out), Some(input)) => Ok(Some(Command::As { out, input })),
        _ => Ok(None),
    }
}

/// `as OUT IN`, by the words behind `as`.
fn as_of(alloc: Global, words: &[Bytes]) -> Result<Option<Command>, Memory>
    ensures { IfOk result (λ command. command ≡ forms.as_of words.now) }
{
    let [out, input] = words else {
        return Ok(None);
    };
    as_files_of(alloc, out.as_slice(), input.as_slice())
}

/// `bind F TEXT DATA`, by its three words.
fn bind_file_of(
    alloc: Global,
    file: &[u8],
    text: &[u8],
    data: &[u8],
) -> Result<Option<Command>, Memory>
    ensures { IfOk result (λ command. command ≡ forms.bind_with (forms.name_of file.now) (number_of text.now) (number_of «data».now)) }
{
    match (name_of(alloc, file)?, number(text), number(data)) {
        (Some(file), Some(text), Some(data)) => Ok(Some(Command::Bind { file, text, data })),
        _ => Ok(None),
    }
}

/// `bind JOB`, by its word.
fn bind_job_of(alloc: Global, job: &[u8]) -> Result<Option<Command>, Memory>
    ensures { IfOk result (λ command. command ≡ option_map BindJob (forms.name_of job.now)) }
{
    match name_of(alloc, job)? {
        Some(job) => Ok(Some(Command::BindJob { job })),
        None => Ok(None),
    }
}

/// `bind JOB` or `bind F TEXT DATA`, by the words behind `bind`.
fn bind_of(alloc: Global, words: &[Bytes]) -> Result<Option<Command>, Memory>
    ensures { IfOk result (λ command. command ≡ forms.bind_of words.now) }
{
    match words {
        [job] => bind_job_of(alloc, job.as_slice()),
        [file, text, data] => {
            bind_file_of(alloc, file.as_slice(), text.as_slice(), data.as_slice())
        }
        _ => Ok(None),
    }
}

/// The file of a command that names one file, by the words behind the command's.
fn file_of(alloc: Global, words: &[Bytes]) -> Result<Option<Name>, Memory>
    ensures { IfOk result (λ name. name ≡ forms.file_of words.now) }
{
    let [file] = words else {
        return Ok(None);
    };
    name_of(alloc, file.as_slice())
}

/// `code F`, by the words behind `code`.
fn code_of(alloc: Global, words: &[Bytes]) -> Result<Option<Command>, Memory>
    ensures { IfOk result (λ command. command ≡ forms.code_of words.now) }
{
    match file_of(alloc, words)? {
        Some(file) => Ok(Some(Command::Code { file })),
        None => Ok(None),
    }
}

/// `run JOB`, by the words behind `run`.
fn run_of(alloc: Global, words: &[Bytes]) -> Result<Option<Command>, Memory>
    ensures { IfOk result (λ command. command ≡ forms.run_of words.now) }
{
    match file_of(alloc, words)? {
        Some(job) => Ok(Some(Command::Run { job })),
        None => Ok(None),
    }
}

/// `show F`, by the words behind `show`.
fn show_of(alloc: Global, words: &[Bytes]) -> Result<Option<Command>, Memory>
    ensures { IfOk result (λ command. command ≡ forms.show_of words.now) }
{
    match file_of(alloc, words)? {
        Some(file) => Ok(Some(Command::Show { file })),
        None => Ok(None),
    }
}

/// The command of the words, where they have a listed form.
pub fn command_of(alloc: Global, words: &[Bytes]) -> Result<Option<Command>, Memory>
    ensures { IfOk result (λ command. command ≡ forms.command_of words.now) }
{
    let [verb, rest @ ..] = words else {
        return Ok(None);
    };
    if verb.as_slice() == b"as".as_slice() {
        as_of(alloc, rest)
    } else if verb.as_slice() == b"bind".as_slice() {
        bind_of(alloc, rest)
    } else if verb.as_slice() == b"code".as_slice() {
        code_of(alloc, rest)
    } else if verb.as_slice() == b"link".as_slice() {
        link_of(alloc, rest)
    } else if verb.as_slice() == b"run".as_slice() {
        run_of(alloc, rest)
    } else if verb.as_slice() == b"show".as_slice() {
        show_of(alloc, rest)
    } else {
        Ok(None)
    }
}
