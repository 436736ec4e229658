//! How the program ends.

ghost use Rattle.std.specs.Prelude.{◌≡◌};
ghost use Rattle.fdpic_cmd.specs.Ended as ended;

use a32_asm::AsmRefusal;
use elf_model::ElfRefusal;
use fd_base::Name;
use job_text::JobKind;
use link_model::{LinkErr, LinkRefusal};
use load_model::{LoadErr, LoadRefusal};
use run_model::Stop;
use std::alloc::AllocError;

/// Why a command is refused.
#[derive(Drop)]
pub enum Refusal {
    /// The file of this name, which the words name, is no object: the first test that it fails.
    Elf(Name, ElfRefusal),
    /// There is no file of this name, which the words name.
    NoFile(Name),
    /// The file of this name, which the words name, is longer than `MAX_FILE`.
    TooLong(Name),
    /// The file that the words name as a job's is none: the first line that is wrong, and what is wrong with it.
    Job(u32, JobKind),
    /// The text that is to be assembled is refused: the first line that is wrong, and what is wrong with it.
    Asm(AsmRefusal),
    /// The files can't be linked, or one of them is no file that is linked.
    Link(LinkRefusal),
    /// The file that is to be put would have so many bytes, which are more than `MAX_FILE_BYTES`.
    OutTooLong(u64),
    /// Loading is refused, for another cause than these.
    Load(LoadRefusal),
}

/// How the program ends.
#[derive(Drop)]
pub enum Status {
    /// The command is done.
    Done,
    /// Memory was wanted.
    Memory,
    /// The words have no listed form.
    Words,
    /// The store failed.
    StoreFault,
    /// The standard output failed.
    SinkFault,
    /// The command is refused.
    Refused(Refusal),
    /// The run of the job was stopped.
    Stopped(Stop),
}

impl Status {
    ghost use Rattle.std.specs.Prelude.{◌≡◌};
    ghost use Rattle.fdpic_cmd.specs.parts.Exits.{exit_of};

    /// The exit status of the process.
    pub fn code(&self) -> u8
        ensures { result ≡ exit_of self.now }
    {
        match self {
            Status::Done => 0,
            Status::Memory => 1,
            Status::Words => 2,
            Status::StoreFault => 3,
            Status::SinkFault => 4,
            Status::Refused(_) => 5,
            Status::Stopped(_) => 6,
        }
    }
}

/// Why a command has no text.
#[derive(Drop)]
pub enum Failure {
    Refused(Refusal),
    StoreFault,
    Memory,
}

/// The status of a command that puts a file.
pub fn put_status(done: Result<(), Failure>) -> Status
    ensures { result ≡ ended.put_status done }
{
    match done {
        Ok(()) => Status::Done,
        Err(failure) => failed(failure),
    }
}

/// The status of a failure.
pub fn failed(failure: Failure) -> Status
    ensures { result ≡ ended.failed failure }
{
    match failure {
        Failure::Refused(r) => Status::Refused(r),
        Failure::StoreFault => Status::StoreFault,
        Failure::Memory => Status::Memory,
    }
}

impl From<AllocError> for Failure {
    ghost use Rattle.std.specs.Prelude.{◌≡◌};
    ghost use Rattle.fdpic_cmd.specs.declared.status.Failure.TheVariants.{Memory};

    ghost from_gives = { λ _ e. e ≡ Memory };

    fn from(_error: AllocError) -> Self {
        Failure::Memory
    }
}

impl From<LoadErr> for Failure {
    ghost use Rattle.std.specs.Prelude.{◌≡◌};
    ghost use Rattle.fdpic_cmd.specs.Program.{load_failure};

    ghost from_gives = { λ error e. e ≡ load_failure error };

    fn from(error: LoadErr) -> Self {
        match error {
            LoadErr::Refused(refusal) => Failure::Refused(Refusal::Load(refusal)),
            LoadErr::StoreFault => Failure::StoreFault,
            LoadErr::Memory => Failure::Memory,
        }
    }
}
