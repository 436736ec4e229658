//! Why a text is no job.

use std::alloc::AllocError;

/// What is wrong with a line, or with a job as a whole. Of several causes the first line's is given, and of one line's
/// the first in this order.
#[derive(Clone, Copy, PartialEq, Eq)]
pub enum JobKind {
    /// The first line isn't `fdpic-job 1`.
    First,
    /// The first field is no word of jobs.
    Word,
    /// The fields behind the word don't have its form.
    Form,
    /// A number lies outside its limits.
    Range,
    /// An earlier line has set the same.
    Twice,
    /// There are as many such lines before as there may be.
    TooMany,
    /// No line names the program.
    NoProgram,
    /// The memory has no room for its parts.
    Small,
}

/// The first cause, by its line. The first line has number 1, and a cause that no line has is given one line behind
/// the last.
#[derive(Clone, Copy, PartialEq, Eq)]
pub struct JobRefusal {
    pub line: u32,
    pub kind: JobKind,
}

/// Why no job is answered.
#[derive(Clone, Copy, PartialEq, Eq)]
pub enum JobErr {
    /// The text is no job.
    Refused(JobRefusal),
    /// Memory is wanted.
    Memory,
}

/// Why a line is not taken.
#[derive(Clone, Copy)]
pub(crate) enum LineErr {
    /// This is wrong with it.
    Refused(JobKind),
    /// Memory is wanted.
    Memory,
}

impl LineErr {
    ghost use Rattle.std.specs.Prelude.{◌≡◌};
    ghost use Rattle.job_text.specs.parts.Answers.{err_at};

    /// The same of the line with this number.
    pub(crate) fn at(self, line: u32) -> JobErr
        ensures { result ≡ err_at line self }
    {
        match self {
            LineErr::Refused(kind) => JobErr::Refused(JobRefusal { line, kind }),
            LineErr::Memory => JobErr::Memory,
        }
    }
}

impl From<AllocError> for LineErr {
    ghost use Rattle.std.specs.Prelude.{◌≡◌};
    ghost use Rattle.job_text.specs.declared.refusal.LineErr.TheVariants.{Memory};

    ghost from_gives = { λ _ e. e ≡ Memory };

    fn from(_error: AllocError) -> Self {
        LineErr::Memory
    }
}
