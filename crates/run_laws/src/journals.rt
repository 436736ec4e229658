//! What holds of the runs of jobs. A call of one does nothing.

ghost use Rattle.run_laws.specs.parts.JournalLaws.{RunsHaveJournals};

/// The course of a job's run is its journal: each line of a call that begins stands for a call, which arrives at its
/// function by its thread's fourth turn, whatever turns other threads have, unless the run is over before.
pub fn runs_have_journals()
    ensures { RunsHaveJournals }
{}
