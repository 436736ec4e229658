//! What the run of a job comes to. A call of one does nothing.

ghost use Rattle.run_laws.specs.parts.RunLaws.{RunsAreDetermined, RunsComeTo, RunsEnd};

/// A job over told files has one course, or one refusal, and not both.
pub fn runs_are_determined()
    ensures { RunsAreDetermined }
{}

/// The course of a job ends where the process ends or stops.
pub fn runs_end()
    ensures { RunsEnd }
{}

/// A job over told files has a course that ends, or a refusal, where the parts of its memory fit.
pub fn runs_come_to()
    ensures { RunsComeTo }
{}
