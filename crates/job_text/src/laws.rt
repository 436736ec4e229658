//! What holds of jobs themselves. Nothing here runs.

ghost use Rattle.std.specs.Prelude.{◌≡◌, ℕ, ◌↔◌, ◌⊎◌, List, Some, None, Err, IsSome};
ghost use Rattle.load_model.specs.Plan.{Fits};
ghost use Rattle.run_model.specs.declared.job.Job.{Job};
ghost use Rattle.job_text.specs.declared.given.Given.{Given};
ghost use Rattle.job_text.specs.declared.limits.Limits.{Limits};
ghost use Rattle.job_text.specs.declared.refusal.JobKind.TheVariants.{Word, Form, Range, Twice, TooMany, NoProgram, Small};
ghost use Rattle.job_text.specs.Format.{first_format};
ghost use Rattle.job_text.specs.declared.refusal.JobRefusal.{JobRefusal};
ghost use Rattle.job_text.specs.Job.{job_of, line_refusal, IsJob, IsRefused};
ghost use Rattle.job_text.specs.Given.{job_by, plan_by};
ghost use Rattle.job_text.specs.parts.Kinds.{HasNoWord, SaysTwice, SaysTooMany};
ghost use Rattle.job_text.specs.Statement.{statement_of};
ghost use Rattle.job_text.specs.parts.Refused.{RefusedWhere};
ghost use Rattle.job_text.specs.parts.Sound.{IsSound};

/// Bytes are one job, or are refused in one way, and not both.
pub fn one_job()
    ensures same { (bytes : List ℕ) (a b : Job) → IsJob bytes a → IsJob bytes b → a ≡ b }
    ensures first { (bytes : List ℕ) (r s : JobRefusal) →
        IsRefused bytes r → IsRefused bytes s → r ≡ s }
    ensures exclusive { (bytes : List ℕ) (job : Job) (r : JobRefusal) →
        IsJob bytes job → ¬ IsRefused bytes r }
    ensures either { (bytes : List ℕ) →
        ((job : Job) × IsJob bytes job) ⊎ ((r : JobRefusal) × IsRefused bytes r) }
{}

/// Lines are refused by the first line where that isn't a job's, else by the first line that has a refusal, and else by
/// what the lines give together.
pub fn refused_where()
    ensures { (limits : Limits) (lines : List (List ℕ)) (r : JobRefusal) →
        (job_of limits lines ≡ Err r) ↔ RefusedWhere limits lines r }
{}

/// A job's plan fits, and its numbers, names, addresses, place lines and turns lie within the limits.
pub fn sound_job()
    ensures { (bytes : List ℕ) (job : Job) → IsJob bytes job → IsSound first_format job }
{}

/// What each kind of refusal means, where `given` is what the lines before give: of a line, and of all lines together.
pub fn each_kind()
    ensures word { (limits : Limits) (given : Given) (line : List ℕ) →
        (line_refusal limits given line ≡ Some Word) ↔ HasNoWord line }
    ensures form { (limits : Limits) (given : Given) (line : List ℕ) →
        (line_refusal limits given line ≡ Some Form) ↔ (statement_of limits line ≡ Err Form) }
    ensures range { (limits : Limits) (given : Given) (line : List ℕ) →
        (line_refusal limits given line ≡ Some Range) ↔ (statement_of limits line ≡ Err Range) }
    ensures twice { (limits : Limits) (given : Given) (line : List ℕ) →
        (line_refusal limits given line ≡ Some Twice) ↔ SaysTwice limits given line }
    ensures too_many { (limits : Limits) (given : Given) (line : List ℕ) →
        (line_refusal limits given line ≡ Some TooMany) ↔ SaysTooMany limits given line }
    ensures no_program { (limits : Limits) (given : Given) →
        (job_by limits given ≡ Err NoProgram) ↔ (given.program ≡ None) }
    ensures small { (limits : Limits) (given : Given) →
        (job_by limits given ≡ Err Small) ↔
        (IsSome given.program × (¬ Fits (plan_by limits given))) }
{}
