//! What the statements of a job give.

ghost use Rattle.std.specs.Prelude.{◌≡◌, ◌*◌, ◌++◌, ◌∷◌, [], OnOk, IfErr};
ghost use Rattle.std.specs.List.{list_any};
ghost use Rattle.std.specs.Str.{bytes_eq};
ghost use Rattle.job_text.specs.parts.Answers.{IsOf};
ghost use Rattle.job_text.specs.Given as spec;

use crate::limits::Limits;
use crate::refusal::{JobKind, LineErr};
use crate::statement::Statement;
use fd_base::{Name, Seq};
use load_model::{DESCRIPTOR_SIZE, LOAD_MAPS, LOAD_MAPS_SIZE, MemPlan, PlaceLine, Places};
use run_model::{Job, Turn, Turns};
use std::alloc::Global;

/// What statements give: the value of each kind that may be set once, and the place lines and turns.
#[derive(Drop)]
pub(crate) struct Given {
    program: Option<Name>,
    memory: Option<u32>,
    descriptors: Option<u32>,
    stack: Option<u32>,
    steps: Option<u32>,
    lazy: Option<bool>,
    places: Places,
    turns: Turns,
}

/// Sets a value that isn't set.
fn set_once<T: Drop>(slot: &mut Option<T>, value: T) -> Result<(), LineErr>
    ensures set { OnOk result (slot.new ≡ Some value) }
    ensures free { OnOk result (spec.once slot.old ≡ None) }
    ensures refused { IfErr result (λ e. IsOf e (spec.once slot.old)) }
{
    if slot.is_some() {
        return Err(LineErr::Refused(JobKind::Twice));
    }
    *slot = Some(value);
    Ok(())
}

/// Whether one of these lines has the name.
fn has_place(places: &[PlaceLine], name: &Name) -> bool
    ensures { result ≡ list_any (λ line. bytes_eq line.name name.now) places.now }
{
    for line in places {
        if line.name.as_slice() == name.as_slice() {
            return true;
        }
    }
    false
}

/// Puts a place line at the end, where there are fewer than `most` and none has its name.
#[tactic(auto, unfolding(crate::specs::Given::place_refusal))]
fn add_place(places: &mut Places, most: u32, line: PlaceLine) -> Result<(), LineErr>
    ensures added { OnOk result (places.new ≡ places.old ++ line ∷ []) }
    ensures free { OnOk result (spec.place_refusal most places.old line ≡ None) }
    ensures refused { IfErr result (λ e. IsOf e (spec.place_refusal most places.old line)) }
{
    if has_place(places.as_slice(), &line.name) {
        return Err(LineErr::Refused(JobKind::Twice));
    }
    if places.len() >= most as usize {
        return Err(LineErr::Refused(JobKind::TooMany));
    }
    places.push(line)?;
    Ok(())
}

/// Puts a turn at the end, where there are fewer than `most`.
fn add_turn(turns: &mut Turns, most: u32, turn: Turn) -> Result<(), LineErr>
    ensures added { OnOk result (turns.new ≡ turns.old ++ turn ∷ []) }
    ensures free { OnOk result (spec.too_many most turns.old ≡ None) }
    ensures refused { IfErr result (λ e. IsOf e (spec.too_many most turns.old)) }
{
    if turns.len() >= most as usize {
        return Err(LineErr::Refused(JobKind::TooMany));
    }
    turns.push(turn)?;
    Ok(())
}

/// The product of two numbers.
fn product(a: u32, b: u32) -> u64
    ensures { result ≡ a * b }
{
    u64::from(a) * u64::from(b)
}

/// Whether the parts of the memory fit.
fn has_room(plan: &MemPlan) -> bool
    ensures { result ≡ spec.has_room plan.now }
{
    let memory = u64::from(plan.memory);
    let stacks = product(plan.threads, plan.stack);
    let slots = product(plan.descriptors, plan.processes);
    // Else the sums below may be too large.
    if slots > memory {
        return false;
    }
    let load_maps = u64::from(LOAD_MAPS_SIZE) * u64::from(plan.processes);
    let behind = u64::from(LOAD_MAPS) + load_maps + u64::from(DESCRIPTOR_SIZE) * slots;
    plan.threads > 0
        && plan.processes > 0
        && stacks <= memory
        && (behind + 15) / 16 * 16 <= memory - stacks
}

impl Given {
    /// Nothing.
    #[tactic(auto, unfolding(crate::specs::Given::given_by))]
    pub(crate) fn new(alloc: Global) -> Given
        ensures { result ≡ spec.given_by [] }
    {
        Given {
            program: None,
            memory: None,
            descriptors: None,
            stack: None,
            steps: None,
            lazy: None,
            places: Seq::new(alloc),
            turns: Seq::new(alloc),
        }
    }

    /// Takes what one more statement gives.
    #[tactic(auto, unfolding(crate::specs::Given::repeat_refusal))]
    pub(crate) fn add(&mut self, limits: &Limits, statement: Statement) -> Result<(), LineErr>
        ensures added { OnOk result (self.new ≡ spec.with_statement statement self.old) }
        ensures free { OnOk result (spec.repeat_refusal limits.now self.old statement ≡ None) }
        ensures refused { IfErr result
            (λ e. IsOf e (spec.repeat_refusal limits.now self.old statement)) }
    {
        match statement {
            Statement::Program(name) => set_once(&mut self.program, name),
            Statement::Memory(n) => set_once(&mut self.memory, n),
            Statement::Descriptors(n) => set_once(&mut self.descriptors, n),
            Statement::Stack(n) => set_once(&mut self.stack, n),
            Statement::Steps(n) => set_once(&mut self.steps, n),
            Statement::Mode(lazy) => set_once(&mut self.lazy, lazy),
            Statement::Place(line) => add_place(&mut self.places, limits.places, line),
            Statement::Turn(turn) => add_turn(&mut self.turns, limits.turns, turn),
        }
    }

    /// The job, with the defaults of what isn't given.
    #[tactic(auto, unfolding(crate::specs::Given::job_by))]
    pub(crate) fn job(self, limits: &Limits) -> Result<Job, JobKind>
        ensures { result ≡ spec.job_by limits.now self }
    {
        let Given {
            program,
            memory,
            descriptors,
            stack,
            steps,
            lazy,
            places,
            turns,
        } = self;
        let Some(program) = program else {
            return Err(JobKind::NoProgram);
        };
        let plan = MemPlan {
            memory: memory.unwrap_or(limits.memory.default),
            descriptors: descriptors.unwrap_or(limits.descriptors.default),
            stack: stack.unwrap_or(limits.stack.default),
            places,
            threads: limits.threads,
            processes: 1,
        };
        if !has_room(&plan) {
            return Err(JobKind::Small);
        }
        Ok(Job {
            plan,
            lazy: lazy.unwrap_or(limits.lazy),
            steps: steps.unwrap_or(limits.steps.default),
            program,
            turns,
        })
    }
}
