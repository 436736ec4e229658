//! Threads, and their calls that have begun and not arrived.

ghost use Rattle.std.specs.Prelude.{◌≡◌, ◌↔◌, ◌<◌, [], ◌∷◌, ◌++◌, All, IsTrue, filter, length, map, not};
ghost use Rattle.run_model.specs.declared.thread.TheConstants.{LONGEST_CALL as LONGEST};
ghost use Rattle.run_model.specs.Turns as spec;

use crate::event::Stop;
use a32_machine::Cpu;
use arrayvec::ArrayVec;
use fd_base::Seq;
use std::marker::Model;

/// The steps of a call through a slot that is bound: the instructions of an entry.
pub const BOUND_CALL: u32 = 4;
/// The most steps that a call takes: those of one through a slot that isn't bound yet. A step begins at most one call, so
/// that no thread has more calls in progress.
pub const LONGEST_CALL: usize = 11;

/// A call through an entry of the procedure linkage table that has begun and not arrived.
#[derive(Clone, Copy, PartialEq, Eq)]
pub struct Call {
    /// The number of the calling module.
    pub number: u32,
    pub slot: u32,
    /// How many steps of its thread it takes.
    pub length: u32,
    /// How many of them are done.
    pub done: u32,
    /// The registers and flags as it began.
    pub begin: Cpu,
}

impl Call {
    /// Counts one more step of its thread.
    fn advance(&mut self)
        requires { self.old.done < LONGEST }
        ensures { self.new ≡ spec.advanced self.old }
    {
        self.done += 1;
    }

    /// Whether all its steps are done.
    pub fn is_complete(&self) -> bool
        ensures { result ≡ spec.is_complete self.now }
    {
        self.done == self.length
    }
}

impl Default for Call {
    /// What stands where there is no call.
    fn default() -> Self {
        Call {
            number: 0,
            slot: 0,
            length: 0,
            done: 0,
            begin: Cpu {
                r: [0; 16],
                n: false,
                z: false,
                c: false,
                v: false,
            },
        }
    }
}

/// Calls in the order in which they began. They lie in the value itself, and take no memory.
#[derive(Drop)]
pub struct Calls {
    calls: ArrayVec<Call, LONGEST_CALL>,
}

impl Model for Calls {
    ghost use Rattle.std.specs.Prelude.{List};
    ghost use Rattle.run_model.specs.declared.thread.Call.{Call};

    ghost Value = { List Call };

    ghost view = { λ c. c.calls.items };
}

impl Calls {
    /// No calls.
    pub fn new() -> Self
        ensures { result ≡ [] }
    {
        Calls {
            calls: ArrayVec::new(),
        }
    }

    /// Whether there is no call.
    pub fn is_empty(&self) -> bool
        ensures { IsTrue result ↔ (length self.now ≡ 0) }
    {
        self.calls.is_empty()
    }

    /// The calls as a slice.
    pub fn as_slice(&self) -> &[Call]
        ensures { result.now ≡ self.now }
    {
        self.calls.as_slice()
    }

    /// Puts a call at the end.
    pub fn push(&mut self, call: Call)
        requires { length self.old < LONGEST }
        ensures { self.new ≡ self.old ++ call ∷ [] }
    {
        self.calls.push(call);
    }

    /// Counts one more step of their thread.
    pub fn advance(&mut self)
        requires { All (λ call. call.done < LONGEST) self.old }
        ensures { self.new ≡ map spec.advanced self.old }
    {
        advance_all(self.calls.as_mut_slice());
    }

    /// Takes out the calls all of whose steps are done.
    pub fn remove_complete(&mut self)
        ensures { self.new ≡ filter (λ call. not (spec.is_complete call)) self.old }
    {
        self.calls.retain(|call| !call.is_complete());
    }
}

/// Counts one more step for each call.
fn advance_all(calls: &mut [Call])
    requires { All (λ call. call.done < LONGEST) calls.old }
    ensures { calls.new ≡ map spec.advanced calls.old }
{
    for call in calls.iter_mut() {
        call.advance();
    }
}

/// A live thread.
#[derive(Drop)]
pub struct Thread {
    pub cpu: Cpu,
    /// The code of its last refused service, 0 if none was refused.
    pub refusal: u32,
    pub calls: Calls,
}

/// Live threads by number, from 0 to 7.
pub type Threads = Seq<Option<Thread>>;

/// How a turn of one instruction ends. After any answer but the first three the process is over.
#[derive(Clone, Copy, PartialEq, Eq)]
pub enum Turned {
    /// The thread goes on.
    Next,
    /// The thread gives up its turn.
    Yield,
    /// The thread has ended, and others live.
    ThreadDone,
    /// The process has ended, or no thread lives.
    Ended,
    /// The run stops before the instruction.
    Stopped(Stop),
    /// The store's fault, which it has counted.
    StoreFault,
    /// The sink's fault, which it has counted.
    SinkFault,
    /// Memory is wanted.
    Memory,
}
