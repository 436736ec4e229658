//! What a run reports.

use elf_model::Func;
use fd_base::{Bytes, Name};

/// Why a run stops.
#[derive(Clone, Copy, PartialEq, Eq)]
pub enum Stop {
    /// The lowest byte of a store that is watched.
    Stray(u32),
    /// The lowest byte that isn't mapped, or isn't code where it is fetched.
    Fault(u32),
    /// The word, which is no instruction.
    Undefined(u32),
    /// The address of an access that isn't a multiple of its width, or a new r15 that isn't a multiple of 4.
    Unaligned(u32),
    /// The number, which no service has.
    Service(u32),
    /// The resolver is called for no slot.
    Resolve,
    /// All steps of the job are done.
    Limit,
}

/// What a run reports. Each event has a line. `step` is the number of steps that are done.
#[derive(Drop)]
pub enum Event {
    /// A new module.
    Load {
        number: u32,
        name: Name,
    },
    /// A new module has functions that loading should call first. They are not called.
    Skipped {
        number: u32,
    },
    /// A slot was unbound and is bound. A weak symbol without a definition has no function.
    Bind {
        step: u32,
        number: u32,
        slot: u32,
        function: Option<Func>,
    },
    /// Bytes that a thread puts out.
    Out {
        step: u32,
        thread: u32,
        bytes: Bytes,
    },
    /// A thread opens a module: its handle, or the code of the refusal. A bad name is none.
    Open {
        step: u32,
        thread: u32,
        name: Option<Name>,
        answer: Result<u32, u32>,
    },
    /// A thread asks for a symbol: its address, or the code of the refusal. A bad name is none.
    Sym {
        step: u32,
        thread: u32,
        handle: u32,
        name: Option<Name>,
        answer: Result<u32, u32>,
    },
    /// A thread closes a module, or the code of the refusal.
    Close {
        step: u32,
        thread: u32,
        handle: u32,
        answer: Result<(), u32>,
    },
    /// A module is no longer live.
    Gone {
        number: u32,
    },
    /// A thread starts another: its number, or the code of the refusal.
    Start {
        step: u32,
        thread: u32,
        answer: Result<u32, u32>,
    },
    /// A call arrives at a link address of a module.
    Arrive {
        step: u32,
        thread: u32,
        at: Func,
    },
    /// A call begins at the entry of a slot of a module.
    Enter {
        step: u32,
        thread: u32,
        number: u32,
        slot: u32,
    },
    /// A thread ends.
    Done {
        step: u32,
        thread: u32,
        value: u32,
    },
    /// The process ends.
    Exit {
        step: u32,
        thread: u32,
        value: u32,
    },
    /// No thread lives.
    End {
        step: u32,
    },
    /// The run stops where it would go on with a thread.
    Stopped {
        step: u32,
        thread: u32,
        stop: Stop,
    },
}
