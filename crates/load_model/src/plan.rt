//! The memory plan of a process.

ghost use Rattle.std.specs.Prelude.{◌≡◌, ◌+◌, ◌*◌, ◌<◌, ◌≤◌, IfOk};
ghost use Rattle.load_model.specs.Plan.{Fits, descriptors_at, slots_end, low_of, high_of, listed_for};

use crate::layout::{LOAD_MAPS, LOAD_MAPS_SIZE};
use fd_base::{Memory, Name, Seq};
use placement::Addrs;
use std::alloc::Global;

/// How many bytes a descriptor has: an entry point and a GOT.
pub const DESCRIPTOR_SIZE: u32 = 8;

/// How the memory of a process is parted.
#[derive(Drop)]
pub struct MemPlan {
    /// How many bytes there are, from address 0 on.
    pub memory: u32,
    /// For how many descriptors of each process, of `DESCRIPTOR_SIZE` bytes each, there is room below the modules.
    pub descriptors: u32,
    /// How many bytes each stack has. The stacks lie at the end of the memory.
    pub stack: u32,
    /// Where modules are to be placed that are listed by name.
    pub places: Places,
    /// The most threads. Each has a stack.
    pub threads: u32,
    /// How many processes there are. Each has load maps and descriptors of its own.
    pub processes: u32,
}

/// The addresses that are listed for the segments of one module, in their order.
#[derive(Drop)]
pub struct PlaceLine {
    /// The name of the module.
    pub name: Name,
    /// The address at which each segment is to be placed, in the order of its program headers. Those behind the last
    /// one of the list have none.
    pub addrs: Addrs,
}

/// Place lines in order. Of several lines of one name the first counts.
pub type Places = Seq<PlaceLine>;

impl MemPlan {
    /// The address of the first descriptor of the first process, whose descriptors all lie below the modules.
    pub fn descriptors_at(&self) -> u32
        requires { Fits self.now }
        ensures value { result ≡ descriptors_at self.now }
        ensures slots { result + DESCRIPTOR_SIZE * self.now.descriptors ≤ low_of self.now }
    {
        LOAD_MAPS + LOAD_MAPS_SIZE * self.processes
    }

    /// The address behind the last descriptor.
    pub fn slots_end(&self) -> u32
        requires { Fits self.now }
        ensures { result ≡ slots_end self.now }
    {
        self.descriptors_at() + DESCRIPTOR_SIZE * (self.descriptors * self.processes)
    }

    /// The lowest address of modules.
    pub fn low(&self) -> u32
        requires { Fits self.now }
        ensures { result ≡ low_of self.now }
    {
        let behind = u64::from(self.slots_end());
        ((behind + 15) / 16 * 16) as u32
    }

    /// The address behind the last byte of modules.
    pub fn high(&self) -> u32
        requires { Fits self.now }
        ensures { result ≡ high_of self.now }
    {
        self.memory - self.threads * self.stack
    }

    /// The same plan in memory of its own.
    pub fn copy(&self, alloc: Global) -> Result<MemPlan, Memory>
        ensures { IfOk result (λ plan. plan ≡ self.now) }
    {
        Ok(MemPlan {
            memory: self.memory,
            descriptors: self.descriptors,
            stack: self.stack,
            places: copied(alloc, self.places.as_slice())?,
            threads: self.threads,
            processes: self.processes,
        })
    }
}

fn copied(alloc: Global, lines: &[PlaceLine]) -> Result<Places, Memory>
    ensures { IfOk result (λ places. places ≡ lines.now) }
{
    let mut places = Seq::new(alloc);
    for line in lines {
        places.push(PlaceLine {
            name: line.name.copy(alloc)?,
            addrs: Seq::from_slice(alloc, line.addrs.as_slice())?,
        })?;
    }
    Ok(places)
}

/// The addresses that are listed for the module of this name, in the order of its segments.
pub fn listed_for<'a>(lines: &'a [PlaceLine], name: &Name) -> &'a [u32]
    ensures { result.now ≡ listed_for lines.now name.now }
{
    for line in lines {
        if line.name.as_slice() == name.as_slice() {
            return line.addrs.as_slice();
        }
    }
    &[]
}
