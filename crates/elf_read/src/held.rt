//! Where link addresses lie.

ghost use Rattle.std.specs.Prelude.{◌≡◌, ℕ, ◌≤◌, ◌+◌, All, IfSome, find};
ghost use Rattle.std.specs.Option.{option_copied};
ghost use Rattle.elf_model.specs.Segments as spec;

use elf_model::ProgramHeader;
use elf_model::constants::{PF_W, PF_X};

#[tactic(auto, unfolding(elf_model::specs::Segments::holds))]
fn holds(h: &ProgramHeader, addr: u32, size: u32) -> bool
    ensures { result ≡ spec.holds h.now addr size }
{
    let end = u64::from(addr) + u64::from(size);
    h.vaddr <= addr && end <= u64::from(h.vaddr) + u64::from(h.filesz)
}

fn holder(loads: &[ProgramHeader], addr: u32, size: u32) -> Option<&ProgramHeader>
    ensures { option_copied result ≡ find (λ h. spec.holds h addr size) loads.now }
{
    loads.iter().find(|h| holds(h, addr, size))
}

/// The offset in the file of bytes that the file's bytes of one segment hold, found by link address.
#[tactic(auto, unfolding(elf_model::specs::Segments::held_at))]
pub fn held_at(loads: &[ProgramHeader], addr: u32, size: u32) -> Option<usize>
    ensures value { result ≡ spec.held_at loads.now addr size }
    ensures in_file { (len : ℕ) → All (spec.InFile len) loads.now
        → IfSome result (λ at. at + size ≤ len) }
{
    if size == 0 {
        return Some(0);
    }
    match holder(loads, addr, size) {
        None => None,
        Some(h) => Some(h.offset as usize + (addr - h.vaddr) as usize),
    }
}

/// Whether a word of flags has this flag.
pub fn has_flag(flags: u32, flag: u32) -> bool
    ensures { result ≡ spec.has_flag flags flag }
{
    flags & flag != 0
}

fn is_in_memory(h: &ProgramHeader, addr: u32, size: u32) -> bool
    ensures { result ≡ spec.is_in_memory h.now addr size }
{
    let end = u64::from(addr) + u64::from(size);
    h.vaddr <= addr && end <= u64::from(h.vaddr) + u64::from(h.memsz)
}

/// Whether the bytes are in the memory of one writable segment.
#[tactic(auto, unfolding(elf_model::specs::Segments::is_writable_at))]
pub fn is_writable_at(loads: &[ProgramHeader], addr: u32, size: u32) -> bool
    ensures { result ≡ spec.is_writable_at loads.now addr size }
{
    loads
        .iter()
        .any(|h| has_flag(h.flags, PF_W) && is_in_memory(h, addr, size))
}

/// Whether the link address is in the memory of an executable segment.
#[tactic(auto, unfolding(elf_model::specs::Segments::is_executable_at))]
pub fn is_executable_at(loads: &[ProgramHeader], addr: u32) -> bool
    ensures { result ≡ spec.is_executable_at loads.now addr }
{
    loads
        .iter()
        .any(|h| has_flag(h.flags, PF_X) && is_in_memory(h, addr, 1))
}
