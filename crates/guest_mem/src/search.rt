//! The lowest byte of a range that an access is refused at.

ghost use Rattle.std.specs.Prelude.{◌≡◌, ◌+◌, ◌<◌, ◌≤◌, ◌^◌, Option, None, false, not, get_or, IsTrue, length};
ghost use Rattle.guest_mem.specs.declared.kind.MemKind.{MemKind};
ghost use Rattle.guest_mem.specs.Memory.{is_mapped_as, is_code_as, is_watched_as};
ghost use Rattle.guest_mem.specs.Accesses.{first_from};
ghost use Rattle.guest_mem.specs.parts.Answered.{is_asked};

use crate::kind::MemKind;

/// What an access asks of each of its bytes.
#[derive(Clone, Copy)]
pub enum Asked {
    /// It is mapped.
    Mapped,
    /// It is Code.
    Code,
}

fn is_mapped(kinds: &[Option<MemKind>], at: u32) -> bool
    ensures value { result ≡ is_mapped_as (get_or kinds.now at None) }
    ensures inside { IsTrue result → at < length kinds.now }
{
    let at = at as usize;
    at < kinds.len() && kinds[at].is_some()
}

fn is_code(kinds: &[Option<MemKind>], at: u32) -> bool
    ensures value { result ≡ is_code_as (get_or kinds.now at None) }
    ensures inside { IsTrue result → at < length kinds.now }
{
    let at = at as usize;
    at < kinds.len() && matches!(kinds[at], Some(MemKind::Code))
}

fn is_watched(kinds: &[Option<MemKind>], marks: &[bool], at: u32) -> bool
    requires at { at < length kinds.now }
    requires same { length marks.now ≡ length kinds.now }
    ensures { result ≡ is_watched_as (get_or kinds.now at None) (get_or marks.now at false) }
{
    match kinds[at as usize] {
        None => false,
        Some(MemKind::Data) => marks[at as usize],
        Some(MemKind::Code | MemKind::Fixed) => true,
    }
}

fn is_asked(kinds: &[Option<MemKind>], asked: Asked, at: u32) -> bool
    ensures value { result ≡ is_asked asked (get_or kinds.now at None) }
    ensures inside { IsTrue result → at < length kinds.now }
{
    match asked {
        Asked::Mapped => is_mapped(kinds, at),
        Asked::Code => is_code(kinds, at),
    }
}

/// The lowest of `count` bytes that isn't as asked.
#[inline]
#[tactic(auto, using(crate::proofs::Searches::searches))]
pub fn first_outside(kinds: &[Option<MemKind>], asked: Asked, addr: u32, count: u32) -> Option<u32>
    requires { length kinds.now < 2 ^ 32 }
    ensures { result ≡ first_from (λ a. not (is_asked asked (get_or kinds.now a None))) addr count }
{
    let mut at = addr;
    for _ in 0..count {
        if !is_asked(kinds, asked, at) {
            return Some(at);
        }
        at += 1;
    }
    None
}

/// The lowest of `count` bytes that is watched.
#[inline]
#[tactic(auto, using(crate::proofs::Searches::searches))]
pub fn first_watched(
    kinds: &[Option<MemKind>],
    marks: &[bool],
    addr: u32,
    count: u32,
) -> Option<u32>
    requires inside { addr + count ≤ length kinds.now }
    requires size { length kinds.now < 2 ^ 32 }
    requires same { length marks.now ≡ length kinds.now }
    ensures { result ≡ first_from (λ a. is_watched_as (get_or kinds.now a None) (get_or marks.now a false)) addr count }
{
    let mut at = addr;
    for _ in 0..count {
        if is_watched(kinds, marks, at) {
            return Some(at);
        }
        at += 1;
    }
    None
}
