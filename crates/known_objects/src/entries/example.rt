//! An object for the tests: two segments for code, of which the higher stands first, and one with the GOT and two
//! slots, the sites of which are at 0x1000c and 0x10014.

ghost use Rattle.std.specs.Prelude.{◌≡◌, ◌+◌, ◌*◌, ◌^◌, ◌<◌, ◌≤◌, length, IfOk};
ghost use Rattle.elf_model.specs.Sound.{IsSound};

use elf_model::constants::R_ARM_FUNCDESC_VALUE;
use elf_model::{Inits, Kind, Object, Rel, Segment};
use fd_base::{Memory, Seq, put_word};
use std::alloc::Global;

/// Flags of a segment that may be read and executed.
pub(crate) const CODE: u32 = 5;
/// Flags of a segment that may be read and written.
pub(crate) const DATA: u32 = 6;

fn segment(
    alloc: Global,
    vaddr: u32,
    memsz: u32,
    flags: u32,
    bytes: &[u8],
) -> Result<Segment, Memory>
    ensures { IfOk result (λ s. s ≡ record { vaddr = vaddr; memsz = memsz; flags = flags; align = 4; filled = bytes.now }) }
{
    let filled = Seq::from_slice(alloc, bytes)?;
    Ok(Segment {
        vaddr,
        memsz,
        flags,
        align: 4,
        filled,
    })
}

fn slot(site: u32) -> Rel
    ensures { result ≡ record { site = site; kind = R_ARM_FUNCDESC_VALUE; symbol = 1 } }
{
    Rel {
        site,
        kind: R_ARM_FUNCDESC_VALUE,
        symbol: 1,
    }
}

/// The object with these bytes in the lower segment for code, at 0, which has these flags; in the higher one, at
/// 0x8000; and from the GOT on, at 0x10000.
pub(crate) fn object(
    alloc: Global,
    flags: u32,
    low: &[u8],
    high: &[u8],
    from_got: &[u8],
) -> Result<Object, Memory>
    requires low { length low.now ≤ 0x400 }
    requires high { length high.now ≤ 0x400 }
    requires got { length from_got.now ≤ 0x100 }
    ensures { IfOk result IsSound }
{
    let high = segment(alloc, 0x8000, 0x400, CODE, high)?;
    let low = segment(alloc, 0, 0x400, flags, low)?;
    let data = segment(alloc, 0x10000, 0x100, DATA, from_got)?;
    let segments = vec![in alloc; high, low, data]?;
    let slots = [slot(0x1000c), slot(0x10014)];
    let jmprels = Seq::from_slice(alloc, &slots)?;
    Ok(Object {
        kind: Kind::Dyn,
        entry: 0,
        segments: Seq::from_vec(segments),
        got: 0x10000,
        needed: Seq::new(alloc),
        soname: None,
        symbols: Seq::new(alloc),
        rels: Seq::new(alloc),
        jmprels,
        fixups: None,
        symbolic: false,
        now: false,
        inits: Inits {
            init: None,
            fini: None,
            init_array: None,
            fini_array: None,
        },
    })
}

/// Puts words at a place.
pub(crate) fn put_words(bytes: &mut [u8], at: u32, words: &[u32])
    requires within { at + 4 * length words.now ≤ length bytes.old }
    requires small { length bytes.old < 2 ^ 32 }
{
    for (i, word) in words.iter().enumerate() {
        put_word(bytes, at + 4 * i as u32, *word);
    }
}
