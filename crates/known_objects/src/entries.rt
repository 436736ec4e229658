//! Values from outside: the words of an entry, and entries in an object.

ghost use Rattle.std.specs.Prelude.{◌≤◌, length};
ghost use Rattle.elf_model.specs.Sound.{IsSound};

mod example;

use crate::checks::{same, same_at};
use elf_model::Object;
use example::{CODE, DATA, object, put_words};
use load_model::unbound_at_first;
use plt_code::{Entry, entries, entry_words, lazy_place, slot_entered};
use std::alloc::Global;
use std::process::Abort;
use std::test::Fail;

const NO_CODE: [u8; 0] = [];

/// The bytes from the GOT on, where slot 0 leads to 0x218 and slot 1 to 0x258.
fn data() -> [u8; 0x20] {
    let mut bytes = [0; 0x20];
    put_words(&mut bytes, 0xc, &[0x218, 0x10000, 0x258, 0x10000]);
    bytes
}

/// Bytes with the words of an entry at a place.
fn text_with(at: u32, words: &[u32; 10]) -> [u8; 0x300]
    requires { at ≤ 0x2d8 }
{
    let mut bytes = [0; 0x300];
    put_words(&mut bytes, at, words);
    bytes
}

/// The bytes with the entry of slot 0 at 0x200.
fn text() -> [u8; 0x300] {
    text_with(0x200, &entry_words(12, 0))
}

#[test]
fn ten_words(rt: HostRuntime) {
    same(
        &rt,
        entry_words(12, 0).as_slice(),
        [
            0xe59f_c008,
            0xe08c_c009,
            0xe59c_9004,
            0xe59c_f000,
            12,
            0,
            0xe51f_c00c,
            0xe92d_1000,
            0xe599_c004,
            0xe599_f000,
        ]
        .as_slice(),
    );
}

fn has_one_entry(rt: &impl Abort, alloc: Global, o: &Object) -> Result<(), Fail>
    requires { IsSound o.now }
{
    let found = entries(alloc, o)?;
    let entry = Entry { at: 0x200, slot: 0 };
    same(rt, found.as_slice(), [entry].as_slice());
    for (at, slot) in [(0x200, Some(0)), (0x218, None), (0xffff_fffc, None)] {
        same_at(rt, at, slot_entered(o, at), slot);
    }
    for (slot, place) in [(0, Some(0x218)), (1, None), (2, None)] {
        same_at(rt, slot, lazy_place(o, slot), place);
    }
    Ok(())
}

#[test]
fn an_entry_and_its_lazy_call(rt: HostRuntime) -> Result<(), Fail> {
    let o = object(rt.alloc(), CODE, &text(), &NO_CODE, &data())?;
    has_one_entry(&rt, rt.alloc(), &o)
}

/// The slot that leads to its call of the resolver waits where slots may; the other never does.
fn has_a_slot_that_waits(rt: &impl Abort, alloc: Global, o: &Object) -> Result<(), Fail>
    requires { IsSound o.now }
{
    for (lazy, wanted) in [(true, [true, false]), (false, [false, false])] {
        let flags = unbound_at_first(alloc, lazy, o)?;
        same(rt, flags.as_slice(), wanted.as_slice());
    }
    Ok(())
}

#[test]
fn slots_that_wait(rt: HostRuntime) -> Result<(), Fail> {
    let o = object(rt.alloc(), CODE, &text(), &NO_CODE, &data())?;
    has_a_slot_that_waits(&rt, rt.alloc(), &o)
}

fn has_four_entries(rt: &impl Abort, alloc: Global, o: &Object) -> Result<(), Fail>
    requires { IsSound o.now }
{
    let found = entries(alloc, o)?;
    let rows = [
        Entry { at: 0x200, slot: 0 },
        Entry { at: 0x240, slot: 1 },
        Entry { at: 0x2a0, slot: 0 },
        Entry {
            at: 0x8000,
            slot: 1,
        },
    ];
    same(rt, found.as_slice(), rows.as_slice());
    for entry in rows {
        same(rt, slot_entered(o, entry.at), Some(entry.slot));
    }
    same(rt, lazy_place(o, 0), Some(0x218));
    same(rt, lazy_place(o, 1), Some(0x258));
    Ok(())
}

#[test]
fn entries_rise_over_segments(rt: HostRuntime) -> Result<(), Fail> {
    let mut low = text();
    put_words(&mut low, 0x240, &entry_words(20, 8));
    put_words(&mut low, 0x2a0, &entry_words(12, 0));
    let mut high = [0; 0x28];
    put_words(&mut high, 0, &entry_words(20, 8));
    let o = object(rt.alloc(), CODE, &low, &high, &data())?;
    has_four_entries(&rt, rt.alloc(), &o)
}

/// Whether these bytes, in a segment of these flags, have the entry of slot 0 at 0x200, or else none.
fn is_entry(rt: &impl Abort, alloc: Global, flags: u32, low: &[u8]) -> Result<bool, Fail>
    requires { length low.now ≤ 0x400 }
{
    let o = object(alloc, flags, low, &NO_CODE, &data())?;
    let found = entries(alloc, &o)?;
    let first = found.as_slice().first().copied();
    let entered = slot_entered(&o, 0x200).map(|slot| Entry { at: 0x200, slot });
    same(rt, (first, found.len() <= 1), (entered, true));
    Ok(first.is_some())
}

#[test]
fn no_entries(rt: HostRuntime) -> Result<(), Fail> {
    let whole = text();
    let moved = text_with(0x202, &entry_words(12, 0));
    let of_no_slot = text_with(0x200, &entry_words(16, 0));
    let rows = [
        (CODE, &whole[..0x210], false),
        (CODE, &whole[..0x214], true),
        (DATA, whole.as_slice(), false),
        (CODE, moved.as_slice(), false),
        (CODE, of_no_slot.as_slice(), false),
    ];
    for (flags, low, wanted) in rows {
        assert!(rt; low.len() <= 0x400);
        same(&rt, is_entry(&rt, rt.alloc(), flags, low)?, wanted);
    }
    Ok(())
}

/// Where slot 0 leads before it is bound, in an object of these bytes.
fn lazy_place_in(
    alloc: Global,
    flags: u32,
    low: &[u8],
    got: &[u8; 0x20],
) -> Result<Option<u32>, Fail>
    requires { length low.now ≤ 0x400 }
{
    let o = object(alloc, flags, low, &NO_CODE, got)?;
    Ok(lazy_place(&o, 0))
}

#[test]
fn no_lazy_calls(rt: HostRuntime) -> Result<(), Fail> {
    let whole = text();
    let of_slot_1 = text_with(0x200, &entry_words(12, 8));
    let moved = text_with(0x202, &entry_words(12, 0));
    let mut into_moved = data();
    put_words(&mut into_moved, 0xc, &[0x21a]);
    let rows = [
        (CODE, &whole[..0x228], data(), Some(0x218)),
        (CODE, &whole[..0x227], data(), None),
        (DATA, whole.as_slice(), data(), None),
        (CODE, of_slot_1.as_slice(), data(), None),
        (CODE, moved.as_slice(), into_moved, None),
    ];
    for (flags, low, got, place) in rows {
        assert!(rt; low.len() <= 0x400);
        same(&rt, lazy_place_in(rt.alloc(), flags, low, &got)?, place);
    }
    Ok(())
}
