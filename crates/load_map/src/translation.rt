//! From link addresses to placed addresses.

ghost use Rattle.std.specs.Prelude.{◌≡◌, ◌+◌, ◌≤◌, All, IfSome};
ghost use Rattle.std.specs.List.{find};
ghost use Rattle.std.specs.Option.{option_copied, option_or};
ghost use Rattle.fd_base.specs.Ranges.{is_in};
ghost use Rattle.load_map.specs.parts.IsLoadMap.{EndsBelow, Translates};
ghost use Rattle.load_map.specs.Translation.{address_of, is_held_by, is_end_of, placed};

use crate::entry::MapEntry;

/// Whether the entry's segment holds the link address.
fn holds(entry: &MapEntry, v: u32) -> bool
    ensures { result ≡ is_held_by v entry.now }
{
    entry.vaddr <= v && u64::from(v) < u64::from(entry.vaddr) + u64::from(entry.memsz)
}

/// Whether the entry's segment ends at the link address.
fn ends_at(entry: &MapEntry, v: u32) -> bool
    ensures { result ≡ is_end_of v entry.now }
{
    u64::from(v) == u64::from(entry.vaddr) + u64::from(entry.memsz)
}

/// Whether the entry's placed segment holds the address.
pub fn is_placed_at(entry: &MapEntry, addr: u32) -> bool
    ensures { result ≡ is_in entry.now.addr entry.now.memsz addr }
{
    entry.addr <= addr && u64::from(addr) < u64::from(entry.addr) + u64::from(entry.memsz)
}

/// The first entry that holds the link address.
fn holder(entries: &[MapEntry], v: u32) -> Option<&MapEntry>
    ensures { option_copied result ≡ find (is_held_by v) entries.now }
{
    entries.iter().find(|entry| holds(entry, v))
}

/// The first entry that ends at the link address.
fn ender(entries: &[MapEntry], v: u32) -> Option<&MapEntry>
    ensures { option_copied result ≡ find (is_end_of v) entries.now }
{
    entries.iter().find(|entry| ends_at(entry, v))
}

/// The entry by which a link address is translated.
fn entry_for(entries: &[MapEntry], v: u32) -> Option<MapEntry>
    requires { All EndsBelow entries.now }
    ensures entry { result ≡ option_or (find (is_held_by v) entries.now) (find (is_end_of v) entries.now) }
    ensures reaches { IfSome result (Translates v) }
{
    holder(entries, v).or(ender(entries, v)).copied()
}

/// The placed address of a link address, by the first entry that holds it, else by the first that ends at it.
/// None where there is no such entry.
pub fn address_of(entries: &[MapEntry], v: u32) -> Option<u32>
    requires { All EndsBelow entries.now }
    ensures { result ≡ address_of entries.now v }
{
    let entry = entry_for(entries, v)?;
    Some(v - entry.vaddr + entry.addr)
}

/// The placed address of a link address that has one, and 0 of another.
pub fn placed(entries: &[MapEntry], v: u32) -> u32
    requires { All EndsBelow entries.now }
    ensures { result ≡ placed entries.now v }
{
    address_of(entries, v).unwrap_or(0)
}
