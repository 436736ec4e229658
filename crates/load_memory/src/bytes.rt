//! Bytes and words put into a guest's memory.

ghost use Rattle.std.specs.Prelude.{◌≡◌, ◌+◌, ◌*◌, ◌≤◌, [], ◌∷◌, length, replicate};
ghost use Rattle.guest_mem.specs.Accesses.{with_bytes};
ghost use Rattle.load_model.specs.Layout.{HasPair, bytes_of_words};

use guest_mem::Guest;

/// Puts bytes at rising addresses, whatever they are mapped as.
pub(crate) fn fill_bytes(guest: &mut Guest, addr: u32, bytes: &[u8])
    requires { addr + length bytes.now ≤ length guest.old.bytes }
    ensures { guest.new ≡ with_bytes guest.old addr bytes.now }
{
    guest.whole();
    let mut at = addr;
    for byte in bytes {
        guest.poke(at, *byte);
        at += 1;
    }
}

/// Puts words at rising addresses, little-endian.
pub(crate) fn fill_words(guest: &mut Guest, addr: u32, words: &[u32])
    requires { addr + 4 * length words.now ≤ length guest.old.bytes }
    ensures { guest.new ≡ with_bytes guest.old addr (bytes_of_words words.now) }
{
    guest.whole();
    let mut at = addr;
    for word in words {
        fill_bytes(guest, at, &word.to_le_bytes());
        at += 4;
    }
}

/// Puts zeros at rising addresses.
pub(crate) fn clear_bytes(guest: &mut Guest, addr: u32, len: u32)
    requires { addr + len ≤ length guest.old.bytes }
    ensures { guest.new ≡ with_bytes guest.old addr (replicate len 0) }
{
    guest.whole();
    for i in 0..len {
        guest.poke(addr + i, 0);
    }
}

/// Writes the two words of a descriptor, which begins at `addr`, little-endian: the entry point `code` of a function
/// and the GOT `got` of its module. Nothing else changes.
pub fn put_pair(guest: &mut Guest, addr: u32, code: u32, got: u32)
    requires { addr + 8 ≤ length guest.old.bytes }
    ensures pair { HasPair guest.new addr code got }
    ensures rest { guest.new ≡ with_bytes guest.old addr (bytes_of_words (code ∷ got ∷ [])) }
{
    fill_words(guest, addr, &[code, got]);
}
