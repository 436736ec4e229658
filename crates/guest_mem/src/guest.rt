//! The memory and its accesses.

ghost use Rattle.std.specs.Prelude.{◌≡◌, ℕ, ◌+◌, ◌*◌, ◌<◌, ◌≤◌, ◌^◌, IfOk, OnOk, Some, None, [], ◌∷◌, length};
ghost use Rattle.guest_mem.specs.Memory.{IsMemory, IsBytes, HaveKind, AreMapped, blank, byte_at};
ghost use Rattle.guest_mem.specs.Accesses.{with_bytes, read_refusal, write_refusal, read8_of, read16_of, read32_of, fetch_of, read_words_of, write_of, write8_of, write16_of, write32_of, write_words_of};
ghost use Rattle.guest_mem.specs.parts.Answered.{IsRefused, IsWritten, is_asked};
ghost use Rattle.guest_mem.specs.parts.Tags.{Knows};
ghost use Rattle.guest_mem.specs.Ranges.{with_kind, with_marks};
ghost use Rattle.guest_mem.specs.declared.kind.MemKind.TheVariants.{Data};

use crate::bytes::{are_bytes, byte_len, fill, get_words, paste, put_words};
use crate::kind::{Access, MemKind};
use crate::search::{Asked, first_outside, first_watched};
use crate::tags::{WordTag, is_enough, retag, shared_tag, tag_at, tag_of};
use fd_base::{Memory, half_in, word_in};
use std::alloc::Global;
use std::marker::Model;

/// A guest's memory. Addresses count bytes from 0, and those below the size have a byte, a kind and a mark. All of
/// its memory is taken by `new`.
#[derive(Drop)]
pub struct Guest {
    bytes: Vec<u8>,
    kinds: Vec<Option<MemKind>>,
    marks: Vec<bool>,
    tags: Vec<WordTag>,
}

impl Model for Guest {
    ghost use Rattle.guest_mem.specs.Memory.{GuestMemory};

    ghost Value = { GuestMemory };

    ghost use Rattle.guest_mem.specs.parts.View.{memory_of, IsGuest};

    ghost view = { memory_of };

    ghost invariant = { IsGuest };
}

impl Guest {
    /// A memory of `size` bytes: all are zero, nothing is mapped and nothing is watched.
    pub fn new(alloc: Global, size: u32) -> Result<Guest, Memory>
        ensures { IfOk result (λ guest. guest ≡ blank size) }
    {
        let len = size as usize;
        let bytes = vec![in alloc; 0u8; len]?;
        let kinds = vec![in alloc; None; len]?;
        let marks = vec![in alloc; false; len]?;
        let tags = vec![in alloc; WordTag::Mixed; (len + 3) / 4]?;
        Ok(Guest {
            bytes,
            kinds,
            marks,
            tags,
        })
    }

    /// What is true of each memory, for a caller's proof. It does nothing.
    pub fn whole(&self)
        ensures whole { IsMemory self.now }
        ensures bytes { IsBytes self.now }
    {
        are_bytes(&self.bytes);
    }

    /// Maps a range, no byte of which is mapped, as one kind. No mark stays there, and the bytes stay.
    pub fn map(&mut self, start: u32, len: u32, kind: MemKind)
        requires inside { start + len ≤ length self.old.bytes }
        requires free { HaveKind self.old start len None }
        ensures { self.new ≡ with_kind self.old start len (Some kind) }
    {
        self.set_kind(start, len, Some(kind));
    }

    /// Ends the mapping of a range, each byte of which is mapped, and its watching. The bytes stay.
    pub fn unmap(&mut self, start: u32, len: u32)
        requires inside { start + len ≤ length self.old.bytes }
        requires mapped { AreMapped self.old start len }
        ensures { self.new ≡ with_kind self.old start len None }
    {
        self.set_kind(start, len, None);
    }

    fn set_kind(&mut self, start: u32, len: u32, kind: Option<MemKind>)
        requires { start + len ≤ length self.old.bytes }
        ensures { self.new ≡ with_kind self.old start len kind }
    {
        fill(&mut self.kinds, start as usize, len as usize, kind);
        fill(&mut self.marks, start as usize, len as usize, false);
        retag(&mut self.tags, start, len, tag_of(kind));
    }

    /// Watches a range of mapped Data from now on: writes there are refused.
    pub fn watch(&mut self, start: u32, len: u32)
        requires inside { start + len ≤ length self.old.bytes }
        requires data_there { HaveKind self.old start len (Some Data) }
        ensures { self.new ≡ with_marks self.old start len }
    {
        fill(&mut self.marks, start as usize, len as usize, true);
        retag(&mut self.tags, start, len, WordTag::Readable);
    }

    /// The byte at an address, whatever it is mapped as.
    pub fn peek(&self, addr: u32) -> u8
        requires { addr < length self.now.bytes }
        ensures { result ≡ byte_at self.now addr }
    {
        self.bytes[addr as usize]
    }

    /// Puts a byte at an address, whatever it is mapped as.
    pub fn poke(&mut self, addr: u32, v: u8)
        requires { addr < length self.old.bytes }
        ensures { self.new ≡ with_bytes self.old addr (v ∷ []) }
    {
        self.bytes[addr as usize] = v;
    }

    /// Reads a byte. Refused by `Fault`.
    #[inline]
    #[tactic(auto, unfolding(crate::specs::Accesses::read_of))]
    pub fn read8(&self, addr: u32) -> Result<u8, Access>
        ensures { result ≡ read8_of self.now addr }
    {
        self.check(Asked::Mapped, 1, addr, 1)?;
        Ok(self.bytes[addr as usize])
    }

    /// Reads a halfword. Refused by `Unaligned` or `Fault`.
    #[inline]
    #[tactic(auto, unfolding(crate::specs::Accesses::read_of, fd_base::specs::Words::half_in))]
    pub fn read16(&self, addr: u32) -> Result<u16, Access>
        ensures { result ≡ read16_of self.now addr }
    {
        self.check(Asked::Mapped, 2, addr, 2)?;
        Ok(half_in(&self.bytes, addr as usize))
    }

    /// Reads a word. Refused by `Unaligned` or `Fault`.
    #[inline]
    #[tactic(auto, unfolding(crate::specs::Accesses::read_of, fd_base::specs::Words::word_in))]
    pub fn read32(&self, addr: u32) -> Result<u32, Access>
        ensures { result ≡ read32_of self.now addr }
    {
        self.check(Asked::Mapped, 4, addr, 4)?;
        Ok(word_in(&self.bytes, addr as usize))
    }

    /// Reads the word of an instruction. Refused by `Unaligned`, or by `Fault` where a byte isn't Code.
    #[inline]
    #[tactic(auto, unfolding(crate::specs::Accesses::fetch_of, fd_base::specs::Words::word_in))]
    pub fn fetch(&self, addr: u32) -> Result<u32, Access>
        ensures { result ≡ fetch_of self.now addr }
    {
        self.check(Asked::Code, 4, addr, 4)?;
        Ok(word_in(&self.bytes, addr as usize))
    }

    /// Reads words at rising addresses. Refused by `Unaligned` or `Fault`, and `values` stay then.
    #[tactic(auto, unfolding(crate::specs::Accesses::read_words_of))]
    pub fn read_words(&self, addr: u32, values: &mut [u32]) -> Result<(), Access>
        requires some { 0 < length values.old }
        requires few { 4 * length values.old < 2 ^ 32 }
        ensures { IsWritten result (read_words_of self.now addr (length values.old)) values.old values.new }
    {
        self.check(Asked::Mapped, 4, addr, 4 * values.len() as u32)?;
        get_words(&self.bytes, addr as usize, values);
        Ok(())
    }

    /// Writes a byte. Refused by `Fault` or `Stray`, and nothing changes then.
    #[inline]
    pub fn write8(&mut self, addr: u32, v: u8) -> Result<(), Access>
        ensures { IsWritten result (write8_of self.old addr v) self.old self.new }
    {
        self.write(1, addr, &v.to_le_bytes())
    }

    /// Writes a halfword. Refused by `Unaligned`, `Fault` or `Stray`, and nothing changes then.
    #[inline]
    pub fn write16(&mut self, addr: u32, v: u16) -> Result<(), Access>
        ensures { IsWritten result (write16_of self.old addr v) self.old self.new }
    {
        self.write(2, addr, &v.to_le_bytes())
    }

    /// Writes a word. Refused by `Unaligned`, `Fault` or `Stray`, and nothing changes then.
    #[inline]
    pub fn write32(&mut self, addr: u32, v: u32) -> Result<(), Access>
        ensures { IsWritten result (write32_of self.old addr v) self.old self.new }
    {
        self.write(4, addr, &v.to_le_bytes())
    }

    /// Writes words at rising addresses. Refused as a whole, by `Unaligned`, `Fault` or `Stray`, and nothing changes
    /// then.
    #[tactic(auto, unfolding(crate::specs::Accesses::write_of))]
    pub fn write_words(&mut self, addr: u32, values: &[u32]) -> Result<(), Access>
        requires some { 0 < length values.now }
        requires few { 4 * length values.now < 2 ^ 32 }
        ensures { IsWritten result (write_words_of self.old addr values.now) self.old self.new }
    {
        self.check_write(4, addr, byte_len(values))?;
        put_words(&mut self.bytes, addr as usize, values);
        Ok(())
    }

    #[inline]
    #[tactic(auto, unfolding(crate::specs::Accesses::write_of))]
    fn write(&mut self, width: u32, addr: u32, new: &[u8]) -> Result<(), Access>
        requires width { 0 < width }
        requires some { 0 < length new.now }
        requires few { length new.now < 2 ^ 32 }
        ensures { IsWritten result (write_of width self.old addr new.now) self.old self.new }
    {
        self.check_write(width, addr, new.len() as u32)?;
        paste(&mut self.bytes, addr as usize, new);
        Ok(())
    }

    /// What a tag tells of an access.
    #[inline]
    fn known(&self, width: u32, addr: u32, count: u32) -> WordTag
        requires { 0 < width }
        ensures { Knows result width count self.now addr }
    {
        if addr % width != 0 {
            return WordTag::Mixed;
        }
        let word = (addr / 4) as usize;
        let within = (addr % 4) as usize + count as usize;
        if within <= 4 {
            tag_at(&self.tags, word)
        } else {
            shared_tag(&self.tags, word, (within + 3) / 4)
        }
    }

    #[inline]
    fn check(&self, asked: Asked, width: u32, addr: u32, count: u32) -> Result<(), Access>
        requires width { 0 < width }
        requires some { 0 < count }
        ensures refusal { IsRefused result (read_refusal (is_asked asked) width count self.now addr) }
        ensures inside { OnOk result (addr + count ≤ length self.now.bytes) }
    {
        self.whole();
        if is_enough(self.known(width, addr, count), asked) {
            return Ok(());
        }
        self.check_bytes(asked, width, addr, count)
    }

    #[tactic(auto, unfolding(crate::specs::Accesses::read_refusal))]
    fn check_bytes(&self, asked: Asked, width: u32, addr: u32, count: u32) -> Result<(), Access>
        requires width { 0 < width }
        requires some { 0 < count }
        ensures refusal { IsRefused result (read_refusal (is_asked asked) width count self.now addr) }
        ensures inside { OnOk result (addr + count ≤ length self.now.bytes) }
    {
        if addr % width != 0 {
            return Err(Access::Unaligned(addr));
        }
        match first_outside(&self.kinds, asked, addr, count) {
            Some(at) => Err(Access::Fault(at)),
            None => Ok(()),
        }
    }

    #[inline]
    fn check_write(&self, width: u32, addr: u32, count: u32) -> Result<(), Access>
        requires width { 0 < width }
        requires some { 0 < count }
        ensures refusal { IsRefused result (write_refusal width count self.now addr) }
        ensures inside { OnOk result (addr + count ≤ length self.now.bytes) }
    {
        self.whole();
        match self.known(width, addr, count) {
            WordTag::Plain => Ok(()),
            _ => self.check_written_bytes(width, addr, count),
        }
    }

    #[tactic(auto, unfolding(crate::specs::Accesses::write_refusal))]
    fn check_written_bytes(&self, width: u32, addr: u32, count: u32) -> Result<(), Access>
        requires width { 0 < width }
        requires some { 0 < count }
        ensures refusal { IsRefused result (write_refusal width count self.now addr) }
        ensures inside { OnOk result (addr + count ≤ length self.now.bytes) }
    {
        self.check_bytes(Asked::Mapped, width, addr, count)?;
        match first_watched(&self.kinds, &self.marks, addr, count) {
            Some(at) => Err(Access::Stray(at)),
            None => Ok(()),
        }
    }
}
