//! What holds of reads and writes themselves. Nothing here runs.

ghost use Rattle.std.specs.Prelude.{◌≡◌, ◌≢◌, ◌⊎◌, ℕ, ◌+◌, ◌*◌, ◌<◌, ◌^◌, true, List, Ok, get_or, length};
ghost use Rattle.byteorder.specs.Endian.{little_bytes};
ghost use Rattle.guest_mem.specs.Memory.{GuestMemory, IsBytes, IsMemory, is_watched};
ghost use Rattle.guest_mem.specs.Accesses.{read_of, read_words_of, fetch_of, unless, with_bytes, write_of, write_refusal};
ghost use Rattle.guest_mem.specs.parts.Kept.{Agree, Alters, ChangesAlike, Keeps, SameMap};

/// What is read or fetched depends on the bytes of its range and their kinds, and on nothing else.
pub fn reads_agree()
    ensures number { (width : ℕ) (m n : GuestMemory) (a : ℕ) → Agree m n a width → read_of width n a ≡ read_of width m a }
    ensures words { (count : ℕ) (m n : GuestMemory) (a : ℕ) → Agree m n a (4 * count) → read_words_of n a count ≡ read_words_of m a count }
    ensures fetched { (m n : GuestMemory) (a : ℕ) → Agree m n a 4 → fetch_of n a ≡ fetch_of m a }
{}

/// A write is refused by the kinds and marks of memory alone, and puts the same over two memories that have one map.
pub fn writes_agree()
    ensures answer { (width : ℕ) (m n : GuestMemory) (a : ℕ) (new : List ℕ) → n.kinds ≡ m.kinds → n.marks ≡ m.marks →
        write_of width n a new ≡ unless (write_refusal width (length new) m a) (with_bytes n a new) }
    ensures bytes { (m n : GuestMemory) (a : ℕ) (new : List ℕ) → SameMap m n →
        ChangesAlike m n (with_bytes m a new) (with_bytes n a new) }
{}

/// A write alters no byte outside its range, no watched byte, none that isn't mapped as Data, no kind and no mark.
pub fn writes_keep()
    ensures keeps { (width : ℕ) (m : GuestMemory) (a : ℕ) (new : List ℕ) (n : GuestMemory) → write_of width m a new ≡ Ok n → Keeps m n }
    ensures alters { (width : ℕ) (m : GuestMemory) (a : ℕ) (new : List ℕ) (n : GuestMemory) → write_of width m a new ≡ Ok n → Alters a (length new) m n }
{}

/// What was written is read.
pub fn written_is_read()
    ensures { (width : ℕ) (m n : GuestMemory) (a v : ℕ) → 0 < width → length m.kinds ≡ length m.bytes → v < 256 ^ width →
        write_of width m a (little_bytes width v) ≡ Ok n → read_of width n a ≡ Ok v }
{}

/// What is kept is read and fetched as before, and keeping composes.
pub fn kept_is_read()
    ensures watched { (width : ℕ) (old new : GuestMemory) (a : ℕ) → Keeps old new →
        ((i : ℕ) → i < width → is_watched old (a + i) ≡ true) → read_of width new a ≡ read_of width old a }
    ensures fetched { (old new : GuestMemory) (a w : ℕ) → Keeps old new → fetch_of old a ≡ Ok w → fetch_of new a ≡ Ok w }
    ensures then { (old mid new : GuestMemory) → Keeps old mid → Keeps mid new → Keeps old new }
    ensures whole { (old new : GuestMemory) → Keeps old new → IsMemory old → IsMemory new }
{}

/// Bytes stay below 256, and numbers fit their width.
pub fn numbers_fit()
    ensures read { (width : ℕ) (m : GuestMemory) (a v : ℕ) → IsBytes m → read_of width m a ≡ Ok v → v < 256 ^ width }
    ensures fetched { (m : GuestMemory) (a v : ℕ) → IsBytes m → fetch_of m a ≡ Ok v → v < 2 ^ 32 }
    ensures written { (width : ℕ) (m : GuestMemory) (a : ℕ) (new : List ℕ) (n : GuestMemory) → IsBytes m →
        ((k : ℕ) → get_or new k 0 < 256) → write_of width m a new ≡ Ok n → IsBytes n }
{}
