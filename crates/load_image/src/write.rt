//! Words written over bytes.

ghost use Rattle.std.specs.Prelude.{◌≡◌, ◌+◌, ◌-◌, ◌^◌, ◌<◌, ℕ, length, slice_index, All, vec_len};
ghost use Rattle.load_model.specs.Image.{byte_over};
ghost use Rattle.load_image.specs.parts.Bounds.{IsWordWhole};

use fd_base::put_word;
use load_model::LinkWord;

/// Writes the words that lie in the bytes from a link address on, the last one first: where several cover a byte, the
/// first of them stands.
pub fn write_words(bytes: &mut [u8], vaddr: u32, words: &[LinkWord])
    requires end { vaddr + length bytes.old < 2 ^ 32 }
    requires whole { All (IsWordWhole vaddr (length bytes.old)) words.now }
    ensures { (i : ℕ) → i < length bytes.old
        → slice_index bytes.new i ≡ byte_over words.now (λ v. slice_index bytes.old (v - vaddr)) (vaddr + i) }
{
    let end = vaddr + bytes.len() as u32;
    let mut left = words.len();
    while left > 0 {
        left -= 1;
        let word = words[left];
        if vaddr <= word.addr && word.addr < end {
            put_word(bytes, word.addr - vaddr, word.value);
        }
    }
}

/// Writes words over bytes from a link address on, which keep their number.
pub fn write_over(bytes: &mut Vec<u8>, vaddr: u32, words: &[LinkWord])
    requires end { vaddr + vec_len bytes.old < 2 ^ 32 }
    requires whole { All (IsWordWhole vaddr (vec_len bytes.old)) words.now }
    ensures bytes { (i : ℕ) → i < length bytes.old.items
        → slice_index bytes.new.items i ≡ byte_over words.now (λ v. slice_index bytes.old.items (v - vaddr)) (vaddr + i) }
    ensures len { length bytes.new.items ≡ length bytes.old.items }
{
    write_words(bytes, vaddr, words);
}
