//! Kept sections: those that have memory at run time. They are numbered by their place among the kept.

ghost use Rattle.std.specs.Prelude.{◌≡◌, ◌≤◌, ◌<◌, ◌+◌, List, ℕ, OnOk, true};
ghost use Rattle.std.specs.List.{sum_by};
ghost use Rattle.elf_model.specs.Header.{e_shnum};
ghost use Rattle.elf_model.specs.Sections.{section_header, section_names};
ghost use Rattle.elf_model.specs.RelSections as spec;
ghost use Rattle.elf_read.specs.parts.Passes.{Passes, Reads, Gives};
ghost use Rattle.elf_read_rel.specs.parts.Headers.{HasHeaders};
ghost use Rattle.elf_read_rel.specs.parts.Kept.{HasKept, number_at, numbers_of};

use elf_model::constants::{
    MAX_SECTION_ALIGN, MAX_SECTION_BYTES, SHF_ALLOC, SHF_TLS, SHT_FINI_ARRAY, SHT_GROUP,
    SHT_INIT_ARRAY, SHT_NOBITS, SHT_NOTE, SHT_PROGBITS,
};
use elf_model::{ElfKind, SectionHeader};
use elf_read::{
    ReadErr, e_shnum, has_flag, passes_end, refuse, section_header, section_names, section_offset,
    string_at,
};
use std::alloc::Global;

/// Whether the section has memory at run time.
pub fn is_kept(h: &SectionHeader) -> bool
    ensures { result ≡ spec.is_kept h.now }
{
    has_flag(h.flags, SHF_ALLOC)
        && (h.kind == SHT_PROGBITS
            || h.kind == SHT_NOTE
            || h.kind == SHT_NOBITS
            || h.kind == SHT_INIT_ARRAY
            || h.kind == SHT_FINI_ARRAY)
}

/// Whether it is a section of zeros, which has no bytes in the file.
pub fn is_nobits(h: &SectionHeader) -> bool
    ensures { result ≡ spec.is_nobits h.now }
{
    h.kind == SHT_NOBITS
}

fn bytes_in_file(h: &SectionHeader) -> u32
    ensures { result ≡ spec.bytes_in_file h.now }
{
    if is_nobits(h) { 0 } else { h.size }
}

fn is_section_align(align: u32) -> bool
    ensures { result ≡ spec.is_section_align align }
{
    align == 0 || (align.is_power_of_two() && align <= MAX_SECTION_ALIGN)
}

fn is_section_range(bytes: &[u8], h: &SectionHeader) -> bool
    ensures { result ≡ spec.is_section_range bytes.now h.now }
{
    (is_nobits(h) || !passes_end(bytes, h.offset, h.size as usize)) && h.size <= MAX_SECTION_BYTES
}

/// The tests of a kept section, before which sections with so many bytes are kept. Gives their bytes together.
#[tactic(auto, unfolding(elf_model::specs::RelSections::kept_tests))]
fn check_kept(
    bytes: &[u8],
    i: u16,
    h: &SectionHeader,
    names: &[u8],
    so_far: u64,
) -> Result<u64, ReadErr>
    requires headers { HasHeaders bytes.now }
    requires there { i < e_shnum bytes.now }
    requires is_header { h.now ≡ section_header bytes.now i }
    requires are_names { names.now ≡ section_names bytes.now }
    requires is_sum { so_far ≡ sum_by spec.bytes_in_file (spec.kept_below bytes.now i) }
    requires small { so_far ≤ MAX_SECTION_BYTES }
    ensures { Gives result (spec.kept_tests bytes.now i)
        (λ all. (all ≡ spec.bytes_so_far bytes.now i) × (all ≤ MAX_SECTION_BYTES)) }
{
    let at = section_offset(bytes, i);
    refuse(has_flag(h.flags, SHF_TLS), ElfKind::Tls, at)?;
    let is_sound = is_section_align(h.align) && is_section_range(bytes, h);
    refuse(!is_sound, ElfKind::Table, at)?;
    let all = so_far + u64::from(bytes_in_file(h));
    refuse(u64::from(MAX_SECTION_BYTES) < all, ElfKind::TooMany, at)?;
    let has_no_name = string_at(names, h.name).is_none();
    refuse(has_no_name, ElfKind::NameRange, at)?;
    Ok(all)
}

/// The kept sections among the first headers.
#[derive(Drop)]
pub struct Kept {
    /// The number of each section that is kept, by the index of its header.
    numbers: Vec<Option<u32>>,
    /// How many there are.
    count: u32,
    /// How many bytes they have in the file.
    bytes: u64,
}

impl Kept {
    fn new(alloc: Global) -> Self
        ensures { (bytes : List ℕ) → HasKept bytes 0 result }
    {
        Kept {
            numbers: Vec::new(alloc),
            count: 0,
            bytes: 0,
        }
    }

    /// The tests of the next section. It gets a number where it is kept.
    #[tactic(auto, unfolding(elf_model::specs::RelSections::section_tests))]
    fn take(&mut self, bytes: &[u8], i: u16, names: &[u8]) -> Result<(), ReadErr>
        requires headers { HasHeaders bytes.now }
        requires there { i < e_shnum bytes.now }
        requires are_names { names.now ≡ section_names bytes.now }
        requires so_far { HasKept bytes.now i self.old }
        ensures tests { Passes result (spec.section_tests bytes.now i) }
        ensures kept { OnOk result (HasKept bytes.now (i + 1) self.new) }
    {
        let h = section_header(bytes, i);
        let at = section_offset(bytes, i);
        refuse(h.kind == SHT_GROUP, ElfKind::Group, at)?;
        if !is_kept(&h) {
            self.numbers.push(None)?;
            return Ok(());
        }
        self.bytes = check_kept(bytes, i, &h, names, self.bytes)?;
        self.numbers.push(Some(self.count))?;
        self.count += 1;
        Ok(())
    }
}

/// The tests of all sections, and the number of each that is kept, by the index of its header.
#[tactic(auto, unfolding(elf_model::specs::RelSections::all_section_tests))]
pub fn read_kept(alloc: Global, bytes: &[u8]) -> Result<Vec<Option<u32>>, ReadErr>
    requires { HasHeaders bytes.now }
    ensures { Reads (λ v. v.items) result (spec.all_section_tests bytes.now) (numbers_of bytes.now) }
{
    let names = section_names(bytes);
    let mut kept = Kept::new(alloc);
    for i in 0..e_shnum(bytes) {
        kept.take(bytes, i, names)?;
    }
    Ok(kept.numbers)
}

/// The number of the section of an index, where it is kept.
pub fn number_at(numbers: &[Option<u32>], i: u32) -> Option<u32>
    ensures { (bytes : List ℕ) → numbers.now ≡ numbers_of bytes → result ≡ number_at bytes i }
{
    match numbers.get(i as usize) {
        None => None,
        Some(number) => *number,
    }
}
