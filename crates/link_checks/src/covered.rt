//! The bytes of a section that its relocations change.

ghost use Rattle.std.specs.Prelude.{◌≡◌, ℕ, ◌<◌, ◌≤◌, ◌+◌, ◌++◌, ◌∷◌, ◌||◌, false, [], List, length, get_or, IfOk};
ghost use Rattle.fd_base.specs.Ranges.{is_in};
ghost use Rattle.elf_model.specs.declared.object.Rel.{Rel};
ghost use Rattle.link_checks.specs.parts.Covered.{AreMarked, meets_any};

use elf_model::Rel;
use fd_base::Memory;
use link_words::is_idle;
use std::alloc::Global;

/// The bytes of a section, and whether some of its relocations change them.
#[derive(Drop)]
pub(crate) struct Covered {
    marks: Vec<bool>,
}

/// Marks the bytes of a word.
fn mark(marks: &mut [bool], first: usize)
    requires { first + 4 ≤ length marks.old }
    ensures { (at : ℕ) → at < length marks.old → get_or marks.new at false ≡ (is_in first 4 at || get_or marks.old at false) }
{
    for at in first..first + 4 {
        marks[at] = true;
    }
}

impl Covered {
    /// So many bytes, none of which is changed.
    pub(crate) fn new(alloc: Global, size: usize) -> Result<Covered, Memory>
        ensures size { IfOk result (λ covered. length covered.marks.items ≡ size) }
        ensures none { IfOk result (λ covered. AreMarked [] covered.marks.items) }
    {
        Ok(Covered {
            marks: vec![in alloc; false; size]?,
        })
    }

    /// Whether a relocation's word meets that of an earlier one, neither being idle.
    pub(crate) fn meets(&self, rel: &Rel) -> bool
        requires { rel.now.site + 4 ≤ length self.now.marks.items }
        ensures { (rels : List Rel) → AreMarked rels self.now.marks.items → result ≡ meets_any rel.now rels }
    {
        let first = rel.site as usize;
        let marks = self.marks.as_slice();
        !is_idle(rel.kind) && (marks[first] || marks[first + 3])
    }

    /// Marks the bytes that a relocation changes.
    pub(crate) fn put(&mut self, rel: &Rel)
        requires { rel.now.site + 4 ≤ length self.old.marks.items }
        ensures size { length self.new.marks.items ≡ length self.old.marks.items }
        ensures marked { (rels : List Rel) → AreMarked rels self.old.marks.items → AreMarked (rels ++ rel.now ∷ []) self.new.marks.items }
    {
        if !is_idle(rel.kind) {
            mark(&mut self.marks, rel.site as usize);
        }
    }
}
