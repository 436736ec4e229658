//! The linker: each stage makes the next tests of a link and hands on what it found.

ghost use Rattle.std.specs.Prelude.{◌≡◌, All, Some, None, Ok, Err, IfOk};
ghost use Rattle.elf_model.specs.Object.{IsObject};
ghost use Rattle.elf_write.specs.ObjectFile.{object_file};
ghost use Rattle.elf_write.specs.TableSegment.{with_tables};
ghost use Rattle.link_model.specs.declared.error.LinkErr.TheVariants.{Refused};
ghost use Rattle.link_model.specs.declared.error.LinkRefusal.{LinkRefusal};
ghost use Rattle.link_model.specs.Object.{object_of};
ghost use Rattle.link_model.specs.Refusals.{refusal_of};
ghost use Rattle.link_writes.specs.Linked.{AreInputs, written_sizes};
ghost use Rattle.link_means.specs.Linked.{IsLinked, IsOfBytes};
ghost use Rattle.write_laws.specs.ObjectReadBack.{FitsObjectFields};
ghost use Rattle.fdpic_link.specs.parts.Links.{Links, IsAnswer};

use crate::sizes::{check_memory, check_needed, file_of};
use crate::tested::test_inputs;
use elf_model::RelObjects;
use fd_base::{Bytes, Name};
use link_means::linked_means;
use link_model::{Libs, LinkErr, Mode};
use link_object::linked_object;
use std::alloc::Global;

/// Links by the tests in their order.
fn linked(
    alloc: Global,
    mode: Mode,
    soname: &Name,
    inputs: &RelObjects,
    libs: &Libs,
) -> Result<Bytes, LinkErr>
    requires { AreInputs soname.now inputs.now libs.now }
    ensures links { Links mode soname.now inputs.now libs.now result }
    ensures fits { IfOk result (λ _. FitsObjectFields (object_of mode soname.now inputs.now libs.now)) }
{
    let tested = test_inputs(alloc, mode, inputs)?;
    check_needed(mode, libs)?;
    check_memory(&tested.linking.layout)?;
    let facts = tested.facts.as_slice();
    let entry = tested.entry as u32;
    let object = linked_object(alloc, soname, libs, &tested.linking, facts, entry)?;
    file_of(alloc, &object)
}

/// Links relocatable files over libraries. What is made bears the name `soname` where it is a shared object, and loading makes
/// each relocation of the inputs mean what its kind says.
/// `Refused` comes exactly where a test of the link fails, with the first that does.
pub fn link(
    alloc: Global,
    mode: Mode,
    soname: &Name,
    inputs: &RelObjects,
    libs: &Libs,
) -> Result<Bytes, LinkErr>
    requires { AreInputs soname.now inputs.now libs.now }
    ensures links { Links mode soname.now inputs.now libs.now result }
    ensures reads { IfOk result (λ bytes. IsObject bytes (with_tables (object_of mode soname.now inputs.now libs.now))) }
    ensures means { All IsOfBytes inputs.now
        → IfOk result (λ _. IsLinked mode soname.now inputs.now libs.now (object_of mode soname.now inputs.now libs.now)) }

    // Both answers are the only ones, unless memory is wanted.
    ensures only { refusal_of written_sizes mode soname.now inputs.now libs.now ≡ None
        → IsAnswer result (Ok (object_file (object_of mode soname.now inputs.now libs.now))) }
    ensures first { (r : LinkRefusal) → refusal_of written_sizes mode soname.now inputs.now libs.now ≡ Some r
        → IsAnswer result (Err (Refused r)) }
{
    linked_means();
    linked(alloc, mode, soname, inputs, libs)
}
