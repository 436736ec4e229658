//! `link OUT MODE [lib=F].. IN..`.

ghost use Rattle.std.specs.Prelude.{◌≡◌, ℕ, ◌<◌, ◌≤◌, [], ◌∷◌, get_or, All, IfOk, IfSome, OnOk};
ghost use Rattle.fd_base.specs.Fetched.{ChangesOnly};
ghost use Rattle.elf_model.specs.Object.{IsObject};
ghost use Rattle.elf_model.specs.RelSound.{IsNameText, IsRelSound};
ghost use Rattle.elf_write.specs.ObjectFile.{object_file};
ghost use Rattle.elf_write.specs.TableSegment.{with_tables};
ghost use Rattle.link_model.specs.Object.{needed_of, object_of};
ghost use Rattle.link_writes.specs.Linked.{AreInputs};
ghost use Rattle.link_means.specs.Linked.{IsLinked, IsOfBytes};
ghost use Rattle.fdpic_cmd.specs.Ended.{Makes, Puts, Reads};
ghost use Rattle.fdpic_cmd.specs.Link as spec;
ghost use Rattle.fdpic_cmd.specs.Linked.{IsLinkedFrom, PutLinked};
ghost use Rattle.fdpic_cmd.specs.declared.status.Failure.TheVariants.{Refused as Refuses};
ghost use Rattle.fdpic_cmd.specs.declared.status.Refusal.TheVariants.{Link};

use crate::command::Names;
use crate::files::{fetched, put};
use crate::status::{Failure, Refusal};
use elf_model::{RelObject, RelObjects};
use elf_read::{ReadErr, read_object};
use elf_read_rel::read_rel_object;
use fd_base::{Bytes, Memory, Name, Seq, Store};
use fdpic_link::link;
use link_model::{Lib, Libs, LinkErr, LinkRefusal, Mode};
use std::alloc::{AllocError, Global};

fn refused(refusal: LinkRefusal) -> Failure
    ensures { result ≡ Refuses (Link refusal) }
{
    Failure::Refused(Refusal::Link(refusal))
}

/// A number in 32 bits. No memory holds so many things that one has a greater number.
fn number(k: usize) -> Result<u32, Memory>
    ensures { IfOk result (λ number. number ≡ k) }
{
    match u32::try_from(k) {
        Ok(number) => Ok(number),
        Err(_) => Err(AllocError),
    }
}

/// Library `k`, in a file.
#[tactic(auto, using(crate::proofs::LinkedFiles::lib_there, crate::proofs::LinkedFiles::lib_refused, crate::proofs::LinkedFiles::missing))]
fn lib_in<S: Store>(alloc: Global, store: &mut S, k: u32, name: &Name) -> Result<Lib, Failure>
    ensures answer { Reads (λ told. spec.lib_in told (k, name.now)) (S.files store.old) (S.faults store.old) (S.faults store.new) result }
    ensures named { IfOk result (λ lib. All IsNameText (needed_of (lib ∷ []))) }
    ensures files { S.files store.new ≡ S.files store.old }
    ensures count { S.faults store.old ≤ S.faults store.new }
{
    let bytes = fetched(alloc, store, name)?;
    match read_object(alloc, bytes.as_slice()) {
        Ok(object) => Ok(Lib {
            name: name.copy(alloc)?,
            object,
        }),
        Err(ReadErr::Refused(_)) => Err(refused(LinkRefusal::LibElf(k))),
        Err(ReadErr::Memory) => Err(Failure::Memory),
    }
}

/// What is true of each byte. It does nothing.
fn are_bytes(bytes: &[u8])
    ensures { (i : ℕ) → get_or bytes.now i 0 < 256 }
{
    let _count = bytes.len();
}

/// Input `k`, in a file.
#[tactic(auto, using(crate::proofs::LinkedFiles::input_there, crate::proofs::LinkedFiles::input_bytes, crate::proofs::LinkedFiles::input_refused, crate::proofs::LinkedFiles::missing))]
fn input_in<S: Store>(
    alloc: Global,
    store: &mut S,
    k: u32,
    name: &Name,
) -> Result<RelObject, Failure>
    ensures answer { Reads (λ told. spec.input_in told (k, name.now)) (S.files store.old) (S.faults store.old) (S.faults store.new) result }
    ensures sound { IfOk result IsRelSound }
    ensures bytes { IfOk result IsOfBytes }
    ensures files { S.files store.new ≡ S.files store.old }
    ensures count { S.faults store.old ≤ S.faults store.new }
{
    let bytes = fetched(alloc, store, name)?;
    are_bytes(bytes.as_slice());
    match read_rel_object(alloc, bytes.as_slice()) {
        Ok(object) => Ok(object),
        Err(ReadErr::Refused(_)) => Err(refused(LinkRefusal::Elf(k))),
        Err(ReadErr::Memory) => Err(Failure::Memory),
    }
}

/// The libraries in files.
#[tactic(auto, using(crate::proofs::LinkedFiles::none_taken, crate::proofs::LinkedFiles::libs_more, crate::proofs::LinkedFiles::libs_all, crate::proofs::LinkedFiles::libs_stop, crate::proofs::LinkedFiles::named_more))]
fn libs_in<S: Store>(alloc: Global, store: &mut S, names: &[Name]) -> Result<Libs, Failure>
    ensures answer { Reads (spec.libs_in names.now) (S.files store.old) (S.faults store.old) (S.faults store.new) result }
    ensures named { IfOk result (λ libs. All IsNameText (needed_of libs)) }
    ensures files { S.files store.new ≡ S.files store.old }
    ensures count { S.faults store.old ≤ S.faults store.new }
{
    let mut libs = Seq::new(alloc);
    for (k, name) in names.iter().enumerate() {
        libs.push(lib_in(alloc, store, number(k)?, name)?)?;
    }
    Ok(libs)
}

/// The inputs in files.
#[tactic(auto, using(crate::proofs::LinkedFiles::none_taken, crate::proofs::LinkedFiles::inputs_more, crate::proofs::LinkedFiles::inputs_all, crate::proofs::LinkedFiles::inputs_stop))]
fn inputs_in<S: Store>(alloc: Global, store: &mut S, names: &[Name]) -> Result<RelObjects, Failure>
    ensures answer { Reads (spec.inputs_in names.now) (S.files store.old) (S.faults store.old) (S.faults store.new) result }
    ensures sound { IfOk result (All IsRelSound) }
    ensures bytes { IfOk result (All IsOfBytes) }
    ensures files { S.files store.new ≡ S.files store.old }
    ensures count { S.faults store.old ≤ S.faults store.new }
{
    let mut inputs = Seq::new(alloc);
    for (k, name) in names.iter().enumerate() {
        inputs.push(input_in(alloc, store, number(k)?, name)?)?;
    }
    Ok(inputs)
}

/// The file of what is linked.
#[tactic(auto, using(crate::proofs::LinkedFiles::linked_makes, crate::proofs::LinkedFiles::linked_refuses))]
fn linked(
    alloc: Global,
    mode: Mode,
    soname: &Name,
    libs: &Libs,
    inputs: &RelObjects,
) -> Result<Bytes, Failure>
    requires inputs { AreInputs soname.now inputs.now libs.now }
    requires bytes { All IsOfBytes inputs.now }
    ensures makes { Makes (spec.linked mode soname.now libs.now inputs.now) result }
    ensures file { IfOk result (λ bytes. bytes ≡ object_file (object_of mode soname.now inputs.now libs.now)) }
    ensures reads { IfOk result (λ bytes. IsObject bytes (with_tables (object_of mode soname.now inputs.now libs.now))) }
    ensures means { IfOk result (λ _. IsLinked mode soname.now inputs.now libs.now (object_of mode soname.now inputs.now libs.now)) }
{
    match link(alloc, mode, soname, inputs, libs) {
        Ok(bytes) => Ok(bytes),
        Err(LinkErr::Refused(refusal)) => Err(refused(refusal)),
        Err(LinkErr::Memory) => Err(Failure::Memory),
    }
}

/// The file of what files are linked to.
#[tactic(auto, using(crate::proofs::LinkedFiles::are_inputs, crate::proofs::LinkedFiles::linked_from))]
fn linked_file<S: Store>(
    alloc: Global,
    store: &mut S,
    out: &Name,
    mode: Mode,
    libs: &Names,
    inputs: &Names,
) -> Result<Bytes, Failure>
    ensures answer { Reads (spec.linked_file out.now mode libs.now inputs.now) (S.files store.old) (S.faults store.old) (S.faults store.new) result }
    ensures linked { IfOk result (λ bytes. IfSome (S.files store.old) (IsLinkedFrom out.now mode libs.now inputs.now bytes)) }
    ensures files { S.files store.new ≡ S.files store.old }
    ensures count { S.faults store.old ≤ S.faults store.new }
{
    let libs = libs_in(alloc, store, libs.as_slice())?;
    let inputs = inputs_in(alloc, store, inputs.as_slice())?;
    let soname = out.copy(alloc)?;
    linked(alloc, mode, &soname, &libs, &inputs)
}

/// Puts what files are linked to as a file. Where it isn't linked, all files stay.
#[tactic(auto, using(crate::proofs::LinkedFiles::linked_is_put))]
pub fn put_linked<S: Store>(
    alloc: Global,
    store: &mut S,
    out: &Name,
    mode: Mode,
    libs: &Names,
    inputs: &Names,
) -> Result<(), Failure>
    ensures answer { Puts (spec.LinkMeans out.now mode libs.now inputs.now) out.now (S.files store.old) (S.files store.new) (S.faults store.old) (S.faults store.new) result }
    ensures linked { OnOk result (IfSome (S.files store.old) (PutLinked out.now mode libs.now inputs.now (S.files store.new))) }
    ensures others { ChangesOnly out.now (S.files store.old) (S.files store.new) }
    ensures count { S.faults store.old ≤ S.faults store.new }
{
    let bytes = linked_file(alloc, store, out, mode, libs, inputs)?;
    put(store, out, bytes.as_slice())
}
