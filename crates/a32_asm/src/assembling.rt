//! The relocatable file of a text.

ghost use Rattle.std.specs.Prelude.{◌<◌, ◌-◌, ◌^◌, length};
ghost use Rattle.a32_asm.specs.Text.{assembled};
ghost use Rattle.a32_asm.specs.Assembles.{Assembles};
ghost use Rattle.a32_asm.specs.parts.Answers.{Answers};

use crate::first_pass::first_pass;
use crate::object::object_of;
use crate::refusal::AsmErr;
use crate::second_pass::second_pass;
use elf_model::RelObject;
use elf_write::{WriteErr, write_rel_object};
use fd_base::Bytes;
use std::alloc::Global;

/// The object of a text.
#[tactic(auto, unfolding(crate::specs::Text::assembled))]
fn object_in(alloc: Global, text: &[u8]) -> Result<RelObject, AsmErr>
    requires { length text.now < 2 ^ 32 - 1 }
    ensures { Answers result (assembled text.now) }
{
    let passed = first_pass(alloc, text)?;
    let contents = second_pass(alloc, &passed)?;
    match object_of(alloc, passed.made(), &contents) {
        Ok(object) => Ok(object),
        Err(_) => Err(AsmErr::Memory),
    }
}

/// The relocatable file of a text. `Refused` comes exactly by the first line that is wrong: in the first pass over the
/// lines, or where none is, in the second. `TooLong` comes exactly where the file would have more than
/// `elf_write::MAX_FILE_BYTES` bytes, with how many it would have.
pub fn assemble(alloc: Global, text: &[u8]) -> Result<Bytes, AsmErr>
    requires { length text.now < 2 ^ 32 - 1 }
    ensures { Assembles text.now result }
{
    let object = object_in(alloc, text)?;
    match write_rel_object(alloc, &object) {
        Ok(bytes) => Ok(bytes),
        Err(WriteErr::TooLong(size)) => Err(AsmErr::TooLong(size as u32)),
        Err(WriteErr::Memory) => Err(AsmErr::Memory),
    }
}
