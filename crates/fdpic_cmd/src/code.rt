//! The text of `code F`: the words of an object's executable segments.

ghost use Rattle.std.specs.Prelude.{◌≡◌, ◌+◌, ◌*◌, ◌<◌, ◌≤◌, ◌^◌, ◌++◌, ◌/◌, IfOk, OnOk, length, take, filter, All};
ghost use Rattle.std.specs.List.{flat_map};
ghost use Rattle.std.specs.Int.{bytes_high_first};
ghost use Rattle.elf_model.specs.Places.{is_executable};
ghost use Rattle.hex.specs.Hex.{encode_lower};
ghost use Rattle.elf_model.specs.Sound.{IsSized, IsSound};
ghost use Rattle.a32_isa.specs.Decoding.{decode_of};
ghost use Rattle.fdpic_cmd.specs.Code as spec;

use a32_isa::{decode, print};
use elf_model::constants::PF_X;
use elf_model::{Object, Segment};
use fd_base::{Bytes, Memory, put_hex8, word_in};
use std::alloc::Global;

/// Puts the eight digits of a word.
fn put_digits(out: &mut Bytes, word: u32) -> Result<(), Memory>
    ensures { OnOk result (out.new ≡ out.old ++ encode_lower (bytes_high_first 4 word)) }
{
    let mut digits = [0u8; 8];
    let _ = hex::encode_to_slice(word.to_be_bytes(), &mut digits);
    out.extend_from_slice(&digits)
}

/// Puts the text of a word, `.word` where it is no instruction.
fn put_instruction(alloc: Global, out: &mut Bytes, word: u32) -> Result<(), Memory>
    ensures { OnOk result (out.new ≡ out.old ++ spec.instruction_text (decode_of word)) }
{
    match decode(word) {
        None => out.extend_from_slice(b".word"),
        Some(instruction) => {
            let text = print(alloc, &instruction)?;
            out.extend_from_slice(text.as_slice())
        }
    }
}

#[tactic(auto, unfolding(crate::specs::Code::code_line))]
fn put_code_line(alloc: Global, out: &mut Bytes, addr: u32, word: u32) -> Result<(), Memory>
    ensures { OnOk result (out.new ≡ out.old ++ spec.code_line addr word) }
{
    put_hex8(out, addr)?;
    out.push(b' ')?;
    put_digits(out, word)?;
    out.push(b' ')?;
    put_instruction(alloc, out, word)?;
    out.push(b'\n')
}

/// Puts the lines of a segment's whole words.
#[tactic(auto, unfolding(crate::specs::Code::segment_code))]
fn put_segment_code(alloc: Global, out: &mut Bytes, s: &Segment) -> Result<(), Memory>
    requires { IsSized s.now }
    ensures { OnOk result (out.new ≡ out.old ++ spec.segment_code s.now) }
{
    let bytes = s.filled.as_slice();
    for k in 0..bytes.len() / 4 {
        let word = word_in(bytes, 4 * k);
        put_code_line(alloc, out, s.vaddr + 4 * k as u32, word)?;
    }
    Ok(())
}

/// The words of the executable segments, a line for each.
pub fn code_listing(alloc: Global, o: &Object) -> Result<Bytes, Memory>
    requires { IsSound o.now }
    ensures { IfOk result (λ text. text ≡ spec.code_listing o.entry.now) }
{
    let mut text = Bytes::new(alloc);
    put_code(alloc, &mut text, o.segments.as_slice())?;
    Ok(text)
}

fn put_code(alloc: Global, out: &mut Bytes, segments: &[Segment]) -> Result<(), Memory>
    requires { All IsSized segments.now }
    ensures { OnOk result (out.new ≡ out.old ++ flat_map spec.segment_code (filter is_executable segments.now)) }
{
    for segment in segments {
        if segment.is_executable() {
            put_segment_code(alloc, out, segment)?;
        }
    }
    Ok(())
}
