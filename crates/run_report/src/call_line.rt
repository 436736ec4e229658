//! The lines of a call, of which a run has most: built from the end on, and without taking memory.

ghost use Rattle.std.specs.Prelude.{◌≡◌, ◌+◌, ◌≤◌, ◌++◌, length, drop};
ghost use Rattle.fd_base.specs.Fields as fields;
ghost use Rattle.run_model.specs.Report as spec;
ghost use Rattle.run_model.specs.declared.event.Event.TheVariants as event;

use elf_model::Func;

/// The room of a line of a call: a word of up to 6 bytes, four fields of up to 11, and its end.
pub(crate) const ROOM: usize = 64;

/// Puts a word before what stands from `end` on, and answers where it starts.
fn put_word_before(text: &mut [u8], end: usize, word: &[u8]) -> usize
    requires room { length word.now ≤ end }
    requires inside { end ≤ length text.old }
    ensures start { result + length word.now ≡ end }
    ensures text { drop result text.new ≡ word.now ++ drop end text.old }
{
    let start = end - word.len();
    text[start..end].copy_from_slice(word);
    start
}

/// Puts a number and a space before it before what stands from `end` on, and answers where they start.
#[tactic(auto, using(crate::proofs::CallLines::decimal_short))]
fn put_decimal_before(text: &mut [u8], end: usize, n: u32) -> usize
    requires room { 11 ≤ end }
    requires inside { end ≤ length text.old }
    ensures start { result ≤ end }
    ensures short { end ≤ result + 11 }
    ensures text { drop result text.new ≡ fields.decimal_field n ++ drop end text.old }
{
    let start = itoa::write_digits(n as u64, text, end) - 1;
    text[start] = b' ';
    start
}

/// Puts the eight digits of a number with ` 0x` before what stands from `end` on, and answers where they start.
#[tactic(auto, unfolding(fd_base::specs::Texts::hex8))]
fn put_hex_before(text: &mut [u8], end: usize, n: u32) -> usize
    requires room { 11 ≤ end }
    requires inside { end ≤ length text.old }
    ensures start { result + 11 ≡ end }
    ensures text { drop result text.new ≡ fields.hex_field n ++ drop end text.old }
{
    let digits = end - 8;
    let _ = hex::encode_to_slice(n.to_be_bytes(), &mut text[digits..end]);
    put_word_before(text, digits, b" 0x")
}

/// Puts the line that a call has begun at the end of a text, and answers where it starts.
#[tactic(auto, unfolding(run_model::specs::Report::event_text))]
pub(crate) fn put_enter_line(
    text: &mut [u8],
    step: u32,
    thread: u32,
    number: u32,
    slot: u32,
) -> usize
    requires { length text.old ≡ 64 }
    ensures inside { result ≤ 64 }
    ensures line { drop result text.new ≡ spec.line_of (event.Enter step thread number slot) }
{
    text[ROOM - 1] = b'\n';
    let at = put_decimal_before(text, ROOM - 1, slot);
    let at = put_decimal_before(text, at, number);
    let at = put_decimal_before(text, at, thread);
    let at = put_decimal_before(text, at, step);
    put_word_before(text, at, b"enter")
}

/// Puts the line that a call has arrived at the end of a text, and answers where it starts.
#[tactic(auto, unfolding(run_model::specs::Report::event_text))]
pub(crate) fn put_arrive_line(text: &mut [u8], step: u32, thread: u32, at: &Func) -> usize
    requires { length text.old ≡ 64 }
    ensures inside { result ≤ 64 }
    ensures line { drop result text.new ≡ spec.line_of (event.Arrive step thread at.now) }
{
    text[ROOM - 1] = b'\n';
    let start = put_hex_before(text, ROOM - 1, at.value);
    let start = put_decimal_before(text, start, at.module);
    let start = put_decimal_before(text, start, thread);
    let start = put_decimal_before(text, start, step);
    put_word_before(text, start, b"arrive")
}
