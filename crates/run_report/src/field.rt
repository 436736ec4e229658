//! What the lines of events have besides plain fields.

ghost use Rattle.std.specs.Prelude.{◌≡◌, ◌++◌, OnOk};
ghost use Rattle.fd_base.specs.Fields as fields;
ghost use Rattle.run_model.specs.Report as spec;

use elf_model::Func;
use fd_base::{Bytes, Memory, put_decimal_field, put_hex_field};

/// Puts a link address of a module.
pub fn put_func(out: &mut Bytes, f: &Func) -> Result<(), Memory>
    ensures { OnOk result (out.new ≡ out.old ++ spec.func_fields f.now) }
{
    put_decimal_field(out, f.module)?;
    put_hex_field(out, f.value)
}

/// Puts the function of a slot, or that there is none.
pub fn put_function(out: &mut Bytes, function: &Option<Func>) -> Result<(), Memory>
    ensures { OnOk result (out.new ≡ out.old ++ spec.function_fields function.now) }
{
    match function {
        None => out.extend_from_slice(b" none"),
        Some(f) => put_func(out, f),
    }
}

/// Puts the word of an event of a thread, the number of steps done, and the thread.
pub fn put_thread(out: &mut Bytes, word: &[u8], step: u32, thread: u32) -> Result<(), Memory>
    ensures { OnOk result (out.new ≡ out.old ++ spec.thread_fields word.now step thread) }
{
    out.extend_from_slice(word)?;
    put_decimal_field(out, step)?;
    put_decimal_field(out, thread)
}

/// Puts the code of a refusal.
fn put_refused(out: &mut Bytes, code: u32) -> Result<(), Memory>
    ensures { OnOk result (out.new ≡ out.old ++ spec.refused_fields code) }
{
    out.extend_from_slice(b" no")?;
    put_decimal_field(out, code)
}

/// Puts a number that a service answers, or the code of its refusal.
pub fn put_number_answer(out: &mut Bytes, answer: &Result<u32, u32>) -> Result<(), Memory>
    ensures { OnOk result (out.new ≡ out.old ++ spec.answer_fields fields.decimal_field answer.now) }
{
    match answer {
        Ok(n) => {
            out.extend_from_slice(b" ok")?;
            put_decimal_field(out, *n)
        }
        Err(code) => put_refused(out, *code),
    }
}

/// Puts an address that a service answers, or the code of its refusal.
pub fn put_address_answer(out: &mut Bytes, answer: &Result<u32, u32>) -> Result<(), Memory>
    ensures { OnOk result (out.new ≡ out.old ++ spec.answer_fields fields.hex_field answer.now) }
{
    match answer {
        Ok(addr) => {
            out.extend_from_slice(b" ok")?;
            put_hex_field(out, *addr)
        }
        Err(code) => put_refused(out, *code),
    }
}

/// Puts that a service is done, or the code of its refusal.
pub fn put_plain_answer(out: &mut Bytes, answer: &Result<(), u32>) -> Result<(), Memory>
    ensures { OnOk result (out.new ≡ out.old ++ spec.answer_fields spec.no_field answer.now) }
{
    match answer {
        Ok(()) => out.extend_from_slice(b" ok"),
        Err(code) => put_refused(out, *code),
    }
}
