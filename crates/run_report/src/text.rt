//! The text of each kind of event, without the end of its line.

ghost use Rattle.std.specs.Prelude.{◌≡◌, ◌++◌, OnOk, codes};
ghost use Rattle.fd_base.specs.Fields as fields;
ghost use Rattle.run_model.specs.Report as spec;
ghost use Rattle.run_model.specs.declared.event.Event.TheVariants as event;

use crate::field::{
    put_address_answer, put_func, put_function, put_number_answer, put_plain_answer, put_thread,
};
use elf_model::Func;
use fd_base::{
    Bytes, Memory, Name, put_decimal_field, put_digits_field, put_hex_field, put_name_field,
    put_shown, put_word_field,
};
use run_model::Stop;

#[tactic(auto, unfolding(run_model::specs::Report::event_text))]
pub fn put_load(out: &mut Bytes, number: u32, name: &Name) -> Result<(), Memory>
    ensures { OnOk result (out.new ≡ out.old ++ spec.event_text (event.Load number name.now)) }
{
    out.extend_from_slice(b"load")?;
    put_decimal_field(out, number)?;
    out.push(b' ')?;
    put_shown(out, name)
}

#[tactic(auto, unfolding(run_model::specs::Report::event_text))]
pub fn put_bind(
    out: &mut Bytes,
    step: u32,
    number: u32,
    slot: u32,
    function: &Option<Func>,
) -> Result<(), Memory>
    ensures { OnOk result (out.new ≡ out.old ++ spec.event_text (event.Bind step number slot function.now)) }
{
    out.extend_from_slice(b"bind")?;
    put_decimal_field(out, step)?;
    put_decimal_field(out, number)?;
    put_decimal_field(out, slot)?;
    put_function(out, function)
}

#[tactic(auto, unfolding(run_model::specs::Report::event_text))]
pub fn put_out(out: &mut Bytes, step: u32, thread: u32, bytes: &Bytes) -> Result<(), Memory>
    ensures { OnOk result (out.new ≡ out.old ++ spec.event_text (event.Out step thread bytes.now)) }
{
    put_thread(out, b"out", step, thread)?;
    put_digits_field(out, bytes.as_slice())
}

#[tactic(auto, unfolding(run_model::specs::Report::event_text))]
pub fn put_open(
    out: &mut Bytes,
    step: u32,
    thread: u32,
    name: &Option<Name>,
    answer: &Result<u32, u32>,
) -> Result<(), Memory>
    ensures { OnOk result (out.new ≡ out.old ++ spec.event_text (event.Open step thread name.now answer.now)) }
{
    put_thread(out, b"open", step, thread)?;
    put_name_field(out, name)?;
    put_number_answer(out, answer)
}

#[tactic(auto, unfolding(run_model::specs::Report::event_text))]
pub fn put_sym(
    out: &mut Bytes,
    step: u32,
    thread: u32,
    handle: u32,
    name: &Option<Name>,
    answer: &Result<u32, u32>,
) -> Result<(), Memory>
    ensures { OnOk result (out.new ≡ out.old ++ spec.event_text (event.Sym step thread handle name.now answer.now)) }
{
    put_thread(out, b"sym", step, thread)?;
    put_decimal_field(out, handle)?;
    put_name_field(out, name)?;
    put_address_answer(out, answer)
}

#[tactic(auto, unfolding(run_model::specs::Report::event_text))]
pub fn put_close(
    out: &mut Bytes,
    step: u32,
    thread: u32,
    handle: u32,
    answer: &Result<(), u32>,
) -> Result<(), Memory>
    ensures { OnOk result (out.new ≡ out.old ++ spec.event_text (event.Close step thread handle answer.now)) }
{
    put_thread(out, b"close", step, thread)?;
    put_decimal_field(out, handle)?;
    put_plain_answer(out, answer)
}

#[tactic(auto, unfolding(run_model::specs::Report::event_text))]
pub fn put_start(
    out: &mut Bytes,
    step: u32,
    thread: u32,
    answer: &Result<u32, u32>,
) -> Result<(), Memory>
    ensures { OnOk result (out.new ≡ out.old ++ spec.event_text (event.Start step thread answer.now)) }
{
    put_thread(out, b"start", step, thread)?;
    put_number_answer(out, answer)
}

#[tactic(auto, unfolding(run_model::specs::Report::event_text))]
pub fn put_arrive(out: &mut Bytes, step: u32, thread: u32, at: &Func) -> Result<(), Memory>
    ensures { OnOk result (out.new ≡ out.old ++ spec.event_text (event.Arrive step thread at.now)) }
{
    put_thread(out, b"arrive", step, thread)?;
    put_func(out, at)
}

#[tactic(auto, unfolding(run_model::specs::Report::event_text))]
pub fn put_enter(
    out: &mut Bytes,
    step: u32,
    thread: u32,
    number: u32,
    slot: u32,
) -> Result<(), Memory>
    ensures { OnOk result (out.new ≡ out.old ++ spec.event_text (event.Enter step thread number slot)) }
{
    put_thread(out, b"enter", step, thread)?;
    put_decimal_field(out, number)?;
    put_decimal_field(out, slot)
}

/// Puts a word and a number.
pub fn put_counted(out: &mut Bytes, word: &[u8], n: u32) -> Result<(), Memory>
    ensures { OnOk result (out.new ≡ out.old ++ (word.now ++ fields.decimal_field n)) }
{
    out.extend_from_slice(word)?;
    put_decimal_field(out, n)
}

/// Puts how a thread or the process ends: a word and a value.
pub fn put_ending(
    out: &mut Bytes,
    word: &[u8],
    step: u32,
    thread: u32,
    value: u32,
) -> Result<(), Memory>
    ensures { OnOk result (out.new ≡ out.old ++ (spec.thread_fields word.now step thread ++ fields.decimal_field value)) }
{
    put_thread(out, word, step, thread)?;
    put_decimal_field(out, value)
}

/// Puts a stop with the address or the word that shows it.
fn put_stop_at(out: &mut Bytes, step: u32, thread: u32, word: &[u8], n: u32) -> Result<(), Memory>
    ensures { OnOk result (out.new ≡ out.old ++ (spec.stop_fields step thread word.now ++ fields.hex_field n)) }
{
    put_thread(out, b"stop", step, thread)?;
    put_word_field(out, word)?;
    put_hex_field(out, n)
}

/// Puts a stop by a service that there isn't.
fn put_stop_service(out: &mut Bytes, step: u32, thread: u32, number: u32) -> Result<(), Memory>
    ensures { OnOk result (out.new ≡ out.old ++ (spec.stop_fields step thread (codes "service") ++ fields.decimal_field number)) }
{
    put_thread(out, b"stop", step, thread)?;
    put_word_field(out, b"service")?;
    put_decimal_field(out, number)
}

/// Puts a stop of the resolver.
fn put_stop_resolve(out: &mut Bytes, step: u32, thread: u32) -> Result<(), Memory>
    ensures { OnOk result (out.new ≡ out.old ++ spec.stop_fields step thread (codes "resolve")) }
{
    put_thread(out, b"stop", step, thread)?;
    put_word_field(out, b"resolve")
}

#[tactic(auto, unfolding(run_model::specs::Report::stop_text))]
pub fn put_stop(out: &mut Bytes, step: u32, thread: u32, stop: Stop) -> Result<(), Memory>
    ensures { OnOk result (out.new ≡ out.old ++ spec.stop_text step thread stop) }
{
    match stop {
        Stop::Stray(addr) => put_stop_at(out, step, thread, b"stray", addr),
        Stop::Fault(addr) => put_stop_at(out, step, thread, b"fault", addr),
        Stop::Undefined(word) => put_stop_at(out, step, thread, b"undefined", word),
        Stop::Unaligned(addr) => put_stop_at(out, step, thread, b"unaligned", addr),
        Stop::Service(number) => put_stop_service(out, step, thread, number),
        Stop::Resolve => put_stop_resolve(out, step, thread),
        Stop::Limit => put_counted(out, b"limit", step),
    }
}
