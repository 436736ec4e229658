//! The line of an event.

ghost use Rattle.std.specs.Prelude.{◌≡◌, ◌++◌, OnOk};
ghost use Rattle.run_model.specs.Report as spec;

use crate::text::{
    put_arrive, put_bind, put_close, put_counted, put_ending, put_enter, put_load, put_open,
    put_out, put_start, put_stop, put_sym,
};
use fd_base::{Bytes, Memory};
use run_model::Event;

/// Puts the text of an event, without the end of its line.
#[tactic(auto, unfolding(run_model::specs::Report::event_text))]
fn put_text(out: &mut Bytes, event: &Event) -> Result<(), Memory>
    ensures { OnOk result (out.new ≡ out.old ++ spec.event_text event.now) }
{
    match event {
        Event::Load { number, name } => put_load(out, *number, name),
        Event::Skipped { number } => put_counted(out, b"skipped init", *number),
        Event::Bind {
            step,
            number,
            slot,
            function,
        } => put_bind(out, *step, *number, *slot, function),
        Event::Out {
            step,
            thread,
            bytes,
        } => put_out(out, *step, *thread, bytes),
        Event::Open {
            step,
            thread,
            name,
            answer,
        } => put_open(out, *step, *thread, name, answer),
        Event::Sym {
            step,
            thread,
            handle,
            name,
            answer,
        } => put_sym(out, *step, *thread, *handle, name, answer),
        Event::Close {
            step,
            thread,
            handle,
            answer,
        } => put_close(out, *step, *thread, *handle, answer),
        Event::Gone { number } => put_counted(out, b"gone", *number),
        Event::Start {
            step,
            thread,
            answer,
        } => put_start(out, *step, *thread, answer),
        Event::Arrive { step, thread, at } => put_arrive(out, *step, *thread, at),
        Event::Enter {
            step,
            thread,
            number,
            slot,
        } => put_enter(out, *step, *thread, *number, *slot),
        Event::Done {
            step,
            thread,
            value,
        } => put_ending(out, b"done", *step, *thread, *value),
        Event::Exit {
            step,
            thread,
            value,
        } => put_ending(out, b"exit", *step, *thread, *value),
        Event::End { step } => put_counted(out, b"end", *step),
        Event::Stopped { step, thread, stop } => put_stop(out, *step, *thread, *stop),
    }
}

/// Puts the line of an event.
pub fn put_event(out: &mut Bytes, event: &Event) -> Result<(), Memory>
    ensures { OnOk result (out.new ≡ out.old ++ spec.line_of event.now) }
{
    put_text(out, event)?;
    out.push(b'\n')
}

/// Puts the lines of events in order.
pub fn put_events(out: &mut Bytes, events: &[Event]) -> Result<(), Memory>
    ensures { OnOk result (out.new ≡ out.old ++ spec.report_of events.now) }
{
    for event in events {
        put_event(out, event)?;
    }
    Ok(())
}
