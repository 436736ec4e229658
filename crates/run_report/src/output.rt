//! Lines put to a sink.

ghost use Rattle.std.specs.Prelude.{◌≤◌};
ghost use Rattle.run_model.specs.Report.{line_of, report_of};
ghost use Rattle.run_model.specs.declared.event.Event.TheVariants as event;
ghost use Rattle.run_report.specs.parts.PieceByPiece.{Puts};

use crate::call_line::{ROOM, put_arrive_line, put_enter_line};
use crate::put_event;
use elf_model::Func;
use fd_base::{Bytes, Sink, SinkErr};
use run_model::Event;
use std::alloc::Global;

/// Puts the line of an event by one put. It is built in a buffer, whatever that had.
#[tactic(auto, using(crate::proofs::ReportLines::part_by_nothing))]
fn put_built_line<O: Sink>(line: &mut Bytes, event: &Event, out: &mut O) -> Result<(), SinkErr>
    ensures count { O.faults out.old ≤ O.faults out.new }
    ensures answer { Puts (O.bytes out.old) (O.bytes out.new) (line_of event.now) (O.faults out.old) (O.faults out.new) result }
{
    line.truncate(0);
    put_event(line, event)?;
    out.put(line.as_slice())
}

/// Puts the line that a call has begun by one put.
fn put_enter<O: Sink>(
    step: u32,
    thread: u32,
    number: u32,
    slot: u32,
    out: &mut O,
) -> Result<(), SinkErr>
    ensures count { O.faults out.old ≤ O.faults out.new }
    ensures answer { Puts (O.bytes out.old) (O.bytes out.new) (line_of (event.Enter step thread number slot)) (O.faults out.old) (O.faults out.new) result }
{
    let mut text = [0; ROOM];
    let start = put_enter_line(&mut text, step, thread, number, slot);
    out.put(&text[start..])
}

/// Puts the line that a call has arrived by one put.
fn put_arrive<O: Sink>(step: u32, thread: u32, at: &Func, out: &mut O) -> Result<(), SinkErr>
    ensures count { O.faults out.old ≤ O.faults out.new }
    ensures answer { Puts (O.bytes out.old) (O.bytes out.new) (line_of (event.Arrive step thread at.now)) (O.faults out.old) (O.faults out.new) result }
{
    let mut text = [0; ROOM];
    let start = put_arrive_line(&mut text, step, thread, at);
    out.put(&text[start..])
}

/// Puts the line of an event by one put. The buffer is for lines that may be long.
fn put_line<O: Sink>(line: &mut Bytes, event: &Event, out: &mut O) -> Result<(), SinkErr>
    ensures count { O.faults out.old ≤ O.faults out.new }
    ensures answer { Puts (O.bytes out.old) (O.bytes out.new) (line_of event.now) (O.faults out.old) (O.faults out.new) result }
{
    match event {
        Event::Enter {
            step,
            thread,
            number,
            slot,
        } => put_enter(*step, *thread, *number, *slot, out),
        Event::Arrive { step, thread, at } => put_arrive(*step, *thread, at, out),
        _ => put_built_line(line, event, out),
    }
}

/// Puts the lines of events in order, each by one put. One buffer serves all of them, and a line of a call takes no memory.
pub fn put_report<O: Sink>(alloc: Global, events: &[Event], out: &mut O) -> Result<(), SinkErr>
    ensures count { O.faults out.old ≤ O.faults out.new }
    ensures answer { Puts (O.bytes out.old) (O.bytes out.new) (report_of events.now) (O.faults out.old) (O.faults out.new) result }
{
    let mut line = Bytes::new(alloc);
    for event in events {
        put_line(&mut line, event, out)?;
    }
    Ok(())
}
