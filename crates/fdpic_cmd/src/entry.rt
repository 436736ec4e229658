//! The program's one entry.

ghost use Rattle.std.specs.Prelude.{◌≡◌, ℕ, ◌≤◌, ◌⊎◌, List, Option, Some, None, IfSome, IsSome, IsSomeAnd};
ghost use Rattle.fd_base.specs.Fetched.{Files};
ghost use Rattle.fd_base.specs.Faults.{Rose};
ghost use Rattle.fd_base.specs.Grown.{Grew, GrewByPart};
ghost use Rattle.fdpic_cmd.specs.Ended.{kind_of, own, outside, Ends, Says, Writes, KeepsOthers, CameTo};
ghost use Rattle.fdpic_cmd.specs.Calls.{RanWithCalls};
ghost use Rattle.fdpic_cmd.specs.Meaning.{Means, target, is_at_once};
ghost use Rattle.fdpic_cmd.specs.Forms.{command_of};
ghost use Rattle.fdpic_cmd.specs.Answers.{Answers, KeepsFiles, ChangesIfDone, IsStatus, Reports, WordsMean, Yields, StaysUnless, at_once, IsEnded};
ghost use Rattle.fdpic_cmd.specs.declared.command.Command.TheVariants.{Link, Run};
ghost use Rattle.link_model.specs.declared.input.Mode.{Mode};
ghost use Rattle.fdpic_cmd.specs.Linked.{PutLinked};
ghost use Rattle.fdpic_cmd.specs.declared.status.Refusal.{Refusal};
ghost use Rattle.fdpic_cmd.specs.Outcome.{Outcome, refuses};

use crate::assemble::put_assembled;
use crate::bind::bind;
use crate::command::{Command, command_of};
use crate::job::bind_job;
use crate::line::line;
use crate::link::put_linked;
use crate::run::run_job;
use crate::show::{code, show};
use crate::status::{Failure, Status, failed, put_status};
use fd_base::{Bytes, Sink, SinkErr, Store};
use std::alloc::Global;

/// Puts a text on out by one put, and none where there is nothing.
fn write<O: Sink>(out: &mut O, text: &[u8]) -> Status
    ensures answer { Writes text.now (O.bytes out.old) (O.bytes out.new) (O.faults out.old) (O.faults out.new) result }
    ensures stays { result ≡ Status.StoreFault → O.bytes out.new ≡ O.bytes out.old }
    ensures count { O.faults out.old ≤ O.faults out.new }
{
    match out.put(text) {
        Ok(()) => Status::Done,
        Err(SinkErr::Failed) => Status::SinkFault,
        Err(SinkErr::Memory) => Status::Memory,
    }
}

/// Puts a text, or says why there is none.
fn say<O: Sink>(out: &mut O, text: Result<Bytes, Failure>) -> Status
    ensures answer { Says text (O.bytes out.old) (O.bytes out.new) (O.faults out.old) (O.faults out.new) result }
    ensures stays { result ≡ Status.StoreFault → O.bytes out.new ≡ O.bytes out.old }
    ensures count { O.faults out.old ≤ O.faults out.new }
{
    match text {
        Ok(text) => write(out, text.as_slice()),
        Err(e) => failed(e),
    }
}

/// Does a command, and writes its text or puts its file.
#[tactic(auto, using(crate::proofs::CommandEnds::said, crate::proofs::CommandEnds::has_put, crate::proofs::CommandEnds::changed_by_put, crate::proofs::ClaimParts::all_stay))]
fn perform<S: Store, O: Sink>(
    alloc: Global,
    command: &Command,
    store: &mut S,
    out: &mut O,
) -> Status
    ensures ends { let old = outside (S.files store.old) (S.faults store.old) (O.bytes out.old) (O.faults out.old) in
        let new = outside (S.files store.new) (S.faults store.new) (O.bytes out.new) (O.faults out.new) in
        Ends (is_at_once command.now) (Means command.now) old new result }
    ensures linked { (name : List ℕ) (mode : Mode) (libs inputs : List (List ℕ)) → command.now ≡ Link name mode libs inputs → result ≡ Status.Done
        → IfSome (S.files store.old) (PutLinked name mode libs inputs (S.files store.new)) }
    ensures stays { result ≡ Status.StoreFault → O.bytes out.new ≡ O.bytes out.old }
    ensures files { KeepsOthers (target command.now) (S.files store.old) (S.files store.new) }
    ensures unchanged { ChangesIfDone result (S.files store.old) (S.files store.new) (S.faults store.old) (S.faults store.new) }
    ensures store_count { S.faults store.old ≤ S.faults store.new }
    ensures out_count { O.faults out.old ≤ O.faults out.new }
{
    match command {
        Command::As { out: name, input } => {
            let done = put_assembled(alloc, store, name, input);
            put_status(done)
        }
        Command::Bind { file, text, data } => {
            let text = bind(alloc, store, file, *text, *data);
            say(out, text)
        }
        Command::BindJob { job } => {
            let text = bind_job(alloc, store, job);
            say(out, text)
        }
        Command::Code { file } => {
            let text = code(alloc, store, file);
            say(out, text)
        }
        Command::Link {
            out: name,
            mode,
            libs,
            inputs,
        } => {
            let done = put_linked(alloc, store, name, *mode, libs, inputs);
            put_status(done)
        }
        Command::Run { job } => run_job(alloc, store, job, out),
        Command::Show { file } => {
            let text = show(alloc, store, file);
            say(out, text)
        }
    }
}

/// Does what the words say.
#[tactic(auto, using(crate::proofs::ClaimParts::nothing_done, crate::proofs::ClaimParts::nothing_kept, crate::proofs::ClaimParts::all_stay))]
fn answer<S: Store, O: Sink>(alloc: Global, words: &[Bytes], store: &mut S, out: &mut O) -> Status
    ensures answer { let old = outside (S.files store.old) (S.faults store.old) (O.bytes out.old) (O.faults out.old) in
        let new = outside (S.files store.new) (S.faults store.new) (O.bytes out.new) (O.faults out.new) in
        Answers (command_of words.now) old new result }
    ensures untouched { command_of words.now ≡ None → (store.new ≡ store.old) × (out.new ≡ out.old) }
    ensures linked { (name : List ℕ) (mode : Mode) (libs inputs : List (List ℕ)) → command_of words.now ≡ Some (Link name mode libs inputs)
        → result ≡ Status.Done → IfSome (S.files store.old) (PutLinked name mode libs inputs (S.files store.new)) }
    ensures stays { result ≡ Status.StoreFault → O.bytes out.new ≡ O.bytes out.old }
    ensures files { KeepsFiles (command_of words.now) (S.files store.old) (S.files store.new) }
    ensures unchanged { ChangesIfDone result (S.files store.old) (S.files store.new) (S.faults store.old) (S.faults store.new) }
    ensures store_count { S.faults store.old ≤ S.faults store.new }
    ensures out_count { O.faults out.old ≤ O.faults out.new }
{
    match command_of(alloc, words) {
        Err(_) => Status::Memory,
        Ok(None) => Status::Words,
        Ok(Some(command)) => perform(alloc, &command, store, out),
    }
}

/// Puts the line of a status on err by one put. Want of memory for it takes the status's place.
#[tactic(auto, using(crate::proofs::ClaimParts::line_is))]
fn report<E: Sink>(alloc: Global, status: Status, err: &mut E) -> Status
    ensures line { Reports (E.bytes err.old) (E.bytes err.new) (E.faults err.old) (E.faults err.new) result }
    ensures status { IsStatus result status }
    ensures done { status ≡ Status.Done → result ≡ Status.Done }
    ensures count { E.faults err.old ≤ E.faults err.new }
{
    if let Status::Done = status {
        return Status::Done;
    }
    match line(alloc, &status) {
        Err(_) => Status::Memory,
        Ok(text) => match err.put(text.as_slice()) {
            Ok(()) => status,
            Err(SinkErr::Failed) => status,
            Err(SinkErr::Memory) => Status::Memory,
        },
    }
}

/// The program: does what the words say, and tells how it ended. Nothing is required.
pub fn top<S: Store, O: Sink, E: Sink>(
    alloc: Global,
    words: &[Bytes],
    store: &mut S,
    out: &mut O,
    err: &mut E,
) -> Status
    // The answer Words comes exactly where the words have no listed form. Then neither store nor out is called.
    ensures words { result ≡ Status.Words → command_of words.now ≡ None }
    ensures no_form { command_of words.now ≡ None → IsStatus result Status.Words }
    ensures untouched { command_of words.now ≡ None → (store.new ≡ store.old) × (out.new ≡ out.old) }
    // A fault comes only where it was counted.
    ensures store_fault { result ≡ Status.StoreFault → Rose (S.faults store.old) (S.faults store.new) }
    ensures sink_fault { result ≡ Status.SinkFault → Rose (O.faults out.old) (O.faults out.new) }
    // A refusal is what the command means.
    ensures refused { (r : Refusal) → result ≡ Status.Refused r
        → IfSome (S.files store.old) (λ told. WordsMean words.now told (refuses r)) }
    // What the command means is the answer, unless a fault was counted or memory was wanted.
    ensures exact { let old = outside (S.files store.old) (S.faults store.old) (O.bytes out.old) (O.faults out.old) in
        let new = outside (S.files store.new) (S.faults store.new) (O.bytes out.new) (O.faults out.new) in
        (told : Files) → old.files ≡ Some told → (o : Outcome) → WordsMean words.now told o
        → Yields o.status old new result }
    // A status of the command's own is what the command means: out grew by its text, and its file was put.
    ensures came { let old = outside (S.files store.old) (S.faults store.old) (O.bytes out.old) (O.faults out.old) in
        let new = outside (S.files store.new) (S.faults store.new) (O.bytes out.new) (O.faults out.new) in
        kind_of result ≡ own → IfSome old.files (CameTo (WordsMean words.now) old new result) }
    // Where the words are `run JOB`, out grew by the report of the run of the job in that file, and each call of its journal
    // arrives.
    ensures calls { kind_of result ≡ own → (file : List ℕ) → command_of words.now ≡ Some (Run file)
        → IfSome (S.files store.old) (RanWithCalls file (O.bytes out.old) (O.bytes out.new) result) }
    // Where the words are `link OUT MODE [lib=F].. IN..`, the file that was put is that of the linked object, and is read as it.
    ensures linked { (name : List ℕ) (mode : Mode) (libs inputs : List (List ℕ)) → command_of words.now ≡ Some (Link name mode libs inputs)
        → result ≡ Status.Done → IfSome (S.files store.old) (PutLinked name mode libs inputs (S.files store.new)) }
    // Whatever the status, out grew by a prefix of the command's text; with most by nothing.
    ensures part { (told : Files) → S.files store.old ≡ Some told → (o : Outcome) → WordsMean words.now told o
        → GrewByPart (O.bytes out.old) (O.bytes out.new) o.text }
    ensures silent { StaysUnless (at_once (command_of words.now)) result (O.bytes out.old) (O.bytes out.new) }
    // No command asks the store for anything after it has written.
    ensures stays { result ≡ Status.StoreFault → O.bytes out.new ≡ O.bytes out.old }
    // err grew by the line of the status.
    ensures line { Reports (E.bytes err.old) (E.bytes err.new) (E.faults err.old) (E.faults err.new) result }
    // No file changes but the one that the words name as an output. With a refusal that stays too; and it changes only where
    // the command is done, or a put failed, which was counted.
    ensures files { KeepsFiles (command_of words.now) (S.files store.old) (S.files store.new) }
    ensures refused_keeps { (r : Refusal) → result ≡ Status.Refused r → S.files store.new ≡ S.files store.old }
    ensures unchanged { ChangesIfDone result (S.files store.old) (S.files store.new) (S.faults store.old) (S.faults store.new) }
    // Where nothing speaks against it, the command is done, or memory was wanted.
    ensures complete { (told : Files) → S.files store.old ≡ Some told → IsSome (command_of words.now)
        → ((r : Refusal) → ¬ WordsMean words.now told (refuses r))
        → ¬ Rose (S.faults store.old) (S.faults store.new) → ¬ Rose (O.faults out.old) (O.faults out.new)
        → IsEnded result }
    ensures store_count { S.faults store.old ≤ S.faults store.new }
    ensures out_count { O.faults out.old ≤ O.faults out.new }
    ensures err_count { E.faults err.old ≤ E.faults err.new }
{
    let status = answer(alloc, words, store, out);
    report(alloc, status, err)
}
