//! The files of the current folder, and the standard streams. They count faults and tell no content.

ghost use Rattle.std.specs.Prelude.{◌≡◌, ◌≤◌, length, IsOk, IsErrOf, None, OnOk, OnErr};
ghost use Rattle.std.specs.Io.KnownBytes.{Appends};
ghost use Rattle.fd_base.specs.Faults.{Rose};
ghost use Rattle.fd_base.specs.Grown.{SinkAnswers};
ghost use Rattle.fd_base.specs.parts.Host.{ReadAnswers};

use crate::name::Name;
use crate::seq::Bytes;
use crate::sink::{Sink, SinkErr};
use crate::store::{FetchErr, MAX_FILE, PutErr, Store};
use std::alloc::Global;
use std::fs;
use std::io::{ErrorKind, Read, Write};
use std::marker::Model;
use std::rt::Files;

/// How many bytes one read takes at most.
const PIECE: usize = 4096;

/// All bytes of a reader, where there are at most `MAX_FILE`; at most one more is read. A read that fails
/// is counted.
pub(crate) fn read_all<F: Read>(
    alloc: Global,
    file: &mut F,
    faults: &mut u64,
) -> Result<Bytes, FetchErr>
    ensures answer { ReadAnswers (F.remaining file.old) faults.old faults.new result }
    ensures count { faults.old ≤ faults.new }
{
    let most = MAX_FILE as usize + 1;
    let mut bytes = Bytes::new(alloc);
    let mut piece = [0u8; PIECE];
    while bytes.len() < most {
        let room = PIECE.min(most - bytes.len());
        match file.read(&mut piece[..room]) {
            Ok(0) => return Ok(bytes),
            Ok(n) => bytes.extend_from_slice(&piece[..n])?,
            Err(_) => {
                *faults = faults.saturating_add(1);
                return Err(FetchErr::Failed);
            }
        }
    }
    Err(FetchErr::TooLong(MAX_FILE + 1))
}

/// Puts all bytes into a writer, by as many writes as it takes. A write that fails or takes nothing is
/// counted.
#[tactic(auto, using(crate::proofs::Hosted::written_more))]
fn write_all<W: Write>(writer: &mut W, bytes: &[u8], faults: &mut u64) -> Result<(), SinkErr>
    ensures ok { OnOk result (Appends (W.contents writer.old) (W.contents writer.new) bytes.now) }
    ensures failed { OnErr result (Rose faults.old faults.new) }
    ensures memory { ¬ IsErrOf result SinkErr.Memory }
    ensures empty { length bytes.now ≡ 0 → IsOk result }
    ensures count { faults.old ≤ faults.new }
{
    let mut at = 0;
    while at < bytes.len() {
        match writer.write(&bytes[at..]) {
            Ok(n) if n > 0 => at += n,
            _ => {
                *faults = faults.saturating_add(1);
                return Err(SinkErr::Failed);
            }
        }
    }
    Ok(())
}

/// The files of the current folder, by the names as given.
#[derive(Drop)]
pub struct DirStore<R> {
    rt: R,
    faults: u64,
}

impl<R> Model for DirStore<R> {
    ghost use Rattle.std.specs.Prelude.{ℕ};

    ghost Value = { ℕ };

    ghost view = { λ s. s.faults };
}

impl<R> DirStore<R> {
    /// The files that a runtime reaches, with no fault so far. Contracts see the count of faults alone.
    pub fn new(rt: R) -> Self
        ensures { result ≡ 0 }
    {
        DirStore { rt, faults: 0 }
    }
}

impl<R: Files> Store for DirStore<R> {
    ghost use Rattle.std.specs.Prelude.{None};

    ghost files = { λ _. None };

    ghost faults = { λ s. s };

    /// None where the system says that there is no such file, and for a name that isn't UTF-8.
    fn fetch(&mut self, alloc: Global, name: &Name) -> Result<Option<Bytes>, FetchErr> {
        let Ok(path) = str::from_utf8(name.as_slice()) else {
            return Ok(None);
        };
        match fs::open(&self.rt, path) {
            Ok(mut file) => Ok(Some(read_all(alloc, &mut file, &mut self.faults)?)),
            Err(e) if e.kind() == ErrorKind::NotFound => Ok(None),
            Err(_) => {
                self.faults = self.faults.saturating_add(1);
                Err(FetchErr::Failed)
            }
        }
    }

    /// Fails, and counts it, also for a name that isn't UTF-8.
    fn put(&mut self, name: &Name, bytes: &[u8]) -> Result<(), PutErr> {
        let opened = match str::from_utf8(name.as_slice()) {
            Ok(path) => fs::create(&self.rt, path).ok(),
            Err(_) => None,
        };
        match opened {
            Some(mut file) => match write_all(&mut file, bytes, &mut self.faults) {
                Ok(()) => Ok(()),
                Err(_) => Err(PutErr::Failed),
            },
            None => {
                self.faults = self.faults.saturating_add(1);
                Err(PutErr::Failed)
            }
        }
    }
}

/// A standard stream: a writer, and the count of its faults.
#[derive(Drop)]
pub struct StdSink<W> {
    writer: W,
    faults: u64,
}

impl<W> Model for StdSink<W> {
    ghost use Rattle.std.specs.Prelude.{ℕ};

    ghost Value = { W × ℕ };

    ghost view = { λ s. (s.writer, s.faults) };
}

impl<W> StdSink<W> {
    /// What a writer takes, with no fault so far.
    pub fn new(writer: W) -> Self
        ensures { result ≡ (writer, 0) }
    {
        StdSink { writer, faults: 0 }
    }
}

impl<W: Write> Sink for StdSink<W> {
    ghost bytes = { λ _. None };

    ghost faults = { λ s. s.1 };

    fn put(&mut self, piece: &[u8]) -> Result<(), SinkErr>
        ensures count { self.old.1 ≤ self.new.1 }
        ensures empty { length piece.now ≡ 0 → IsOk result }
        ensures answer { SinkAnswers None None piece.now self.old.1 self.new.1 result }
        ensures written { OnOk result (Appends (W.contents self.old.0) (W.contents self.new.0) piece.now) }
    {
        write_all(&mut self.writer, piece, &mut self.faults)
    }
}
