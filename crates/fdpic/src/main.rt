//! The program `fdpic`: gives `top` the words, the files of the current folder and the standard streams.
#![tactic(auto)]

use fd_base::{Bytes, DirStore, StdSink};
use fdpic_cmd::top;
use std::io::ErrorKind;
use std::process::ExitCode;
use std::{env, io};

/// The words behind the program's name.
fn words(rt: &HostRuntime) -> io::Result<Vec<Bytes>> {
    let mut words = Vec::new(rt.alloc());
    let mut args = env::args(rt)?;
    let _ = args.next();
    for arg in args {
        words.push(Bytes::from_slice(rt.alloc(), arg.as_str().as_bytes())?)?;
    }
    Ok(words)
}

/// Ends with the status of `top`; with 1 where memory is wanted for the words, and with 2 where the system
/// refuses them.
fn main(rt: HostRuntime) -> ExitCode {
    match words(&rt) {
        Ok(words) => {
            let mut out = StdSink::new(rt.stdout());
            let mut err = StdSink::new(rt.stderr());
            let alloc = rt.alloc();
            let mut store = DirStore::new(rt);
            let status = top(alloc, words.as_slice(), &mut store, &mut out, &mut err);
            ExitCode::from(status.code())
        }
        Err(e) if e.kind() == ErrorKind::OutOfMemory => ExitCode::from(1),
        Err(_) => ExitCode::from(2),
    }
}
