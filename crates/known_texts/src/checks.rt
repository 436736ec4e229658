//! What tests compare.

use a32_asm::{AsmErr, AsmKind, assemble};
use elf_listing::listing_of;
use fd_base::Bytes;
use std::alloc::Global;
use std::fmt::Display;
use std::process::Abort;
use std::test::Fail;

/// Stops the test where this doesn't hold of a row of a table.
pub fn holds_at(rt: &impl Abort, row: impl Display + Drop, fact: bool) {
    assert!(rt; fact, "at {row}");
}

/// The file of a text.
pub fn assembled(rt: &impl Abort, alloc: Global, text: &str) -> Result<Bytes, Fail> {
    assert!(rt; text.len() < 100_000, "too long");
    match assemble(alloc, text.as_bytes()) {
        Ok(file) => Ok(file),
        Err(_) => panic!(rt; "refused: {text}"),
    }
}

/// The first four bytes of the first section, which stand behind the header.
pub fn first_bytes(file: &Bytes) -> &[u8] {
    file.as_slice().get(52..56).unwrap_or(&[])
}

/// How a text is refused. None where it isn't.
pub fn refusal(rt: &impl Abort, alloc: Global, text: &str) -> Option<(u32, AsmKind)> {
    assert!(rt; text.len() < 100_000, "too long");
    match assemble(alloc, text.as_bytes()) {
        Err(AsmErr::Refused(refusal)) => Some((refusal.line, refusal.kind)),
        _ => None,
    }
}

/// Whether this is the listing of the file of a text.
pub fn is_listed(rt: &impl Abort, alloc: Global, text: &str, listing: &str) -> Result<bool, Fail> {
    let file = assembled(rt, alloc, text)?;
    assert!(rt; file.len() < 10_000_000, "too long");
    match listing_of(alloc, file.as_slice()) {
        Ok(lines) => Ok(lines.as_slice() == listing.as_bytes()),
        Err(_) => Ok(false),
    }
}
