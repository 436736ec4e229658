//! What tests compare, and the bytes that they read.

use elf_model::ElfKind;
use elf_read_rel::{ReadErr, read_rel_object};
use std::alloc::{AllocError, Global};
use std::fmt::Display;
use std::process::Abort;

/// Stops the test where this doesn't hold of a row of a table.
pub fn holds_at(rt: &impl Abort, row: impl Display + Drop, fact: bool) {
    assert!(rt; fact, "at {row}");
}

/// The bytes of these words, of which some are changed: each by its offset in bytes.
pub fn file(alloc: Global, words: &[u32], changes: &[(usize, u32)]) -> Result<Vec<u8>, AllocError> {
    let mut bytes = Vec::new(alloc);
    let mut offset = 0usize;
    for word in words {
        let mut word = *word;
        for (place, changed) in changes {
            if *place == offset {
                word = *changed;
            }
        }
        bytes.extend_from_slice(&word.to_le_bytes())?;
        offset = offset.saturating_add(4);
    }
    Ok(bytes)
}

/// How bytes are refused. None where they are a relocatable file, are too long for these tests, or memory is wanted.
pub fn refusal(alloc: Global, bytes: &[u8]) -> Option<(ElfKind, u32)> {
    if bytes.len() > 10_000_000 {
        return None;
    }
    match read_rel_object(alloc, bytes) {
        Ok(_) => None,
        Err(ReadErr::Memory) => None,
        Err(ReadErr::Refused(r)) => Some((r.kind, r.at)),
    }
}
