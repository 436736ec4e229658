//! How many names a text may have, and how many relocations a section.

use crate::checks::holds_at;
use a32_asm::{AsmErr, AsmKind, AsmRefusal, assemble};
use std::alloc::{AllocError, Global};
use std::process::Abort;
use std::test::Fail;

/// A text of so many lines, each with another name.
fn names(alloc: Global, lines: u32) -> Result<Vec<u8>, AllocError> {
    let mut text = Vec::new(alloc);
    for k in 0..lines {
        text.extend_from_slice(b".global n")?;
        for unit in [10_000, 1_000, 100, 10, 1] {
            text.push(b'0'.wrapping_add((k / unit % 10) as u8))?;
        }
        text.push(b'\n')?;
    }
    Ok(text)
}

/// A text of so many lines, each with a relocation.
fn relocations(alloc: Global, lines: u32) -> Result<Vec<u8>, AllocError> {
    let mut text = Vec::new(alloc);
    for _ in 0..lines {
        text.extend_from_slice(b".word a\n")?;
    }
    Ok(text)
}

fn is_taken(rt: &impl Abort, alloc: Global, text: &[u8]) {
    assert!(rt; text.len() < 10_000_000, "too long");
    holds_at(rt, text.len(), assemble(alloc, text).is_ok());
}

fn is_out_of_range(rt: &impl Abort, alloc: Global, line: u32, text: &[u8]) {
    assert!(rt; text.len() < 10_000_000, "too long");
    let wanted = AsmRefusal {
        line,
        kind: AsmKind::Range,
    };
    match assemble(alloc, text) {
        Err(AsmErr::Refused(refusal)) => holds_at(rt, text.len(), refusal == wanted),
        _ => holds_at(rt, text.len(), false),
    }
}

#[test]
fn limits(rt: HostRuntime) -> Result<(), Fail> {
    let alloc = rt.alloc();
    is_taken(&rt, alloc, &names(alloc, 65_535)?);
    is_out_of_range(&rt, alloc, 65_536, &names(alloc, 65_536)?);
    is_taken(&rt, alloc, &relocations(alloc, 65_536)?);
    is_out_of_range(&rt, alloc, 65_537, &relocations(alloc, 65_537)?);
    Ok(())
}
