//! Texts with bytes of their files (gABI, "Object Files"; Arm ARM, DDI 0406C, A5 and A8.8), and refusals.

use crate::{AsmErr, AsmKind, AsmRefusal, assemble};
use fd_base::Bytes;
use std::alloc::Global;
use std::process::Abort;
use std::test::Fail;

/// Where the bytes of the first section stand: behind the header.
const FIRST: usize = 52;
/// Where the header says how many section headers there are.
const SHNUM: usize = 48;

/// What is assembled of a text.
fn answer(rt: &impl Abort, alloc: Global, text: &[u8]) -> Result<Bytes, AsmErr> {
    assert!(rt; text.len() < 1000);
    assemble(alloc, text)
}

fn has_bytes(rt: &impl Abort, alloc: Global, text: &[u8], at: usize, bytes: &[u8]) {
    match answer(rt, alloc, text) {
        Ok(file) => match file.as_slice().get(at..) {
            Some(rest) => assert!(rt; rest.starts_with(bytes), "other bytes"),
            None => panic!(rt; "no bytes"),
        },
        Err(_) => panic!(rt; "refused"),
    }
}

fn is_taken(rt: &impl Abort, alloc: Global, text: &[u8]) {
    assert!(rt; answer(rt, alloc, text).is_ok(), "refused");
}

fn is_refused(rt: &impl Abort, alloc: Global, line: u32, kind: AsmKind, text: &[u8]) {
    match answer(rt, alloc, text) {
        Err(AsmErr::Refused(refusal)) => assert_eq!(rt; refusal, AsmRefusal { line, kind }),
        _ => panic!(rt; "not refused"),
    }
}

fn is_too_long(rt: &impl Abort, alloc: Global, text: &[u8], size: u32) {
    match answer(rt, alloc, text) {
        Err(AsmErr::TooLong(n)) => assert_eq!(rt; n, size),
        _ => panic!(rt; "not too long"),
    }
}

#[test]
fn files(rt: HostRuntime) -> Result<(), Fail> {
    let foo = ".text\n.global foo\n.type foo func\nfoo: mov r0, #7\n bx lr\n";
    let rows: [(&str, usize, &[u8]); 9] = [
        (foo, FIRST, &[7, 0, 0xa0, 0xe3, 0x1e, 0xff, 0x2f, 0xe1]),
        (foo, SHNUM, &[5, 0]),
        ("", SHNUM, &[4, 0]),
        (".bss\nx: .space 8", SHNUM, &[5, 0]),
        (
            "a: .byte 1\n.align 8\n.word 2",
            FIRST + 4,
            &[1, 0, 0, 0, 0, 0, 0, 0, 2, 0, 0, 0],
        ),
        ("a: nop\nb a", FIRST + 4, &[0xfd, 0xff, 0xff, 0xea]),
        ("a: nop\nb a\n.weak a", FIRST + 4, &[0xfe, 0xff, 0xff, 0xea]),
        ("ldr r0, a\na: .word 7", FIRST, &[4, 0, 0x1f, 0xe5]),
        (".asciz \"a@b\" @ c", FIRST, &[0x61, 0x40, 0x62, 0]),
    ];
    for (text, at, bytes) in rows {
        has_bytes(&rt, rt.alloc(), text.as_bytes(), at, bytes);
    }
    // a header, a null symbol, strings of 1 and 33 bytes, and 5 section headers
    is_too_long(
        &rt,
        rt.alloc(),
        b".space 4194304",
        4_194_304 + 52 + 16 + 1 + 33 + 200,
    );
    Ok(())
}

#[test]
fn refusals(rt: HostRuntime) -> Result<(), Fail> {
    let rows = [
        (1, AsmKind::Mnemonic, "movx r0, r1"),
        (2, AsmKind::Mnemonic, "ldr r0, a\nnop!"),
        (1, AsmKind::Operand, "mov r0"),
        (1, AsmKind::Operand, ".global a, b"),
        (3, AsmKind::Range, "\n\nmov r0, #0x101"),
        (1, AsmKind::Range, "b a\n.byte 1\na:"),
        (1, AsmKind::Range, ".space 4194305"),
        (1, AsmKind::Directive, ".foo"),
        (2, AsmKind::Directive, ".bss\n.word 1"),
        (5, AsmKind::LabelTwice, "\na:\n.word 5\n\na: nop"),
        (2, AsmKind::LabelTwice, "a:\na:"),
        (1, AsmKind::NoLabel, "ldr r0, a"),
        (4, AsmKind::NoLabel, ".data\na: .word 1\n.text\nldr r0, a"),
    ];
    for (line, kind, text) in rows {
        is_refused(&rt, rt.alloc(), line, kind, text.as_bytes());
    }
    is_refused(&rt, rt.alloc(), 1, AsmKind::LineLong, &[b'@'; 256]);
    is_refused(&rt, rt.alloc(), 1, AsmKind::LineLong, &[b'x'; 300]);
    let taken = [
        "mov r0, r1",
        ".global a",
        "mov r0, #0xff0",
        ".bss\n.space 1",
        "a:\nb:",
        "ldr r0, a\na:",
    ];
    for text in taken {
        is_taken(&rt, rt.alloc(), text.as_bytes());
    }
    is_taken(&rt, rt.alloc(), &[b'@'; 255]);
    Ok(())
}
