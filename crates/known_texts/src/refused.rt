//! Texts that are refused, with the line and the cause; and texts that just aren't.

use crate::checks::{assembled, holds_at, refusal};
use a32_asm::AsmKind;
use a32_asm::AsmKind::{Directive, LabelTwice, Mnemonic, NoLabel, Operand, Range};
use std::test::Fail;

/// What the first word of a statement is.
const WORDS: [(&str, u32, AsmKind); 17] = [
    ("mov,r0,r1", 1, Operand),
    ("svc#0", 1, Mnemonic),
    ("b\"x\"", 1, Mnemonic),
    ("nop\r", 1, Mnemonic),
    ("a b: nop", 1, Mnemonic),
    ("1a: nop", 1, Mnemonic),
    (".bss\n frob", 2, Mnemonic),
    ("addal r0, r1, r2", 1, Mnemonic),
    ("ldrhs r0, [r1]", 1, Mnemonic),
    ("blo a", 1, Mnemonic),
    ("ldm r0, {r1}", 1, Mnemonic),
    ("tsts r0, r1", 1, Mnemonic),
    ("swi #0", 1, Mnemonic),
    (".word#1", 1, Directive),
    (".asciz\"x\"", 1, Directive),
    (".Lx", 1, Directive),
    (".bss\nmov r0", 2, Directive),
];

/// What stands behind it.
const FORMS: [(&str, u32, AsmKind); 34] = [
    ("mov r0, fp", 1, Operand),
    ("mov sl, r0", 1, Operand),
    ("add r0, r1", 1, Operand),
    ("ldr r0, [r1, #+4]", 1, Operand),
    ("mov r0, r1, lsl#3", 1, Operand),
    ("ldr r0, [ r1]", 1, Operand),
    ("push { r0}", 1, Operand),
    ("mov r0, # 1", 1, Operand),
    ("ldr r0, [r1, #- 1]", 1, Operand),
    ("ldmia r0 !, {r1}", 1, Operand),
    (".word a (GOT)", 1, Operand),
    (".word a +1", 1, Operand),
    (".global a, b", 1, Operand),
    (".byte 1, 2", 1, Operand),
    (".type a, func", 1, Operand),
    (".text 0", 1, Operand),
    ("ldrb r0, a", 1, Operand),
    ("str r0, a", 1, Operand),
    ("mov r0, #-1", 1, Operand),
    ("mov r0, #4294967296", 1, Operand),
    ("mov r0, #0X1", 1, Operand),
    ("mov r0, #00000000001", 1, Operand),
    (".word a+", 1, Operand),
    (".word a+1+2", 1, Operand),
    ("push {r1, r0}", 1, Operand),
    ("push {r1, r1}", 1, Operand),
    ("movs pc, #0x101", 1, Operand),
    ("ldr r0, [r0, #5000]!", 1, Operand),
    ("push {sp}", 1, Operand),
    ("stmdb sp!, {sp}", 1, Operand),
    ("mul pc, r1, r2", 1, Operand),
    (".bss\n.word 1, 2", 2, Directive),
    (".data\n.asciz \"a\"b\"", 2, Operand),
    (".data\n.asciz \"a", 2, Operand),
];

/// Numbers that don't fit, and places.
const NUMBERS: [(&str, u32, AsmKind); 26] = [
    (".align 3", 1, Range),
    (".align 0", 1, Range),
    (".align 8192", 1, Range),
    ("mov r0, #1, 3", 1, Range),
    ("mov r0, #1, 32", 1, Range),
    ("mov r0, #256, 2", 1, Range),
    ("b #2", 1, Range),
    ("b #33554432", 1, Range),
    ("b #-33554436", 1, Range),
    ("mov r0, r1, lsr #0", 1, Range),
    ("mov r0, r1, asr #0", 1, Range),
    ("mov r0, r1, ror #0", 1, Range),
    ("mov r0, r1, lsl #32", 1, Range),
    ("movw r0, #65536", 1, Range),
    ("svc #16777216", 1, Range),
    ("ldr r0, [r1, #4096]", 1, Range),
    ("ldrh r0, [r1, #256]", 1, Range),
    (".byte 256", 1, Range),
    (".byte 1\nnop", 2, Range),
    (".data\n.byte 1\n.word a", 3, Range),
    (".space 4194305", 1, Range),
    (".bss\n.space 4194304\n.space 1", 3, Range),
    (".byte 1\na: .byte 2\na: .byte 256", 3, Range),
    ("a:\na: nop", 2, LabelTwice),
    ("a: nop\n.data\na:", 3, LabelTwice),
    ("ldr r0, r1", 1, NoLabel),
];

/// What the second pass finds.
const SECOND: [(&str, u32, AsmKind); 8] = [
    ("ldr r0, a\n.data\na: .word 1", 1, NoLabel),
    ("ldr r0, a\nldr r0, b\nb:\nmov r0, #0x101", 4, Range),
    ("a: nop\n.space 4096\nldr r0, a", 3, Range),
    ("ldr r0, a\n.space 4100\na:", 1, Range),
    ("b a\n.byte 1\na:", 1, Range),
    (".type f func\n.type f object\n.byte 1\nf:", 1, Range),
    (".data\n.byte 1\nf:\n.type f func", 4, Range),
    (".type f func\nldr r0, a\n.byte 1\nf:", 1, Range),
];

/// Texts that are taken, each near to one that isn't.
const TAKEN: [&str; 38] = [
    "mov r0, #5, 0",
    "mov r0, #1, 30",
    "mov r0, r1, lsl #0",
    "ldr r0, [r1]!",
    "push {r4-r4}",
    "pusheq {r0}",
    ".rodata\nnop",
    ".data\nnop",
    ".asciz \"\"",
    ".asciz \" !~\"",
    ".text: nop",
    "b .",
    "b r0",
    ".word r1",
    "r0: ldr r1, r0",
    "a: ldr pc, a",
    "mov\tr0 ,r1",
    "  a:nop  @ b: c",
    "mov r0, #4278190080",
    "mov r0, #0xFF000000",
    "mov r0, #0000000001",
    "movw r0, #65535",
    "svc #16777215",
    "ldr r0, [r1, #4095]",
    "ldrh r0, [r1, #-255]",
    "b #33554428",
    "b #-33554432",
    "mov r0, r1, lsr #32",
    ".align 4096",
    ".byte 255",
    ".byte 1\n.align 4\nnop",
    ".bss\n.space 4194304",
    "a: nop\nb: nop",
    "a: nop\n.space 4080\nldr r0, a",
    "ldr r0, a\n.space 4096\n.space 3\na:",
    ".type f func\n.byte 1\n.align 4\nf:",
    ".global a\nb a\n.byte 1\na:",
    ".type f object\n.byte 1\nf:",
];

#[test]
fn texts_are_refused(rt: HostRuntime) -> Result<(), Fail> {
    for rows in [WORDS.as_slice(), &FORMS, &NUMBERS, &SECOND] {
        for (text, line, kind) in rows {
            let found = refusal(&rt, rt.alloc(), text);
            holds_at(&rt, text, found == Some((*line, *kind)));
        }
    }
    Ok(())
}

#[test]
fn texts_near_to_them_are_taken(rt: HostRuntime) -> Result<(), Fail> {
    for text in TAKEN {
        assembled(&rt, rt.alloc(), text)?;
    }
    Ok(())
}
