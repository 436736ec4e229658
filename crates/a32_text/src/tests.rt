//! Statements by the words of their instructions (Arm ARM, DDI 0406C, A5 and A8.8), and refusals.

use crate::{AsmKind, InstrStatement, statement_of};
use a32_isa::encode;
use std::process::Abort;
use std::test::Fail;

fn has_word(rt: &impl Abort, text: &str, word: u32) {
    match statement_of(text.as_bytes()) {
        Ok(InstrStatement::Instr(i)) => assert_eq!(rt; encode(&i), word),
        _ => panic!(rt; "no instruction: {text}"),
    }
}

fn are_words(rt: &impl Abort, rows: &[(&str, u32)]) {
    for (text, word) in rows {
        has_word(rt, text, *word);
    }
}

fn is_refused(rt: &impl Abort, kind: AsmKind, text: &str) {
    match statement_of(text.as_bytes()) {
        Err(refused) => assert_eq!(rt; refused, kind),
        Ok(_) => panic!(rt; "taken: {text}"),
    }
}

fn are_refused(rt: &impl Abort, kind: AsmKind, texts: &[&str]) {
    for text in texts {
        is_refused(rt, kind, text);
    }
}

fn is_branch(rt: &impl Abort, text: &str, wanted: &[u8]) {
    match statement_of(text.as_bytes()) {
        Ok(
            InstrStatement::Branch {
                cond: 14,
                link: true,
                name,
            },
        ) => assert_eq!(rt; name, wanted),
        _ => panic!(rt; "no call: {text}"),
    }
}

fn is_literal(rt: &impl Abort, text: &str, wanted: &[u8]) {
    match statement_of(text.as_bytes()) {
        Ok(
            InstrStatement::Literal {
                cond: 1,
                d: 2,
                name,
            },
        ) => assert_eq!(rt; name, wanted),
        _ => panic!(rt; "no load: {text}"),
    }
}

#[test]
fn statements(rt: HostRuntime) -> Result<(), Fail> {
    are_words(
        &rt,
        &[
            ("add r0, r1, #1", 0xe281_0001),
            ("movs r0,r1 , lsl #2 @ times four", 0xe1b0_0101),
            ("cmpne r3, r4", 0x1153_0004),
            ("sub r13, sp, r2, asr ip", 0xe04d_dc52),
            ("mov r0, #0xff000000", 0xe3a0_04ff),
            ("mov r0, #4, 2", 0xe3a0_0104),
            ("mvn r1, r2, rrx", 0xe1e0_1062),
            ("mul r0, r1, r2", 0xe000_0291),
            ("mla r0, r1, r2, r3", 0xe020_3291),
            ("smlals r0, r1, r2, r3", 0xe0f1_0392),
            ("clz r0, r1", 0xe16f_0f11),
            ("movw r0, #0x1234", 0xe301_0234),
            ("movt r0, #65535", 0xe34f_0fff),
            ("nop", 0xe320_f000),
            ("ldr r0, [r1]", 0xe591_0000),
            ("ldr r0, [r1, #-0]", 0xe511_0000),
            ("str r0, [r1], #4", 0xe481_0004),
            ("ldrb r0, [r1, -r2, lsl #2]!", 0xe771_0102),
            ("ldrh r0, [r1, #2]", 0xe1d1_00b2),
            ("strh r0, [r1], -r2", 0xe001_00b2),
            ("ldmia r0!, {r1-r3, pc}", 0xe8b0_800e),
            ("push {r4, lr}", 0xe92d_4010),
            ("pop {r4, pc}", 0xe8bd_8010),
            ("bleq #-8", 0x0bff_fffe),
            ("bx lr", 0xe12f_ff1e),
            ("blx r3", 0xe12f_ff33),
            ("svc #1", 0xef00_0001),
        ],
    );
    is_branch(&rt, "bl .Lr0", b".Lr0");
    is_literal(&rt, "ldrne r2, table", b"table");
    are_refused(&rt, AsmKind::Mnemonic, &["addal r0, r1, r2", "nop!"]);
    are_refused(&rt, AsmKind::Operand, &["mov r0", "ldr r0, [r0, #5000]!"]);
    are_refused(&rt, AsmKind::Range, &["mov r0, r1, lsr #0", "b #2"]);
    Ok(())
}
