//! The table by example. The words are those that GNU as makes of the texts, and the texts follow the Arm
//! manual's syntax.

use crate::checks::{holds_at, same_at};
use a32_isa::{decode, encode, print};
use std::test::Fail;

/// Each row, addressing form, shift and condition at least once.
const PRINTED: &str = "\
e0010002 and r0, r1, r2
e0110002 ands r0, r1, r2
e22430ff eor r3, r4, #255
e24dd008 sub sp, sp, #8
e2610000 rsb r0, r1, #0
e08cc009 add r12, r12, r9
e28fe004 add lr, pc, #4
e0a21003 adc r1, r2, r3
e0d21003 sbcs r1, r2, r3
e0e21003 rsc r1, r2, r3
e3100001 tst r0, #1
e1300001 teq r0, r1
e350000a cmp r0, #10
e1510312 cmp r1, r2, lsl r3
e1710002 cmn r1, r2
e1800181 orr r0, r0, r1, lsl #3
e3a00007 mov r0, #7
e1a0f00e mov pc, lr
e1b00001 movs r0, r1
e3c1000f bic r0, r1, #15
e3e00000 mvn r0, #0
e1f00001 mvns r0, r1
e1a00081 mov r0, r1, lsl #1
e1a00fa1 mov r0, r1, lsr #31
e1a00021 mov r0, r1, lsr #32
e1b000c1 movs r0, r1, asr #1
e1a00041 mov r0, r1, asr #32
e1a00261 mov r0, r1, ror #4
e1a00061 mov r0, r1, rrx
e1a00211 mov r0, r1, lsl r2
e1a00231 mov r0, r1, lsr r2
e1a00251 mov r0, r1, asr r2
e1a00271 mov r0, r1, ror r2
e0800312 add r0, r0, r2, lsl r3
e3a000ff mov r0, #255
e3a00eff mov r0, #4080
e3a004ff mov r0, #4278190080
e3a0010f mov r0, #3221225475
e3a002ff mov r0, #4026531855
e3a00104 mov r0, #4, 2
e3a00100 mov r0, #0, 2
e3a00f01 mov r0, #1, 30
e0000291 mul r0, r1, r2
e0100291 muls r0, r1, r2
e0203291 mla r0, r1, r2, r3
e0303291 mlas r0, r1, r2, r3
e0810392 umull r0, r1, r2, r3
e0910392 umulls r0, r1, r2, r3
e0a10392 umlal r0, r1, r2, r3
e0c10392 smull r0, r1, r2, r3
e0e10392 smlal r0, r1, r2, r3
e16f0f11 clz r0, r1
e3010234 movw r0, #4660
e34f1fff movt r1, #65535
e320f000 nop
e5910004 ldr r0, [r1, #4]
e5110004 ldr r0, [r1, #-4]
e5b10004 ldr r0, [r1, #4]!
e4910004 ldr r0, [r1], #4
e4110004 ldr r0, [r1], #-4
e5910000 ldr r0, [r1, #0]
e5110000 ldr r0, [r1, #-0]
e599f000 ldr pc, [r9, #0]
e51fc00c ldr r12, [pc, #-12]
e5810fff str r0, [r1, #4095]
e52d0004 str r0, [sp, #-4]!
e5d10001 ldrb r0, [r1, #1]
e5c10001 strb r0, [r1, #1]
e4cd0001 strb r0, [sp], #1
e7910002 ldr r0, [r1, r2]
e7110002 ldr r0, [r1, -r2]
e7910102 ldr r0, [r1, r2, lsl #2]
e7310022 ldr r0, [r1, -r2, lsr #32]!
e69102c2 ldr r0, [r1], r2, asr #5
e7910042 ldr r0, [r1, r2, asr #32]
e6010062 str r0, [r1], -r2, rrx
e7d103e2 ldrb r0, [r1, r2, ror #7]
e1d100b2 ldrh r0, [r1, #2]
e15100b0 ldrh r0, [r1, #-0]
e11100b2 ldrh r0, [r1, -r2]
e1e100b2 strh r0, [r1, #2]!
e0c100b2 strh r0, [r1], #2
e00100b2 strh r0, [r1], -r2
e1b100d2 ldrsb r0, [r1, r2]!
e1d101d2 ldrsb r0, [r1, #18]
e1510fff ldrsh r0, [r1, #-255]
e0d100f2 ldrsh r0, [r1], #2
e8bd8001 ldmia sp!, {r0, pc}
e9900006 ldmib r0, {r1, r2}
e8300006 ldmda r0!, {r1, r2}
e9100006 ldmdb r0, {r1, r2}
e8800001 stmia r0, {r0}
e9807fff stmib r0, {r0, r1, r2, r3, r4, r5, r6, r7, r8, r9, r10, r11, r12, sp, lr}
e8010030 stmda r1, {r4, r5}
e92d1000 stmdb sp!, {r12}
e92d4010 stmdb sp!, {r4, lr}
ea7fffff b #33554428
ea800000 b #-33554432
eb000000 bl #0
e12fff1e bx lr
e12fff33 blx r3
ef000000 svc #0
efffffff svc #16777215
02810001 addeq r0, r1, #1
13a00001 movne r0, #1
21b00001 movscs r0, r1
31500001 cmpcc r0, r1
40100291 mulsmi r0, r1, r2
516f0f11 clzpl r0, r1
6320f000 nopvs
7f000001 svcvc #1
8afffffe bhi #-8
9bfffffe blls #-8
a12fff1e bxge lr
b12fff33 blxlt r3
c5d10004 ldrbgt r0, [r1, #4]
d8910006 ldmiale r1, {r1, r2}
eafffffe b #-8
";

/// Words that no row has: a condition of the row that they break, or another instruction.
const REFUSED: &str = "\
f57ff05f e1000000 e1101000 e1a10000 e1e10000 e1b0f00e e08f0211 e1a0f211
e1a00f11 e1a0021f e1a00091 e00f0291 e0000f91 e000029f e0001291 e02f3291
e020f291 e0203f91 e020329f e0400291 e0800192 e08f0192 e080f192 e0810f92
e081039f e16fff11 e16f0f1f e1600f11 e16f0e11 e16f0f31 e300f000 e340f000
e320f001 e3200000 e360f000 e4b10004 e5bf0004 e5b11004 e49f0004 e4911004
e581f000 e5d1f000 e791000f e7910012 e1d1f0b0 e19100bf e19101b2 e0f100b2
e1f110b2 e1ff00b2 e0d110b2 e1c000d0 e1c000f0 e1000092 e8900000 e89f0001
e8b00001 e8808000 e8d00001 e12fff1f e12fff3f e12fff21 e12fef11 e10f0000
e129f000 e1000050 ec000000 ee000010
";

#[test]
fn words_have_their_texts(rt: HostRuntime) -> Result<(), Fail> {
    for row in PRINTED.lines() {
        let (digits, text) = row.split_once(' ').ok_or("a row without a text")?;
        let word = u32::from_str_radix(digits, 16)?;
        let i = decode(word).ok_or("no instruction")?;
        same_at(&rt, row, print(rt.alloc(), &i)?.as_slice(), text.as_bytes());
        same_at(&rt, row, encode(&i), word);
    }
    Ok(())
}

#[test]
fn other_words_have_none(rt: HostRuntime) -> Result<(), Fail> {
    for digits in REFUSED.split_ascii_whitespace() {
        let word = u32::from_str_radix(digits, 16)?;
        holds_at(&rt, digits, decode(word).is_none());
    }
    Ok(())
}
