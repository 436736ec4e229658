//! Steps by example. What each leaves was worked out from the pseudocode of the Arm manual (DDI 0406C), and the words
//! are those that GNU as makes of the texts.

ghost use Rattle.std.specs.Prelude.{◌≡◌, ◌+◌, ◌≤◌, ℕ, Some, None, IfOk, length};
ghost use Rattle.guest_mem.specs.Memory.{HaveKind, kind_at};

use crate::checks::{holds_at, same_at};
use a32_machine::{Cpu, StepEnd, StepStop, step};
use fd_base::Memory;
use guest_mem::{Guest, MemKind};
use std::alloc::Global;
use std::test::Fail;

/// A row: the word, what is given, and behind `>` what is left where it is another. `rN` is a register, `mA` the word
/// at A, and `f` the flags N, Z, C and V as a number of four bits; r15 is given as 0x1000 and moves on by 4. All
/// numbers but those of registers are hexadecimal. A stop changes nothing.
const ROWS: &str = "\
e0910002 r1=ffffffff r2=1 > f=6 ; adds r0, r1, r2
e1b00021 r1=80000000 > f=6 ; movs r0, r1, lsr #32
e1b000c1 r1=80000000 > r0=c0000000 f=8 ; movs r0, r1, asr #1
e8bd8001 r13=2000 m2000=5 m2004=1002 > unaligned=1002 ; pop {r0, pc}
e881000c r1=8000c r2=1 r3=2 m8000c=7 > stray=80010 m8000c=7 ; stm r1, {r2, r3}
e0010002 r1=ff00ff00 r2=ff00ff0 f=f > r0=f000f00 ; and r0, r1, r2
e0110002 r1=ff00ff00 r2=ff00ff f=2 > f=6 ; ands r0, r1, r2
e2110102 r1=ffffffff f=1 > r0=80000000 f=b ; ands r0, r1, #0x80000000
e0310002 r1=ff00ff00 r2=ff00ff f=3 > r0=ffffffff f=b ; eors r0, r1, r2
e0310001 r1=5 f=1 > f=5 ; eors r0, r1, r1
e0510002 r1=5 r2=5 > f=6 ; subs r0, r1, r2
e0510002 r1=5 r2=6 f=2 > r0=ffffffff f=8 ; subs r0, r1, r2
e0510002 r1=80000000 r2=1 > r0=7fffffff f=3 ; subs r0, r1, r2
e2710000 r1=1 f=2 > r0=ffffffff f=8 ; rsbs r0, r1, #0
e2710000 r1=80000000 > r0=80000000 f=9 ; rsbs r0, r1, #0
e0810002 r1=7fffffff r2=1 f=4 > r0=80000000 ; add r0, r1, r2
e0910002 r1=7fffffff r2=1 > r0=80000000 f=9 ; adds r0, r1, r2
e0910002 r1=80000000 r2=80000000 > f=7 ; adds r0, r1, r2
e0b10002 r1=ffffffff r2=0 f=2 > f=6 ; adcs r0, r1, r2
e0b10002 r1=1 r2=2 f=0 > r0=3 ; adcs r0, r1, r2
e0a10002 r1=1 r2=2 f=2 > r0=4 ; adc r0, r1, r2
e0d10002 r1=5 r2=5 f=0 > r0=ffffffff f=8 ; sbcs r0, r1, r2
e0d10002 r1=5 r2=5 f=2 > f=6 ; sbcs r0, r1, r2
e0d10002 r1=80000000 r2=0 f=0 > r0=7fffffff f=3 ; sbcs r0, r1, r2
e0f10002 r1=2 r2=1 f=2 > r0=ffffffff f=8 ; rscs r0, r1, r2
e0f10002 r1=2 r2=2 f=0 > r0=ffffffff f=8 ; rscs r0, r1, r2
e1110002 r1=f0 r2=f f=b > f=7 ; tst r1, r2
e1110082 r1=ffffffff r2=c0000000 f=0 > f=a ; tst r1, r2, lsl #1
e1310002 r1=80000001 r2=1 f=3 > f=b ; teq r1, r2
e351000a r1=a f=8 > f=6 ; cmp r1, #10
e351000a r1=9 f=2 > f=8 ; cmp r1, #10
e1510002 r1=7fffffff r2=ffffffff > f=9 ; cmp r1, r2
e1710002 r1=ffffffff r2=1 > f=6 ; cmn r1, r2
e1710002 r1=7fffffff r2=1 > f=9 ; cmn r1, r2
e1910002 r1=80000000 r2=1 f=3 > r0=80000001 f=b ; orrs r0, r1, r2
e1a00001 r1=abcdef01 f=a > r0=abcdef01 ; mov r0, r1
e3b00000 r0=9 f=b > r0=0 f=7 ; movs r0, #0
e1d10002 r1=ffff r2=ff00 f=2 > r0=ff ; bics r0, r1, r2
e1f00001 r1=ffffffff f=2 > f=6 ; mvns r0, r1
e3e00000 > r0=ffffffff ; mvn r0, #0
e3a004ff f=0 > r0=ff000000 ; mov r0, #0xff000000
e3b004ff f=0 > r0=ff000000 f=a ; movs r0, #0xff000000
e3b000ff f=2 > r0=ff ; movs r0, #255
e3b00fff f=2 > r0=3fc f=0 ; movs r0, #0x3fc
e28fe004 > r14=100c ; add lr, pc, #4
e08f0101 r1=3 > r0=1014 ; add r0, pc, r1, lsl #2
e1a0f00e r14=1ffc > r15=1ffc ; mov pc, lr
e1a0f00e r14=1ffe > unaligned=1ffe ; mov pc, lr
e241f001 r1=2001 > r15=2000 ; sub pc, r1, #1
e1b00081 r1=80000001 > r0=2 f=2 ; movs r0, r1, lsl #1
e1b00f81 r1=3 > r0=80000000 f=a ; movs r0, r1, lsl #31
e1b00f81 r1=1 f=2 > r0=80000000 f=8 ; movs r0, r1, lsl #31
e1b00001 r1=80000001 f=2 > r0=80000001 f=a ; movs r0, r1
e1b000a1 r1=80000001 > r0=40000000 f=2 ; movs r0, r1, lsr #1
e1b00fa1 r1=c0000000 > r0=1 f=2 ; movs r0, r1, lsr #31
e1b00021 r1=7fffffff f=2 > f=4 ; movs r0, r1, lsr #32
e1b00fc1 r1=c0000000 > r0=ffffffff f=a ; movs r0, r1, asr #31
e1b00041 r1=80000000 > r0=ffffffff f=a ; movs r0, r1, asr #32
e1b00041 r1=7fffffff f=2 > f=4 ; movs r0, r1, asr #32
e1b000e1 r1=80000001 > r0=c0000000 f=a ; movs r0, r1, ror #1
e1b00fe1 r1=40000000 f=2 > r0=80000000 f=a ; movs r0, r1, ror #31
e1b00061 r1=1 f=0 > f=6 ; movs r0, r1, rrx
e1b00061 r1=2 f=2 > r0=80000001 f=8 ; movs r0, r1, rrx
e1b00211 r1=80000001 r2=0 f=2 > r0=80000001 f=a ; movs r0, r1, lsl r2
e1b00211 r1=80000001 r2=1 > r0=2 f=2 ; movs r0, r1, lsl r2
e1b00211 r1=80000001 r2=1f > r0=80000000 f=8 ; movs r0, r1, lsl r2
e1b00211 r1=80000001 r2=20 > f=6 ; movs r0, r1, lsl r2
e1b00211 r1=ffffffff r2=21 f=2 > f=4 ; movs r0, r1, lsl r2
e1b00211 r1=80000001 r2=100 f=2 > r0=80000001 f=a ; movs r0, r1, lsl r2
e1b00231 r1=80000001 r2=0 f=2 > r0=80000001 f=a ; movs r0, r1, lsr r2
e1b00231 r1=80000001 r2=1 > r0=40000000 f=2 ; movs r0, r1, lsr r2
e1b00231 r1=80000001 r2=1f f=2 > r0=1 f=0 ; movs r0, r1, lsr r2
e1b00231 r1=80000001 r2=20 > f=6 ; movs r0, r1, lsr r2
e1b00231 r1=ffffffff r2=21 f=2 > f=4 ; movs r0, r1, lsr r2
e1b00251 r1=80000001 r2=0 > r0=80000001 f=8 ; movs r0, r1, asr r2
e1b00251 r1=80000001 r2=1 > r0=c0000000 f=a ; movs r0, r1, asr r2
e1b00251 r1=80000001 r2=1f f=2 > r0=ffffffff f=8 ; movs r0, r1, asr r2
e1b00251 r1=80000001 r2=20 > r0=ffffffff f=a ; movs r0, r1, asr r2
e1b00251 r1=80000001 r2=21 > r0=ffffffff f=a ; movs r0, r1, asr r2
e1b00251 r1=7fffffff r2=ff f=2 > f=4 ; movs r0, r1, asr r2
e1b00271 r1=80000001 r2=0 f=2 > r0=80000001 f=a ; movs r0, r1, ror r2
e1b00271 r1=80000001 r2=1 > r0=c0000000 f=a ; movs r0, r1, ror r2
e1b00271 r1=80000001 r2=1f f=2 > r0=3 f=0 ; movs r0, r1, ror r2
e1b00271 r1=80000001 r2=20 > r0=80000001 f=a ; movs r0, r1, ror r2
e1b00271 r1=80000002 r2=21 f=2 > r0=40000001 f=0 ; movs r0, r1, ror r2
e1b00271 r1=7fffffff r2=40 f=2 > r0=7fffffff f=0 ; movs r0, r1, ror r2
03a00001 f=4 > r0=1 ; moveq r0, #1
03a00001 f=b > ; moveq r0, #1
13a00001 f=b > r0=1 ; movne r0, #1
13a00001 f=4 > ; movne r0, #1
23a00001 f=2 > r0=1 ; movcs r0, #1
23a00001 f=d > ; movcs r0, #1
33a00001 f=d > r0=1 ; movcc r0, #1
33a00001 f=2 > ; movcc r0, #1
43a00001 f=8 > r0=1 ; movmi r0, #1
43a00001 f=7 > ; movmi r0, #1
53a00001 f=7 > r0=1 ; movpl r0, #1
53a00001 f=8 > ; movpl r0, #1
63a00001 f=1 > r0=1 ; movvs r0, #1
63a00001 f=e > ; movvs r0, #1
73a00001 f=e > r0=1 ; movvc r0, #1
73a00001 f=1 > ; movvc r0, #1
83a00001 f=2 > r0=1 ; movhi r0, #1
83a00001 f=6 > ; movhi r0, #1
83a00001 f=0 > ; movhi r0, #1
93a00001 f=6 > r0=1 ; movls r0, #1
93a00001 f=0 > r0=1 ; movls r0, #1
93a00001 f=2 > ; movls r0, #1
a3a00001 f=9 > r0=1 ; movge r0, #1
a3a00001 f=0 > r0=1 ; movge r0, #1
a3a00001 f=8 > ; movge r0, #1
b3a00001 f=8 > r0=1 ; movlt r0, #1
b3a00001 f=1 > r0=1 ; movlt r0, #1
b3a00001 f=9 > ; movlt r0, #1
c3a00001 f=9 > r0=1 ; movgt r0, #1
c3a00001 f=d > ; movgt r0, #1
c3a00001 f=1 > ; movgt r0, #1
d3a00001 f=4 > r0=1 ; movle r0, #1
d3a00001 f=8 > r0=1 ; movle r0, #1
d3a00001 f=0 > ; movle r0, #1
e0000291 r1=10001 r2=10001 f=f > r0=20001 ; mul r0, r1, r2
e0100291 r1=80000000 r2=2 f=3 > f=7 ; muls r0, r1, r2
e0100291 r1=ffffffff r2=1 > r0=ffffffff f=8 ; muls r0, r1, r2
e0203291 r1=ffffffff r2=2 r3=3 > r0=1 ; mla r0, r1, r2, r3
e0303291 r1=2 r2=3 r3=fffffff0 f=3 > r0=fffffff6 f=b ; mlas r0, r1, r2, r3
e0810392 r2=ffffffff r3=ffffffff > r0=1 r1=fffffffe ; umull r0, r1, r2, r3
e0910392 r2=80000000 r3=2 f=3 > r1=1 ; umulls r0, r1, r2, r3
e0a10392 r0=ffffffff r1=1 r2=ffffffff r3=2 > r0=fffffffd r1=3 ; umlal r0, r1, r2, r3
e0b10392 r0=1 r1=ffffffff r2=ffffffff r3=1 f=8 > r0=0 r1=0 f=4 ; umlals r0, r1, r2, r3
e0c10392 r2=ffffffff r3=2 > r0=fffffffe r1=ffffffff ; smull r0, r1, r2, r3
e0d10392 r2=80000000 r3=80000000 f=4 > r1=40000000 f=0 ; smulls r0, r1, r2, r3
e0d10392 r2=80000000 r3=1 f=3 > r0=80000000 r1=ffffffff f=b ; smulls r0, r1, r2, r3
e0e10392 r0=1 r2=ffffffff r3=1 > r0=0 ; smlal r0, r1, r2, r3
e0f10392 r0=1 r2=ffffffff r3=1 > r0=0 f=4 ; smlals r0, r1, r2, r3
e16f0f11 r0=7 r1=0 > r0=20 ; clz r0, r1
e16f0f11 r1=1 > r0=1f ; clz r0, r1
e16f0f11 r1=80000000 > ; clz r0, r1
e16f0f11 r1=ffff > r0=10 ; clz r0, r1
e30f0fff r0=12345678 > r0=ffff ; movw r0, #0xffff
e34a0bcd r0=12345678 > r0=abcd5678 ; movt r0, #0xabcd
e320f000 f=5 > ; nop
e5910000 r1=2000 m2000=11223344 > r0=11223344 ; ldr r0, [r1]
e5910004 r1=2000 m2004=11223344 > r0=11223344 ; ldr r0, [r1, #4]
e5110004 r1=2008 m2004=5 > r0=5 ; ldr r0, [r1, #-4]
e5b10008 r1=2000 m2008=5 > r0=5 r1=2008 ; ldr r0, [r1, #8]!
e4110004 r1=2008 m2008=6 > r0=6 r1=2004 ; ldr r0, [r1], #-4
e7910002 r1=1ffc r2=8 m2004=7 > r0=7 ; ldr r0, [r1, r2]
e7110102 r1=2010 r2=3 m2004=8 > r0=8 ; ldr r0, [r1, -r2, lsl #2]
e7910022 r1=2004 r2=ffffffff m2004=9 > r0=9 ; ldr r0, [r1, r2, lsr #32]
e7b10222 r1=2000 r2=47 m2004=9 > r0=9 r1=2004 ; ldr r0, [r1, r2, lsr #4]!
e79100c2 r1=2008 r2=fffffff8 m2004=a > r0=a ; ldr r0, [r1, r2, asr #1]
e7910042 r1=2005 r2=80000000 m2004=a > r0=a ; ldr r0, [r1, r2, asr #32]
e7910e62 r1=2000 r2=40000000 m2004=b > r0=b ; ldr r0, [r1, r2, ror #28]
e7910062 r1=80002000 r2=8 f=2 m2004=c > r0=c ; ldr r0, [r1, r2, rrx]
e6910182 r1=2000 r2=2 m2000=d > r0=d r1=2010 ; ldr r0, [r1], r2, lsl #3
e51f0008 > r0=e51f0008 ; ldr r0, [pc, #-8]
e591f000 r1=2000 m2000=1ff8 > r15=1ff8 ; ldr pc, [r1]
e5b1f004 r1=2000 m2004=1ff9 > unaligned=1ff9 ; ldr pc, [r1, #4]!
e5810000 r0=11223344 r1=2000 > m2000=11223344 ; str r0, [r1]
e5a10004 r0=5 r1=2000 > r1=2004 m2004=5 ; str r0, [r1, #4]!
e4810004 r0=5 r1=2000 > r1=2004 m2000=5 ; str r0, [r1], #4
e7010002 r0=5 r1=2004 r2=4 > m2000=5 ; str r0, [r1, -r2]
e5811000 r1=2000 > m2000=2000 ; str r1, [r1]
e5d10001 r1=2000 m2000=f1e2d3c4 > r0=d3 ; ldrb r0, [r1, #1]
e4d10001 r1=2003 m2000=f1e2d3c4 > r0=f1 r1=2004 ; ldrb r0, [r1], #1
e5c10002 r0=aabbccdd r1=2000 m2000=11223344 > m2000=11dd3344 ; strb r0, [r1, #2]
e7e10082 r0=ff r1=2000 r2=1 > r1=2002 m2000=ff0000 ; strb r0, [r1, r2, lsl #1]!
e1c100b0 r0=aabbccdd r1=2000 m2000=11223344 > m2000=1122ccdd ; strh r0, [r1]
e1c100b2 r0=aabbccdd r1=2000 m2000=11223344 > m2000=ccdd3344 ; strh r0, [r1, #2]
e04100b2 r0=1 r1=2004 > r1=2002 m2004=1 ; strh r0, [r1], #-2
e1a100b2 r0=1 r1=2000 r2=4 > r1=2004 m2004=1 ; strh r0, [r1, r2]!
e1d100b2 r1=2000 m2000=f1e2d3c4 > r0=f1e2 ; ldrh r0, [r1, #2]
e11100b2 r1=2004 r2=4 m2000=f1e2d3c4 > r0=d3c4 ; ldrh r0, [r1, -r2]
e1d100d3 r1=2000 m2000=7fe2d3c4 > r0=7f ; ldrsb r0, [r1, #3]
e1f100d2 r1=2000 m2000=7fe2d3c4 > r0=ffffffe2 r1=2002 ; ldrsb r0, [r1, #2]!
e09100d2 r1=2000 r2=10 m2000=80 > r0=ffffff80 r1=2010 ; ldrsb r0, [r1], r2
e1d100f2 r1=2000 m2000=8fe20003 > r0=ffff8fe2 ; ldrsh r0, [r1, #2]
e1d100f0 r1=2000 m2000=7fff > r0=7fff ; ldrsh r0, [r1]
e891000c r1=2000 m2000=5 m2004=6 > r2=5 r3=6 ; ldm r1, {r2, r3}
e8b1000c r1=2000 m2000=5 m2004=6 > r1=2008 r2=5 r3=6 ; ldm r1!, {r2, r3}
e991000c r1=2000 m2004=5 m2008=6 > r2=5 r3=6 ; ldmib r1, {r2, r3}
e9b1000c r1=2000 m2004=5 m2008=6 > r1=2008 r2=5 r3=6 ; ldmib r1!, {r2, r3}
e811000c r1=2008 m2004=5 m2008=6 > r2=5 r3=6 ; ldmda r1, {r2, r3}
e831000c r1=2008 m2004=5 m2008=6 > r1=2000 r2=5 r3=6 ; ldmda r1!, {r2, r3}
e911000c r1=2008 m2000=5 m2004=6 > r2=5 r3=6 ; ldmdb r1, {r2, r3}
e931000c r1=2008 m2000=5 m2004=6 > r1=2000 r2=5 r3=6 ; ldmdb r1!, {r2, r3}
e8910006 r1=2000 m2000=5 m2004=6 > r1=5 r2=6 ; ldm r1, {r1, r2}
e8bd8010 r13=2000 m2000=5 m2004=1ff0 > r4=5 r13=2008 r15=1ff0 ; pop {r4, pc}
e881000c r1=2000 r2=5 r3=6 > m2000=5 m2004=6 ; stm r1, {r2, r3}
e8a1000c r1=2000 r2=5 r3=6 > r1=2008 m2000=5 m2004=6 ; stm r1!, {r2, r3}
e981000c r1=2000 r2=5 r3=6 > m2004=5 m2008=6 ; stmib r1, {r2, r3}
e821000c r1=2008 r2=5 r3=6 > r1=2000 m2004=5 m2008=6 ; stmda r1!, {r2, r3}
e901000c r1=2008 r2=5 r3=6 > m2000=5 m2004=6 ; stmdb r1, {r2, r3}
e92d4010 r4=1 r13=2010 r14=2 > r13=2008 m2008=1 m200c=2 ; push {r4, lr}
e8810006 r1=2000 r2=9 > m2000=2000 m2004=9 ; stm r1, {r1, r2}
ea000001 > r15=100c ; b to the address plus 12
eafffffe > r15=1000 ; b to itself
eafffbfe > r15=0 ; b to 0
eb000002 r14=5 > r14=1004 r15=1010 ; bl to the address plus 16
ebffffff > r14=1004 ; bl to the next instruction
0a000001 f=0 > ; beq
e12fff1e r14=1010 > r15=1010 ; bx lr
e12fff11 r1=1005 > unaligned=1005 ; bx r1
e12fff11 r1=1006 > unaligned=1006 ; bx r1
e12fff31 r1=1100 > r14=1004 r15=1100 ; blx r1
e12fff3e r14=1100 > r14=1004 r15=1100 ; blx lr
e12fff31 r1=1102 > unaligned=1102 ; blx r1
ef000007 f=9 > service=7 ; svc #7
efffffff > service=ffffff ; svc #0xffffff
0f000007 f=0 > ; svceq #7
e320f000 r15=3000 > fault=3000 ; nop
e320f000 r15=1ffc > ; nop
e320f000 r15=2000 > fault=2000 ; nop
e320f000 r15=0 > fault=0 ; nop
f57ff05f > undefined=f57ff05f ; dmb
07f000f0 f=0 > undefined=7f000f0 ; udfeq
e7f000f0 > undefined=e7f000f0 ; udf
e5910000 r1=2001 > unaligned=2001 ; ldr r0, [r1]
e5910000 r1=1 > unaligned=1 ; ldr r0, [r1]
e5910000 r1=2100 > fault=2100 ; ldr r0, [r1]
e5910000 r1=fffffffc > fault=fffffffc ; ldr r0, [r1]
05910000 r1=1 f=0 > ; ldreq r0, [r1]
e1d100b0 r1=2001 > unaligned=2001 ; ldrh r0, [r1]
e5d10000 r1=2100 > fault=2100 ; ldrb r0, [r1]
e5810000 r0=1 r1=80010 > stray=80010 ; str r0, [r1]
e5810000 r0=1 r1=1000 > stray=1000 ; str r0, [r1]
e5810000 r0=1 r1=3000 > stray=3000 ; str r0, [r1]
e5a10004 r0=1 r1=8000c > stray=80010 ; str r0, [r1, #4]!
e5c10000 r0=1 r1=8001b > stray=8001b ; strb r0, [r1]
e1c100b0 r0=1 r1=80012 > stray=80012 ; strh r0, [r1]
e1c100b0 r0=1 r1=80013 > unaligned=80013 ; strh r0, [r1]
e891000c r1=20fc m20fc=5 > fault=2100 ; ldm r1, {r2, r3}
e891000c r1=2002 > unaligned=2002 ; ldm r1, {r2, r3}
e931000c r1=200a > unaligned=2002 ; ldmdb r1!, {r2, r3}
e891000c r1=fffffffc > fault=fffffffc ; ldm r1, {r2, r3}
e8a1000c r1=20fc r2=5 r3=6 > fault=2100 ; stm r1!, {r2, r3}
e881000c r1=300c r2=5 r3=6 > fault=3010 ; stm r1, {r2, r3}
e881007c r1=80008 r2=5 > stray=80010 ; stm r1, {r2, r3, r4, r5, r6}
e92d4010 r4=1 r13=80014 r14=2 > stray=80010 ; push {r4, lr}
e591f000 r1=2000 m2000=3 > unaligned=3 ; ldr pc, [r1]
";

/// The end of the memory: Code from 0x1000 to 0x1fff, Data to 0x20ff, Fixed from 0x3000 to 0x300f, and Data from
/// 0x80000 to 0x8001f, of which 0x80010 to 0x8001b is watched.
const SIZE: u32 = 0x80040;

fn zeroed(alloc: Global, size: u32) -> Result<Guest, Memory>
    ensures size { IfOk result (λ g. length g.bytes ≡ size) }
    ensures free { IfOk result (λ g. (a : ℕ) → kind_at g a ≡ None) }
{
    Guest::new(alloc, size)
}

/// Maps a range, above which nothing is mapped.
fn map_next(guest: &mut Guest, start: u32, len: u32, kind: MemKind)
    requires inside { start + len ≤ length guest.old.bytes }
    requires free { (a : ℕ) → start ≤ a → kind_at guest.old a ≡ None }
    ensures size { length guest.new.bytes ≡ length guest.old.bytes }
    ensures there { HaveKind guest.new start len (Some kind) }
    ensures free { (a : ℕ) → start + len ≤ a → kind_at guest.new a ≡ None }
{
    guest.whole();
    guest.map(start, len, kind);
}

/// The memory of all rows.
#[derive(Drop)]
struct Board {
    guest: Guest,
    ghost size: { 0x80040 ≤ length guest.bytes },
}

impl Board {
    fn new(alloc: Global) -> Result<Board, Memory> {
        let mut guest = zeroed(alloc, SIZE)?;
        map_next(&mut guest, 0x1000, 0x1000, MemKind::Code);
        map_next(&mut guest, 0x2000, 0x100, MemKind::Data);
        map_next(&mut guest, 0x3000, 0x10, MemKind::Fixed);
        map_next(&mut guest, 0x80000, 0x20, MemKind::Data);
        guest.watch(0x80010, 12);
        Ok(Board { guest })
    }

    fn put(&mut self, addr: u32, v: u32) {
        let bytes = v.to_le_bytes();
        if addr <= SIZE - 4 {
            self.guest.poke(addr, bytes[0]);
            self.guest.poke(addr + 1, bytes[1]);
            self.guest.poke(addr + 2, bytes[2]);
            self.guest.poke(addr + 3, bytes[3]);
        }
    }

    fn step(&mut self, cpu: &mut Cpu) -> StepEnd {
        step(cpu, &mut self.guest)
    }
}

/// A cpu, words of memory, and how a step ends.
#[derive(Clone, Copy)]
struct State {
    cpu: Cpu,
    words: [(u32, u32); 2],
    end: StepEnd,
}

impl State {
    fn put(&mut self, addr: u32, v: u32) {
        for word in self.words.iter_mut() {
            if word.0 == 0 || word.0 == addr {
                *word = (addr, v);
                return;
            }
        }
    }

    /// One name with its number.
    fn apply(&mut self, text: &str) -> Result<(), Fail> {
        let (name, digits) = text.split_once('=').ok_or("a name without a number")?;
        let v = u32::from_str_radix(digits, 16)?;
        if let Some(number) = name.strip_prefix('r') {
            let register = usize::from_str_radix(number, 10)?;
            *self.cpu.r.get_mut(register).ok_or("no register")? = v;
        } else if let Some(addr) = name.strip_prefix('m') {
            self.put(u32::from_str_radix(addr, 16)?, v);
        } else {
            match name {
                "f" => {
                    self.cpu.n = v / 8 % 2 == 1;
                    self.cpu.z = v / 4 % 2 == 1;
                    self.cpu.c = v / 2 % 2 == 1;
                    self.cpu.v = v % 2 == 1;
                }
                "service" => self.end = StepEnd::Service(v),
                "stray" => self.end = StepEnd::Stop(StepStop::Stray(v)),
                "fault" => self.end = StepEnd::Stop(StepStop::Fault(v)),
                "undefined" => self.end = StepEnd::Stop(StepStop::Undefined(v)),
                "unaligned" => self.end = StepEnd::Stop(StepStop::Unaligned(v)),
                _ => Err("no name")?,
            }
        }
        Ok(())
    }

    fn apply_all(&mut self, texts: &str) -> Result<(), Fail> {
        for text in texts.split_ascii_whitespace() {
            self.apply(text)?;
        }
        Ok(())
    }
}

#[test]
fn steps_leave_what_the_manual_says(rt: HostRuntime) -> Result<(), Fail> {
    let mut board = Board::new(rt.alloc())?;
    let mut cpu = Cpu {
        r: [0; 16],
        n: false,
        z: false,
        c: false,
        v: false,
    };
    cpu.r[15] = 0x1000;
    let start = State {
        cpu,
        words: [(0, 0); 2],
        end: StepEnd::Next,
    };
    for row in ROWS.lines() {
        let (given, want) = row.split_once('>').ok_or("a row without what it leaves")?;
        let (word, given) = given.split_once(' ').ok_or("a row without a word")?;
        let (want, _text) = want.split_once(';').ok_or("a row without a text")?;
        let mut old = start;
        old.apply_all(given)?;
        let mut new = old;
        new.cpu.r[15] = old.cpu.r[15].wrapping_add(4);
        new.apply_all(want)?;
        if matches!(new.end, StepEnd::Stop(_)) {
            new.cpu = old.cpu;
        }
        for addr in [0x2000, 0x2004, 0x2008, 0x200c, 0x8000c] {
            board.put(addr, 0);
        }
        for (addr, v) in old.words {
            board.put(addr, v);
        }
        board.put(old.cpu.r[15], u32::from_str_radix(word, 16)?);
        let mut cpu = old.cpu;
        let end = board.step(&mut cpu);
        holds_at(&rt, row, end == new.end);
        holds_at(&rt, row, cpu == new.cpu);
        for (addr, v) in new.words {
            if addr != 0 {
                same_at(&rt, row, board.guest.read32(addr), Ok(v));
            }
        }
    }
    Ok(())
}
