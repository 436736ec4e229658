//! Texts with the listings of their files: where labels and bytes stand, which names have symbols and what these say.

use crate::checks::{holds_at, is_listed};
use std::test::Fail;

const LISTED: [(&str, &str); 11] = [
    (
        ".byte 1
a: .align 8
.word a",
        "relocatable
section 0 .text 1 6 12 8
rel 0 0x00000008 2 1
symbol 0 - local notype default undef 0x00000000 0
symbol 1 a local notype default section 0 0x00000001 0
",
    ),
    (
        "a: .data
.word a",
        "relocatable
section 0 .text 1 6 0 4
section 1 .data 1 3 4 4
rel 0 0x00000000 2 1
symbol 0 - local notype default undef 0x00000000 0
symbol 1 a local notype default section 0 0x00000000 0
",
    ),
    (
        ".align 2
.byte 7
.rodata
nop",
        "relocatable
section 0 .text 1 6 1 4
section 1 .rodata 1 2 4 4
symbol 0 - local notype default undef 0x00000000 0
",
    ),
    (
        "bleq far
bl far",
        "relocatable
section 0 .text 1 6 8 4
rel 0 0x00000000 29 1
rel 1 0x00000004 28 1
symbol 0 - local notype default undef 0x00000000 0
symbol 1 far global notype default undef 0x00000000 0
",
    ),
    (
        ".weak x
.global x
.global y
.weak y
.word x
",
        "relocatable
section 0 .text 1 6 4 4
rel 0 0x00000000 2 1
symbol 0 - local notype default undef 0x00000000 0
symbol 1 x global notype default undef 0x00000000 0
symbol 2 y weak notype default undef 0x00000000 0
",
    ),
    (
        ".hidden h
.protected h
.hidden h
.type t object
.type t func",
        "relocatable
symbol 0 - local notype default undef 0x00000000 0
symbol 1 h global notype hidden undef 0x00000000 0
symbol 2 t global func default undef 0x00000000 0
",
    ),
    (
        "b: nop
a: nop
.protected a
.type a func
.word a
.word b",
        "relocatable
section 0 .text 1 6 16 4
rel 0 0x00000008 2 2
rel 1 0x0000000c 2 1
symbol 0 - local notype default undef 0x00000000 0
symbol 1 b local notype default section 0 0x00000000 0
symbol 2 a local func protected section 0 0x00000004 0
",
    ),
    (
        ".hidden a
a: nop
b a",
        "relocatable
section 0 .text 1 6 8 4
symbol 0 - local notype default undef 0x00000000 0
",
    ),
    (
        "a: nop
b a
.global a",
        "relocatable
section 0 .text 1 6 8 4
rel 0 0x00000004 29 1
symbol 0 - local notype default undef 0x00000000 0
symbol 1 a global notype default section 0 0x00000000 0
",
    ),
    (
        ".bss
x: .space 9
.align 16
.data
.asciz \"ab\"",
        "relocatable
section 0 .data 1 3 3 4
section 1 .bss 8 3 16 16
symbol 0 - local notype default undef 0x00000000 0
",
    ),
    (
        ".word a(GOT)
.word a(GOTOFF)
.word a(GOTFUNCDESC)
.word a(GOTOFFFUNCDESC)
.word a(FUNCDESC)
.word a+5
.word a
.word 5",
        "relocatable
section 0 .text 1 6 32 4
rel 0 0x00000000 26 1
rel 1 0x00000004 24 1
rel 2 0x00000008 161 1
rel 3 0x0000000c 162 1
rel 4 0x00000010 163 1
rel 5 0x00000014 2 1
rel 6 0x00000018 2 1
symbol 0 - local notype default undef 0x00000000 0
symbol 1 a global notype default undef 0x00000000 0
",
    ),
];

#[test]
fn files_are_listed(rt: HostRuntime) -> Result<(), Fail> {
    for (text, listing) in LISTED {
        let fact = is_listed(&rt, rt.alloc(), text, listing)?;
        holds_at(&rt, text, fact);
    }
    Ok(())
}
