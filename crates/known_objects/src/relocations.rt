//! Values from outside: words of branches, and formulas at their edges.

use crate::checks::same_at;
use arm_relocs::{apply_value, branch_addend, branch_field};

#[test]
fn branches(rt: HostRuntime) {
    let held = [
        (0xebff_fffe, -8),
        (0xeb00_003e, 0xf8),
        (0xea7f_ffff, 33_554_428),
        (0xea80_0000, -33_554_432),
        (0x0000_0000, 0),
        (0xffff_ffff, -4),
        (0x0080_0001, -33_554_428),
    ];
    for (word, d) in held {
        same_at(&rt, word, branch_addend(word), d);
        same_at(&rt, word, branch_field(word, d), Some(word));
    }
    let put = [
        (0xebff_fffe, 0xf8, Some(0xeb00_003e)),
        (0x1a12_3456, -8, Some(0x1aff_fffe)),
        (0xea00_0000, 33_554_428, Some(0xea7f_ffff)),
        (0xea00_0000, -33_554_432, Some(0xea80_0000)),
        (0xea00_0000, 33_554_432, None),
        (0xea00_0000, -33_554_436, None),
        (0xea00_0000, 1, None),
        (0xea00_0000, 2, None),
        (0xea00_0000, -2, None),
        (0xea00_0000, -3, None),
        (0xea00_0000, i32::MAX, None),
        (0xea00_0000, i32::MIN, None),
    ];
    for (word, d, field) in put {
        same_at(&rt, word, branch_field(word, d), field);
    }
}

#[test]
fn values(rt: HostRuntime) {
    let got = 0x80000;
    let rows = [
        (2, 0x20000, 0x10, 0, Some(0x20010)),
        (2, 0xffff_ffff, 2, 9, Some(1)),
        (38, 0x20000, 0x10, 7, Some(0x20010)),
        (21, 0x80040, 0xffff_fffc, 7, Some(0x8003c)),
        (3, 0x200, 0xffff_fff8, 0x100, Some(0xf8)),
        (3, 0x1000, 0, 0x2000, Some(0xffff_f000)),
        (24, 0x80020, 4, 7, Some(0x24)),
        (24, 0x7fffc, 0, 7, Some(0xffff_fffc)),
        (0, 1, 1, 0, None),
        (1, 1, 1, 0, None),
        (23, 1, 1, 0, None),
        (26, 1, 1, 0, None),
        (28, 1, 1, 0, None),
        (161, 1, 1, 0, None),
        (163, 1, 1, 0, None),
        (164, 1, 1, 0, None),
        (255, 1, 1, 0, None),
    ];
    for (kind, s, a, p, value) in rows {
        same_at(&rt, kind, apply_value(kind, s, a, p, got), value);
    }
}
