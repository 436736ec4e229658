//! A file whose bytes come from outside: from the standards' tables, worked by hand.

/// A file without an OS/ABI: `.text` of two words with the function f, and a branch to a g that is defined
/// elsewhere. Each table of strings has more than it needs.
pub const WHOLE: [u32; 102] = [
    0x464c457f, 0x10101, 0, 0, 0x280001, 1, 0, 0, 0xa8, 0x5000000, 0x34, 0x280000, 0x50006,
    0xe3e00000, 0xeafffffe, 4, 0x21d, 0, 0, 0, 0, 1, 0, 4, 0x10012, 3, 0, 0, 0x10, 0x67006600, 0,
    0x65742e00, 0x2e007478, 0x746d7973, 0x2e006261, 0x74727473, 0x2e006261, 0x74736873, 0x62617472,
    0x65722e00, 0x65742e6c, 0x7478, 0, 0, 0, 0, 0, 0, 0, 0, 0, 0, 1, 1, 6, 0, 0x34, 8, 0, 0, 4, 0,
    0x21, 9, 0, 0, 0x3c, 8, 3, 1, 4, 8, 7, 2, 0, 0, 0x44, 0x30, 4, 1, 4, 0x10, 0xf, 3, 0, 0, 0x74,
    8, 0, 0, 1, 0, 0x17, 3, 0, 0, 0x7c, 0x2c, 0, 0, 1, 0,
];
