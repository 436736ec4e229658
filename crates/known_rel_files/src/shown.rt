//! What `show` prints of relocatable files.

use crate::checks::{file, holds_at};
use crate::files::WHOLE;
use elf_listing::listing_of;
use std::test::Fail;

/// The words of `WHOLE` that are changed, each by its offset in bytes, and the listing.
const LISTINGS: [(&[(usize, u32)], &str); 4] = [
    (
        &[],
        "relocatable
section 0 .text 1 6 8 4
rel 0 0x00000004 29 2
symbol 0 - local notype default undef 0x00000000 0
symbol 1 f global func default section 0 0x00000000 4
symbol 2 g global notype default undef 0x00000000 0
",
    ),
    // A text of one word, without relocations, and the null symbol alone.
    (
        &[(228, 4), (268, 0), (308, 16)],
        "relocatable
section 0 .text 1 6 4 4
symbol 0 - local notype default undef 0x00000000 0
",
    ),
    // A text that has no memory at run time, and the strings of the symbols in its place, without a name.
    (
        &[(216, 4), (328, 0), (332, 7), (336, 3)],
        "relocatable
section 0 - 7 3 8 1
symbol 0 - local notype default undef 0x00000000 0
symbol 1 f global func default dropped 0x00000000 4
symbol 2 g global notype default undef 0x00000000 0
",
    ),
    // An absolute value that is protected, and a common block of eight bytes that are aligned to 4.
    (
        &[
            (88, 0x12),
            (92, 0),
            (96, 0xfff1_0321),
            (104, 4),
            (108, 8),
            (112, 0xfff2_0211),
        ],
        "relocatable
section 0 .text 1 6 8 4
rel 0 0x00000004 29 2
symbol 0 - local notype default undef 0x00000000 0
symbol 1 f weak object protected abs 0x00000012 0
symbol 2 g global object hidden common 0x00000004 8
",
    ),
];

#[test]
fn listings(rt: HostRuntime) -> Result<(), Fail> {
    for (changes, wanted) in LISTINGS {
        let bytes = file(rt.alloc(), &WHOLE, changes)?;
        if bytes.len() > 10_000_000 {
            return Err("too long")?;
        }
        let text = listing_of(rt.alloc(), &bytes).ok().ok_or("refused")?;
        holds_at(&rt, wanted, text.as_slice() == wanted.as_bytes());
    }
    Ok(())
}
