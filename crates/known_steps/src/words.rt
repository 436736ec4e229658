//! Values from outside: each public call once, at its edges.
ghost use Rattle.std.specs.Prelude.{◌<◌, ◌^◌, length};

use crate::checks::{holds, same, same_at};
use fd_base::{
    Bytes, DirStore, FetchErr, Lines, Name, PutErr, Sink, StdSink, Store, half_at, number, put_dec,
    put_decimal_field, put_digits_field, put_hex_field, put_hex8, put_index_field, put_name_field,
    put_shown, put_word, put_word_field, word_at,
};
use std::alloc::Global;
use std::test::Fail;

fn named(alloc: Global, bytes: &[u8]) -> Result<Name, Fail> {
    Ok(Name::new(alloc, bytes)?)
}

#[test]
fn words_are_little_endian(rt: HostRuntime) {
    let mut bytes = [0x78, 0x56, 0x34, 0x12, 0xff];
    let words = [
        (0, Some(0x1234_5678)),
        (1, Some(0xff12_3456)),
        (2, None),
        (5, None),
        (0xffff_ffff, None),
    ];
    for (at, word) in words {
        same_at(&rt, at, word_at(&bytes, at), word);
    }
    for (at, half) in [
        (0, Some(0x5678)),
        (3, Some(0xff12)),
        (4, None),
        (0xffff_ffff, None),
    ] {
        same_at(&rt, at, half_at(&bytes, at), half);
    }
    put_word(&mut bytes, 1, 0xa1b2_c3d4);
    same(&rt, bytes, [0x78, 0xd4, 0xc3, 0xb2, 0xa1]);
}

#[test]
fn numbers_are_read(rt: HostRuntime) {
    let fields: [(&str, Option<u32>); 24] = [
        ("0", Some(0)),
        ("4294967295", Some(4_294_967_295)),
        ("4294967296", None),
        ("9999999999", None),
        ("0000000012", Some(12)),
        ("00000000012", None),
        ("0x0", Some(0)),
        ("0xFFFFFFFF", Some(0xffff_ffff)),
        ("0x00aBcDeF", Some(0x00ab_cdef)),
        ("0xffffffff0", None),
        ("0x000000000", None),
        ("0x", None),
        ("0X1", None),
        ("0xg", None),
        ("0x+1", None),
        ("", None),
        ("+1", None),
        ("-1", None),
        (" 1", None),
        ("1 ", None),
        ("12a", None),
        ("a", None),
        ("1_0", None),
        ("x1", None),
    ];
    for (field, value) in fields {
        same_at(&rt, field, number(field.as_bytes()), value);
    }
}

#[test]
fn texts_are_put(rt: HostRuntime) -> Result<(), Fail> {
    let alloc = rt.alloc();
    let mut out = Bytes::new(alloc);
    for n in [0, 7, 10, 4_294_967_295] {
        put_dec(&mut out, n)?;
        out.push(b' ')?;
    }
    for n in [0, 0xdead_beef, 0x0012_0a00] {
        put_hex8(&mut out, n)?;
        out.push(b' ')?;
    }
    put_shown(&mut out, &named(alloc, b"lib.so\x20\x21%\x7e\x7f\xff\x01")?)?;
    let wanted = b"0 7 10 4294967295 0x00000000 0xdeadbeef 0x00120a00 lib.so%20!%25~%7f%ff%01";
    same(&rt, out.as_slice(), wanted.as_slice());
    Ok(())
}

#[test]
fn host_files_are_written_and_read_whole(rt: HostRuntime) -> Result<(), Fail> {
    let alloc = rt.alloc();
    let mut store = DirStore::new(&rt);
    let name = named(alloc, b"two pieces and a half")?;
    let bytes = vec![in alloc; 0xa5; 10_240]?;
    holds(&rt, matches!(store.put(&name, &bytes), Ok(())));
    let read = store.fetch(alloc, &name)?;
    same(&rt, read.map(|it| it.len()), Some(10_240));
    Ok(())
}

#[test]
fn the_host_names_no_text_and_no_folder(rt: HostRuntime) -> Result<(), Fail> {
    let alloc = rt.alloc();
    let mut store = DirStore::new(&rt);
    holds(
        &rt,
        matches!(
            store.fetch(alloc, &named(alloc, b"no such file")?),
            Ok(None)
        ),
    );
    let not_text = named(alloc, b"\xff")?;
    holds(&rt, matches!(store.fetch(alloc, &not_text), Ok(None)));
    holds(
        &rt,
        matches!(store.put(&not_text, b""), Err(PutErr::Failed)),
    );
    let folder = named(alloc, b".")?;
    holds(
        &rt,
        matches!(store.fetch(alloc, &folder), Err(FetchErr::Failed)),
    );
    holds(&rt, matches!(store.put(&folder, b""), Err(PutErr::Failed)));
    holds(
        &rt,
        matches!(
            StdSink::new(rt.stdout()).put(b"to standard output\n"),
            Ok(())
        ),
    );
    Ok(())
}

/// Whether the lines of a text are these, with numbers from 1 on.
fn has_lines(text: &[u8], expected: &[(u32, &[u8])]) -> bool
    requires { length text.now < 2 ^ 32 }
{
    let mut lines = Lines::new(text);
    for (number, wanted) in expected {
        match lines.next() {
            Some(line) if line.number == *number && line.text == *wanted => {}
            _ => return false,
        }
    }
    lines.next().is_none()
}

#[test]
fn lines_end_at_line_feeds(rt: HostRuntime) {
    holds(&rt, has_lines(b"", &[]));
    holds(&rt, has_lines(b"\n", &[(1, b"")]));
    holds(&rt, has_lines(b"a", &[(1, b"a")]));
    holds(&rt, has_lines(b"a\n", &[(1, b"a")]));
    holds(
        &rt,
        has_lines(b"a\r\n\n b", &[(1, b"a\r"), (2, b""), (3, b" b")]),
    );
}

#[test]
fn words_are_put_and_pushed(rt: HostRuntime) -> Result<(), Fail> {
    let mut bytes = Bytes::new(rt.alloc());
    bytes.push_half(0x0201)?;
    bytes.push_word(0x0605_0403)?;
    bytes.push_words(&[0x0a09_0807, 0])?;
    bytes.put_word(9, 0xa1b2_c3d4);
    let wanted = [1, 2, 3, 4, 5, 6, 7, 8, 9, 0xd4, 0xc3, 0xb2, 0xa1, 0];
    same(&rt, bytes.as_slice(), wanted.as_slice());
    Ok(())
}

#[test]
fn fields_are_put_behind_spaces(rt: HostRuntime) -> Result<(), Fail> {
    let alloc = rt.alloc();
    let mut out = Bytes::new(alloc);
    put_word_field(&mut out, b"word")?;
    put_decimal_field(&mut out, 4_294_967_295)?;
    put_index_field(&mut out, 0)?;
    put_hex_field(&mut out, 0xdead_beef)?;
    put_name_field(&mut out, &Some(named(alloc, b"a b")?))?;
    put_name_field(&mut out, &None)?;
    put_digits_field(&mut out, b"\x00\xfe")?;
    put_digits_field(&mut out, b"")?;
    let wanted = b" word 4294967295 0 0xdeadbeef a%20b - 00fe -";
    same(&rt, out.as_slice(), wanted.as_slice());
    Ok(())
}
