//! Names that end with zero bytes, and names that aren't UTF-8.
use claxon_command_line::names::{escaped_bytes, read_name};
use std::io::Cursor;
use std::test::Fail;

// A list, and its names, joined by slashes.
const LISTS: [(&[u8], &[u8]); 8] = [
    (b"", b""),
    (b"\0", b""),
    (b"\0\0\0", b""),
    (b"a", b"/a"),
    (b"a\0", b"/a"),
    (b"a\0b c\n\0", b"/a/b c\n"),
    (b"\0\0a\0\0\0b", b"/a/b"),
    (b"\xff\0\xc3\xa9\0", b"/\xff/\xc3\xa9"),
];

#[test]
fn lists(rt: HostRuntime) -> Result<(), Fail> {
    for (list, want) in LISTS {
        let mut input = Cursor::new(list);
        let mut name = Vec::new(rt.alloc());
        let mut got = Vec::new(rt.alloc());
        for _ in 0..4 {
            if read_name(&mut input, &mut name)? {
                got.push(b'/')?;
                got.extend_from_slice(name.as_slice())?;
            }
        }
        assert!(rt; got.as_slice() == want, "{list:?}");
    }
    Ok(())
}

// Names that are longer than what is read at once, around powers of two.
#[test]
fn long_names(rt: HostRuntime) -> Result<(), Fail> {
    let (mut input, mut name) = (Vec::new(rt.alloc()), Vec::new(rt.alloc()));
    for len in [255, 256, 4095, 4096, 65_536, 1_000_000] {
        input.clear();
        input.resize(len, b'x')?;
        input.push(0)?;
        let is_read = read_name(&mut Cursor::new(input.as_slice()), &mut name)?;
        assert!(rt; is_read && name.len() == len, "{len}");
    }
    Ok(())
}

// From the Unicode Standard, table 3-8 and its neighbours: what begins no character, and what is cut short.
const NAMES: [(&[u8], &str); 8] = [
    (b"", ""),
    (b"a b", "a b"),
    (b"\xff", "\\xff"),
    (b"a\xe9.flac", "a\\xe9.flac"),
    (b"\xc3\xa9\x0a\\", "\u{e9}\\n\\\\"),
    (b"\xe2\x82", "\\xe2\\x82"),
    (b"\xe2\x82\xac\xe2\x28\xa1", "\u{20ac}\\xe2(\\xa1"),
    (b"\xed\xa0\x80\xf0\x90z", "\\xed\\xa0\\x80\\xf0\\x90z"),
];

#[test]
fn names(rt: HostRuntime) -> Result<(), Fail> {
    for (name, want) in NAMES {
        let got = escaped_bytes(rt.alloc(), name)?;
        assert!(rt; got.as_str() == want, "{name:?}");
    }
    Ok(())
}
