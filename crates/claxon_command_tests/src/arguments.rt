//! The arguments of a process, as words.
use claxon_command_line::arguments::all_words;
use claxon_command_line::folders::is_flac_name;
use claxon_command_line::names::not_utf8_name;
use std::env::FillError;
use std::rt::Env;
use std::test::Fail;

// A process without a name, one with it alone, and one with arguments: of each kind, and longer than any buffer at first.
const LINES: [&[&[u8]]; 3] = [
    &[],
    &[b"claxon"],
    &[
        b"\xff",
        b"",
        b"a.flac",
        b"\xc3\xa9\n",
        b"--\xff",
        b"a\xc3",
        &[b'a'; 300],
        &[0xfe; 999],
    ],
];

// Which of them are UTF-8.
const ARE_UTF8: [bool; 7] = [true, true, true, false, false, true, false];

// One of the processes.
#[derive(Drop)]
struct Given {
    line: usize,
}

impl Env for Given {
    fn arg(&self, i: usize, buf: &mut [u8]) -> Result<usize, FillError> {
        let Some(words) = LINES.get(self.line) else {
            return Err(FillError::NotPresent);
        };
        let Some(word) = words.get(i) else {
            return Err(FillError::NotPresent);
        };
        let length = word.len();
        if length > buf.len() {
            return Err(FillError::TooLong);
        }
        buf[..length].copy_from_slice(*word);
        Ok(length)
    }

    fn var(&self, _name: &str, _buf: &mut [u8]) -> Result<usize, FillError> {
        Err(FillError::NotPresent)
    }

    fn var_at(&self, _i: usize, _buf: &mut [u8]) -> Result<usize, FillError> {
        Err(FillError::NotPresent)
    }
}

#[test]
fn no_arguments(rt: HostRuntime) -> Result<(), Fail> {
    for line in 0..2 {
        assert!(rt;
            all_words(&(Given { line }, rt.alloc()))?.is_empty(),
            "{line}"
        );
    }
    Ok(())
}

#[test]
fn arguments(rt: HostRuntime) -> Result<(), Fail> {
    let words = all_words(&(Given { line: 2 }, rt.alloc()))?;
    assert!(rt; words.len() == ARE_UTF8.len());
    let given = LINES[2].iter().skip(1);
    for ((word, is_utf8), given) in words.iter().zip(&ARE_UTF8).zip(given) {
        let is_same = word.as_bytes() == *given;
        assert!(rt; is_same == *is_utf8, "{word:?}");
        assert!(rt;
            not_utf8_name(word.as_str()).is_none() == *is_utf8,
            "{word:?}"
        );
    }
    Ok(())
}

// How they are shown.
#[test]
fn shown_names(rt: HostRuntime) -> Result<(), Fail> {
    let words = all_words(&(Given { line: 2 }, rt.alloc()))?;
    for (index, shown) in [(3, "--\\xff"), (4, "a\\xc3")] {
        let name = match words.get(index) {
            Some(word) => not_utf8_name(word.as_str()),
            None => None,
        };
        assert!(rt; name == Some(shown), "{shown}");
    }
    Ok(())
}

// Names of files of this format.
const NAMES: [(&str, bool); 10] = [
    ("a.flac", true),
    ("a.FLAC", true),
    ("a.Flac", true),
    ("below/b.fLaC", true),
    (".flac", true),
    ("a.flac.flac", true),
    ("flac", false),
    ("aflac", false),
    ("a.flac ", false),
    ("", false),
];

#[test]
fn names_of_flac_files(rt: HostRuntime) {
    for (name, is_flac) in NAMES {
        assert!(rt; is_flac_name(name) == is_flac, "{name}");
    }
}
