//! Command lines of `claxon verify`.
use claxon_command_line::arguments::Notice;
use claxon_verdict::options::{NamedFiles, Options, parse};
use std::alloc::{AllocError, Global};
use std::test::Fail;

// Arguments, and what they ask for: the options as letters, `m` without the MD5 sum, `b` brief, `j` JSON, `q` quiet,
// `r` recursive and `s` with a summary; `p` with how many places are told after the first, where that isn't 999; and the operands
// after `:` or the list after `<`; or what is printed.
const ROWS: [(&[&str], &str); 27] = [
    (&["a.flac"], ":a.flac"),
    (&["a", "-", "b"], ":a:-:b"),
    (&["--no-md5", "a"], "m:a"),
    (&["a", "--brief"], "b:a"),
    (&["--json", "-q", "a", "b"], "jq:a:b"),
    (&["--quiet", "--quiet", "a"], "q:a"),
    (&["-r", "a", "-q"], "qr:a"),
    (&["--recursive", "--files0-from", "list"], "r<list"),
    (&["--", "--json"], ":--json"),
    (&["--files0-from", "list"], "<list"),
    (&["--files0-from", "--", "--brief"], "b<--"),
    (&["-q", "--files0-from", "-"], "q<-"),
    (&[], "usage"),
    (&["--json"], "usage"),
    (&["--files0-from"], "usage"),
    (&["--files0-from", "list", "a"], "usage"),
    (&["--files0-from", "a", "--files0-from", "b"], "usage"),
    (&["--md5", "a"], "unknown --md5"),
    (&["a", "--help"], "help"),
    (&["--summary", "-r", "a"], "rs:a"),
    (&["--files0-from", "\0a\\xff"], "not UTF-8"),
    (&["a", "-V"], "version"),
    (&["--places", "7", "a"], "p6:a"),
    (&["--places", "1", "--places", "2", "a"], "p1:a"),
    (&["--places", "0", "a"], "usage"),
    (&["--places", "7x", "a"], "usage"),
    (&["a", "--places"], "usage"),
];

fn words(alloc: Global, row: &[&str]) -> Result<Vec<String>, AllocError> {
    let mut words = Vec::new(alloc);
    for word in row {
        words.push(String::from_str(alloc, *word)?)?;
    }
    Ok(words)
}

fn letters(alloc: Global, options: Options) -> Result<String, AllocError> {
    let mut text = String::new(alloc);
    for (is_set, letter) in [
        (!options.computes_md5, "m"),
        (options.print.is_brief, "b"),
        (options.print.is_json, "j"),
        (options.print.is_quiet, "q"),
        (options.is_recursive, "r"),
        (options.print.has_summary, "s"),
    ] {
        if is_set {
            text.push_str(letter)?;
        }
    }
    if options.more_places != 999 {
        let places = options.more_places;
        write!(&mut text, "p{places}")?;
    }
    Ok(text)
}

fn said(alloc: Global, words: &[String]) -> Result<String, AllocError> {
    match parse(words) {
        Ok(request) => {
            let mut text = letters(alloc, request.options)?;
            match request.files {
                NamedFiles::Operands(operands) => {
                    for name in operands {
                        write!(&mut text, ":{name}")?;
                    }
                }
                NamedFiles::List(name) => write!(&mut text, "<{name}")?,
            }
            Ok(text)
        }
        Err(notice) => notice_text(alloc, notice),
    }
}

fn notice_text(alloc: Global, notice: Notice<'_>) -> Result<String, AllocError> {
    match notice {
        Notice::Help => String::from_str(alloc, "help"),
        Notice::Version => String::from_str(alloc, "version"),
        Notice::UnknownOption(name) => format!(in alloc; "unknown {name}"),
        Notice::UnknownCommand(_) => String::from_str(alloc, "another"),
        Notice::NotUtf8 => String::from_str(alloc, "not UTF-8"),
        Notice::Usage => String::from_str(alloc, "usage"),
    }
}

#[test]
fn command_lines(rt: HostRuntime) -> Result<(), Fail> {
    for (row, want) in ROWS {
        let words = words(rt.alloc(), row)?;
        let got = said(rt.alloc(), words.as_slice())?;
        assert!(rt; got.as_str() == want, "{got}");
    }
    Ok(())
}
