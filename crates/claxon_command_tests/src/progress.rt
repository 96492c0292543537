//! The lines of files that are verified.
use claxon_command_line::progress::{Position, Progress, file_label};
use std::test::Fail;

const LONG: &str = "0123456789/0123456789/0123456789/0123456789/0123456789/\u{e9}ab.flac";

// Forty letters of two columns each, and the last 25 and 20 of them.
const WIDE: &str =
    "\u{65e5}\u{672c}\u{8a9e}\u{97f3}\u{65e5}\u{672c}\u{8a9e}\u{97f3}\u{65e5}\u{672c}\
\u{8a9e}\u{97f3}\u{65e5}\u{672c}\u{8a9e}\u{97f3}\u{65e5}\u{672c}\u{8a9e}\u{97f3}\
\u{65e5}\u{672c}\u{8a9e}\u{97f3}\u{65e5}\u{672c}\u{8a9e}\u{97f3}\u{65e5}\u{672c}\
\u{8a9e}\u{97f3}\u{65e5}\u{672c}\u{8a9e}\u{97f3}\u{65e5}\u{672c}\u{8a9e}\u{97f3}";

const LAST_25: &str =
    "\u{97f3}\u{65e5}\u{672c}\u{8a9e}\u{97f3}\u{65e5}\u{672c}\u{8a9e}\u{97f3}\u{65e5}\
\u{672c}\u{8a9e}\u{97f3}\u{65e5}\u{672c}\u{8a9e}\u{97f3}\u{65e5}\u{672c}\u{8a9e}\
\u{97f3}\u{65e5}\u{672c}\u{8a9e}\u{97f3}";

const LAST_20: &str =
    "\u{65e5}\u{672c}\u{8a9e}\u{97f3}\u{65e5}\u{672c}\u{8a9e}\u{97f3}\u{65e5}\u{672c}\
\u{8a9e}\u{97f3}\u{65e5}\u{672c}\u{8a9e}\u{97f3}\u{65e5}\u{672c}\u{8a9e}\u{97f3}";

// What stands before the name, and the name.
const LABELS: [(u64, Option<u64>, &str, &str, &str); 8] = [
    (1, Some(1), "song.flac", "", "song.flac"),
    (12, Some(300), "song.flac", "12 of 300  ", "song.flac"),
    (12, None, "song.flac", "12  ", "song.flac"),
    (1, Some(2), "a\n\x1bb", "1 of 2  ", "a\\n\\u{1b}b"),
    (
        2,
        Some(2),
        LONG,
        "2 of 2  ",
        "23456789/0123456789/0123456789/0123456789/\u{e9}ab.flac",
    ),
    (1, Some(1), "", "", ""),
    (1, Some(1), WIDE, "", LAST_25),
    (
        18446744073709551615,
        None,
        "a/\u{1f3b5}.flac",
        "18446744073709551615  ",
        "a/\u{1f3b5}.flac",
    ),
];

#[test]
fn labels(rt: HostRuntime) -> Result<(), Fail> {
    for (number, total, name, before, shown) in LABELS {
        let label = file_label(rt.alloc(), Position { number, total }, name)?;
        let want = format!(in rt.alloc(); "\x1b[?7l  {before}{shown}\x1b[?7h")?;
        assert!(rt; label.as_str() == want.as_str(), "{want}");
    }
    Ok(())
}

// Of wide letters as many are left as take the columns that the numbers leave.
#[test]
fn columns(rt: HostRuntime) -> Result<(), Fail> {
    let (number, total) = (1_000_000_000_000, Some(1_000_000_000_000));
    let label = file_label(rt.alloc(), Position { number, total }, WIDE)?;
    let want = format!(in rt.alloc();
        "\x1b[?7l  1000000000000 of 1000000000000  {LAST_20}\x1b[?7h"
    )?;
    assert!(rt; label.as_str() == want.as_str(), "{label}");
    Ok(())
}

// The numbers of samples that are done, of 200, and what is written.
#[test]
fn lines(rt: HostRuntime) {
    let mut errors = Vec::new(rt.alloc());
    let mut progress = Progress::new(&mut errors, Some("  a"));
    progress.show(1);
    progress.start(Some(200));
    for done in [1, 114, 115, 116, 300] {
        progress.show(done);
    }
    progress.clear();
    let want = b"\r0 %  a\r57 %  a\r58 %  a\r100 %  a\r\x1b[K";
    assert!(rt; errors.as_slice() == want.as_slice());
}

#[test]
fn no_lines(rt: HostRuntime) {
    let mut errors = Vec::new(rt.alloc());
    let mut progress = Progress::new(&mut errors, None);
    progress.start(Some(2));
    progress.show(1);
    progress.clear();
    let mut progress = Progress::new(&mut errors, Some("a  "));
    progress.start(None);
    progress.show(1);
    progress.clear();
    assert!(rt; errors.is_empty());
}
