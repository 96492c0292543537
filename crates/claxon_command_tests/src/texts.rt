//! Values as text.
use claxon_command_line::text::{escaped_text, length_text, md5_text, number_text};
use std::alloc::AllocError;
use std::test::Fail;

fn is_text(text: Result<String, AllocError>, want: &str) -> Result<bool, AllocError> {
    Ok(text?.as_str() == want)
}

#[rattlefmt::skip]
const LENGTHS: [(u64, u32, &str); 13] = [
    (0, 44100, "0:00:00.000"),
    (44, 44100, "0:00:00.000"),
    (45, 44100, "0:00:00.001"),
    (1, 3, "0:00:00.333"),
    (2645999, 44100, "0:00:59.999"),
    (2646000, 44100, "0:01:00.000"),
    (158759999, 44100, "0:59:59.999"),
    (158760000, 44100, "1:00:00.000"),
    (123456789, 96000, "0:21:26.008"),
    (68719476735, 655350, "29:07:39.200"),
    (68719476735, 1, "19088743:32:15.000"),
    (18446744073709551615, 1, "5124095576030431:00:15.000"),
    (18446744073709551615, 4294967295, "1193046:28:17.000"),
];

#[test]
fn lengths(rt: HostRuntime) -> Result<(), Fail> {
    for (samples, rate, want) in LENGTHS {
        let text = length_text(rt.alloc(), Some(samples), rate);
        assert!(rt; is_text(text, want)?, "{want}");
    }
    Ok(())
}

#[test]
fn values_that_are_not_known(rt: HostRuntime) -> Result<(), Fail> {
    assert!(rt; is_text(length_text(rt.alloc(), None, 44100), "unknown")?);
    assert!(rt; is_text(length_text(rt.alloc(), Some(44100), 0), "unknown")?);
    assert!(rt; is_text(md5_text(rt.alloc(), &[0; 16]), "unknown")?);
    assert!(rt; is_text(number_text(rt.alloc(), None), "unknown")?);
    Ok(())
}

#[test]
fn sums(rt: HostRuntime) -> Result<(), Fail> {
    let sum = [
        0x00, 0x01, 0x09, 0x0a, 0x0f, 0x10, 0x19, 0x9a, 0xa0, 0xaf, 0xb7, 0xcd, 0xee, 0xf0, 0xfe,
        0xff,
    ];
    let want = "0001090a0f10199aa0afb7cdeef0feff";
    assert!(rt; is_text(md5_text(rt.alloc(), &sum), want)?);
    let last = [0, 0, 0, 0, 0, 0, 0, 0, 0, 0, 0, 0, 0, 0, 0, 1];
    let want = "00000000000000000000000000000001";
    assert!(rt; is_text(md5_text(rt.alloc(), &last), want)?);
    Ok(())
}

#[rattlefmt::skip]
const ESCAPES: [(&str, &str); 9] = [
    ("", ""),
    ("plain \"text\", 'quoted' = ~", "plain \"text\", 'quoted' = ~"),
    ("two\nlines", "two\\nlines"),
    ("\r\n", "\\r\\n"),
    ("\\n", "\\\\n"),
    ("a\tb\0c\x1b[31m\x1f\x7f", "a\\tb\\u{0}c\\u{1b}[31m\\u{1f}\\u{7f}"),
    ("\u{80}\u{85}\u{9b}\u{9f}", "\\u{80}\\u{85}\\u{9b}\\u{9f}"),
    ("\u{2027}\u{2028}\u{2029}\u{202a}", "\u{2027}\\u{2028}\\u{2029}\u{202a}"),
    ("Z\u{fc}rich \u{a0}\u{65e5}\u{1d11e}", "Z\u{fc}rich \u{a0}\u{65e5}\u{1d11e}"),
];

#[test]
fn escapes(rt: HostRuntime) -> Result<(), Fail> {
    for (text, want) in ESCAPES {
        assert!(rt; is_text(escaped_text(rt.alloc(), text), want)?, "{want}");
    }
    Ok(())
}
