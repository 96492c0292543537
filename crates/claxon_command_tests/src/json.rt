//! Strings of JSON, from RFC 8259, section 7.
use claxon_command_line::json::push_json_string;
use std::test::Fail;

const ROWS: [(&str, &str); 9] = [
    ("", "\"\""),
    ("song.flac", "\"song.flac\""),
    ("a\"b\\c/d", "\"a\\\"b\\\\c/d\""),
    ("\n\r\t\x08\x0c", "\"\\n\\r\\t\\b\\f\""),
    (
        "\0\x01\x0b\x0e\x1f",
        "\"\\u0000\\u0001\\u000b\\u000e\\u001f\"",
    ),
    (" \x7f", "\" \x7f\""),
    ("\u{80}\u{2028}", "\"\u{80}\u{2028}\""),
    ("\u{e9}\u{20ac}\u{1d11e}", "\"\u{e9}\u{20ac}\u{1d11e}\""),
    ("\\u0000", "\"\\\\u0000\""),
];

#[test]
fn strings(rt: HostRuntime) -> Result<(), Fail> {
    for (text, want) in ROWS {
        let mut got = String::from_str(rt.alloc(), "=")?;
        push_json_string(&mut got, text)?;
        assert!(rt; got.as_str().strip_prefix("=") == Some(want), "{text:?}");
    }
    Ok(())
}
