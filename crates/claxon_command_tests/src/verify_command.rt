//! Command lines of `claxon verify` with an input in memory: what is printed, and the status.
use claxon_commands::verify::command;
use claxon_testing::answers::{FRAME, head, joined};
use claxon_testing::doubles::sinks::Sink;
use std::alloc::{AllocError, Global};
use std::io::ErrorKind;
use std::test::Fail;

// The arguments, standard input, the status, and the lines on the output and on errors.
type Row = (
    &'static [&'static str],
    &'static [u8],
    u8,
    &'static str,
    &'static str,
);

const ROWS: [Row; 17] = [
    (
        &["-"],
        b"ID3\x04",
        3,
        "standard input: not supported, an ID3v2 tag in front of the stream\n",
        "",
    ),
    (
        &["--brief", "-", "-"],
        b"fLaD",
        1,
        "standard input: wrong, not a FLAC file\nstandard input: wrong, not a FLAC file\n",
        "",
    ),
    (
        &["-q", "-"],
        b"ID3\x04",
        3,
        "standard input: not supported, an ID3v2 tag in front of the stream\n",
        "",
    ),
    (
        &["-q", "--json", "-"],
        b"ID3\x04",
        3,
        "{\"name\":\"-\",\"verdict\":\"not supported\",\"reason\":\"an ID3v2 tag in front of the stream\"}\n",
        "",
    ),
    (
        &["/nonexistent/a.flac"],
        b"",
        1,
        "",
        "/nonexistent/a.flac: No such file or directory\n",
    ),
    (
        &["--json", "/nonexistent/a.flac"],
        b"",
        1,
        "{\"name\":\"/nonexistent/a.flac\",\"verdict\":\"not read\",\"reason\":\"No such file or directory\"}\n",
        "",
    ),
    (
        &["--files0-from", "-"],
        b"/nonexistent/a\xff\\\0\0-\0/nonexistent/\n",
        1,
        "",
        "/nonexistent/a\\xff\\\\: not read: the name isn't UTF-8; use: claxon verify - < FILE\n-: not read: standard input is the list of names\n/nonexistent/\\n: No such file or directory\n",
    ),
    (
        &["--json", "--files0-from", "-"],
        b"a\xff\0",
        1,
        "{\"name\":\"a\\\\xff\",\"verdict\":\"not read\",\"reason\":\"the name isn't UTF-8; use: claxon verify - < FILE\"}\n",
        "",
    ),
    (&["--files0-from", "-"], b"\0\0", 0, "", ""),
    // The first page of a stream in Ogg (RFC 9639, section 10.1), and the first box of a file in MP4.
    (
        &["-"],
        b"OggS\0\x02\0\0\0\0\0\0\0\0\x01\0\0\0\0\0\0\0",
        3,
        "standard input: not supported, an Ogg file\n",
        "",
    ),
    (
        &["--json", "-"],
        b"\0\0\0\x18ftypM4A ",
        3,
        "{\"name\":\"-\",\"verdict\":\"not supported\",\"reason\":\"an MP4 file\"}\n",
        "",
    ),
    (
        &["--json", "-"],
        b"RIFF\0\0\0\0WAVE",
        1,
        "{\"name\":\"-\",\"verdict\":\"wrong\",\"reason\":\"not a FLAC file\"}\n",
        "",
    ),
    (
        &["-", "\0a\\xff.flac", "-"],
        b"ID3\x04",
        1,
        "standard input: not supported, an ID3v2 tag in front of the stream\nstandard input: not supported, an ID3v2 tag in front of the stream\n",
        "a\\xff.flac: not read: the name isn't UTF-8; use: claxon verify - < FILE\n",
    ),
    (
        &["--summary", "-", "/nonexistent/a.flac", "-"],
        b"ID3\x04",
        1,
        "standard input: not supported, an ID3v2 tag in front of the stream\nstandard input: not supported, an ID3v2 tag in front of the stream\n3 files: 0 ok, 0 wrong, 2 not supported, 1 not read\n",
        "/nonexistent/a.flac: No such file or directory\n",
    ),
    (
        &["--summary", "--json", "-q", "-"],
        b"fLaD",
        1,
        "{\"name\":\"-\",\"verdict\":\"wrong\",\"reason\":\"not a FLAC file\"}\n{\"files\":1,\"ok\":0,\"wrong\":1,\"not_supported\":0,\"not_read\":0}\n",
        "",
    ),
    (
        &["--summary", "--files0-from", "-"],
        b"",
        0,
        "0 files: 0 ok, 0 wrong, 0 not supported, 0 not read\n",
        "",
    ),
    (
        &["--files0-from", "/nonexistent/list"],
        b"",
        1,
        "",
        "/nonexistent/list: No such file or directory\n",
    ),
];

fn words(alloc: Global, row: &[&str]) -> Result<Vec<String>, AllocError> {
    let mut words = Vec::new(alloc);
    for word in row {
        words.push(String::from_str(alloc, *word)?)?;
    }
    Ok(words)
}

#[test]
fn command_lines(rt: HostRuntime) -> Result<(), Fail> {
    for (row, input, want, want_output, want_errors) in ROWS {
        let words = words(rt.alloc(), row)?;
        let mut output = Vec::new(rt.alloc());
        let mut errors = Vec::new(rt.alloc());
        let status = command(
            &rt,
            words.as_slice(),
            input,
            &mut output,
            false,
            &mut errors,
        );
        assert!(rt; status == want, "{want_output}{want_errors}");
        assert!(rt;
            output.as_slice() == want_output.as_bytes(),
            "{want_output}"
        );
        assert!(rt;
            errors.as_slice() == want_errors.as_bytes(),
            "{want_errors}"
        );
    }
    Ok(())
}

// Whether a command line with this input has this status and this output, and no errors.
fn says(
    rt: &HostRuntime,
    row: &[&str],
    input: &[u8],
    want: u8,
    want_output: &str,
) -> Result<bool, Fail> {
    let words = words(rt.alloc(), row)?;
    let (mut output, mut errors): (Vec<u8>, Vec<u8>) = (Vec::new(rt.alloc()), Vec::new(rt.alloc()));
    let status = command(rt, words.as_slice(), input, &mut output, false, &mut errors);
    Ok(status == want && output.as_slice() == want_output.as_bytes() && errors.is_empty())
}

// A right stream without an MD5 sum, which `-q` shows, but not where no sum is computed.
#[test]
fn a_file_without_a_sum(rt: HostRuntime) -> Result<(), Fail> {
    let stream = joined(rt.alloc(), &[&head(0x80), &FRAME])?;
    let line = "standard input: ok, 1 frame, 1 sample, no MD5 sum\n";
    let rows: [(&[&str], &str); 3] = [
        (&["-"], line),
        (&["-q", "-"], line),
        (&["-q", "--no-md5", "-"], ""),
    ];
    for (row, want) in rows {
        assert!(rt; says(&rt, row, stream.as_slice(), 0, want)?, "{row:?}");
    }
    Ok(())
}

// A streaminfo of 32 bits per sample, and the first bytes of a frame with the code for them.
const DEEP_INFO: [u8; 2] = [0x41, 0xf0];

const DEEP_HEADER: [u8; 5] = [0xff, 0xf8, 0x69, 0x0e, 0x00];

// The last metadata block: Vorbis comments, of which a tag has no `=`.
const NO_SEPARATOR: &[u8] = b"\x84\0\0\x0f\0\0\0\0\x01\0\0\0\x03\0\0\0Abc";

// Streams that aren't supported, of which `-q` has a line.
#[test]
fn a_file_that_is_not_supported(rt: HostRuntime) -> Result<(), Fail> {
    let mut deep_head = head(0x80);
    deep_head[20..22].copy_from_slice(&DEEP_INFO);
    let deep = joined(rt.alloc(), &[&deep_head, &DEEP_HEADER])?;
    let tagged = joined(rt.alloc(), &[&head(0x00), NO_SEPARATOR, &FRAME])?;
    let rows = [
        (deep, "standard input: not supported, 32-bit samples\n"),
        (tagged, "standard input: not supported, a tag without '='\n"),
    ];
    for (stream, line) in &rows {
        assert!(rt; says(&rt, &["-"], stream.as_slice(), 3, *line)?, "{line}");
        assert!(rt;
            says(&rt, &["-q", "-"], stream.as_slice(), 3, *line)?,
            "{line}"
        );
    }
    Ok(())
}

// Nobody reads the output any more: nothing is said of that, and the second file isn't read.
#[test]
fn a_closed_pipe(rt: HostRuntime) -> Result<(), Fail> {
    let rows: [&[&str]; 3] = [
        &["-", "none"],
        &["--json", "-", "none"],
        &["-q", "--summary", "-"],
    ];
    for row in rows {
        let words = words(rt.alloc(), row)?;
        let stream = joined(rt.alloc(), &[&head(0x80), &FRAME])?;
        let mut output = Sink::new(64, 0, false, ErrorKind::BrokenPipe);
        let mut errors: Vec<u8> = Vec::new(rt.alloc());
        let status = command(
            &rt,
            words.as_slice(),
            stream.as_slice(),
            &mut output,
            false,
            &mut errors,
        );
        assert!(rt; status == 1 && errors.is_empty(), "{row:?}");
    }
    Ok(())
}
