//! Conversions to WAV files, compared with those of another decoder.
ghost use Rattle.std.specs.Prelude.{◌≡◌, false};
ghost use Rattle.claxon.specs.FlacReader.{flac_metadata_only};

use claxon::FlacReader;
use claxon::frame::FrameReader;
use claxon_command_line::progress::Progress;
use claxon_commands::wav::command;
use claxon_testing::answers::{DEEP_FRAME, joined};
use claxon_testing::command_lines::owned;
use claxon_testing::doubles::sinks::{ByteCounter, Sink};
use claxon_testing::temporary_files::{file_of, path_of};
use claxon_wav::{Layout, MAX_HEADER_SIZE, Result, WavWriter, convert};
use std::alloc::Global;
use std::io::{Cursor, ErrorKind, Read, Seek, Write};
use std::test::Fail;
use std::{fs, result};

// One channel of 8 bits with one sample by the streaminfo, and two blocks, with three samples and with two.
const STREAM: [u8; 67] = [
    0x66, 0x4c, 0x61, 0x43, 0x80, 0x00, 0x00, 0x22, 0x00, 0x10, 0x00, 0x10, 0x00, 0x00, 0x00, 0x00,
    0x00, 0x00, 0x0a, 0xc4, 0x40, 0x70, 0x00, 0x00, 0x00, 0x01, 0x00, 0x00, 0x00, 0x00, 0x00, 0x00,
    0x00, 0x00, 0x00, 0x00, 0x00, 0x00, 0x00, 0x00, 0x00, 0x00, 0xff, 0xf8, 0x69, 0x02, 0x00, 0x02,
    0x94, 0x02, 0x01, 0xfe, 0x03, 0x67, 0x56, 0xff, 0xf8, 0x69, 0x02, 0x01, 0x01, 0x88, 0x02, 0x80,
    0x7f, 0xd7, 0xe5,
];

const WHOLE: &[u8] =
    b"RIFF\x2a\x00\x00\x00WAVEfmt \x10\x00\x00\x00\x01\x00\x01\x00\x44\xac\x00\x00\x44\xac\x00\x00\x01\x00\x08\x00data\x05\x00\x00\x00\x81\x7e\x83\x00\xff\x00";

const FIRST_BLOCK: &[u8] =
    b"RIFF\x28\x00\x00\x00WAVEfmt \x10\x00\x00\x00\x01\x00\x01\x00\x44\xac\x00\x00\x44\xac\x00\x00\x01\x00\x08\x00data\x03\x00\x00\x00\x81\x7e\x83\x00";

// Whether all blocks of an open stream were written.
fn fills<R: Read + Drop, W: Write + Seek>(
    alloc: Global,
    flac: &mut FlacReader<R>,
    wav: &mut WavWriter<'_, W>,
    errors: &mut Vec<u8>,
) -> bool
    requires { flac_metadata_only flac.old ≡ false }
{
    let mut progress = Progress::new(errors, Some(""));
    progress.start(Some(5));
    let mut md5 = None;
    let outcome = convert(alloc, flac, wav, &mut md5, &mut progress);
    progress.end();
    outcome.is_ok()
}

// Whether all of a stream was converted into these bytes.
fn is_converted(
    alloc: Global,
    stream: &[u8],
    bytes: &mut Vec<u8>,
    errors: &mut Vec<u8>,
) -> Result<bool> {
    let mut flac = FlacReader::new(alloc, Cursor::new(stream))?;
    if flac.is_metadata_only() {
        return Ok(false);
    }
    let info = flac.streaminfo();
    let layout = Layout::new(info.channels, info.bits_per_sample, info.sample_rate, None);
    let mut output = Cursor::new(bytes);
    let header = Vec::with_capacity(alloc, MAX_HEADER_SIZE)?;
    let mut wav = WavWriter::new(alloc, header, &mut output, layout);
    wav.start(1)?;
    Ok(fills(alloc, &mut flac, &mut wav, errors))
}

// Whether a stream is converted completely, or not, into these bytes, and this progress is shown.
fn gives(alloc: Global, stream: &[u8], is_whole: bool, want: &[u8], shown: &[u8]) -> Result<bool> {
    let (mut bytes, mut errors) = (Vec::new(alloc), Vec::new(alloc));
    let outcome = is_converted(alloc, stream, &mut bytes, &mut errors)?;
    Ok(outcome == is_whole && bytes.as_slice() == want && errors.as_slice() == shown)
}

// The whole stream, one whose last byte is changed, and one that is truncated within the second block.
#[test]
fn in_memory(rt: HostRuntime) -> result::Result<(), Fail> {
    let mut stream = STREAM;
    let rows: [(usize, u8, bool, &[u8], &[u8]); 3] = [
        (67, 0xe5, true, WHOLE, b"\r60 %\r100 %\n"),
        (67, 0xe4, false, FIRST_BLOCK, b"\r60 %\n"),
        (60, 0xe5, false, FIRST_BLOCK, b"\r60 %\n"),
    ];
    for (len, last, is_whole, want, shown) in rows {
        stream[66] = last;
        assert!(rt;
            gives(rt.alloc(), &stream[..len], is_whole, want, shown)?,
            "{len} {last}"
        );
    }
    Ok(())
}

// The text of the error of STREAM's first block, whose samples are 1, -2 and 3, in a file of this layout; and the number of
// samples that are counted after it.
fn first_block_into(alloc: Global, layout: Layout, output: &mut Sink) -> Result<(String, u32)> {
    let header = Vec::with_capacity(alloc, MAX_HEADER_SIZE)?;
    let mut wav = WavWriter::new(alloc, header, output, layout);
    wav.start(3)?;
    let mut text = String::new(alloc);
    if let Some(block) = FrameReader::new(Cursor::new(&STREAM[42..])).read_next_or_eof(Vec::new(
        alloc,
    ))?
        && let Err(error) = wav.put_block(&block)
    {
        text = format!(in alloc; "{error}")?;
    }
    Ok((text, wav.samples()))
}

// Layouts of other channels and of fewer bits: only the header was written.
#[test]
fn blocks_that_do_not_fit(rt: HostRuntime) -> result::Result<(), Fail> {
    let rows = [
        (
            Layout::new(2, 8, 44100, None),
            44,
            "the number of channels changes within the stream",
        ),
        (
            Layout::new(1, 2, 44100, None),
            68,
            "a sample has more bits than the streaminfo says",
        ),
    ];
    for (layout, len, want) in rows {
        let mut output = Sink::new(2, 99, false, ErrorKind::StorageFull);
        let (text, samples) = first_block_into(rt.alloc(), layout, &mut output)?;
        assert!(rt; text.as_str() == want && samples == 0, "{want}");
        assert!(rt; output.written().len() == len, "{want}");
    }
    Ok(())
}

// The output takes two bytes at each write, 44 of them for the header. After a failed write a prefix of the block's bytes is
// there, and none of its samples is counted.
#[test]
fn failed_writes_of_a_block(rt: HostRuntime) -> result::Result<(), Fail> {
    let full = "no storage space";
    for (writes, len, want, count) in [(22, 44, full, 0), (23, 46, full, 0), (24, 47, "", 3)] {
        let mut output = Sink::new(2, writes, false, ErrorKind::StorageFull);
        let layout = Layout::new(1, 8, 44100, None);
        let (text, samples) = first_block_into(rt.alloc(), layout, &mut output)?;
        assert!(rt; text.as_str() == want && samples == count, "{writes}");
        assert!(rt; output.written() == front(FIRST_BLOCK, len), "{writes}");
    }
    Ok(())
}

// A frame of two channels of 24 bits, with 65,535 samples in each, all of them 5.
const LARGE: [u8; 18] = [
    0xff, 0xf8, 0x70, 0x1c, 0x00, 0xff, 0xfe, 0x06, 0x00, 0x00, 0x00, 0x05, 0x00, 0x00, 0x00, 0x05,
    0x64, 0x85,
];

// How often the block of LARGE can be written, how many samples are counted then, and the text of the error that follows.
fn most_blocks(alloc: Global, output: &mut ByteCounter) -> Result<(u32, u32, String)> {
    let header = Vec::with_capacity(alloc, MAX_HEADER_SIZE)?;
    let mut wav = WavWriter::new(alloc, header, output, Layout::new(2, 24, 44100, None));
    wav.start(0)?;
    let mut text = String::new(alloc);
    let mut count = 0;
    if let Some(block) = FrameReader::new(Cursor::new(&LARGE)).read_next_or_eof(Vec::new(alloc))? {
        for blocks in 0..11_000 {
            if let Err(error) = wav.put_block(&block) {
                text = format!(in alloc; "{error}")?;
                count = blocks;
                break;
            }
        }
    }
    Ok((count, wav.samples(), text))
}

// The block takes 393,210 bytes, and the header 68. A file holds 4,294,967,234 bytes of samples at most.
#[test]
fn more_than_a_file_holds(rt: HostRuntime) -> result::Result<(), Fail> {
    let mut output = ByteCounter { bytes: 0 };
    let (count, samples, text) = most_blocks(rt.alloc(), &mut output)?;
    assert!(rt; count == 10_922 && samples == 715_773_270);
    assert!(rt; output.bytes == 4_294_639_688);
    assert!(rt; text.as_str() == "the samples are more than a WAV file holds, 4 GiB");
    Ok(())
}

// Writes bytes to a file of this process.
fn put(rt: &HostRuntime, name: &str, bytes: &[u8]) -> result::Result<(), Fail> {
    let path = path_of(rt, name)?;
    fs::write(rt, path.as_str(), bytes)?;
    Ok(())
}

fn holds(rt: &HostRuntime, name: &str, bytes: &[u8]) -> result::Result<bool, Fail> {
    let path = path_of(rt, name)?;
    let found = fs::read(rt, path.as_str())?;
    Ok(found.as_slice() == bytes)
}

fn remove(rt: &HostRuntime, name: &str) -> result::Result<(), Fail> {
    let path = path_of(rt, name)?;
    fs::remove_file(rt, path.as_str())?;
    Ok(())
}

// STREAM with this number of samples in its streaminfo; 0 is unknown.
fn with_samples(samples: u32) -> [u8; 67] {
    let mut stream = STREAM;
    stream[22..26].copy_from_slice(&samples.to_be_bytes());
    stream
}

// The MD5 sum of the samples of STREAM, 01 fe 03 80 7f.
const MD5_SUM: [u8; 16] = [
    0xd2, 0xb4, 0x96, 0x70, 0xd3, 0x2d, 0xed, 0x66, 0xf7, 0x8e, 0x1b, 0x95, 0xbf, 0xe5, 0x68, 0xc5,
];

// The same with one bit changed.
const OTHER_SUM: [u8; 16] = [
    0xd2, 0xb4, 0x96, 0x70, 0xd3, 0x2d, 0xed, 0x66, 0xf7, 0x8e, 0x1b, 0x95, 0xbf, 0xe5, 0x68, 0xc4,
];

// STREAM with this number of samples and this MD5 sum in its streaminfo.
fn with_sum(samples: u32, sum: &[u8; 16]) -> [u8; 67] {
    let mut stream = with_samples(samples);
    stream[26..42].copy_from_slice(sum);
    stream
}

// STREAM with 2^36 - 1 samples by its streaminfo.
fn long_stream() -> [u8; 67] {
    let mut stream = STREAM;
    stream[21..26].copy_from_slice(&[0x7f, 0xff, 0xff, 0xff, 0xff]);
    stream
}

// The arguments of a command line: options, and names of files of this process.
fn paths_of(rt: &HostRuntime, words: &[&str]) -> result::Result<Vec<String>, Fail> {
    let mut paths = Vec::new(rt.alloc());
    for word in words {
        if word.starts_with('-') {
            paths.push(String::from_str(rt.alloc(), *word)?)?;
        } else {
            paths.push(path_of(rt, *word)?)?;
        }
    }
    Ok(paths)
}

// The line on a file of this process, or none for an empty text.
fn line_of(rt: &HostRuntime, name: &str, text: &str) -> result::Result<String, Fail> {
    if text.is_empty() {
        return Ok(String::new(rt.alloc()));
    }
    let path = path_of(rt, name)?;
    let path = path.as_str();
    Ok(format!(in rt.alloc(); "{path}: {text}\n")?)
}

// Whether a command line has this status, prints this text on one of its files, and leaves these bytes in that of `out`, which
// held others.
fn leaves(rt: &HostRuntime, row: &Row) -> result::Result<bool, Fail> {
    put(rt, "out", b"old")?;
    let words = paths_of(rt, row.words)?;
    let line = line_of(rt, row.name, row.text)?;
    let (mut output, mut errors): (Vec<u8>, Vec<u8>) = (Vec::new(rt.alloc()), Vec::new(rt.alloc()));
    let status = command(rt, &words, b"".as_slice(), &mut output, false, &mut errors);
    let is_said = errors.as_slice() == line.as_bytes() && output.is_empty();
    Ok(is_said && status == row.status && holds(rt, "out", row.left)?)
}

struct Row {
    words: &'static [&'static str],
    name: &'static str,
    status: u8,
    text: &'static str,
    left: &'static [u8],
}

const OTHER_MD5: &str = "the MD5 sum of the samples isn't that of the streaminfo";

// The streaminfo of `in` has no MD5 sum, and that of `both` has another one and another number of samples.
#[rattlefmt::skip]
const ROWS: [Row; 12] = [
    Row { words: &["-f", "in", "in"], name: "in", status: 1, text: "the output is the input", left: b"old" },
    Row { words: &["-f", "none", "out"], name: "none", status: 1, text: "No such file or directory", left: b"old" },
    Row { words: &["-f", "long", "out"], name: "long", status: 1, text: "the samples are more than a WAV file holds, 4 GiB", left: b"old" },
    Row { words: &["in", "out"], name: "out", status: 1, text: "the output exists; -f replaces it", left: b"old" },
    Row { words: &["in", "-f", "out"], name: "out", status: 0, text: "", left: WHOLE },
    Row { words: &["in", "none/out"], name: "none/out", status: 1, text: "No such file or directory", left: b"old" },
    Row { words: &["cut", "-f", "--", "out"], name: "cut", status: 1, text: "truncated: the file ends inside a frame", left: FIRST_BLOCK },
    Row { words: &["other", "out", "-f"], name: "other", status: 1, text: "5 samples were found, but the streaminfo says 1", left: WHOLE },
    Row { words: &["right", "out", "-f"], name: "right", status: 0, text: "", left: WHOLE },
    Row { words: &["wrong", "out", "-f"], name: "wrong", status: 1, text: OTHER_MD5, left: WHOLE },
    Row { words: &["--no-md5", "wrong", "out", "-f"], name: "wrong", status: 0, text: "", left: WHOLE },
    Row { words: &["both", "out", "-f"], name: "both", status: 1, text: "5 samples were found, but the streaminfo says 1", left: WHOLE },
];

// The first bytes.
fn front(bytes: &[u8], len: usize) -> &[u8] {
    &bytes[..len.min(bytes.len())]
}

#[test]
fn with_files(rt: HostRuntime) -> result::Result<(), Fail> {
    let stream = with_samples(5);
    put(&rt, "in", &stream)?;
    put(&rt, "cut", front(&stream, 60))?;
    put(&rt, "other", &STREAM)?;
    put(&rt, "long", &long_stream())?;
    put(&rt, "right", &with_sum(5, &MD5_SUM))?;
    put(&rt, "wrong", &with_sum(5, &OTHER_SUM))?;
    put(&rt, "both", &with_sum(1, &OTHER_SUM))?;
    for row in &ROWS {
        assert!(rt; leaves(&rt, row)?, "{:?}", row.words);
    }
    assert!(rt; holds(&rt, "in", &stream)?);
    for name in [
        "in", "cut", "other", "long", "right", "wrong", "both", "out",
    ] {
        remove(&rt, name)?;
    }
    Ok(())
}

// Without a name the output is beside the input, with another extension.
#[test]
fn without_a_name_for_the_output(rt: HostRuntime) -> result::Result<(), Fail> {
    let (path, alloc) = (file_of(&rt, "named", &with_samples(5))?, rt.alloc());
    let name = path.as_str();
    let wanted = format!(in alloc; "{name}.wav")?;
    let words = [String::from_str(alloc, name)?];
    let (mut output, mut errors): (Vec<u8>, Vec<u8>) = (Vec::new(alloc), Vec::new(alloc));
    let status = command(&rt, &words, b"".as_slice(), &mut output, false, &mut errors);
    let found = fs::read(&rt, wanted.as_str())?;
    assert!(rt; status == 0 && found.as_slice() == WHOLE && output.is_empty() && errors.is_empty());
    fs::remove_file(&rt, wanted.as_str())?;
    fs::remove_file(&rt, name)?;
    Ok(())
}

// The file of STREAM with an unknown number of samples, as a pipe gets it.
const UNKNOWN: &[u8] =
    b"RIFF\xff\xff\xff\xffWAVEfmt \x10\x00\x00\x00\x01\x00\x01\x00\x44\xac\x00\x00\x44\xac\x00\x00\x01\x00\x08\x00data\xff\xff\xff\xff\x81\x7e\x83\x00\xff";

// The same with one sample announced.
const ANNOUNCED: &[u8] =
    b"RIFF\x26\x00\x00\x00WAVEfmt \x10\x00\x00\x00\x01\x00\x01\x00\x44\xac\x00\x00\x44\xac\x00\x00\x01\x00\x08\x00data\x01\x00\x00\x00\x81\x7e\x83\x00\xff";

// Whether a stream in standard input comes to this.
fn pipes(
    rt: &HostRuntime,
    words: &[&str],
    stream: &[u8],
    status: u8,
    left: &[u8],
    said: &str,
) -> result::Result<bool, Fail> {
    let words = owned(rt.alloc(), words)?;
    let (mut output, mut errors): (Vec<u8>, Vec<u8>) = (Vec::new(rt.alloc()), Vec::new(rt.alloc()));
    let found = command(rt, &words, stream, &mut output, false, &mut errors);
    let is_said = errors.as_slice() == said.as_bytes();
    Ok(found == status && is_said && output.as_slice() == left)
}

#[test]
fn to_standard_output(rt: HostRuntime) -> result::Result<(), Fail> {
    let other = "standard input: 5 samples were found, but the streaminfo says 1\n";
    let rows: [(&[&str], [u8; 67], u8, &[u8], &str); 10] = [
        (&["-", "-"], with_samples(5), 0, WHOLE, ""),
        (&["-"], with_samples(0), 0, UNKNOWN, ""),
        (&["--", "-", "-"], with_samples(1), 1, ANNOUNCED, other),
        (&["-", "/dev/null"], with_samples(5), 0, b"", ""),
        (&["-", "/dev/null"], with_samples(0), 0, b"", ""),
        (&["-"], with_sum(5, &MD5_SUM), 0, WHOLE, ""),
        (&["-"], with_sum(0, &MD5_SUM), 0, UNKNOWN, ""),
        (
            &["-"],
            with_sum(5, &OTHER_SUM),
            1,
            WHOLE,
            OTHER_MD5_OF_INPUT,
        ),
        (
            &["-"],
            with_sum(0, &OTHER_SUM),
            1,
            UNKNOWN,
            OTHER_MD5_OF_INPUT,
        ),
        (&["-", "--no-md5"], with_sum(0, &OTHER_SUM), 0, UNKNOWN, ""),
    ];
    for (words, stream, status, left, said) in rows {
        assert!(rt;
            pipes(&rt, words, &stream, status, left, said)?,
            "{words:?} {said}"
        );
    }
    Ok(())
}

const OTHER_MD5_OF_INPUT: &str =
    "standard input: the MD5 sum of the samples isn't that of the streaminfo\n";

// Three channels of 16 bits with six samples each, in frames of three, one and two, and their file.
#[rattlefmt::skip]
const THREE_CHANNELS: [u8; 112] = [
    0x66, 0x4c, 0x61, 0x43, 0x80, 0x00, 0x00, 0x22, 0x00, 0x10, 0x00, 0x10, 0x00, 0x00, 0x00, 0x00, 0x00, 0x00, 0x0a, 0xc4, 0x44, 0xf0, 0x00, 0x00,
    0x00, 0x06, 0x00, 0x00, 0x00, 0x00, 0x00, 0x00, 0x00, 0x00, 0x00, 0x00, 0x00, 0x00, 0x00, 0x00, 0x00, 0x00, 0xff, 0xf8, 0x69, 0x28, 0x00, 0x02,
    0x50, 0x02, 0x00, 0x01, 0xff, 0xfe, 0x01, 0x2c, 0x02, 0x80, 0x00, 0x7f, 0xff, 0x00, 0x00, 0x02, 0x01, 0x00, 0xfe, 0xff, 0x00, 0x04, 0xee, 0x53,
    0xff, 0xf8, 0x69, 0x28, 0x01, 0x00, 0x4b, 0x00, 0x00, 0x07, 0x00, 0xff, 0xf8, 0x00, 0x00, 0x09, 0xb5, 0xa2, 0xff, 0xf8, 0x69, 0x28, 0x02, 0x01,
    0x73, 0x02, 0x00, 0x0a, 0xff, 0xf5, 0x00, 0x00, 0x0c, 0x02, 0xff, 0xff, 0x01, 0x02, 0x1e, 0xb8,
];

const THREE_CHANNELS_FILE: &[u8] =
    b"RIFF\x60\x00\x00\x00WAVEfmt \x28\x00\x00\x00\xfe\xff\x03\x00\x44\xac\x00\x00\x98\x09\x04\x00\x06\x00\x10\x00\x16\x00\x10\x00\x07\x00\x00\x00\
\x01\x00\x00\x00\x00\x00\x10\x00\x80\x00\x00\xaa\x00\x38\x9b\x71data\x24\x00\x00\x00\x01\x00\x00\x80\x00\x01\xfe\xff\xff\x7f\xff\xfe\x2c\x01\x00\x00\x04\x00\
\x07\x00\xf8\xff\x09\x00\x0a\x00\x0c\x00\xff\xff\xf5\xff\x0c\x00\x02\x01";

#[test]
fn three_channels(rt: HostRuntime) -> result::Result<(), Fail> {
    let words = owned(rt.alloc(), &["-"])?;
    let (mut output, mut errors): (Vec<u8>, Vec<u8>) = (Vec::new(rt.alloc()), Vec::new(rt.alloc()));
    let status = command(
        &rt,
        &words,
        THREE_CHANNELS.as_slice(),
        &mut output,
        false,
        &mut errors,
    );
    assert!(rt; status == 0 && errors.is_empty() && output.as_slice() == THREE_CHANNELS_FILE);
    Ok(())
}

// Whether a command line prints this text, has this status, and writes nothing.
fn is_refused(
    rt: &HostRuntime,
    words: &[&str],
    input: &[u8],
    status: u8,
    said: &str,
) -> result::Result<bool, Fail> {
    let words = owned(rt.alloc(), words)?;
    let mut output = Sink::new(8, 0, false, ErrorKind::StorageFull);
    let mut errors = Vec::new(rt.alloc());
    let found = command(rt, &words, input, &mut output, false, &mut errors);
    Ok(found == status && errors.as_slice() == said.as_bytes() && output.written().is_empty())
}

// The smallest head, for samples of 32 bits.
fn deep_head() -> [u8; 42] {
    let mut head = [0; 42];
    head.copy_from_slice(&STREAM[..42]);
    head[20..22].copy_from_slice(&[0x41, 0xf0]);
    head
}

// The fourth byte of a header with the bit depth code for 32 bits, and with the reserved one.
const CODE_OF_32_BITS: u8 = 0x0e;

const RESERVED_CODE: u8 = 0x06;

// These bytes, and the first five of a header of which this is the fourth.
fn with_header(alloc: Global, front: &[u8], fourth: u8) -> result::Result<Vec<u8>, Fail> {
    Ok(joined(alloc, &[front, &[0xff, 0xf8, 0x69, fourth, 0x00]])?)
}

const USAGE: &str =
    "usage: claxon wav [-f] [--no-md5] [--through-damage | --skip-damage] FILE [OUT.wav]\n";

const UNKNOWN_OPTION: &str =
    "claxon wav: unknown option -x\nusage: claxon wav [-f] [--no-md5] [--through-damage | --skip-damage] FILE [OUT.wav]\n";

const DEEP: &str = "standard input: 32-bit samples are not supported\n";

const RESERVED: &str =
    "standard input: Ill-formed FLAC stream: invalid frame header, encountered reserved value\n";

// The flush fails, after all was written.
#[test]
fn a_failed_flush(rt: HostRuntime) -> result::Result<(), Fail> {
    let words = owned(rt.alloc(), &["-"])?;
    let stream = with_samples(5);
    let mut output = Sink::new(64, 9, true, ErrorKind::StorageFull);
    let mut errors = Vec::new(rt.alloc());
    let status = command(
        &rt,
        &words,
        stream.as_slice(),
        &mut output,
        false,
        &mut errors,
    );
    assert!(rt; status == 1 && output.written() == WHOLE && output.flushes() == 1);
    assert!(rt; errors.as_slice() == b"standard output: no storage space\n".as_slice());
    Ok(())
}

// The output fails at each write.
#[test]
fn what_writes_nothing(rt: HostRuntime) -> result::Result<(), Fail> {
    let full = "standard output: no storage space\n";
    let stream = with_samples(5);
    assert!(rt; is_refused(&rt, &[], b"", 2, USAGE)?);
    assert!(rt; is_refused(&rt, &["a", "b", "c"], b"", 2, USAGE)?);
    assert!(rt; is_refused(&rt, &["a", "-x"], b"", 2, UNKNOWN_OPTION)?);
    assert!(rt; is_refused(&rt, &["--help"], b"", 1, full)?);
    assert!(rt; is_refused(&rt, &["--version"], b"", 1, full)?);
    assert!(rt; is_refused(&rt, &["-"], stream.as_slice(), 1, full)?);
    Ok(())
}

// The code alone says that samples have 32 bits, after any number of blocks, and not the streaminfo.
#[test]
fn refused_bit_depth_codes(rt: HostRuntime) -> result::Result<(), Fail> {
    let rows: [(&[u8], u8, &str); 6] = [
        (&deep_head(), CODE_OF_32_BITS, DEEP),
        (&STREAM[..42], CODE_OF_32_BITS, DEEP),
        (&STREAM[..55], CODE_OF_32_BITS, DEEP),
        (&deep_head(), RESERVED_CODE, RESERVED),
        (&STREAM[..42], RESERVED_CODE, RESERVED),
        (&STREAM[..55], RESERVED_CODE, RESERVED),
    ];
    for (front, fourth, said) in rows {
        let stream = with_header(rt.alloc(), front, fourth)?;
        let stream = stream.as_slice();
        assert!(rt;
            is_refused(&rt, &["-", "/dev/null"], stream, 1, said)?,
            "{fourth}"
        );
    }
    Ok(())
}

// One sample of 32 bits, 0x12345678, in a frame that leaves the bit depth to the streaminfo.
#[test]
fn samples_of_32_bits(rt: HostRuntime) -> result::Result<(), Fail> {
    let (words, alloc) = (owned(rt.alloc(), &["-"])?, rt.alloc());
    let stream = joined(alloc, &[&deep_head(), &DEEP_FRAME])?;
    let (mut output, mut errors): (Vec<u8>, Vec<u8>) = (Vec::new(alloc), Vec::new(alloc));
    let status = command(
        &rt,
        &words,
        stream.as_slice(),
        &mut output,
        false,
        &mut errors,
    );
    assert!(rt; status == 0 && errors.is_empty());
    assert!(rt; output.as_slice().ends_with(&[0x78, 0x56, 0x34, 0x12]));
    Ok(())
}
