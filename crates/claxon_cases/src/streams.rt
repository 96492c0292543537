//! Streams: their heads, samples and blocks, and whether the other calls agree.
use crate::answers::AnswerText;
use crate::blocks::add_streaminfo;
use crate::heads::shown_in_pieces;
use crate::replay::Case;
use crate::samples::gather;
use claxon::input::BufferedReader;
use claxon::metadata::{StreamInfo, Tags};
use claxon::{Block, FlacReader, FlacReaderOptions, Result, read_head};
use claxon_command_line::result_text::ResultText;
use claxon_write::{Output, run, write_samples};
use std::alloc::Global;
use std::io::{Cursor, Read};

// How many bytes are handed in at once.
pub const PIECES: [usize; 3] = [1, 7, 1 << 20];

type Opened<'a> = Result<FlacReader<Cursor<&'a [u8]>>>;

/// Adds the head of the stream, and unless it was opened for its metadata only its samples, its blocks and how they end; then
/// the calls that disagree, if any do.
pub fn answer_of_stream(alloc: Global, case: &Case, answer: &mut ResultText) {
    if case.number > 3 {
        answer.text("no case");
        return;
    }
    add_opened(&open(alloc, case), answer);
    if has_contents(&open(alloc, case)) {
        add_contents(alloc, case, answer);
    }
    add_calls_that_disagree(alloc, &case.bytes, answer);
}

/// Adds the calls over a stream whose heads, results or output differ from those of the others.
pub fn add_calls_that_disagree(alloc: Global, bytes: &[u8], answer: &mut ResultText) {
    add_other_heads(alloc, bytes, answer);
    add_other_runs(alloc, bytes, answer);
}

const fn options_of(number: u32) -> FlacReaderOptions {
    FlacReaderOptions {
        metadata_only: number & 1 != 0,
        read_vorbis_comment: number & 2 != 0,
    }
}

fn open<'a>(alloc: Global, case: &'a Case) -> Opened<'a> {
    let input = Cursor::new(case.bytes.as_slice());
    FlacReader::new_ext(alloc, input, options_of(case.number))
}

fn has_contents(opened: &Opened<'_>) -> bool {
    match opened {
        Ok(flac) => !flac.is_metadata_only(),
        Err(_) => false,
    }
}

fn add_opened(opened: &Opened<'_>, answer: &mut ResultText) {
    match opened {
        Ok(flac) => add_head(&flac.streaminfo(), flac.vendor(), flac.tags(), answer),
        Err(error) => answer.fault(error),
    }
}

// The vendor, or `-` if there is none, the tags, and the streaminfo.
fn add_head(info: &StreamInfo, vendor: Option<&str>, tags: Tags<'_>, answer: &mut ResultText) {
    match vendor {
        Some(vendor) => answer.parts(&["<", vendor, "> "]),
        None => answer.text("- "),
    }
    for (name, value) in tags {
        answer.parts(&[name, "=", value, " "]);
    }
    add_streaminfo(info, answer);
}

// The number of samples, the first of them, the first blocks, and how both end.
fn add_contents(alloc: Global, case: &Case, answer: &mut ResultText) {
    let most = case.length as usize;
    let mut samples = Vec::new(alloc);
    let (mut end, mut end_of_blocks) = (ResultText::new(alloc), ResultText::new(alloc));
    end.end(&samples_of(open(alloc, case), &mut samples));
    answer.counts(&[("; ", samples.len() as u64)]);
    answer.text(" samples");
    add_first(&samples, most, answer);
    end_of_blocks.end(&add_blocks(alloc, open(alloc, case), most, answer));
    answer.text("; ");
    answer.bytes(end.as_bytes());
    answer.difference(&end, &end_of_blocks, "; the blocks end otherwise: ");
}

fn samples_of(opened: Opened<'_>, samples: &mut Vec<i32>) -> Result<()> {
    gather(&mut opened?, samples)
}

fn add_first(samples: &[i32], most: usize, answer: &mut ResultText) {
    answer.samples(samples.get(..most).unwrap_or(samples));
}

// Calls `blocks` again for each block.
fn add_blocks(
    alloc: Global,
    opened: Opened<'_>,
    most: usize,
    answer: &mut ResultText,
) -> Result<()> {
    let mut flac = opened?;
    for count in 0..usize::MAX {
        let Some(block) = next_block(alloc, &mut flac)? else {
            break;
        };
        if count < most {
            add_block(block, most, answer);
        }
    }
    Ok(())
}

fn next_block<R: Read + Drop>(alloc: Global, flac: &mut FlacReader<R>) -> Result<Option<Block>> {
    if flac.is_metadata_only() {
        return Ok(None);
    }
    flac.blocks().read_next_or_eof(Vec::new(alloc))
}

// The time, the channels, the duration, and the first samples, channel after channel.
fn add_block(block: Block, most: usize, answer: &mut ResultText) {
    answer.counts(&[
        ("; block ", block.time()),
        (" ", u64::from(block.channels())),
        ("x", u64::from(block.duration())),
    ]);
    add_first(&block.into_buffer(), most, answer);
}

// With each choice of options a reader has the head that `read_head` returns, and that is answered where the bytes are handed in in
// pieces; and without options the default one.
fn add_other_heads(alloc: Global, bytes: &[u8], answer: &mut ResultText) {
    for number in 0..4 {
        let one = shown(alloc, bytes, options_of(number));
        let alone = shown_alone(alloc, bytes, options_of(number));
        answer.difference(&one, &alone, "; read_head shows otherwise: ");
        for size in PIECES {
            let pieces = shown_in_pieces(alloc, bytes, options_of(number), size);
            answer.difference(&one, &pieces, "; in pieces: ");
        }
    }
    let one = shown(alloc, bytes, options_of(2));
    let mut other = ResultText::new(alloc);
    add_opened(&FlacReader::new(alloc, Cursor::new(bytes)), &mut other);
    answer.difference(&one, &other, "; new shows otherwise: ");
}

fn shown(alloc: Global, bytes: &[u8], options: FlacReaderOptions) -> ResultText {
    let mut text = ResultText::new(alloc);
    add_opened(
        &FlacReader::new_ext(alloc, Cursor::new(bytes), options),
        &mut text,
    );
    text
}

fn shown_alone(alloc: Global, bytes: &[u8], options: FlacReaderOptions) -> ResultText {
    let mut text = ResultText::new(alloc);
    if let Err(error) = add_head_alone(alloc, bytes, options, &mut text) {
        text.fault(&error);
    }
    text
}

fn add_head_alone(
    alloc: Global,
    bytes: &[u8],
    options: FlacReaderOptions,
    answer: &mut ResultText,
) -> Result<()> {
    let mut input = BufferedReader::new(alloc, Cursor::new(bytes))?;
    match read_head(alloc, &mut input, options)? {
        (info, Some(comment)) => {
            let tags = Tags::new(comment.comments.as_slice());
            add_head(&info, Some(comment.vendor.as_str()), tags, answer);
        }
        (info, None) => add_head(&info, None, Tags::new(&[]), answer),
    }
    Ok(())
}

// `run` has the result and the output of opening the stream and writing its samples.
fn add_other_runs(alloc: Global, bytes: &[u8], answer: &mut ResultText) {
    let (mut one, mut other) = (Vec::new(alloc), Vec::new(alloc));
    let end = count_of(alloc, &run(alloc, Cursor::new(bytes), &mut one));
    let want = count_of(alloc, &open_and_write(alloc, bytes, &mut other));
    answer.difference(&want, &end, "; run ends otherwise: ");
    if one.as_slice() != other.as_slice() {
        answer.text("; run writes otherwise");
    }
}

fn count_of(alloc: Global, outcome: &Result<u64>) -> ResultText {
    let mut text = ResultText::new(alloc);
    match outcome {
        Ok(count) => text.value(count),
        Err(error) => text.fault(error),
    }
    text
}

fn open_and_write(alloc: Global, bytes: &[u8], output: &mut Vec<u8>) -> Result<u64> {
    let mut flac = FlacReader::new(alloc, Cursor::new(bytes))?;
    write_samples(alloc, &mut flac, &mut Output::new(output))
}
