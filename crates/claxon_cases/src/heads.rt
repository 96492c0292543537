//! Heads whose bytes are handed in in pieces.
use crate::answers::AnswerText;
use crate::blocks::add_streaminfo;
use claxon::metadata::{MetadataBlock, StreamInfo, VorbisComment};
use claxon::{FlacReaderOptions, Result};
use claxon_command_line::result_text::ResultText;
use claxon_stream::{HeadDecoder, HeadEvent};
use std::alloc::Global;

// More bytes than a line has.
const MAX_BYTES: usize = 1 << 30;

// What is kept of the answers so far.
#[derive(Drop)]
struct Kept {
    info: Option<StreamInfo>,
    comment: Option<VorbisComment>,
}

/// What is shown of a head whose bytes are handed in in pieces of this size: the same as of one that `read_head` returns. The caller
/// drops the bytes that aren't needed.
pub fn shown_in_pieces(
    alloc: Global,
    bytes: &[u8],
    options: FlacReaderOptions,
    size: usize,
) -> ResultText {
    let mut answer = ResultText::new(alloc);
    let mut head = HeadDecoder::new(0, options);
    let mut kept = Kept {
        info: None,
        comment: None,
    };
    let mut read = 0;
    for _ in 0..u64::MAX {
        match next_event(alloc, &mut head, bytes, read) {
            Ok(HeadEvent::ReadOn(_)) => read = read.saturating_add(size),
            Ok(HeadEvent::Block(block)) => keep(block, options, &mut kept),
            Ok(HeadEvent::Marker) => {}
            Ok(HeadEvent::Header(_)) => {}
            event => {
                add_end(&event, &kept, &mut answer);
                break;
            }
        }
    }
    answer
}

// What is answered where so many bytes were read.
fn next_event(
    alloc: Global,
    head: &mut HeadDecoder,
    bytes: &[u8],
    read: usize,
) -> Result<HeadEvent> {
    let end = read.min(bytes.len()).min(MAX_BYTES);
    let at = end.min(head.position() as usize);
    head.decode_next(alloc, &bytes[at..end], at as u64, read >= bytes.len())
}

fn keep(block: MetadataBlock, options: FlacReaderOptions, kept: &mut Kept) {
    match block {
        MetadataBlock::StreamInfo(info) => kept.info = Some(info),
        MetadataBlock::VorbisComment(comment) if options.read_vorbis_comment => {
            kept.comment = Some(comment);
        }
        _ => {}
    }
}

fn add_end(event: &Result<HeadEvent>, kept: &Kept, answer: &mut ResultText) {
    match (event, &kept.info) {
        (Ok(HeadEvent::Whole(_)), Some(info)) => {
            add_comment(&kept.comment, answer);
            add_streaminfo(info, answer);
        }
        (Ok(HeadEvent::Faulty(fault)), _) => answer.fault(&fault.error),
        (Ok(HeadEvent::Cut(_)), _) => answer.text("IO"),
        (Err(error), _) => answer.fault(error),
        _ => answer.text("no event"),
    }
}

// The vendor, or `-` if there is none, and the entries, which are names and values.
fn add_comment(comment: &Option<VorbisComment>, answer: &mut ResultText) {
    match comment {
        Some(comment) => {
            answer.parts(&["<", comment.vendor.as_str(), "> "]);
            for (entry, _) in comment.comments.iter() {
                answer.parts(&[entry.as_str(), " "]);
            }
        }
        None => answer.text("- "),
    }
}
