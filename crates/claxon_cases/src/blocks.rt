//! Metadata blocks: the bytes consumed, and the contents of the block.
use crate::replay::Case;
use claxon::metadata::{MetadataBlock, StreamInfo, VorbisComment, read_metadata_block};
use claxon::{Error, Result};
use claxon_command_line::result_text::ResultText;
use std::alloc::Global;
use std::io::Cursor;

/// Adds `ok BYTES block`, `BYTES text` or `IO`.
pub fn answer_of_block(alloc: Global, case: &Case, answer: &mut ResultText) {
    let Ok(block_type) = u8::try_from(case.number) else {
        answer.text("no case");
        return;
    };
    let mut input = Cursor::new(case.bytes.as_slice());
    let outcome = read_metadata_block(alloc, &mut input, block_type, case.length);
    add_outcome(&outcome, input.position(), answer);
}

fn add_outcome(outcome: &Result<MetadataBlock>, taken: u64, answer: &mut ResultText) {
    match outcome {
        Ok(block) => {
            answer.counts(&[("ok ", taken)]);
            answer.text(" ");
            add_block(block, answer);
        }
        Err(Error::IoError(_)) => answer.text("IO"),
        Err(error) => {
            answer.value(&taken);
            answer.text(" ");
            answer.fault(error);
        }
    }
}

fn add_block(block: &MetadataBlock, answer: &mut ResultText) {
    match block {
        MetadataBlock::StreamInfo(info) => add_streaminfo(info, answer),
        MetadataBlock::Padding { length } => answer.counts(&[("padding ", u64::from(*length))]),
        MetadataBlock::Application { id, bytes } => {
            answer.counts(&[("application ", u64::from(*id))]);
            if !bytes.is_empty() {
                answer.text(" ");
            }
            answer.hexadecimal(bytes);
        }
        MetadataBlock::VorbisComment(comment) => add_comment(comment, answer),
        MetadataBlock::SeekTable(_) => answer.text("seek table"),
        MetadataBlock::CueSheet => answer.text("cue sheet"),
        MetadataBlock::Picture => answer.text("picture"),
        MetadataBlock::Reserved => answer.text("reserved"),
    }
}

fn add_comment(comment: &VorbisComment, answer: &mut ResultText) {
    answer.text("comment ");
    answer.quoted(&comment.vendor);
    answer.text(" ");
    answer.quoted(&comment.comments);
}

/// Adds the values of a streaminfo.
pub fn add_streaminfo(info: &StreamInfo, answer: &mut ResultText) {
    answer.text("streaminfo ");
    answer.streaminfo(info);
}
