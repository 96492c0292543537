//! What calls return: a status, and a text for an error.
ghost use Rattle.claxon_c.specs.Status.{ErrorIsReported, TextIsPut, status_text};

use claxon::Error;

pub(crate) const OK: u32 = 0;

pub(crate) const FORMAT_ERROR: u32 = 1;

pub(crate) const UNSUPPORTED: u32 = 2;

pub(crate) const INPUT_ENDS: u32 = 3;

pub(crate) const OUT_OF_MEMORY: u32 = 4;

pub(crate) const NO_MORE: u32 = 5;

pub(crate) const BUFFER_TOO_SMALL: u32 = 6;

pub(crate) const OVER_BUDGET: u32 = 7;

pub(crate) const NEED_MORE: u32 = 100;

/// Writes what a status means, of `claxon_stream.h` too.
#[unsafe(no_mangle)]
pub extern "C" fn claxon_status_text(status: u32, text: &mut [u8])
    ensures is_put { TextIsPut (status_text status) text.old text.new }
{
    let meaning = match status {
        0 => "ok",
        1 => "the stream is ill-formed",
        2 => "the stream has something that isn't supported",
        3 => "the bytes end too early",
        4 => "out of memory",
        5 => "there is no more",
        6 => "the samples don't fit",
        7 => "the search stopped at its budget",
        100 => "more bytes are needed",
        101 => "reading or seeking failed",
        _ => "unknown status",
    };
    put_text(meaning, text);
}

// Writes as much of the text as fits, and a zero byte after it.
pub(crate) fn put_text(text: &str, output: &mut [u8])
    ensures is_put { TextIsPut text.now output.old output.new }
{
    let capacity = output.len();
    if capacity > 0 {
        let bytes = text.as_bytes();
        let count = bytes.len().min(capacity - 1);
        output[..count].copy_from_slice(&bytes[..count]);
        output[count] = 0;
    }
}

// The status of the error, whose text is written.
pub(crate) fn report(error: &Error, output: &mut [u8]) -> u32
    ensures is_reported { ErrorIsReported error.now result output.old output.new }
{
    match error {
        Error::FormatError(reason) => {
            put_text(reason, output);
            FORMAT_ERROR
        }
        Error::Unsupported(feature) => {
            put_text(feature, output);
            UNSUPPORTED
        }
        Error::IoError(_) => {
            put_text("the bytes end", output);
            INPUT_ENDS
        }
        Error::OutOfMemory => {
            put_text("out of memory", output);
            OUT_OF_MEMORY
        }
    }
}
