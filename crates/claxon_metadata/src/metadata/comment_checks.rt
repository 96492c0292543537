//! Checks of Vorbis comments, for readers of streams and of bytes in memory.
ghost use Rattle.std.specs.Prelude.{◌≡◌};
ghost use Rattle.std.specs.List.{list_all, position};
ghost use Rattle.claxon_format.specs.Comments.{is_name_byte, is_separator};
ghost use Rattle.claxon_metadata.specs.VorbisComment.{SeparatorIsFound};

pub use claxon_input::error::NOT_UTF8;
use claxon_input::error::{Error, Result};

/// The text of the error for a block without the vendor string's length and the number of entries.
pub const BLOCK_TOO_SHORT: &str = "Vorbis comment block is too short";

/// The text of the error for a vendor string that would end after its block.
pub const VENDOR_TOO_LONG: &str = "vendor string too long";

/// The text of the error for an entry that would end after its block.
pub const ENTRY_TOO_LONG: &str = "Vorbis comment too long for Vorbis comment block";

/// The text of the error for a block with bytes after its last entry.
pub const EXCESS_DATA: &str = "Vorbis comment block has excess data";

/// The index of the first `=` of an entry, which is where its name ends.
///
/// That the entry is UTF-8 isn't checked: `NOT_UTF8` is the fault of one that isn't.
///
/// # Errors
///
/// `FormatError` if there is no `=`, or if the name has an invalid byte.
pub fn separator_of(entry: &[u8]) -> Result<usize>
    ensures separator_is_found { SeparatorIsFound entry.now result }
{
    let Some(place) = first_separator(entry) else {
        return Err(Error::FormatError("Vorbis comment does not contain '='"));
    };
    if !is_name(&entry[..place]) {
        return Err(Error::FormatError("Vorbis comment field name contains invalid byte"));
    }
    Ok(place)
}

// The index of the first `=`.
fn first_separator(entry: &[u8]) -> Option<usize>
    ensures { result ≡ position is_separator entry.now }
{
    entry.iter().position(|byte| *byte == b'=')
}

// Whether all bytes are valid in a name.
fn is_name(bytes: &[u8]) -> bool
    ensures { result ≡ list_all is_name_byte bytes.now }
{
    bytes.iter().all(|byte| (0x20..=0x7d).contains(byte))
}
