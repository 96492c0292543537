//! Streams from their head to their last block.
ghost use Rattle.std.specs.Prelude.{Option, Some, ◌≡◌, ◌≤◌, true, false, []};
ghost use Rattle.std.specs.Option.{option_map};
ghost use Rattle.claxon_format.specs.Tags.{values};
ghost use Rattle.claxon_metadata.specs.MetadataBlock.{HasBounds};

use crate::error::Result;
use crate::head::{FlacReaderOptions, Head, read_head};
use crate::input::BufferedReader;
use crate::samples::FlacSamples;
use claxon_frame::frame::FrameReader;
use claxon_metadata::metadata::{GetTag, StreamInfo, Tags};
use std::alloc::{Allocator, Global};
use std::fs::File;
use std::io::Read;
use std::path::AsPath;
use std::rt::Files;

/// A FLAC stream whose head was read.
///
/// ```
/// let mut flac = FlacReader::open(rt, "music.flac")?;
/// let info = flac.streaminfo();
/// for artist in flac.get_tag("artist") {
///     println!(rt; "{artist}")?;
/// }
/// for sample in flac.samples().take(usize::MAX) {
///     sum = sum.wrapping_add(i64::from(sample?));
/// }
/// ```
#[derive(Drop)]
pub struct FlacReader<R, A: Allocator = Global> {
    head: Head<A>,
    metadata_only: bool,
    input: BufferedReader<R, A>,
    alloc: A,
}

impl<R: Read, A: Allocator + Copy> FlacReader<R, A> {
    ghost use Rattle.std.specs.Borrow.{sem};
    ghost use Rattle.claxon_format.specs.Streams.{with_samples};
    ghost use Rattle.claxon.specs.ReadHead.{options_view};
    ghost use Rattle.claxon.specs.Opening.{
      OpenFaultIsComplete,
      OpenIsComplete,
      ErrNamesFault,
      OpenFaultIsSound,
      OpenIsSound,
      OpenElseIoError,
      NoReadFailed,
      ShowsCommentIfRead,
      ShowsMetadataOnly,
    };
    ghost use Rattle.claxon_frame.specs.FrameReader.{frame_input, frame_stream, stream_with};
    ghost use Rattle.claxon_input.specs.BufferedReader.{buffered_inner};
    ghost use Rattle.claxon.specs.FlacSamples.{have_failed, samples_left, samples_stream};
    ghost use Rattle.claxon.specs.ShownHead.{HasBitDepth};
    ghost use Rattle.claxon.specs.FlacReader.{
      LendsInput,
      LendsBlocks,
      LendsSamples,
      flac_input,
      flac_metadata_only,
      flac_streaminfo,
      samples_input,
      tags_of,
      vendor_of,
    };
    ghost use Rattle.claxon_metadata.specs.Tags.{remaining_tags, remaining_values};

    /// Reads the head of a stream, with the default options.
    ///
    /// The reader is wrapped in a buffer here, so it needs none of its own. Frames are read when they are asked for.
    ///
    /// ```
    /// let mut flac = FlacReader::new(alloc, Cursor::new(bytes))?;
    /// ```
    ///
    /// # Errors
    ///
    /// `FormatError` where the bytes aren't a head of a stream. `Unsupported` where a block of comments or of an application
    /// says that it is larger than 10 MiB, or where there are more than 65,536 blocks: a small file can't ask for much
    /// memory or time. `IoError` where the reader fails or its bytes end inside the head, `OutOfMemory` where memory is
    /// refused. The reader is dropped then.
    pub fn new(alloc: A, reader: R) -> Result<FlacReader<R, A>>
    where
        R: Drop,
        // Its blocks and samples can be read.
        ensures shows_metadata_only { ShowsMetadataOnly false result }
        ensures err_names_fault { ErrNamesFault result }
        ensures no_read_failed { NoReadFailed R.remaining result }
        ensures is_sound { OpenIsSound R.remaining (with_samples true) reader result }
        ensures is_complete { OpenIsComplete R.remaining (with_samples true) reader result }
        ensures fault_is_sound { OpenFaultIsSound R.remaining (with_samples true) reader result }
        ensures fault_is_complete { OpenFaultIsComplete R.remaining (with_samples true) reader
            result }
        ensures else_io_error { OpenElseIoError R.remaining (with_samples true) reader result }
    {
        FlacReader::new_ext(alloc, reader, FlacReaderOptions::default())
    }

    /// Reads the head of a stream, as far as the options say.
    ///
    /// # Errors
    ///
    /// Those of `new`. The reader is dropped then.
    pub fn new_ext(alloc: A, reader: R, options: FlacReaderOptions) -> Result<FlacReader<R, A>>
    where
        R: Drop,
        ensures shows_metadata_only { ShowsMetadataOnly options.metadata_only result }
        ensures shows_comment_if_read { ShowsCommentIfRead options.read_vorbis_comment result }
        ensures err_names_fault { ErrNamesFault result }
        ensures no_read_failed { NoReadFailed R.remaining result }
        ensures is_sound { OpenIsSound R.remaining (options_view options) reader result }
        ensures is_complete { OpenIsComplete R.remaining (options_view options) reader result }
        ensures fault_is_sound { OpenFaultIsSound R.remaining (options_view options) reader result }
        ensures fault_is_complete { OpenFaultIsComplete R.remaining (options_view options) reader
            result }
        ensures else_io_error { OpenElseIoError R.remaining (options_view options) reader result }
    {
        let mut input = BufferedReader::new(alloc, reader)?;
        let (streaminfo, vorbis_comment) = read_head(alloc, &mut input, options)?;
        Ok(FlacReader {
            head: Head::new(streaminfo, vorbis_comment),
            metadata_only: options.metadata_only,
            input,
            alloc,
        })
    }

    /// The streaminfo: sample rate, channels, bits per sample, number of samples, sizes of blocks and frames, and MD5
    /// sum.
    ///
    /// Frames aren't compared with it, and the sum isn't computed.
    pub fn streaminfo(&self) -> StreamInfo
        ensures value { result ≡ flac_streaminfo self.now }
        ensures has_bounds { HasBounds result }
        ensures channels { (1 ≤ result.channels) × (result.channels ≤ 8) }
        ensures has_bit_depth { HasBitDepth result }
    {
        self.head.streaminfo()
    }

    /// The name of the program that wrote the stream, as `reference libFLAC 1.4.2 20221022`, where comments are shown.
    pub fn vendor(&self) -> Option<&str>
        ensures { option_map (λ text. text.now) result ≡ vendor_of self.now }
    {
        self.head.vendor()
    }

    /// The names and values of all tags, in order.
    ///
    /// A name may occur more than once, as `ARTIST` does where several play. Its bytes are from 0x20 to 0x7D, in the case
    /// that the stream has; a value is any text.
    pub fn tags<'a>(&'a self) -> Tags<'a, A>
        ensures { remaining_tags result ≡ tags_of self.now }
    {
        self.head.tags()
    }

    /// The values of the tags of this name, in order. The letters A to Z match in upper and lower case, other letters
    /// don't: no tag has a name that holds one of those.
    pub fn get_tag<'a>(&'a self, tag_name: &'a str) -> GetTag<'a, A>
        ensures { remaining_values result ≡ values tag_name.now (tags_of self.now) }
    {
        self.head.get_tag(tag_name)
    }

    /// Whether the reader was made with `metadata_only`, and so can't give samples.
    pub fn is_metadata_only(&self) -> bool
        ensures { result ≡ flac_metadata_only self.now }
    {
        self.metadata_only
    }

    /// The byte buffer, at the next byte that wasn't consumed.
    pub fn input(&mut self) -> &mut BufferedReader<R, A>
        ensures* writes_back { sem 𝓛 (LendsInput R.row A.row A.Allocator self.entry result) }
        ensures input { result.now ≡ flac_input self.old }
    {
        &mut self.input
    }

    /// A reader of the blocks from here on. What it hasn't consumed when it is dropped is left for a later one.
    ///
    /// This is the fast way: a block's samples are in memory channel by channel. A buffer whose capacity is the
    /// streaminfo's `max_block_size` times `channels` holds each block of a stream that keeps to its streaminfo, and
    /// then no memory is allocated.
    ///
    /// ```
    /// let mut blocks = flac.blocks();
    /// while let Some(block) = blocks.read_next_or_eof(buffer)? {
    ///     // block.channel(0), block.stereo_samples() ..
    ///     buffer = block.into_buffer();
    /// }
    /// ```
    pub fn blocks(&mut self) -> FrameReader<&mut BufferedReader<R, A>>
        requires { flac_metadata_only self.old ≡ false }
        ensures* writes_back { sem 𝓛 (LendsBlocks R.row A.row A.Allocator self.entry result) }
        // It continues at the next byte that wasn't consumed.
        ensures input { (frame_input result).now ≡ flac_input self.old }
        ensures stream { frame_stream result ≡ Some (stream_with (flac_streaminfo self.old)) }
    {
        let info = self.head.streaminfo();
        FrameReader::with_streaminfo(&mut self.input, info)
    }

    /// An iterator over the samples from here on, the channels interleaved. A block of which a sample was given is
    /// consumed whole, so its other samples are lost when the iterator is dropped.
    ///
    /// Each sample is a `Result`, which costs more than the sample: where speed counts, take `blocks`.
    ///
    /// ```
    /// for sample in flac.samples().take(usize::MAX) {
    ///     sum = sum.wrapping_add(i64::from(sample?));
    /// }
    /// ```
    pub fn samples(&mut self) -> FlacSamples<&mut BufferedReader<R, A>, A>
        requires { flac_metadata_only self.old ≡ false }
        ensures* writes_back { sem 𝓛 (LendsSamples R.row A.row A.Allocator self.entry result) }
        // It continues at the next byte that wasn't consumed.
        ensures input { (samples_input result).now ≡ flac_input self.old }
        ensures stream { samples_stream result ≡ Some (stream_with (flac_streaminfo self.old)) }
        ensures none_left { samples_left result ≡ [] }
        ensures goes_on { have_failed result ≡ false }
    {
        let (alloc, info) = (self.alloc, self.head.streaminfo());
        FlacSamples::new(alloc, &mut self.input, info)
    }

    /// The wrapped reader. Buffered bytes are lost.
    pub fn into_inner(self) -> R
        ensures { result ≡ buffered_inner (flac_input self) }
    {
        let FlacReader {
            head: _,
            metadata_only: _,
            input,
            alloc: _,
        } = self;
        input.into_inner()
    }
}

impl FlacReader<File> {
    ghost use Rattle.claxon.specs.Opening.{
      ErrNamesFault,
      NoReadFailed,
      ShowsCommentIfRead,
      ShowsMetadataOnly,
      file_remaining,
    };

    /// Opens a file and reads its head, with the default options. The file needs no `BufReader`.
    ///
    /// ```
    /// let mut flac = FlacReader::open(rt, "music.flac")?;
    /// ```
    ///
    /// # Errors
    ///
    /// Those of `new`, and an `IoError` where the file can't be opened.
    pub fn open<Q: Files<File = File> + AllocGlobal, P: AsPath>(
        rt: &Q,
        filename: P,
    ) -> Result<FlacReader<File>>
        // Its blocks and samples can be read.
        ensures shows_metadata_only { ShowsMetadataOnly false result }
        ensures err_names_fault { ErrNamesFault result }
        ensures no_read_failed { NoReadFailed file_remaining result }
    {
        FlacReader::open_ext(rt, filename, FlacReaderOptions::default())
    }

    /// Opens a file and reads its head, as far as the options say.
    ///
    /// # Errors
    ///
    /// Those of `open`.
    pub fn open_ext<Q: Files<File = File> + AllocGlobal, P: AsPath>(
        rt: &Q,
        filename: P,
        options: FlacReaderOptions,
    ) -> Result<FlacReader<File>>
        ensures shows_metadata_only { ShowsMetadataOnly options.metadata_only result }
        ensures shows_comment_if_read { ShowsCommentIfRead options.read_vorbis_comment result }
        ensures err_names_fault { ErrNamesFault result }
        ensures no_read_failed { NoReadFailed file_remaining result }
    {
        let file = File::open(rt, filename)?;
        FlacReader::new_ext(rt.alloc(), file, options)
    }
}
