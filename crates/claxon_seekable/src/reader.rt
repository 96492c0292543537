//! A stream that can be read from any sample on.
ghost use Rattle.std.specs.Prelude.{◌≡◌, ◌-◌, ◌^◌, ◌<◌, IfOk};
ghost use Rattle.std.specs.Option.{option_map};
ghost use Rattle.claxon.specs.Error.{IsIo};
ghost use Rattle.claxon.specs.MetadataBlock.{HasBounds};
ghost use Rattle.claxon.specs.ShownHead.{HasBitDepth};
ghost use Rattle.claxon_format.specs.Tags.{values};

use crate::frames::SourceFrames;
use claxon::frame::{BlockInfo, FrameResult};
use claxon::input::{BufferedReader, ReadBytes};
use claxon::metadata::{GetTag, Head, StreamInfo, Tags};
use claxon::{Error, FlacReaderOptions, Result, read_head};
use claxon_stream::Event;
use claxon_stream_seek::{Clock, Seeker};
use std::alloc::Global;
use std::io;
use std::io::{Read, Seek};

/// A FLAC stream in a source that can seek, as a file or a `Cursor`.
///
/// ```
/// let mut flac = SeekableReader::new(alloc, file)?;
/// if let Some(found) = flac.seek(sample)? {
///     let mut passed = sample - found.time;
///     while let Some(block) = flac.read_next_or_eof(buffer)? {
///         // The first block's samples from `passed` on, then all of the next ones ..
///         passed = 0;
///         buffer = block.into_buffer();
///     }
/// }
/// ```
#[derive(Drop)]
pub struct SeekableReader<R> {
    head: Head,
    first_frame: u64,
    frames: SourceFrames<R>,
    clock: Clock,
    // Whether the clock has to be told the first frames before a seek.
    needs_first_frames: bool,
    alloc: Global,
    ghost placed: { first_frame < 2 ^ 64 - 1 },
}

impl<R: Read + Seek> SeekableReader<R> {
    ghost use Rattle.claxon.specs.Opening.{ErrNamesFault};
    ghost use Rattle.claxon.specs.Tags.{remaining_tags, remaining_values};
    ghost use Rattle.claxon_seekable.specs.SeekableReader.{
      ElseStays,
      EventIsNoted,
      GoesToFrames,
      GoesToSample,
      HeadIsShown,
      KeepsStream,
      NextFaultIsSound,
      NextHasSample,
      NextIsComplete,
      NextIsCounted,
      NextIsNoted,
      NextIsSound,
      NextKeepsBytes,
      NextNoneIsEof,
      NoteIsCounted,
      SearchesStay,
      SeekIsCounted,
      bytes_read,
      first_frame,
      next_event_is,
      reader_position,
      shown_streaminfo,
      shown_tags,
      shown_vendor,
      wrapped,
    };

    /// Reads the head of the stream that begins where the source is, with its comments. The reader is then at the first frame.
    ///
    /// It holds bytes in memory, so the source needs no `BufReader`.
    ///
    /// # Errors
    ///
    /// Those of `read_head`, and an `IoError` if the source doesn't tell its position. The source is dropped then.
    pub fn new(alloc: Global, reader: R) -> Result<SeekableReader<R>>
    where
        R: Drop,
        ensures at_first_frame { IfOk result (λ flac. reader_position flac ≡ first_frame flac) }
        ensures head_is_shown { HeadIsShown R.remaining reader result }
        ensures err_names_fault { ErrNamesFault result }
    {
        let options = FlacReaderOptions {
            metadata_only: false,
            read_vorbis_comment: true,
        };
        let mut input = BufferedReader::new(alloc, reader)?;
        let (streaminfo, vorbis_comment) = read_head(alloc, &mut input, options)?;
        let unread = input.buffered().len() as u64;
        let mut source = input.into_inner();
        let position = source.stream_position()?.saturating_sub(unread);
        let first_frame = position.min(u64::MAX - 1);
        let clock = Clock::new(Some(streaminfo));
        Ok(SeekableReader {
            head: Head::new(streaminfo, vorbis_comment),
            first_frame,
            frames: SourceFrames::new(alloc, source, first_frame),
            clock,
            needs_first_frames: clock.needs_frames(),
            alloc,
        })
    }

    /// The streaminfo. Frames aren't compared with it.
    pub fn streaminfo(&self) -> StreamInfo
        ensures value { result ≡ shown_streaminfo self.now }
        ensures has_bounds { HasBounds result }
        ensures has_bit_depth { HasBitDepth result }
    {
        self.head.streaminfo()
    }

    /// The name of the program that wrote the stream, if the stream has a Vorbis comment.
    pub fn vendor(&self) -> Option<&str>
        ensures { option_map (λ text. text.now) result ≡ shown_vendor self.now }
    {
        self.head.vendor()
    }

    /// The names and values of all tags, in order.
    pub fn tags<'a>(&'a self) -> Tags<'a, Global>
        ensures { remaining_tags result ≡ shown_tags self.now }
    {
        self.head.tags()
    }

    /// The values of the tags of this name, in order.
    pub fn get_tag<'a>(&'a self, tag_name: &'a str) -> GetTag<'a, Global>
        ensures { remaining_values result ≡ values tag_name.now (shown_tags self.now) }
    {
        self.head.get_tag(tag_name)
    }

    /// The position in the source of the next byte that isn't consumed.
    pub fn position(&self) -> u64
        ensures { result ≡ reader_position self.now }
    {
        self.frames.position()
    }

    /// The wrapped reader. It can be at any position.
    pub fn into_inner(self) -> R
        ensures { result ≡ wrapped self }
    {
        let SeekableReader {
            head: _,
            first_frame: _,
            frames,
            clock: _,
            needs_first_frames: _,
            alloc: _,
        } = self;
        frames.into_source()
    }

    /// Goes to a frame whose block has the sample, `time <= sample < time + duration`, and returns what its header says, with
    /// the time by a `Clock`, where that knows it.
    ///
    /// `read_next_or_eof` then returns that block. The frame has the number of channels and the bit depth of the streaminfo.
    /// Headers between known times lead there, and where they don't, as in a damaged stream, all frames are searched. A seek
    /// table isn't read.
    ///
    /// None if no frame was found. The reader is then where it was, and so it is after an error. That a frame is found wherever
    /// there is one is tested, not promised. The time is linear in the bytes.
    ///
    /// # Errors
    ///
    /// `IoError` if a read or a seek of the source fails, or if very many headers of blocks with the sample lead to no frame,
    /// as in bytes that were made on purpose. `OutOfMemory` if memory is refused. The call can be made again.
    pub fn seek(&mut self, sample: u64) -> Result<Option<BlockInfo>>
        ensures goes_to_sample { GoesToSample sample self.old result self.new }
        ensures goes_to_frames { GoesToFrames sample self.old result self.new }
        ensures else_stays { ElseStays self.old result self.new }
        ensures is_counted { SeekIsCounted self.old result self.new }
        ensures keeps_stream { KeepsStream self.old self.new }
    {
        self.note_first_frames()?;
        let length = self.frames.length()?;
        let known = Some(self.head.streaminfo());
        let seeker = Seeker::new(self.first_frame, Some(length), known, sample, self.clock);
        let Some(found) = self.frames.find(seeker, known)? else {
            return Ok(None);
        };
        self.frames.go_to(found.position);
        let mut block = found.frame.info;
        block.time = found.time;
        Ok(Some(block))
    }

    /// Reads the next block, into the buffer's memory if it is large enough, as `FrameReader::read_next_or_eof`.
    ///
    /// After `seek` this is the block with the sample, before that the first one. None if fewer than two bytes are left. Its
    /// time is as its header says.
    ///
    /// # Errors
    ///
    /// Those of `FrameReader::read_next_or_eof`. After an `IoError` of the source, or `OutOfMemory`, the reader is where it
    /// was, and the call can be made again; after a fault the next call starts at the first byte that wasn't consumed.
    pub fn read_next_or_eof(&mut self, buffer: Vec<i32>) -> FrameResult
        ensures has_sample { NextHasSample self.old result self.new }
        ensures is_complete { NextIsComplete self.old result self.new }
        ensures is_sound { NextIsSound self.old result self.new }
        ensures none_is_eof { NextNoneIsEof R.remaining self.old result self.new }
        ensures fault_is_sound { NextFaultIsSound self.old result self.new }
        ensures keeps_bytes { NextKeepsBytes self.old self.new }
        ensures is_counted { NextIsCounted self.old result self.new }
        ensures is_noted { NextIsNoted self.old result self.new }
        ensures keeps_stream { KeepsStream self.old self.new }
    {
        match self.next_event(buffer)? {
            Event::Decoded(frame) => Ok(Some(frame.block)),
            Event::End => Ok(None),
            Event::Faulty(fault) => Err(fault.error),
            Event::Cut(_) => Err(unexpected_eof()),
            Event::ReadOn(_) => Err(unexpected_eof()),
        }
    }

    // What comes next. The clock is told of a frame.
    fn next_event(&mut self, buffer: Vec<i32>) -> Result<Event>
        ensures is { next_event_is R.remaining self.old result self.new }
        ensures is_noted { EventIsNoted self.old result self.new }
        ensures keeps_stream { KeepsStream self.old self.new }
    {
        let at = self.frames.position();
        let known = Some(self.head.streaminfo());
        let event = self.frames.next_event(buffer, known)?;
        if let Event::Decoded(frame) = &event {
            self.clock.note(at, self.frames.position(), &frame.info);
        }
        Ok(event)
    }

    // The first two frames tell the clock what coded numbers count. The position stays.
    fn note_first_frames(&mut self) -> Result<()>
        ensures stays { reader_position self.new ≡ reader_position self.old }
        ensures is_counted { NoteIsCounted self.old result self.new }
        ensures keeps_searches { SearchesStay self.old self.new }
        ensures keeps_stream { KeepsStream self.old self.new }
    {
        if !self.needs_first_frames {
            return Ok(());
        }
        let position = self.frames.position();
        self.frames.go_to(self.first_frame);
        let noted = self.note_two_frames();
        self.frames.go_to(position);
        self.needs_first_frames = noted.is_err();
        noted
    }

    fn note_two_frames(&mut self) -> Result<()>
        ensures is_counted { NoteIsCounted self.old result self.new }
        ensures keeps_searches { SearchesStay self.old self.new }
        ensures keeps_stream { KeepsStream self.old self.new }
    {
        for _ in 0..2 {
            let Event::Decoded(_) = self.next_event(Vec::new(self.alloc))? else {
                return Ok(());
            };
        }
        Ok(())
    }
}

fn unexpected_eof() -> Error
    ensures { IsIo result }
{
    let cause = "Expected one more byte.";
    Error::IoError(io::Error::new(io::ErrorKind::UnexpectedEof, cause))
}
