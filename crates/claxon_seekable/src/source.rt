//! A source that counts its failed calls, by which an `IoError` is excused.
//!
//! Only the calls here reach the source, and only they change the count. That each asks the source, and `read_at` at that
//! position, no clause can say: these few lines have to be read.
ghost use Rattle.std.specs.Prelude.{◌≡◌, ◌+◌, ◌<◌, IfOk, length};
ghost use Rattle.claxon_seekable.specs.Source.{
  CountsCall,
  CountsFailure,
  EndIsTold,
  GoesOn,
  IsNewSource,
  ReadEnds,
  ReadFits,
  ReadMoves,
  ends_at,
  inner_source,
  without_end,
};

use std::io;
use std::io::{Read, Seek, SeekFrom};

// No byte of a stream stands there or later, so that the position after its last byte has 64 bits.
const LAST_POSITION: u64 = u64::MAX - 1;

// A source of bytes.
#[derive(Drop)]
pub(crate) struct CountingSource<R> {
    inner: R,
    // How many calls failed, modulo 2^64.
    failed: u64,
    // Where the source is, if that is known.
    position: Option<u64>,
    // The position at which the last call read, if there was no byte.
    ended_at: Option<u64>,
}

impl<R> CountingSource<R> {
    pub(crate) fn new(inner: R) -> CountingSource<R>
        ensures { IsNewSource inner result }
    {
        CountingSource {
            inner,
            failed: 0,
            position: None,
            ended_at: None,
        }
    }

    pub(crate) fn into_inner(self) -> R
        ensures { result ≡ inner_source self }
    {
        self.inner
    }

    // Whether the last call read at this position, and there was no byte.
    pub(crate) fn ends_at(&self, position: u64) -> bool
        ensures { result ≡ ends_at self.now position }
    {
        match self.ended_at {
            Some(end) => end == position,
            None => false,
        }
    }

    // Forgets that there was no byte: the source may have grown since.
    pub(crate) fn forget_end(&mut self)
        ensures { self.new ≡ without_end self.old }
    {
        self.ended_at = None;
    }

    fn note_failure(&mut self)
        ensures { CountsFailure self.old self.new }
    {
        self.failed = self.failed.wrapping_add(1);
    }
}

impl<R: Read + Seek> CountingSource<R> {
    // The length of the source.
    pub(crate) fn length(&mut self) -> io::Result<u64>
        ensures counts_call { CountsCall self.old result self.new }
        ensures end_is_told { EndIsTold R.remaining self.new }
    {
        self.position = None;
        self.ended_at = None;
        match self.inner.seek(SeekFrom::End(0)) {
            Ok(length) => Ok(length),
            Err(error) => {
                self.note_failure();
                Err(error)
            }
        }
    }

    // One read of the bytes from the position on, into a buffer that has room.
    pub(crate) fn read_at(&mut self, position: u64, buf: &mut [u8]) -> io::Result<usize>
        requires before_end { position < u64.MAX }
        requires has_room { 0 < length buf.old }
        ensures fits { IfOk result (λ count. ReadFits position buf.new count) }
        ensures counts_call { CountsCall self.old result self.new }
        ensures moves { ReadMoves position result self.new }
        ensures ends { ReadEnds position result self.new }
        ensures end_is_told { EndIsTold R.remaining self.new }
    {
        self.go_to(position)?;
        self.position = None;
        let room = ((LAST_POSITION - position) as usize).min(buf.len());
        match self.inner.read(&mut buf[..room]) {
            Ok(0) => {
                self.position = Some(position);
                self.ended_at = Some(position);
                Ok(0)
            }
            Ok(count) => {
                self.position = Some(position + count as u64);
                Ok(count)
            }
            Err(error) => {
                self.note_failure();
                Err(error)
            }
        }
    }

    // Goes to the position, unless the source is there.
    fn go_to(&mut self, position: u64) -> io::Result<()>
        ensures counts_call { CountsCall self.old result self.new }
        ensures goes_on { GoesOn self.new }
    {
        self.ended_at = None;
        if let Some(here) = self.position {
            if here == position {
                return Ok(());
            }
        }
        self.position = None;
        match self.inner.seek(SeekFrom::Start(position)) {
            Ok(_) => {
                self.position = Some(position);
                Ok(())
            }
            Err(error) => {
                self.note_failure();
                Err(error)
            }
        }
    }
}
