//! The frames of a source, by the engine of streams.
ghost use Rattle.std.specs.Prelude.{◌≡◌, ◌-◌, ◌^◌, ◌<◌, IfSome};
ghost use Rattle.claxon.specs.ShownHead.{HasBitDepth};
ghost use Rattle.claxon.specs.Error.{IsIo};
ghost use Rattle.claxon_stream.specs.FrameDecoder.{decoder_position};
ghost use Rattle.claxon_stream_seek.specs.Seeker.{SeekIsPlaced, sought_by};
ghost use Rattle.claxon_seekable.specs.Window.{place};

use crate::searches::SearchCounts;
use crate::window::Window;
use claxon::metadata::StreamInfo;
use claxon::{Error, Result};
use claxon_stream::{Event, FrameDecoder};
use claxon_stream_seek::{SeekEvent, Seeker, SoughtFrame};
use std::alloc::Global;
use std::io;
use std::io::{Read, Seek};

// The frames of a source, one after another.
#[derive(Drop)]
pub(crate) struct SourceFrames<R> {
    window: Window<R>,
    decoder: FrameDecoder,
    searches: SearchCounts,
    alloc: Global,
    ghost placed: { decoder_position decoder < 2 ^ 64 - 1 },
}

impl<R> SourceFrames<R> {
    ghost use Rattle.claxon_seekable.specs.SourceFrames.{
      AreNew,
      GoTo,
      frames_position,
      frames_source,
    };

    // The frames from this position on.
    pub(crate) fn new(alloc: Global, source: R, position: u64) -> SourceFrames<R>
        requires { position < u64.MAX }
        ensures { AreNew source position result }
    {
        SourceFrames {
            window: Window::new(alloc, source, position),
            decoder: FrameDecoder::new(position),
            searches: SearchCounts::new(),
            alloc,
        }
    }

    // The position of what comes next.
    pub(crate) fn position(&self) -> u64
        ensures { result ≡ frames_position self.now }
    {
        self.decoder.position()
    }

    // Goes to another position.
    pub(crate) fn go_to(&mut self, position: u64)
        requires { position < u64.MAX }
        ensures { GoTo position self.old self.new }
    {
        self.decoder = self.decoder.from_position(position);
    }

    pub(crate) fn into_source(self) -> R
        ensures { result ≡ frames_source self }
    {
        let SourceFrames {
            window,
            decoder: _,
            searches: _,
            alloc: _,
        } = self;
        window.into_source()
    }
}

impl<R: Read + Seek> SourceFrames<R> {
    ghost use Rattle.claxon_seekable.specs.SourceFrames.{
      FindIs,
      FramesCallIsCounted,
      FramesStay,
      NextIs,
      NotesAreRight,
      TryIs,
      frames_position,
    };

    // The length of the source.
    pub(crate) fn length(&mut self) -> Result<u64>
        ensures stay { FramesStay self.old self.new }
        ensures is_counted { FramesCallIsCounted self.old result self.new }
    {
        self.window.length()
    }

    // What comes next; not `ReadOn`.
    pub(crate) fn next_event(
        &mut self,
        buffer: Vec<i32>,
        known: Option<StreamInfo>,
    ) -> Result<Event>
        requires { IfSome known (λ info. HasBitDepth info) }
        ensures { NextIs known R.remaining self.old result self.new }
    {
        let mut buffer = buffer;
        let position = self.decoder.position();
        self.decoder = self.decoder.from_position(position);
        self.window.move_to(position);
        self.window.forget_end();
        loop {
            if let Some(event) = self.try_next(buffer, known)? {
                return Ok(event);
            }
            buffer = Vec::new(self.alloc);
        }
    }

    // What comes next, or None where more bytes were needed, and were read.
    fn try_next(&mut self, buffer: Vec<i32>, known: Option<StreamInfo>) -> Result<Option<Event>>
        requires depth { IfSome known (λ info. HasBitDepth info) }
        requires here { place self.old.window ≡ frames_position self.old }
        requires right { NotesAreRight known self.old.window self.old.decoder }
        ensures { TryIs known R.remaining self.old result self.new }
    {
        let event = self.decoder.decode_next(
            buffer,
            self.window.held(),
            self.window.position(),
            self.window.has_end(),
            known,
        )?;
        let Event::ReadOn(needed) = event else {
            return Ok(Some(event));
        };
        self.window.fill(needed.count)?;
        Ok(None)
    }

    // The frame that the seeker finds, if it finds one. The position stays.
    pub(crate) fn find(
        &mut self,
        seeker: Seeker,
        known: Option<StreamInfo>,
    ) -> Result<Option<SoughtFrame>>
        requires depth { IfSome known (λ info. HasBitDepth info) }
        requires placed { SeekIsPlaced seeker }
        ensures { FindIs known (sought_by seeker) self.old result self.new }
    {
        let mut seeker = seeker;
        self.window.forget_end();
        loop {
            let answer = self.searches.seek_next(
                &mut seeker,
                self.alloc,
                self.window.held(),
                self.window.position(),
                self.window.has_end(),
                known,
            )?;
            match answer {
                SeekEvent::Found(found) => return Ok(Some(found)),
                SeekEvent::NotFound => return Ok(None),
                SeekEvent::OverBudget => return Err(over_budget()),
                SeekEvent::ReadOn(needed) => self.window.read_on(needed)?,
            }
        }
    }
}

fn over_budget() -> Error
    ensures { IsIo result }
{
    let cause = "too many headers lead to no frame";
    Error::IoError(io::Error::new(io::ErrorKind::InvalidData, cause))
}
