//! The parts of a damaged stream, written one after another.
ghost use Rattle.std.specs.Prelude.{◌≡◌, ◌≤◌, ◌↔◌, [], IsTrue, Some};
ghost use Rattle.claxon.specs.ShownHead.{HasBitDepth};
ghost use Rattle.claxon_blocks.specs.HashBlock.{HashesToo};
ghost use Rattle.claxon_recovery.specs.Parts.{after_part};
ghost use Rattle.claxon_rescue.specs.Rescue.{AreOfStream, IsOfStream};

use crate::due::{Due, Rules};
use crate::losses::{LossKind, Losses, LostRange};
use crate::waiting::Waiting;
use claxon::Block;
use claxon::frame::DecodedFrame;
use claxon::input::ReadBytes;
use claxon::metadata::StreamInfo;
use claxon_blocks::fit::samples_fit;
use claxon_blocks::hashing::hash_block;
use claxon_command_line::progress::Progress;
use claxon_md5::Md5;
use claxon_recovery::{FrameThere, Part, Parts};
use claxon_wav::{Error, Result, WavWriter};
use std::io::{Seek, Write};

/// What was rescued so far.
#[derive(Drop)]
pub(crate) struct Rescue {
    /// What is due next.
    pub due: Due,
    /// The frames of the stream that come next.
    pub waiting: Waiting,
    /// What is lost.
    pub losses: Losses,
    /// The hasher of the samples; none after the first that are missing.
    pub md5: Option<Md5>,
}

impl Rescue {
    ghost use Rattle.claxon_command_line.specs.Progress.{SameErrors, StaysQuiet};
    ghost use Rattle.claxon_recovery.specs.Parts.{parts_known, parts_position};
    ghost use Rattle.claxon_rescue.specs.PutParts.{
      MakeRoomIsSound,
      PutPartFaultIsSound,
      PutPartIsSound,
      PutPartsFaultIsSound,
      PutPartsIsSound,
      PutWaitingFaultIsSound,
      PutWaitingIsSound,
    };
    ghost use Rattle.claxon_rescue.specs.PutSteps.{
      IsFileOf,
      PutFrameFaultIsSound,
      PutFrameIsSound,
      PutGapFaultIsSound,
      PutGapIsSound,
    };
    ghost use Rattle.claxon_rescue.specs.Rescue.{last_sample};
    ghost use Rattle.claxon_rescue.specs.RescueEnds.{WriteFaultIsSound, WriteIsSound};
    ghost use Rattle.claxon_rescue.specs.Times.{first_due};
    ghost use Rattle.claxon_rescue.specs.Waiting.{waiting_frames};
    ghost use Rattle.claxon_wav.specs.Writer.{KeepsRoom, SameHeader, SameOutput};

    // Writes the samples of all frames of a stream that begins at this position, and silence where samples are lost. The errors
    // are those of `Parts::next_part`, `WavWriter::put_block` and `put_silence`, and `Unsupported` for 2^64 - 1 parts.
    fn put_parts<R: ReadBytes, W: Write, E: Write>(
        &mut self,
        parts: &mut Parts<R>,
        start: u64,
        rules: &Rules,
        wav: &mut WavWriter<'_, W>,
        progress: &mut Progress<'_, '_, E>,
    ) -> Result<()>
        requires has_bit_depth { HasBitDepth rules.now.info }
        requires is_file_of { IsFileOf rules.now.info wav.old }
        requires same_info { parts_known parts.old ≡ Some rules.now.info }
        requires at_start { parts_position parts.old ≡ start }
        requires first { self.old.due ≡ first_due start }
        requires none_waits { waiting_frames self.old.waiting ≡ [] }
        ensures same_output { SameOutput wav.old wav.new }
        ensures is_sound { PutPartsIsSound R.source W.contents rules.now start parts.old parts.new
            wav.old wav.new result self.old self.new }
        ensures fault_is_sound { PutPartsFaultIsSound R.source W.contents rules.now start parts.old
            parts.new wav.old wav.new result }
        ensures same_header { SameHeader wav.old wav.new }
        ensures same_errors { SameErrors progress.old progress.new }
        ensures stays_quiet { StaysQuiet progress.old progress.new }
    {
        let mut end = start;
        for _ in 0..u64::MAX {
            let next = match parts.next_part() {
                Ok(next) => next,
                Err(error) => {
                    let _ = self.put_waiting(rules, wav);
                    return Err(Error::from(error));
                }
            };
            let Some(part) = next else {
                self.put_waiting(rules, wav)?;
                return self.put_rest(rules, end, wav);
            };
            end = end_of(&part);
            self.put_part(rules, part, wav)?;
            progress.show(self.due.sample);
        }
        Err(Error::from(too_many()))
    }

    /// Writes the parts as `put_parts` does, and finishes the file. After an Err what was written before it is in a valid file
    /// too, unless a call of the output fails.
    ///
    /// # Errors
    ///
    /// The first one: that of `put_parts`, or of `WavWriter::finish`.
    pub(crate) fn write<R: ReadBytes, W: Write + Seek, E: Write>(
        &mut self,
        parts: &mut Parts<R>,
        start: u64,
        rules: &Rules,
        wav: &mut WavWriter<'_, W>,
        progress: &mut Progress<'_, '_, E>,
    ) -> Result<()>
        requires has_bit_depth { HasBitDepth rules.now.info }
        requires is_file_of { IsFileOf rules.now.info wav.old }
        requires same_info { parts_known parts.old ≡ Some rules.now.info }
        requires at_start { parts_position parts.old ≡ start }
        requires first { self.old.due ≡ first_due start }
        requires none_waits { waiting_frames self.old.waiting ≡ [] }
        ensures same_output { SameOutput wav.old wav.new }
        ensures is_sound { WriteIsSound R.source W.contents rules.now start parts.old parts.new
            wav.old wav.new W.stream_position result self.old self.new }
        ensures fault_is_sound { WriteFaultIsSound R.source W.contents rules.now start parts.old
            parts.new wav.old wav.new result }
        ensures same_errors { SameErrors progress.old progress.new }
        ensures stays_quiet { StaysQuiet progress.old progress.new }
    {
        let outcome = self.put_parts(parts, start, rules, wav, progress);
        let finished = wav.finish();
        outcome?;
        finished
    }

    // The part's frame waits then, if it has one of the stream.
    fn put_part<W: Write>(
        &mut self,
        rules: &Rules,
        part: Part,
        wav: &mut WavWriter<'_, W>,
    ) -> Result<()>
        requires has_bit_depth { HasBitDepth rules.now.info }
        requires is_file_of { IsFileOf rules.now.info wav.old }
        requires of_stream { AreOfStream rules.now.info (waiting_frames self.old.waiting) }
        ensures same_output { SameOutput wav.old wav.new }
        ensures is_sound { PutPartIsSound W.contents rules.now self.old self.new wav.old wav.new
            part result }
        ensures fault_is_sound { PutPartFaultIsSound rules.now self.old.due wav.old wav.new
            (waiting_frames self.old.waiting) result }
        ensures same_header { SameHeader wav.old wav.new }
        ensures keeps_room { KeepsRoom wav.old wav.new }
    {
        let Part::Frame(there) = part else {
            return Ok(());
        };
        if !is_of_stream(&rules.info, &there.frame) {
            return Ok(());
        }
        self.make_room(rules, wav)?;
        self.waiting.push(there);
        Ok(())
    }

    // Writes what the first frame that waits gives, if all is known that decides about it.
    fn make_room<W: Write>(&mut self, rules: &Rules, wav: &mut WavWriter<'_, W>) -> Result<()>
        requires has_bit_depth { HasBitDepth rules.now.info }
        requires is_file_of { IsFileOf rules.now.info wav.old }
        requires of_stream { AreOfStream rules.now.info (waiting_frames self.old.waiting) }
        ensures same_output { SameOutput wav.old wav.new }
        ensures is_sound { MakeRoomIsSound W.contents rules.now self.old self.new wav.old wav.new
            result }
        ensures fault_is_sound { PutPartFaultIsSound rules.now self.old.due wav.old wav.new
            (waiting_frames self.old.waiting) result }
        ensures same_header { SameHeader wav.old wav.new }
        ensures keeps_room { KeepsRoom wav.old wav.new }
    {
        if !self.waiting.is_full() {
            return Ok(());
        }
        match self.waiting.take_first() {
            Some(there) => self.put_frame(rules, &there, wav),
            None => Ok(()),
        }
    }

    // Writes what all frames that wait give, after which none come.
    fn put_waiting<W: Write>(&mut self, rules: &Rules, wav: &mut WavWriter<'_, W>) -> Result<()>
        requires has_bit_depth { HasBitDepth rules.now.info }
        requires is_file_of { IsFileOf rules.now.info wav.old }
        requires of_stream { AreOfStream rules.now.info (waiting_frames self.old.waiting) }
        ensures same_output { SameOutput wav.old wav.new }
        ensures is_sound { PutWaitingIsSound W.contents rules.now self.old self.new wav.old wav.new
            result }
        ensures fault_is_sound { PutWaitingFaultIsSound rules.now self.old.due wav.old wav.new
            (waiting_frames self.old.waiting) result }
        ensures same_header { SameHeader wav.old wav.new }
        ensures keeps_room { KeepsRoom wav.old wav.new }
    {
        while let Some(there) = self.waiting.take_first() {
            self.put_frame(rules, &there, wav)?;
        }
        Ok(())
    }

    // Writes what a frame of the stream gives. The frames that wait come after it.
    fn put_frame<W: Write>(
        &mut self,
        rules: &Rules,
        there: &FrameThere,
        wav: &mut WavWriter<'_, W>,
    ) -> Result<()>
        requires has_bit_depth { HasBitDepth rules.now.info }
        requires is_file_of { IsFileOf rules.now.info wav.old }
        requires of_stream { IsOfStream rules.now.info there.now.frame }
        ensures same_output { SameOutput wav.old wav.new }
        ensures is_sound { PutFrameIsSound W.contents rules.now self.old self.new wav.old wav.new
            there.now result }
        ensures fault_is_sound { PutFrameFaultIsSound rules.now self.old.due wav.old wav.new there.now
            (waiting_frames self.old.waiting) result }
        ensures same_header { SameHeader wav.old wav.new }
        ensures keeps_room { KeepsRoom wav.old wav.new }
    {
        let Some(gap) = self.due.gap_among(rules, there, self.waiting.frames()) else {
            self.losses.note(self.due.left_out(rules, there));
            return Ok(());
        };
        self.put_gap(rules, self.due.sample + gap, there.start, wav)?;
        wav.put_block(&there.frame.block)?;
        hash(
            &mut self.md5,
            &there.frame.block,
            rules.info.bits_per_sample,
        );
        self.due = self.due.after(gap, there);
        Ok(())
    }

    // The samples up to this one are missing in the bytes up to this position, if there are any.
    fn put_gap<W: Write>(
        &mut self,
        rules: &Rules,
        sample: u64,
        byte: u64,
        wav: &mut WavWriter<'_, W>,
    ) -> Result<()>
        requires is_file_of { IsFileOf rules.now.info wav.old }
        ensures same_output { SameOutput wav.old wav.new }
        ensures is_sound { PutGapIsSound W.contents rules.now self.old self.new wav.old wav.new
            sample byte result }
        ensures fault_is_sound { PutGapFaultIsSound rules.now self.old.due wav.old wav.new sample
            result }
        ensures same_header { SameHeader wav.old wav.new }
        ensures keeps_room { KeepsRoom wav.old wav.new }
    {
        let Due {
            sample: start_sample,
            byte: start_byte,
            ..
        } = self.due;
        if start_sample >= sample {
            return Ok(());
        }
        self.md5 = None;
        self.losses.note(LostRange {
            kind: LossKind::Missing,
            start_sample,
            end_sample: sample,
            start_byte,
            end_byte: byte,
        });
        if rules.fills_gaps {
            wav.put_silence(sample - start_sample)?;
        }
        Ok(())
    }

    // The samples are missing from the last frame up to the streaminfo's number of samples.
    fn put_rest<W: Write>(
        &mut self,
        rules: &Rules,
        byte: u64,
        wav: &mut WavWriter<'_, W>,
    ) -> Result<()>
        requires is_file_of { IsFileOf rules.now.info wav.old }
        ensures same_output { SameOutput wav.old wav.new }
        ensures is_sound { PutGapIsSound W.contents rules.now self.old self.new wav.old wav.new
            (last_sample rules.now self.old.due) byte result }
        ensures fault_is_sound { PutGapFaultIsSound rules.now self.old.due wav.old wav.new
            (last_sample rules.now self.old.due) result }
        ensures same_header { SameHeader wav.old wav.new }
    {
        let samples = rules.info.samples.unwrap_or(0).max(self.due.sample);
        self.put_gap(rules, samples, byte, wav)
    }
}

// Hashes the samples of this block too, if there is a hasher.
fn hash(md5: &mut Option<Md5>, block: &Block, bit_depth: u32)
    requires min_bit_depth { 1 ≤ bit_depth }
    requires max_bit_depth { bit_depth ≤ 32 }
    ensures hashes_too { HashesToo bit_depth block.now md5.old md5.new }
{
    if let Some(hasher) = md5 {
        hash_block(hasher, block, bit_depth);
    }
}

// Whether a frame has the streaminfo's number of channels and its sample rate, and its samples fit in the bit depth.
fn is_of_stream(info: &StreamInfo, frame: &DecodedFrame) -> bool
    requires has_bit_depth { HasBitDepth info.now }
    ensures { IsTrue result ↔ IsOfStream info.now frame.now }
{
    let rate = frame.info.sample_rate.unwrap_or(info.sample_rate);
    frame.block.channels() == info.channels
        && rate == info.sample_rate
        && samples_fit(&frame.block, info.bits_per_sample)
}

// The position after a part.
fn end_of(part: &Part) -> u64
    ensures { result ≡ after_part 0 (Some part.now) }
{
    match part {
        Part::Frame(there) => there.end,
        Part::Damage(damage) => damage.end,
    }
}

// That there are more parts than are counted.
fn too_many() -> claxon::Error {
    claxon::Error::Unsupported("more than 18446744073709551614 parts")
}
