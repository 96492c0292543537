//! How a stream is converted.
ghost use Rattle.std.specs.Prelude.{◌≤◌, IfOk, IfSome};
ghost use Rattle.std.specs.Option.{ForSome};
ghost use Rattle.claxon.specs.FlacReader.{tags_of};
ghost use Rattle.claxon_wav.specs.AnnouncedSize.{IsAnnounced};
ghost use Rattle.claxon_wav.specs.ChannelMask.{IsMaskOf, IsMaskOfTags, mask_values};
ghost use Rattle.claxon_wav.specs.DataSize.{max_data_size};

use crate::error::{Error, Result};
use crate::header::Layout;
use claxon::FlacReader;
use claxon::metadata::StreamInfo;
use std::io::Read;

/// How a stream is converted.
#[derive(Clone, Copy)]
pub struct Plan {
    /// The format of the samples.
    pub layout: Layout,
    /// The number of bytes of as many samples as the streaminfo says, if it says how many.
    pub announced: Option<u32>,
    /// Whether the MD5 sum of the samples is computed.
    pub computes_md5: bool,
    ghost announced_fits: { ForSome announced (λ n. n ≤ max_data_size) },
}

impl Plan {
    ghost use Rattle.claxon_wav.specs.Plan.{PlanFaultIsSound, PlanIsSound};

    /// With the layout and the number of samples that the head of the stream gives.
    ///
    /// # Errors
    ///
    /// `TooLong` if a WAV file can't hold as many samples.
    pub fn of_stream<R: Read>(flac: &FlacReader<R>, computes_md5: bool) -> Result<Plan>
        ensures is_sound { PlanIsSound flac.now computes_md5 result }
        ensures fault_is_sound { PlanFaultIsSound flac.now result }
    {
        let info = flac.streaminfo();
        let (channels, bits) = (info.channels, info.bits_per_sample);
        let layout = Layout::new(channels, bits, info.sample_rate, channel_mask(flac));
        let announced = announced_size(&layout, &info)?;
        Ok(Plan {
            layout,
            announced,
            computes_md5,
        })
    }
}

// The number of bytes of as many samples as the streaminfo says.
fn announced_size(layout: &Layout, info: &StreamInfo) -> Result<Option<u32>>
    ensures is_announced { IsAnnounced layout.now info.now.samples result }
    ensures fits { IfOk result (λ size. IfSome size (λ n. n ≤ max_data_size)) }
{
    match info.samples {
        Some(samples) => match layout.data_size(samples) {
            Some(size) => Ok(Some(size)),
            None => Err(Error::TooLong),
        },
        None => Ok(None),
    }
}

// The channel mask in a tag, as an encoder writes it for a WAV file with other channels than the default ones.
fn channel_mask<R: Read>(flac: &FlacReader<R>) -> Option<u32>
    ensures { IsMaskOfTags (mask_values (tags_of flac.now)) result }
{
    let value = flac.get_tag("WAVEFORMATEXTENSIBLE_CHANNEL_MASK").next()?;
    mask_of(value)
}

// The channel mask that a value of the tag names.
fn mask_of(value: &str) -> Option<u32>
    ensures { IsMaskOf value.now result }
{
    let channel_mask = u32::from_str_radix(value.strip_prefix("0x")?, 16).ok()?;
    if channel_mask == 0 {
        return None;
    }
    Some(channel_mask)
}
