//! The lines that are printed about a stream.
ghost use Rattle.std.specs.Option.{option_map};
ghost use Rattle.claxon.specs.Tags.{remaining_tags};
ghost use Rattle.claxon_write.specs.InnerWriter.{SameWriter};
ghost use Rattle.claxon_program.specs.Facts.{
  FactsAreSound,
  WriteFactsFaultIsSound,
  WriteFactsIsSound,
  format_text,
  numbers_text,
  sizes_text,
  tag_text,
  tags_text,
  vendor_text,
};
ghost use Rattle.claxon_command_line.specs.Text.{Adds, line};

use claxon::FlacReader;
use claxon::metadata::{StreamInfo, Tags};
use claxon_command_line::text::{escaped_text, length_text, md5_text, number_text};
use claxon_write::Output;
use std::alloc::{AllocError, Allocator};
use std::io::{Read, Write};

/// Writes the lines `NAME: value` of a stream, and flushes: those of its streaminfo, one for the vendor, and one for each
/// tag, in order.
///
/// A value that the head doesn't give is `unknown`. A vendor or a tag takes one line, whatever its text contains: see
/// `escaped_text`.
///
/// # Errors
///
/// `OutOfMemory`, and then nothing was written. An `IoError` if a write fails, after a prefix of the lines and without a flush;
/// or if the flush fails, after all of them.
pub fn write_facts<R: Read, W: Write, A: Allocator + Copy>(
    alloc: A,
    flac: &FlacReader<R, A>,
    output: &mut Output<'_, W>,
) -> claxon::Result<()>
    ensures same_writer { SameWriter output.old output.new }
    ensures is_sound { WriteFactsIsSound W.contents flac.now result output.old output.new }
    ensures fault_is_sound { WriteFactsFaultIsSound W.contents flac.now result output.old
        output.new }
{
    let text = facts(alloc, flac)?;
    output.put(text.as_bytes())?;
    output.flush()
}

// The lines.
fn facts<R: Read, A: Allocator + Copy>(
    alloc: A,
    flac: &FlacReader<R, A>,
) -> Result<String<A>, AllocError>
    ensures are_sound { FactsAreSound flac.now result }
{
    let mut text = String::new(alloc);
    let info = flac.streaminfo();
    push_format(alloc, &mut text, &info)?;
    push_sizes(alloc, &mut text, &info)?;
    push_vendor(alloc, &mut text, flac.vendor())?;
    push_tags(alloc, &mut text, flac.tags())?;
    Ok(text)
}

// The format, number and length of the samples.
fn push_format<A: Allocator + Copy>(
    alloc: A,
    text: &mut String<A>,
    info: &StreamInfo,
) -> Result<(), AllocError>
    ensures adds { Adds (format_text info.now) result text.old text.new }
{
    let numbers = [
        ("sample_rate", Some(u64::from(info.sample_rate))),
        ("channels", Some(u64::from(info.channels))),
        ("bits_per_sample", Some(u64::from(info.bits_per_sample))),
        ("samples", info.samples),
    ];
    push_numbers(alloc, text, &numbers)?;
    let length = length_text(alloc, info.samples, info.sample_rate)?;
    push_line(text, "length", length.as_str())
}

// The sizes of blocks and frames, and the MD5 sum of the samples.
fn push_sizes<A: Allocator + Copy>(
    alloc: A,
    text: &mut String<A>,
    info: &StreamInfo,
) -> Result<(), AllocError>
    ensures adds { Adds (sizes_text info.now) result text.old text.new }
{
    let numbers = [
        ("min_block_size", Some(u64::from(info.min_block_size))),
        ("max_block_size", Some(u64::from(info.max_block_size))),
        ("min_frame_size", info.min_frame_size.map(u64::from)),
        ("max_frame_size", info.max_frame_size.map(u64::from)),
    ];
    push_numbers(alloc, text, &numbers)?;
    push_line(text, "md5sum", md5_text(alloc, &info.md5sum)?.as_str())
}

fn push_vendor<A: Allocator + Copy>(
    alloc: A,
    text: &mut String<A>,
    vendor: Option<&str>,
) -> Result<(), AllocError>
    ensures adds { Adds (vendor_text (option_map (λ v. v.now) vendor.entry)) result
        text.old text.new }
{
    match vendor {
        Some(vendor) => push_line(text, "vendor", escaped_text(alloc, vendor)?.as_str()),
        None => push_line(text, "vendor", "unknown"),
    }
}

fn push_tags<A: Allocator + Copy>(
    alloc: A,
    text: &mut String<A>,
    mut tags: Tags<'_, A>,
) -> Result<(), AllocError>
    ensures adds { Adds (tags_text (remaining_tags tags.entry)) result text.old text.new }
{
    while let Some((name, value)) = tags.next() {
        push_tag(alloc, text, name, value)?;
    }
    Ok(())
}

fn push_tag<A: Allocator + Copy>(
    alloc: A,
    text: &mut String<A>,
    name: &str,
    value: &str,
) -> Result<(), AllocError>
    ensures adds { Adds (tag_text (name.now, value.now)) result text.old text.new }
{
    let name = escaped_text(alloc, name)?;
    let value = escaped_text(alloc, value)?;
    let tag = format!(in alloc; "{name}={value}")?;
    push_line(text, "tag", tag.as_str())
}

// A line for each name and its number.
fn push_numbers<A: Allocator + Copy>(
    alloc: A,
    text: &mut String<A>,
    numbers: &[(&str, Option<u64>)],
) -> Result<(), AllocError>
    ensures adds { Adds (numbers_text numbers.now) result text.old text.new }
{
    for (name, number) in numbers {
        push_line(text, *name, number_text(alloc, *number)?.as_str())?;
    }
    Ok(())
}

#[tactic(auto, unfolding(claxon_command_line::specs::Text::line))]
fn push_line<A: Allocator>(text: &mut String<A>, name: &str, value: &str) -> Result<(), AllocError>
    ensures adds { Adds (line name.now value.now) result text.old text.new }
{
    writeln!(text, "{name}: {value}")
}
