//! What is shown of the head of a stream.
ghost use Rattle.std.specs.Prelude.{◌≡◌, ◌≤◌};
ghost use Rattle.std.specs.Option.{ForSome, option_map};
ghost use Rattle.std.proofs.Props.{props};
ghost use Rattle.claxon_format.specs.Tags.{values};
ghost use Rattle.claxon_metadata.specs.MetadataBlock.{HasBounds};
ghost use Rattle.claxon_metadata.specs.TagEntries.{HaveSeparatorIndices};

use claxon_metadata::metadata::{GetTag, StreamInfo, Tags, VorbisComment};
use std::alloc::{Allocator, Global};

/// The head of a stream: its streaminfo, and its Vorbis comments where they are shown.
#[derive(Drop)]
pub struct Head<A: Allocator = Global> {
    streaminfo: StreamInfo,
    vorbis_comment: Option<VorbisComment<A>>,
    ghost bounds: { HasBounds streaminfo } by { Prim.hlevel props },
    ghost places: { ForSome vorbis_comment
        (λ comment. HaveSeparatorIndices comment.comments.items) },
}

impl<A: Allocator> Head<A> {
    ghost use Rattle.claxon_metadata.specs.Tags.{remaining_tags, remaining_values};
    ghost use Rattle.claxon.specs.ReadHead.{head_view};
    ghost use Rattle.claxon.specs.ShownHead.{
      HasBitDepth,
      HasSeparatorIndices,
      head_streaminfo,
      head_tags,
      head_vendor,
      shown_view,
    };

    /// Shows what `read_head` returned.
    pub fn new(streaminfo: StreamInfo, vorbis_comment: Option<VorbisComment<A>>) -> Head<A>
        requires has_bounds { HasBounds streaminfo }
        requires has_separator_indices { HasSeparatorIndices vorbis_comment }
        ensures streaminfo { head_streaminfo result ≡ streaminfo }
        ensures view { shown_view result ≡ head_view (streaminfo, vorbis_comment) }
    {
        Head {
            streaminfo,
            vorbis_comment,
        }
    }

    /// The streaminfo.
    pub fn streaminfo(&self) -> StreamInfo
        ensures value { result ≡ head_streaminfo self.now }
        ensures has_bounds { HasBounds result }
        ensures channels { (1 ≤ result.channels) × (result.channels ≤ 8) }
        ensures has_bit_depth { HasBitDepth result }
    {
        self.streaminfo
    }

    /// The name of the program that wrote the stream, where comments are shown.
    pub fn vendor(&self) -> Option<&str>
        ensures { option_map (λ text. text.now) result ≡ head_vendor self.now }
    {
        self.vorbis_comment
            .as_ref()
            .map(|comment| comment.vendor.as_str())
    }

    /// The names and values of all tags, in order.
    pub fn tags<'a>(&'a self) -> Tags<'a, A>
        ensures { remaining_tags result ≡ head_tags self.now }
    {
        match &self.vorbis_comment {
            Some(comment) => Tags::new(comment.comments.as_slice()),
            None => Tags::new(&[]),
        }
    }

    /// The values of the tags of this name, in order.
    pub fn get_tag<'a>(&'a self, tag_name: &'a str) -> GetTag<'a, A>
        ensures { remaining_values result ≡ values tag_name.now (head_tags self.now) }
    {
        match &self.vorbis_comment {
            Some(comment) => GetTag::new(comment.comments.as_slice(), tag_name),
            None => GetTag::new(&[], tag_name),
        }
    }
}
