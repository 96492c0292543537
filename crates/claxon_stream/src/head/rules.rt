//! What the metadata blocks so far allow.
ghost use Rattle.std.specs.Prelude.{◌≡◌};
ghost use Rattle.claxon.specs.Heads.{is_comment, is_info};
ghost use Rattle.claxon.specs.MetadataBlock.{content_view};

use claxon::metadata::MetadataBlock;
use claxon::{Error, FlacReaderOptions, Result};
use std::alloc::Allocator;

// The greatest number of metadata blocks of a stream, as of `read_head`. The format sets no limit.
const MAX_BLOCKS: u32 = 65536;

// What the metadata blocks so far allow.
#[derive(Clone, Copy, Debug)]
pub(crate) struct Rules {
    pub(crate) options: FlacReaderOptions,
    // Whether there was a streaminfo: it is the first block.
    pub(crate) has_info: bool,
    pub(crate) has_comment: bool,
    // How many blocks more there may be.
    pub(crate) most: u32,
}

impl Rules {
    ghost use Rattle.claxon_stream.specs.HeadRules.{
      IsAllowed,
      allows_more,
      ends_head,
      first_rules,
      has_second_comment,
      has_second_info,
      is_enough,
      misses_info,
      rules_after,
    };

    // Before the first block.
    pub(crate) fn new(options: FlacReaderOptions) -> Rules
        ensures { result ≡ first_rules options }
    {
        Rules {
            options,
            has_info: false,
            has_comment: false,
            most: MAX_BLOCKS,
        }
    }

    // Whether there may be one more block.
    pub(crate) fn allow_more(self) -> bool
        ensures { result ≡ allows_more self }
    {
        self.most > 0
    }

    // After one more block, which they allow.
    pub(crate) fn after<A: Allocator>(self, block: &MetadataBlock<A>) -> Rules
        ensures { result ≡ rules_after self (content_view block.now) }
    {
        Rules {
            options: self.options,
            has_info: true,
            has_comment: self.has_comment || is_comment(block),
            most: self.most.saturating_sub(1),
        }
    }

    // Whether the head ends after one more block.
    pub(crate) fn end_after<A: Allocator>(self, is_last: bool, block: &MetadataBlock<A>) -> bool
        ensures { result ≡ ends_head self is_last (content_view block.now) }
    {
        is_last || (self.options.metadata_only && self.is_enough(block))
    }

    // Whether no more metadata is wanted after one more block, where metadata alone is.
    fn is_enough<A: Allocator>(self, block: &MetadataBlock<A>) -> bool
        ensures { result ≡ is_enough self (content_view block.now) }
    {
        if !self.has_info {
            return !self.options.read_vorbis_comment;
        }
        self.has_comment || is_comment(block)
    }

    // One more block, if they allow it.
    pub(crate) fn check<A: Allocator>(self, block: MetadataBlock<A>) -> Result<MetadataBlock<A>>
        ensures { IsAllowed self block result }
    {
        if self.misses_info(&block) {
            return Err(Error::FormatError("streaminfo block missing"));
        }
        if self.has_second_info(&block) {
            return Err(Error::FormatError("encountered second streaminfo block"));
        }
        if self.has_second_comment(&block) {
            return Err(Error::FormatError("encountered second Vorbis comment block"));
        }
        Ok(block)
    }

    fn misses_info<A: Allocator>(self, block: &MetadataBlock<A>) -> bool
        ensures { result ≡ misses_info self (content_view block.now) }
    {
        !self.has_info && !is_info(block)
    }

    fn has_second_info<A: Allocator>(self, block: &MetadataBlock<A>) -> bool
        ensures { result ≡ has_second_info self (content_view block.now) }
    {
        self.has_info && is_info(block)
    }

    fn has_second_comment<A: Allocator>(self, block: &MetadataBlock<A>) -> bool
        ensures { result ≡ has_second_comment self (content_view block.now) }
    {
        self.has_comment && is_comment(block)
    }
}

fn is_info<A: Allocator>(block: &MetadataBlock<A>) -> bool
    ensures { result ≡ is_info (content_view block.now) }
{
    match block {
        MetadataBlock::StreamInfo(_) => true,
        _ => false,
    }
}

fn is_comment<A: Allocator>(block: &MetadataBlock<A>) -> bool
    ensures { result ≡ is_comment (content_view block.now) }
{
    match block {
        MetadataBlock::VorbisComment(_) => true,
        _ => false,
    }
}
