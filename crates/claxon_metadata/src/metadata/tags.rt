//! Iterators over Vorbis comments, as pairs of a name and a value.
ghost use Rattle.std.specs.Prelude.{◌≡◌, Some, IfSome, length, string_bytes};
ghost use Rattle.std.specs.Iterator.{UpTo, YieldsFirstBy, YieldsFirstRef, item_count};
ghost use Rattle.std.specs.Iterator.SizeHint.{IsWithinCount};
ghost use Rattle.claxon_format.specs.Tags.{tag_of_entry, tags_of_entries, values};
ghost use Rattle.claxon_metadata.specs.TagEntries.{
  HaveSeparatorIndices,
  IsSeparatorIndex,
  entry_view,
  entries_view,
  pair_view,
};

use std::alloc::{Allocator, Global};

/// Iterates over Vorbis comments (FLAC tags), as pairs of a name and a value.
#[derive(Drop)]
pub struct Tags<'a, A: Allocator = Global> {
    comments: &'a [(String<A>, usize)],
    ghost separators: { HaveSeparatorIndices comments.now },
}

impl<'a, A: Allocator> Tags<'a, A> {
    ghost use Rattle.claxon_metadata.specs.Tags.{remaining_tags};

    /// Iterates over texts, each with the index of the ASCII character that separates its name from
    /// its value.
    pub fn new(comments: &'a [(String<A>, usize)]) -> Tags<'a, A>
        requires have_separator_indices { HaveSeparatorIndices comments.now }
        ensures { remaining_tags result ≡ tags_of_entries (entries_view comments.now) }
    {
        Tags { comments }
    }
}

// The name before the separator and the value after it.
fn split<A: Allocator>(comment: &(String<A>, usize)) -> (&str, &str)
    requires is_separator_index { IsSeparatorIndex (string_bytes comment.now.0) comment.now.1 }
    ensures { pair_view result ≡ tag_of_entry (entry_view comment.now) }
{
    let text = comment.0.as_str();
    let place = comment.1;
    (&text[..place], &text[place + 1..])
}

impl<'a, A: Allocator> Iterator for Tags<'a, A> {
    ghost use Rattle.claxon_metadata.specs.Tags.{remaining_tags};

    type Item = (&'a str, &'a str);

    ghost next_gives = { YieldsFirstBy pair_view remaining_tags };

    ghost remaining = { item_count remaining_tags };

    fn next(&mut self) -> Option<(&'a str, &'a str)> {
        let (first, rest) = self.comments.split_first()?;
        self.comments = rest;
        Some(split(first))
    }

    #[tactic(auto, using(crate::proofs::TagSeparators::hints))]
    fn size_hint(&self) -> (usize, Option<usize>)
        ensures exact { result
            ≡ (length (remaining_tags self.now), Some (length (remaining_tags self.now))) }
        ensures lower { IsWithinCount result.0 (item_count remaining_tags self.now) }
        ensures upper { IfSome result.1 (UpTo (item_count remaining_tags self.now)) }
    {
        (self.comments.len(), Some(self.comments.len()))
    }
}

impl<A: Allocator> ExactSizeIterator for Tags<'_, A> {
    #[tactic(auto, using(crate::proofs::TagSeparators::hints))]
    fn len(&self) -> usize {
        self.comments.len()
    }
}

/// Iterates over the values of the Vorbis comments with a given name.
///
/// Names are compared without regard to the case of the letters A to Z.
#[derive(Drop)]
pub struct GetTag<'a, A: Allocator = Global> {
    tags: Tags<'a, A>,
    needle: &'a str,
}

impl<'a, A: Allocator> GetTag<'a, A> {
    ghost use Rattle.claxon_metadata.specs.Tags.{remaining_values};

    /// Looks for the name among texts, each with the index of the ASCII character that separates its
    /// name from its value.
    pub fn new(vorbis_comments: &'a [(String<A>, usize)], needle: &'a str) -> GetTag<'a, A>
        requires have_separator_indices { HaveSeparatorIndices vorbis_comments.now }
        ensures { remaining_values result ≡ values needle.now
            (tags_of_entries (entries_view vorbis_comments.now)) }
    {
        GetTag {
            tags: Tags::new(vorbis_comments),
            needle,
        }
    }
}

impl<'a, A: Allocator> Iterator for GetTag<'a, A> {
    ghost use Rattle.claxon_metadata.specs.Tags.{remaining_values};

    type Item = &'a str;

    ghost next_gives = { YieldsFirstRef remaining_values };

    ghost remaining = { item_count remaining_values };

    fn next(&mut self) -> Option<&'a str> {
        while let Some((name, value)) = self.tags.next() {
            if name.eq_ignore_ascii_case(self.needle) {
                return Some(value);
            }
        }
        None
    }
}
