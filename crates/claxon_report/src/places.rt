//! The places that are kept of those that were found.
ghost use Rattle.std.specs.Prelude.{◌≡◌, ◌↔◌, ◌<◌, [], ◌∷◌, IsTrue, false, length, if◌then◌else◌};
ghost use Rattle.claxon_report.specs.Kept.{Keeps, KeepsPlaces, Pushes};
ghost use Rattle.claxon_report.specs.Places.{list_of};

use crate::place::{Place, Places};
use std::alloc::Allocator;

/// The first places, as many as are wanted and as there was memory for; the others are counted.
#[derive(Drop)]
pub struct KeptPlaces<A: Allocator> {
    /// Those that are kept, and how many are left out.
    pub places: Places<A>,
    /// How many are kept after the first, at most.
    pub more: usize,
    /// No more are kept.
    pub is_full: bool,
}

impl<A: Allocator> KeptPlaces<A> {
    /// None so far. After the first so many are kept, at most.
    pub fn new(alloc: A, more: usize) -> KeptPlaces<A>
        ensures keeps { Keeps [] result }
        ensures more { result.more ≡ more }
        ensures none { result.places.more.items ≡ [] }
    {
        KeptPlaces {
            places: Places {
                first: None,
                more: Vec::new(alloc),
                left_out: 0,
            },
            more,
            is_full: false,
        }
    }

    /// One place more, if there is one.
    pub fn with(self, place: Option<Place>) -> KeptPlaces<A>
        ensures keeps { KeepsPlaces (list_of place) self result }
    {
        match place {
            Some(place) => self.with_place(place),
            None => self,
        }
    }

    // One place more.
    fn with_place(self, place: Place) -> KeptPlaces<A>
        ensures keeps { KeepsPlaces (place ∷ []) self result }
    {
        let KeptPlaces {
            places,
            more,
            is_full,
        } = self;
        let Places {
            first,
            more: kept,
            left_out,
        } = places;
        match first {
            None => KeptPlaces {
                places: Places {
                    first: Some(place),
                    more: kept,
                    left_out,
                },
                more,
                is_full,
            },
            Some(first) => {
                let is_room = has_room(is_full, kept.as_slice(), more);
                let Pushed { items, is_pushed } = push(kept, place, is_room);
                let one_more = one_unless(is_pushed);
                KeptPlaces {
                    places: Places {
                        first: Some(first),
                        more: items,
                        left_out: left_out.wrapping_add(one_more),
                    },
                    more,
                    is_full: !is_pushed,
                }
            }
        }
    }
}

// 1, unless it is so.
fn one_unless(is_so: bool) -> u64
    ensures { result ≡ (if is_so then 0 else 1) }
{
    if is_so { 0 } else { 1 }
}

// Whether there is room for one place more.
fn has_room(is_full: bool, kept: &[Place], more: usize) -> bool
    ensures { IsTrue result ↔ ((is_full ≡ false) × (length kept.now < more)) }
{
    !is_full && kept.len() < more
}

// Places, and whether one was added.
#[derive(Drop)]
struct Pushed<A: Allocator> {
    items: Vec<Place, A>,
    is_pushed: bool,
}

// Adds a place, if there is room, unless memory for it is refused.
fn push<A: Allocator>(items: Vec<Place, A>, place: Place, has_room: bool) -> Pushed<A>
    ensures pushes { Pushes place has_room items.items result }
{
    let mut items = items;
    let is_pushed = has_room && items.push(place).is_ok();
    Pushed { items, is_pushed }
}
