//! The places of a stream that aren't right, while its parts are found.
ghost use Rattle.std.specs.Prelude.{◌≡◌, ◌≤◌, None};
ghost use Rattle.claxon.specs.MetadataBlock.{info_view};
ghost use Rattle.claxon_report.specs.Places.{
  begun_scan,
  damaged,
  ended_place,
  ends_place,
  fills,
  filled,
  goes_on,
  greater,
  last_places,
  longer,
  missing_at_end,
  missing_place,
  out_of_order,
  place_until,
  returned,
  returns,
  scan_frame,
  scan_part,
};

use crate::due::{Due, FoundFrame};
use crate::place::{Damage, Gap, Place};
use claxon::metadata::StreamInfo;
use claxon_blocks::frames::FrameError;
use std::result;

/// Where a place begins that hasn't ended, and what is wrong there.
#[derive(Drop)]
pub struct Begun {
    /// The byte at which it begins, modulo 2^64. The first byte of the stream is 0.
    pub byte: u64,
    /// The number, in the stream that was encoded, of the sample that was due there, modulo 2^64.
    pub sample: u64,
    /// What is wrong first.
    pub damage: Damage,
}

/// Coded numbers: the first, and the one after the last.
#[derive(Clone, Copy)]
pub struct Numbers {
    /// The first of them, modulo 2^64.
    pub first: u64,
    /// The one after the last, modulo 2^64. There are none where it is the first.
    pub after: u64,
}

/// A place that has ended, unless a frame shows that those after it came too early.
#[derive(Drop)]
pub struct Ended {
    /// The place.
    pub place: Place,
    /// The numbers that were due in it and didn't come.
    pub skipped: Numbers,
    /// The numbers of frames that came too early.
    pub early: Numbers,
}

/// What is due, and the places that may go on. A byte is told by its position in the stream, modulo 2^64.
#[derive(Drop)]
pub struct Scan {
    /// What the next frame has to be.
    pub due: Due,
    /// The last place that has ended.
    pub ended: Option<Ended>,
    /// The place that hasn't ended.
    pub begun: Option<Begun>,
}

/// A scan after one part more, and a place that can't go on any more.
#[derive(Drop)]
pub struct Scanned {
    /// The scan after that part.
    pub scan: Scan,
    /// The place that can't go on any more, if there is one.
    pub place: Option<Place>,
}

impl Scan {
    /// Nothing was found so far.
    pub fn new() -> Scan
        ensures is_begun { result ≡ begun_scan }
    {
        Scan {
            due: Due {
                is_variable: None,
                number: 0,
                sample: 0,
            },
            ended: None,
            begun: None,
        }
    }

    /// Something is wrong at this byte. A place begins there, if none goes on.
    pub fn damaged(self, byte: u64, damage: Damage) -> Scan
        ensures is_damaged { result ≡ damaged byte damage self }
    {
        let Scan { due, ended, begun } = self;
        let begun = match begun {
            Some(begun) => begun,
            None => Begun {
                byte,
                sample: due.sample,
                damage,
            },
        };
        Scan {
            due,
            ended,
            begun: Some(begun),
        }
    }

    /// A frame begins at this byte.
    pub fn frame(self, info: &StreamInfo, byte: u64, frame: &FoundFrame) -> Scanned
        ensures is_scanned { result ≡ scan_frame (info_view info.now) byte frame.now self }
    {
        if let Some(damage) = self.due.other_stream(info, frame) {
            return not_ended(self.damaged(byte, damage));
        }
        if frame.header.number >= self.due.number {
            return self.goes_on(info, byte, frame);
        }
        if returns(&self.ended, frame.header.number) {
            return self.returned(info, byte, frame);
        }
        not_ended(self.damaged(byte, Damage::Repeated))
    }

    /// A frame begins at this byte, or none is decoded there for this cause.
    pub fn part(
        self,
        info: &StreamInfo,
        byte: u64,
        what: result::Result<FoundFrame, FrameError>,
    ) -> Scanned
        ensures is_scanned { result ≡ scan_part (info_view info.now) self byte what }
    {
        match what {
            Ok(frame) => self.frame(info, byte, &frame),
            Err(fault) => not_ended(self.damaged(byte, Damage::Fault(fault))),
        }
    }

    // The frame is the next one that goes on in order, and ends the place that goes on, if one does.
    fn goes_on(self, info: &StreamInfo, byte: u64, frame: &FoundFrame) -> Scanned
        requires { self.due.number ≤ frame.now.header.number }
        ensures { result ≡ goes_on (info_view info.now) byte frame.now self }
    {
        let Scan { due, ended, begun } = self;
        let next = due.after(info, frame);
        let sample = due.first_sample(info, &frame.header);
        match begun {
            Some(begun) => ends_place(due, ended, next, frame, place_until(begun, byte, sample)),
            None if frame.header.number == due.number => not_ended(Scan {
                due: next,
                ended,
                begun: None,
            }),
            None if fills(&ended, due.number, frame.header.number) => not_ended(Scan {
                due: next,
                ended: filled(ended, byte, sample),
                begun: None,
            }),
            None => {
                let place = missing_place(due, frame, byte, sample);
                ends_place(due, ended, next, frame, place)
            }
        }
    }

    // The frame was due in the last place, which goes on up to it: the frames since then came too early.
    fn returned(self, info: &StreamInfo, byte: u64, frame: &FoundFrame) -> Scanned
        ensures { result ≡ returned (info_view info.now) byte frame.now self }
    {
        let Scan { due, ended, .. } = self;
        let sample = due.first_sample(info, &frame.header);
        not_ended(Scan {
            due: due.after(info, frame),
            ended: out_of_order(ended, due.number, frame.header.number, byte, sample),
            begun: None,
        })
    }

    /// The place that ended last, and the last one of a stream that ends at this byte and should have so many samples of each
    /// channel: 0 if that isn't known.
    pub fn finish(self, end: u64, samples: u64) -> (Option<Place>, Option<Place>)
        ensures are_last { result ≡ last_places end samples self }
    {
        let Scan { due, ended, begun } = self;
        let last = match begun {
            Some(begun) => Some(place_until(begun, end, greater(due.sample, samples))),
            None if due.sample < samples => Some(missing_at_end(end, due.sample, samples)),
            None => None,
        };
        (ended_place(ended), last)
    }
}

fn not_ended(scan: Scan) -> Scanned
    ensures scan { result.scan ≡ scan }
    ensures none { result.place ≡ None }
{
    Scanned { scan, place: None }
}

// Whether this number was due in the last place and didn't come.
fn returns(ended: &Option<Ended>, number: u64) -> bool
    ensures { result ≡ returns ended.now number }
{
    match ended {
        Some(ended) => ended.skipped.first <= number && number < ended.skipped.after,
        None => false,
    }
}

// Whether frames that came too early are all that is missing from the number that is due up to this one.
fn fills(ended: &Option<Ended>, due: u64, number: u64) -> bool
    ensures { result ≡ fills ended.now due number }
{
    match ended {
        Some(ended) => ended.early.first == due && ended.early.after == number,
        None => false,
    }
}

// The frame ends this place.
fn ends_place(
    due: Due,
    ended: Option<Ended>,
    next: Due,
    frame: &FoundFrame,
    place: Place,
) -> Scanned
    ensures { result ≡ ends_place due ended next frame.now place }
{
    let skipped = Numbers {
        first: due.number,
        after: frame.header.number,
    };
    let early = Numbers { first: 0, after: 0 };
    Scanned {
        scan: Scan {
            due: next,
            ended: Some(Ended {
                place,
                skipped,
                early,
            }),
            begun: None,
        },
        place: ended_place(ended),
    }
}

fn ended_place(ended: Option<Ended>) -> Option<Place>
    ensures { result ≡ ended_place ended }
{
    match ended {
        Some(ended) => {
            let Ended { place, .. } = ended;
            Some(place)
        }
        None => None,
    }
}

// The place that ends at this byte, and before this sample.
fn place_until(begun: Begun, end_byte: u64, end_sample: u64) -> Place
    ensures { result ≡ place_until begun end_byte end_sample }
{
    let Begun {
        byte,
        sample,
        damage,
    } = begun;
    Place {
        start_byte: byte,
        end_byte,
        start_sample: sample,
        end_sample,
        damage,
    }
}

// The place before a frame at this byte, with this first sample, before which others were due.
fn missing_place(due: Due, frame: &FoundFrame, byte: u64, sample: u64) -> Place
    requires { due.number ≤ frame.now.header.number }
    ensures { result ≡ missing_place due frame.now byte sample }
{
    let count = frame.header.number - due.number;
    let is_variable = frame.header.is_variable;
    Place {
        start_byte: byte,
        end_byte: byte,
        start_sample: due.sample,
        end_sample: sample,
        damage: Damage::Missing(Gap { count, is_variable }),
    }
}

// The place at the end of a stream of which samples are missing there.
fn missing_at_end(end: u64, sample: u64, samples: u64) -> Place
    requires { sample ≤ samples }
    ensures { result ≡ missing_at_end end sample samples }
{
    let count = samples - sample;
    Place {
        start_byte: end,
        end_byte: end,
        start_sample: sample,
        end_sample: samples,
        damage: Damage::Missing(Gap {
            count,
            is_variable: true,
        }),
    }
}

// The place goes on up to a frame with this number, which was due in it.
fn out_of_order(
    ended: Option<Ended>,
    due: u64,
    number: u64,
    byte: u64,
    sample: u64,
) -> Option<Ended>
    ensures { result ≡ out_of_order ended due number byte sample }
{
    match ended {
        Some(ended) => {
            let Ended {
                place,
                skipped,
                early,
            } = ended;
            Some(Ended {
                place: longer(place, byte, sample),
                skipped: Numbers {
                    first: skipped.first,
                    after: number,
                },
                early: Numbers {
                    first: skipped.after,
                    after: greater(due, early.after),
                },
            })
        }
        None => None,
    }
}

// The place goes on up to a frame before which none is missing but those that came too early.
fn filled(ended: Option<Ended>, byte: u64, sample: u64) -> Option<Ended>
    ensures { result ≡ filled ended byte sample }
{
    match ended {
        Some(ended) => {
            let Ended { place, skipped, .. } = ended;
            Some(Ended {
                place: longer(place, byte, sample),
                skipped,
                early: Numbers { first: 0, after: 0 },
            })
        }
        None => None,
    }
}

// The place up to this byte and sample. Where frames were missing they are out of order.
fn longer(place: Place, end_byte: u64, end_sample: u64) -> Place
    ensures { result ≡ longer place end_byte end_sample }
{
    let Place {
        start_byte,
        start_sample,
        damage,
        ..
    } = place;
    Place {
        start_byte,
        end_byte,
        start_sample,
        end_sample,
        damage: match damage {
            Damage::Missing(_) => Damage::OutOfOrder,
            damage => damage,
        },
    }
}

fn greater(a: u64, b: u64) -> u64
    ensures { result ≡ greater a b }
{
    if a < b { b } else { a }
}
