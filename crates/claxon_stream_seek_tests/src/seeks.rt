//! Seeks in whole, damaged, cut and hostile streams, in pieces.
use crate::written::{Numbers, info, known_of, stream_of};
use claxon::metadata::StreamInfo;
use claxon_seek::{BlockMemory, Search, seek};
use claxon_stream::{Event, FrameDecoder};
use claxon_stream_seek::{Clock, SeekEvent, Seeker};
use std::alloc::{AllocError, Global};
use std::test::Fail;

// What a seek finds: the position, the one after the frame, and the time of the block.
#[derive(Clone, Copy, Debug, PartialEq, Eq)]
enum Outcome {
    Found(u64, u64, u64),
    NotFound,
    OverBudget,
    NoAnswer,
}

// What is answered, if the positions fit.
fn answer(
    seeker: &mut Seeker,
    alloc: Global,
    bytes: &[u8],
    range: (u64, u64),
    known: Option<StreamInfo>,
) -> claxon::Result<SeekEvent> {
    let len = bytes.len() as u64;
    if len > 1 << 20 || range.0 > 1 << 63 {
        return Ok(SeekEvent::NotFound);
    }
    if let Some(info) = known
        && info.bits_per_sample != 8
    {
        return Ok(SeekEvent::NotFound);
    }
    let start = range.0.min(len);
    let end = range.1.max(start).min(len);
    let held = &bytes[start as usize..end as usize];
    seeker.seek_next(alloc, held, range.0, end == len, known)
}

// What is found by pieces of this size.
fn found_by(
    seeker: &mut Seeker,
    alloc: Global,
    bytes: &[u8],
    known: Option<StreamInfo>,
    size: u64,
) -> claxon::Result<Outcome> {
    let mut at = 0;
    let mut end = 0u64;
    for _ in 0..1_000_000 {
        match answer(seeker, alloc, bytes, (at, end), known)? {
            SeekEvent::Found(found) => {
                return Ok(Outcome::Found(found.position, found.end, found.time));
            }
            SeekEvent::NotFound => return Ok(Outcome::NotFound),
            SeekEvent::OverBudget => return Ok(Outcome::OverBudget),
            SeekEvent::ReadOn(needed) => {
                let from = if needed.position == at {
                    end.max(at)
                } else {
                    needed.position
                };
                at = needed.position;
                end = from.saturating_add(size);
            }
        }
    }
    Ok(Outcome::NoAnswer)
}

// Has the clock note the next frame of the bytes, if there is one.
fn note_next(
    clock: &mut Clock,
    decoder: &mut FrameDecoder,
    alloc: Global,
    bytes: &[u8],
    known: Option<StreamInfo>,
) -> claxon::Result<()> {
    if bytes.len() > 1 << 20 {
        return Ok(());
    }
    if let Some(info) = known
        && info.bits_per_sample != 8
    {
        return Ok(());
    }
    let at = decoder.position();
    let event = decoder.decode_next(Vec::new(alloc), bytes, 0, true, known)?;
    if let Event::Decoded(frame) = event {
        clock.note(at, decoder.position(), &frame.info);
    }
    Ok(())
}

// The clock after the first two frames of the bytes.
fn clock_of(alloc: Global, bytes: &[u8], known: Option<StreamInfo>) -> claxon::Result<Clock> {
    let mut clock = Clock::new(known);
    let mut decoder = FrameDecoder::new(0);
    for _ in 0..2 {
        note_next(&mut clock, &mut decoder, alloc, bytes, known)?;
    }
    Ok(clock)
}

// What is sought in a stream of these bytes, from its start on.
fn sought(
    alloc: Global,
    bytes: &[u8],
    known: Option<StreamInfo>,
    sample: u64,
    size: u64,
) -> claxon::Result<Outcome> {
    let clock = clock_of(alloc, bytes, known)?;
    let mut seeker = Seeker::new(0, Some(bytes.len() as u64), known, sample, clock);
    let found = found_by(&mut seeker, alloc, bytes, known, size)?;
    let mut seeker = Seeker::new(0, None, known, sample, clock);
    let other = found_by(&mut seeker, alloc, bytes, known, size)?;
    if found == other {
        Ok(found)
    } else {
        Ok(Outcome::NoAnswer)
    }
}

const WHOLE: u64 = 1 << 20;

// What numbers count, the sizes of blocks, those of the streaminfo, and the time of each block and after the last one.
type Row = (Numbers, [u8; 4], Option<(u16, u16)>, [u64; 5]);

#[rattlefmt::skip]
const ROWS: [Row; 6] = [
    (Numbers::Frames, [16, 16, 16, 10], Some((16, 16)), [0, 16, 32, 48, 58]),
    (Numbers::Frames, [16, 16, 16, 10], Some((10, 16)), [0, 16, 32, 48, 58]),
    (Numbers::Frames, [16, 16, 16, 10], None, [0, 16, 32, 48, 58]),
    (Numbers::Samples, [16, 20, 10, 16], Some((10, 20)), [0, 16, 36, 46, 62]),
    (Numbers::OldSamples, [16, 20, 10, 16], Some((10, 20)), [0, 16, 36, 46, 62]),
    (Numbers::OldSamples, [16, 20, 10, 16], None, [0, 16, 36, 46, 62]),
];

// Whether that is sought in pieces of this size.
fn is_sought(
    alloc: Global,
    bytes: &[u8],
    known: Option<StreamInfo>,
    sample: u64,
    size: u64,
    wanted: Outcome,
) -> bool {
    match sought(alloc, bytes, known, sample, size) {
        Ok(found) => found == wanted,
        Err(_) => false,
    }
}

// Whether the first and the last sample of each block are found.
fn has_blocks(
    alloc: Global,
    bytes: &[u8],
    known: Option<StreamInfo>,
    times: &[u64; 5],
    size: u64,
) -> bool {
    let mut all = true;
    for i in 0..4usize {
        let place = 11 * i as u64;
        let found = Outcome::Found(place, place + 11, times[i]);
        let last = times[i + 1].saturating_sub(1);
        all = all
            && is_sought(alloc, bytes, known, times[i], size, found)
            && is_sought(alloc, bytes, known, last, size, found);
    }
    all
}

// Whether no sample from this one on is found.
fn has_end(alloc: Global, bytes: &[u8], known: Option<StreamInfo>, end: u64, size: u64) -> bool {
    let mut all = true;
    for sample in [end, 1000, u64::MAX] {
        all = all && is_sought(alloc, bytes, known, sample, size, Outcome::NotFound);
    }
    all
}

fn has_borders(alloc: Global, row: &Row, size: u64) -> Result<bool, AllocError> {
    let (numbers, sizes, block_sizes, times) = *row;
    let known = known_of(block_sizes);
    let bytes = stream_of(alloc, numbers, &sizes)?;
    let bytes = bytes.as_slice();
    Ok(
        has_blocks(alloc, bytes, known, &times, size)
            && has_end(alloc, bytes, known, times[4], size),
    )
}

// The first and the last sample of each block, and those after the last: of numbers of frames, of samples, and of an old encoder, by
// a streaminfo of one or two sizes or none.
#[test]
fn borders(rt: HostRuntime) -> Result<(), Fail> {
    for (number, row) in ROWS.iter().enumerate() {
        for size in [1, 5, WHOLE] {
            assert!(rt; has_borders(rt.alloc(), row, size)?, "{number} {size}");
        }
    }
    Ok(())
}

// The time of the block with a sample, of blocks of 16, 17, 18, 19 and 20 samples in turn.
fn time_of_block(sample: u64) -> u64 {
    let rest = sample % 90;
    let begin = match rest {
        0..16 => 0,
        16..33 => 16,
        33..51 => 33,
        51..70 => 51,
        _ => 70,
    };
    sample - rest + begin
}

// Frames of such blocks, of an old encoder.
fn old_stream(alloc: Global) -> Result<Vec<u8>, AllocError> {
    let mut sizes = [16u8; 300];
    for i in 0..300usize {
        sizes[i] = (16 + i % 5) as u8;
    }
    stream_of(alloc, Numbers::OldSamples, &sizes)
}

fn is_in_time(
    alloc: Global,
    bytes: &[u8],
    known: Option<StreamInfo>,
    clock: Clock,
    sample: u64,
) -> bool {
    let mut seeker = Seeker::new(0, Some(bytes.len() as u64), known, sample, clock);
    match found_by(&mut seeker, alloc, bytes, known, 8192) {
        Ok(Outcome::Found(_, _, time)) => time == time_of_block(sample),
        _ => false,
    }
}

// 1,000 seeks in 300 frames of an old encoder: each sample is found, and at the right time.
#[test]
fn old_encoder(rt: HostRuntime) -> Result<(), Fail> {
    let bytes = old_stream(rt.alloc())?;
    let known = Some(info(16, 20));
    let clock = clock_of(rt.alloc(), bytes.as_slice(), known)?;
    for i in 0..1_000 {
        assert!(rt;
            is_in_time(rt.alloc(), bytes.as_slice(), known, clock, 5 * i),
            "{i}"
        );
    }
    Ok(())
}

// Whether `claxon_seek::seek` finds such a frame in all bytes.
fn is_there(
    memory: &mut BlockMemory,
    bytes: &[u8],
    known: Option<StreamInfo>,
    sample: u64,
) -> claxon::Result<bool> {
    if let Some(info) = known
        && info.bits_per_sample != 8
    {
        return Ok(false);
    }
    match seek(memory, bytes, known, 0, sample, 1 << 26)? {
        Search::Found(_) => Ok(true),
        _ => Ok(false),
    }
}

// Whether a frame is found in pieces of this size, of 112 bytes or fewer, just if there is one.
fn is_found_if(
    alloc: Global,
    bytes: &[u8],
    known: Option<StreamInfo>,
    sample: u64,
    size: u64,
    is_there: bool,
) -> bool {
    let mut seeker = Seeker::new(0, Some(112), known, sample, Clock::new(known));
    match found_by(&mut seeker, alloc, bytes, known, size) {
        Ok(Outcome::Found(_, _, time)) => is_there && time <= sample,
        Ok(found) => !is_there && found == Outcome::NotFound,
        Err(_) => false,
    }
}

// Whether that is so in pieces of each size.
fn is_found_as_by_seek(
    alloc: Global,
    memory: &mut BlockMemory,
    bytes: &[u8],
    sample: u64,
) -> claxon::Result<bool> {
    let known = Some(info(16, 20));
    let is_there = is_there(memory, bytes, known, sample)?;
    let mut all = true;
    for size in [1, 7, WHOLE] {
        all = all && is_found_if(alloc, bytes, known, sample, size, is_there);
    }
    Ok(all)
}

// The next number of a sequence that looks random.
fn next_random(random: u64) -> u64 {
    random
        .wrapping_mul(6_364_136_223_846_793_005)
        .wrapping_add(1_442_695_040_888_963_407)
}

// Changes eight bytes by chance, in three of four rounds, and returns how many bytes are left: all, or in every second round
// fewer.
fn damage(bytes: &mut [u8; 112], random: &mut u64, round: u64) -> usize {
    for _ in 0..8 {
        *random = next_random(*random);
        if round % 4 > 0 {
            bytes[(*random >> 33) as usize % 112] = ((*random >> 56) & 0xff) as u8;
        }
    }
    if round % 2 == 0 {
        112
    } else {
        (*random >> 40) as usize % 112
    }
}

// Ten frames of 112 bytes.
fn ten_frames(alloc: Global) -> Result<[u8; 112], AllocError> {
    let sizes = [16, 20, 10, 16, 30, 3, 16, 20, 10, 16];
    let frames = stream_of(alloc, Numbers::Samples, &sizes)?;
    let mut bytes = [0u8; 112];
    let len = frames.len().min(112);
    bytes[..len].copy_from_slice(&frames.as_slice()[..len]);
    Ok(bytes)
}

// In any pieces a frame is found exactly where `claxon_seek::seek` finds one: of a stream with eight bytes changed by chance, or cut.
#[test]
fn beside_seek(rt: HostRuntime) -> Result<(), Fail> {
    let mut memory = BlockMemory::new(rt.alloc());
    let whole = ten_frames(rt.alloc())?;
    let mut random = 1;
    for round in 0..100 {
        let mut bytes = whole;
        let len = damage(&mut bytes, &mut random, round);
        for sample in [0, 15, 16, 36, 46, 91, 92, 95, 156] {
            let stream = &bytes[..len.min(112)];
            assert!(rt;
                is_found_as_by_seek(rt.alloc(), &mut memory, stream, sample)?,
                "{round} {sample}"
            );
        }
    }
    Ok(())
}

// What a frame of eight channels of 65,535 samples begins with: of 200 such headers 127 are tried, and those after them are passed over.
#[rattlefmt::skip]
const COSTLY: [u8; 11] = [0xff, 0xf8, 0x79, 0x72, 0x00, 0xff, 0xfe, 0xec, 0x02, 0x46, 0xc9];

// 200 of them, and a frame.
fn costly_stream(alloc: Global) -> Result<[u8; 2_211], AllocError> {
    let mut bytes = [0u8; 2_211];
    for i in 0..2_200usize {
        bytes[i] = COSTLY[i % 11];
    }
    let frame = stream_of(alloc, Numbers::Frames, &[16])?;
    let len = frame.len().min(11);
    bytes[2_200..2_200 + len].copy_from_slice(&frame.as_slice()[..len]);
    Ok(bytes)
}

#[test]
fn costly_headers(rt: HostRuntime) -> Result<(), Fail> {
    let bytes = costly_stream(rt.alloc())?;
    let mut seeker = Seeker::new(0, Some(2_211), None, 16, Clock::new(None));
    let found = found_by(&mut seeker, rt.alloc(), &bytes, None, WHOLE)?;
    assert_eq!(rt; found, Outcome::OverBudget);
    Ok(())
}
