//! What frames are compared with.
ghost use Rattle.std.specs.Prelude.{IfSome, ◌≡◌, ◌+◌, ◌*◌, ◌/◌, ◌≤◌, min};
ghost use Rattle.std.proofs.Props.{props};
ghost use Rattle.claxon.specs.ShownHead.{HasBitDepth};
ghost use Rattle.claxon_recovery.specs.Kept.{most_kept};

use claxon::metadata::StreamInfo;

// How many bytes are kept of a stream whose frames are small.
const LEAST_KEPT: usize = 512 * 1024;

// How many bytes are kept at most of any stream.
const MOST_KEPT: usize = 4 * 1024 * 1024;

// A streaminfo, if that is known, with its bit depth within bounds.
#[derive(Drop)]
pub(crate) struct Stream {
    known: Option<StreamInfo>,
    ghost has_bit_depth: { IfSome known (λ info. HasBitDepth info) } by { Prim.hlevel props },
}

impl Stream {
    ghost use Rattle.claxon_recovery.specs.Stream.{stream_known};

    pub fn new(known: Option<StreamInfo>) -> Stream
        requires { IfSome known (λ info. HasBitDepth info) }
        ensures { stream_known result ≡ known }
    {
        Stream { known }
    }

    pub fn known(&self) -> Option<StreamInfo>
        ensures known { result ≡ stream_known self.now }
        ensures has_bit_depth { IfSome result (λ info. HasBitDepth info) }
    {
        self.known
    }

    // How many bytes are kept at most.
    pub fn most_kept(&self) -> usize
        ensures is { result ≡ most_kept (stream_known self.now) }
        ensures least { 524288 ≤ result }
        ensures most { result ≤ 4194304 }
    {
        match self.known {
            Some(info) => {
                let len = verbatim_len(info.max_block_size, info.channels, info.bits_per_sample);
                len.min(MOST_KEPT).max(LEAST_KEPT)
            }
            None => LEAST_KEPT,
        }
    }
}

// The most bytes of a frame of so many samples and channels whose subframes are verbatim. A side channel has one bit more.
fn verbatim_len(samples: u16, channels: u32, bit_depth: u32) -> usize
    requires { bit_depth ≤ 32 }
    ensures { result ≡ 18 + min channels 8 * (2 + samples * (bit_depth + 1) / 8) }
{
    let bits = samples as usize * (bit_depth as usize + 1);
    18 + channels.min(8) as usize * (2 + bits / 8)
}
