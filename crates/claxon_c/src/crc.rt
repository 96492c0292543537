//! The CRC of frames.
ghost use Rattle.claxon_c.specs.CrcCall.{CCrcBegins, CCrcContinues};

use claxon::running::Running;

/// The CRC by x^16 + x^15 + x^2 + 1 (RFC 9639, section 9.3) after more bytes, from what it was before them: 0 at first.
#[unsafe(no_mangle)]
pub extern "C" fn claxon_crc16(crc: u16, bytes: &[u8]) -> u16
    ensures begins { CCrcBegins crc bytes.now result }
    ensures continues { CCrcContinues crc bytes.now result }
{
    match bytes {
        // What looks for the end of a frame passes one byte after another.
        [byte] => crc.next(*byte),
        _ => crc.after(bytes),
    }
}
