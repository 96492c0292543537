//! Digests of other programs: the test suite of RFC 1321, messages that end around the end of a
//! block, and samples.
ghost use Rattle.std.specs.Prelude.{◌<◌, ◌≤◌};

use crate::Md5;

// The digest of a message that is given in pieces of this length.
fn digest_of_pieces(message: &[u8], piece_len: usize) -> u128
    requires { 0 < piece_len }
{
    let mut hasher = Md5::new();
    for piece in message.chunks(piece_len) {
        hasher.update(piece);
    }
    u128::from_be_bytes(hasher.finish())
}

// RFC 1321, appendix A.5.
#[rattlefmt::skip]
#[test]
fn test_suite(rt: HostRuntime) {
    let rows = [
        ("", 0xd41d8cd98f00b204e9800998ecf8427e),
        ("a", 0x0cc175b9c0f1b6a831c399e269772661),
        ("abc", 0x900150983cd24fb0d6963f7d28e17f72),
        ("message digest", 0xf96b697d7cb7938d525a2f31aaf161d0),
        ("abcdefghijklmnopqrstuvwxyz", 0xc3fcd3d76192e4007dfb496cca67e13b),
        (
            "ABCDEFGHIJKLMNOPQRSTUVWXYZabcdefghijklmnopqrstuvwxyz0123456789",
            0xd174ab98d277d9f5a5611c2c9f419d9f,
        ),
        (
            "12345678901234567890123456789012345678901234567890123456789012345678901234567890",
            0x57edf4a22be3c955ac49da2e2107b67a,
        ),
    ];
    for (text, want) in rows {
        for piece_len in [1, 7, 64, 1000] {
            assert!(rt; 0 < piece_len);
            let digest = digest_of_pieces(text.as_bytes(), piece_len);
            assert!(rt; digest == want, "{text} by {piece_len}");
        }
    }
}

// Byte i of each message is 7i + 3, modulo 256. The digests are those of `md5sum`.
#[test]
fn ends_of_blocks(rt: HostRuntime) {
    let mut bytes = [0; 128];
    for i in 0..128 {
        bytes[i] = ((7 * i + 3) % 256) as u8;
    }
    let rows = [
        (55, 0x52c0e574e1198de5fe3f8f11440dcb1b),
        (56, 0x46c9907fc908ee68b1e7b8e71286a518),
        (57, 0x1c805dd236c35cab25fcb1bc73802c51),
        (63, 0xa62f6d59e837867693f042f5b8f5a236),
        (64, 0x7160b8fb5e9e4023d549c3971fbaeead),
        (65, 0x70bd662e7aefbda85a0f7244167b7897),
        (119, 0xe84905d4214f4d1ca56c2cdcc152b143),
        (120, 0xe3eb5a6c8669ea01a8c185b8abc8a5dc),
        (128, 0x10b2da1a82f16d99a81a7203fe9f02cb),
    ];
    for (len, want) in rows {
        for piece_len in [1, 7, 64, 1000] {
            assert!(rt; len <= 128 && 0 < piece_len);
            let digest = digest_of_pieces(&bytes[..len], piece_len);
            assert!(rt; digest == want, "{len} by {piece_len}");
        }
    }
}

// The digest of samples that are given in pieces of this length.
fn digest_of_samples(samples: &[i32], bit_depth: u32, piece_len: usize) -> u128
    requires some { 0 < piece_len }
    requires min_bit_depth { 1 ≤ bit_depth }
    requires max_bit_depth { bit_depth ≤ 32 }
{
    let mut hasher = Md5::new();
    for piece in samples.chunks(piece_len) {
        hasher.update_samples(piece, bit_depth);
    }
    u128::from_be_bytes(hasher.finish())
}

// The digests are those of Python's `hashlib`, over bytes that its `struct` packed.
#[rattlefmt::skip]
#[test]
fn bit_depths(rt: HostRuntime) {
    let rows = [
        (4, [0, 1, -1, 7, -8, 5, -6], 0xba8248ff10d1e5537a299f14dfe63bd5),
        (8, [0, 1, -1, 127, -128, 100, -77], 0xcfd8c8c1a59277ce2b10dcece880243f),
        (12, [0, 1, -1, 2047, -2048, 1000, -777], 0xf295de09ca5d74edf31be8e7d8e740ea),
        (16, [0, 1, -1, 32767, -32768, 12345, -23456], 0x1f13d0e7be54e29b38814bbe35728828),
        (20, [0, 1, -1, 524287, -524288, 123456, -234567], 0xa8c979af7758fa994d975bbfe21a7f88),
        (24, [0, 1, -1, 8388607, -8388608, 1234567, -7654321], 0x91a30b1557a0b02e116c84dcfd6e3a1b),
        (
            32,
            [0, 1, -1, 2147483647, -2147483648, 123456789, -1987654321],
            0xb9e5acd02f153532eaae37678d56152e,
        ),
    ];
    for (bit_depth, samples, want) in rows {
        for piece_len in [1, 3, 7] {
            assert!(rt; 1 <= bit_depth && bit_depth <= 32 && 0 < piece_len);
            let digest = digest_of_samples(&samples, bit_depth, piece_len);
            assert!(rt; digest == want, "{bit_depth} bits by {piece_len}");
        }
    }
}

// More samples than are packed at once: sample i is 7919i, modulo 65536, less 32768. In 8 bits they
// don't fit, and their low bytes are hashed.
#[test]
fn many_samples(rt: HostRuntime) {
    let mut samples = [0; 3000];
    for i in 0..3000 {
        samples[i] = (7919 * i % 65536) as i32 - 32768;
    }
    let rows = [
        (16, 0, 0xd41d8cd98f00b204e9800998ecf8427e),
        (16, 1023, 0xe7f3b413d6bdd528f25e097490538927),
        (16, 1024, 0x95956bdd6ef9999e66fdd0065413cb24),
        (16, 1025, 0x03b3814b375aa1067bca91d0d90ac876),
        (8, 3000, 0x3f3abce5f1b0cfdfba97f3d05f36c15f),
        (16, 3000, 0x8b49d1cbec221ef6dafc8e97bf7137fd),
        (24, 3000, 0xa01c7931cb0ccf92b27dfe19a9fe0068),
        (32, 3000, 0x5b15180973379a3f0af2259b70d4037e),
    ];
    for (bit_depth, len, want) in rows {
        for piece_len in [1, 1000, 3000] {
            assert!(rt; 1 <= bit_depth && bit_depth <= 32 && len <= 3000 && 0 < piece_len);
            let digest = digest_of_samples(&samples[..len], bit_depth, piece_len);
            assert!(rt;
                digest == want,
                "{len} samples of {bit_depth} bits by {piece_len}"
            );
        }
    }
}

// 1300 samples of each of these channels, one channel after another: sample i of channel ch is
// 7919i + 104729ch, modulo 65536, less 32768. The digests are those of the interleaved samples.
#[test]
fn planar_samples(rt: HostRuntime) {
    let mut samples = [0; 10_400];
    for k in 0..10_400 {
        samples[k] = ((7919 * (k % 1300) + 104_729 * (k / 1300)) % 65536) as i32 - 32768;
    }
    let rows = [
        (1, 0x56d50ced1c16c660eb39e8b0d6938c7a),
        (2, 0xa8100fd960ee22471233d71f6f1d2e07),
        (3, 0x15223fa6f809bce0b863e15361a27095),
        (4, 0x8cbb1a6f7cc1bdb23cafe750bc02c907),
        (5, 0x498faa5af54fe98051f6b2c6ff5b1c9d),
        (6, 0x67e31db91afe8256a7213005ade1f96c),
        (7, 0x11f4ca7fe3b370f95ecdf86fcf11f61b),
        (8, 0x59f8fb29c15fc5834c195f28212cf3c3),
    ];
    for (channels, want) in rows {
        assert!(rt; 1 <= channels && channels <= 8);
        let planar = &samples[..1300 * channels as usize];
        assert!(rt; planar.len() % channels as usize == 0);
        let mut hasher = Md5::new();
        hasher.update_planar(planar, channels, 16);
        let digest = u128::from_be_bytes(hasher.finish());
        assert!(rt; digest == want, "{channels} channels");
    }
}
