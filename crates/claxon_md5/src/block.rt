//! The words after a block of 64 bytes (RFC 1321, section 3.4).
ghost use Rattle.std.specs.Prelude.{◌≡◌, fold};
ghost use Rattle.std.specs.Int.{w32, rotate_left};
ghost use Rattle.claxon_md5.specs.Md5.{add, words_of_bytes, process, step};
ghost use Rattle.claxon_md5.specs.Md5.{auxiliary_f, auxiliary_g, auxiliary_h, auxiliary_i};
ghost use Rattle.claxon_md5.specs.Md5.{round_1, round_2, round_3, round_4};
ghost use Rattle.claxon_md5.specs.Sums.{AreSums, operation_over};

/// The number of bytes of a block.
pub const BLOCK_LEN: usize = 64;

// The constants of each round, in the order of the words to which they are added.
#[rattlefmt::skip]
const SINES: [[u32; 16]; 4] = [
    [
        0xd76a_a478, 0xe8c7_b756, 0x2420_70db, 0xc1bd_ceee,
        0xf57c_0faf, 0x4787_c62a, 0xa830_4613, 0xfd46_9501,
        0x6980_98d8, 0x8b44_f7af, 0xffff_5bb1, 0x895c_d7be,
        0x6b90_1122, 0xfd98_7193, 0xa679_438e, 0x49b4_0821,
    ],
    [
        0xe9b6_c7aa, 0xf61e_2562, 0xfcef_a3f8, 0xf4d5_0d87,
        0xe7d3_fbc8, 0xd62f_105d, 0xc040_b340, 0x676f_02d9,
        0x455a_14ed, 0x21e1_cde6, 0x0244_1453, 0x265e_5a51,
        0x8d2a_4c8a, 0xa9e3_e905, 0xc337_07d6, 0xd8a1_e681,
    ],
    [
        0xeaa1_27fa, 0xa4be_ea44, 0xc4ac_5665, 0xd4ef_3085,
        0x4bde_cfa9, 0xfffa_3942, 0x0488_1d05, 0xf6bb_4b60,
        0x8771_f681, 0xd9d4_d039, 0xbebf_bc70, 0x6d9d_6122,
        0xe6db_99e5, 0x289b_7ec6, 0xfde5_380c, 0x1fa2_7cf8,
    ],
    [
        0xf429_2244, 0x8584_5dd1, 0x2ad7_d2bb, 0x8f0c_cc92,
        0xf753_7e82, 0xfc93_a039, 0xa301_4314, 0x432a_ff97,
        0x6fa8_7e4f, 0xeb86_d391, 0xffef_f47d, 0xbd3a_f235,
        0x655b_59c3, 0x4e08_11a1, 0xab94_23a7, 0xfe2c_e6e0,
    ],
];

/// The words after a block.
pub fn process(state: [u32; 4], block: &[u8; BLOCK_LEN]) -> [u32; 4]
    ensures { result ≡ process state block.now }
{
    let sines = &SINES;
    let abcd = round_1(state, &sums(block, &sines[0]));
    let abcd = round_2(abcd, &sums(block, &sines[1]));
    let abcd = round_3(abcd, &sums(block, &sines[2]));
    let abcd = round_4(abcd, &sums(block, &sines[3]));
    [
        state[0].wrapping_add(abcd[0]),
        state[1].wrapping_add(abcd[1]),
        state[2].wrapping_add(abcd[2]),
        state[3].wrapping_add(abcd[3]),
    ]
}

// The words of a block, with a constant added to each. Here this is done in vectors, and before it
// is waited for. In the steps the compiler would add the constant last.
#[inline(never)]
fn sums(block: &[u8; BLOCK_LEN], sines: &[u32; 16]) -> [u32; 16]
    ensures are_sums { AreSums (words_of_bytes block.now) sines.now result }
{
    let (words, _) = block.as_chunks::<4>();
    let mut sums = [0; 16];
    for i in 0..16 {
        sums[i] = u32::from_le_bytes(words[i]).wrapping_add(sines[i]);
    }
    sums
}

// A step of each round, over the sum of a word and a constant.

#[tactic(auto, unfolding(crate::specs::Md5::step))]
#[inline(always)]
fn step_f(abcd: [u32; 4], sum: u32, shift: u32) -> [u32; 4]
    ensures { result ≡ step auxiliary_f abcd sum shift }
{
    let [a, b, c, d] = abcd;
    let f = (b & c) | (!b & d);
    [d, rotated_sum(a, b, f, sum, shift), b, c]
}

// The two parts of G have no bit in common, so both can be added. The one that doesn't depend on
// the step before is added to the sum.
#[tactic(auto, using(crate::proofs::Steps::g_added), unfolding(crate::specs::Md5::step))]
#[inline(always)]
fn step_g(abcd: [u32; 4], sum: u32, shift: u32) -> [u32; 4]
    ensures { result ≡ step auxiliary_g abcd sum shift }
{
    let [a, b, c, d] = abcd;
    let sum = sum.wrapping_add(c & !d);
    [d, rotated_sum(a, b, b & d, sum, shift), b, c]
}

#[tactic(auto, unfolding(crate::specs::Md5::step))]
#[inline(always)]
fn step_h(abcd: [u32; 4], sum: u32, shift: u32) -> [u32; 4]
    ensures { result ≡ step auxiliary_h abcd sum shift }
{
    let [a, b, c, d] = abcd;
    [d, rotated_sum(a, b, b ^ c ^ d, sum, shift), b, c]
}

#[tactic(auto, unfolding(crate::specs::Md5::step))]
#[inline(always)]
fn step_i(abcd: [u32; 4], sum: u32, shift: u32) -> [u32; 4]
    ensures { result ≡ step auxiliary_i abcd sum shift }
{
    let [a, b, c, d] = abcd;
    [d, rotated_sum(a, b, c ^ (b | !d), sum, shift), b, c]
}

// b + ((a + f + sum) <<< shift). What depends on the step before, f, is added last.
#[inline(always)]
fn rotated_sum(a: u32, b: u32, f: u32, sum: u32, shift: u32) -> u32
    ensures { result ≡ add b (rotate_left w32 (add (add a f) sum) shift) }
{
    let sum = a.wrapping_add(sum).wrapping_add(f);
    b.wrapping_add(sum.rotate_left(shift))
}

#[inline(always)]
fn round_1(abcd: [u32; 4], sums: &[u32; 16]) -> [u32; 4]
    ensures { result ≡ fold (operation_over auxiliary_f sums.now) abcd round_1 }
{
    let abcd = step_f(abcd, sums[0], 7);
    let abcd = step_f(abcd, sums[1], 12);
    let abcd = step_f(abcd, sums[2], 17);
    let abcd = step_f(abcd, sums[3], 22);
    let abcd = step_f(abcd, sums[4], 7);
    let abcd = step_f(abcd, sums[5], 12);
    let abcd = step_f(abcd, sums[6], 17);
    let abcd = step_f(abcd, sums[7], 22);
    let abcd = step_f(abcd, sums[8], 7);
    let abcd = step_f(abcd, sums[9], 12);
    let abcd = step_f(abcd, sums[10], 17);
    let abcd = step_f(abcd, sums[11], 22);
    let abcd = step_f(abcd, sums[12], 7);
    let abcd = step_f(abcd, sums[13], 12);
    let abcd = step_f(abcd, sums[14], 17);
    step_f(abcd, sums[15], 22)
}

#[inline(always)]
fn round_2(abcd: [u32; 4], sums: &[u32; 16]) -> [u32; 4]
    ensures { result ≡ fold (operation_over auxiliary_g sums.now) abcd round_2 }
{
    let abcd = step_g(abcd, sums[1], 5);
    let abcd = step_g(abcd, sums[6], 9);
    let abcd = step_g(abcd, sums[11], 14);
    let abcd = step_g(abcd, sums[0], 20);
    let abcd = step_g(abcd, sums[5], 5);
    let abcd = step_g(abcd, sums[10], 9);
    let abcd = step_g(abcd, sums[15], 14);
    let abcd = step_g(abcd, sums[4], 20);
    let abcd = step_g(abcd, sums[9], 5);
    let abcd = step_g(abcd, sums[14], 9);
    let abcd = step_g(abcd, sums[3], 14);
    let abcd = step_g(abcd, sums[8], 20);
    let abcd = step_g(abcd, sums[13], 5);
    let abcd = step_g(abcd, sums[2], 9);
    let abcd = step_g(abcd, sums[7], 14);
    step_g(abcd, sums[12], 20)
}

#[inline(always)]
fn round_3(abcd: [u32; 4], sums: &[u32; 16]) -> [u32; 4]
    ensures { result ≡ fold (operation_over auxiliary_h sums.now) abcd round_3 }
{
    let abcd = step_h(abcd, sums[5], 4);
    let abcd = step_h(abcd, sums[8], 11);
    let abcd = step_h(abcd, sums[11], 16);
    let abcd = step_h(abcd, sums[14], 23);
    let abcd = step_h(abcd, sums[1], 4);
    let abcd = step_h(abcd, sums[4], 11);
    let abcd = step_h(abcd, sums[7], 16);
    let abcd = step_h(abcd, sums[10], 23);
    let abcd = step_h(abcd, sums[13], 4);
    let abcd = step_h(abcd, sums[0], 11);
    let abcd = step_h(abcd, sums[3], 16);
    let abcd = step_h(abcd, sums[6], 23);
    let abcd = step_h(abcd, sums[9], 4);
    let abcd = step_h(abcd, sums[12], 11);
    let abcd = step_h(abcd, sums[15], 16);
    step_h(abcd, sums[2], 23)
}

#[inline(always)]
fn round_4(abcd: [u32; 4], sums: &[u32; 16]) -> [u32; 4]
    ensures { result ≡ fold (operation_over auxiliary_i sums.now) abcd round_4 }
{
    let abcd = step_i(abcd, sums[0], 6);
    let abcd = step_i(abcd, sums[7], 10);
    let abcd = step_i(abcd, sums[14], 15);
    let abcd = step_i(abcd, sums[5], 21);
    let abcd = step_i(abcd, sums[12], 6);
    let abcd = step_i(abcd, sums[3], 10);
    let abcd = step_i(abcd, sums[10], 15);
    let abcd = step_i(abcd, sums[1], 21);
    let abcd = step_i(abcd, sums[8], 6);
    let abcd = step_i(abcd, sums[15], 10);
    let abcd = step_i(abcd, sums[6], 15);
    let abcd = step_i(abcd, sums[13], 21);
    let abcd = step_i(abcd, sums[4], 6);
    let abcd = step_i(abcd, sums[11], 10);
    let abcd = step_i(abcd, sums[2], 15);
    step_i(abcd, sums[9], 21)
}
