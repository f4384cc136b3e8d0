//! The compression function of BLAKE2b (RFC 7693, 3.2), one block of 128 bytes at a time.

ghost use Rattle.std.specs.Prelude.{◌≡◌, ℕ, ◌+◌, ◌<◌, ◌≤◌, IsTrue, if◌then◌else◌, nat_lt, length};
ghost use Rattle.std.specs.Int.{bit_not, w64};
ghost use Rattle.std.specs.List.{list_all};
ghost use Rattle.blake2_hash.specs.Blake2b.{block_words, compress, mix, round, rounds, word_at, working_words};

/// The initial words of the state (RFC 7693, 2.6).
pub(crate) const IV: [u64; 8] = [
    0x6a09_e667_f3bc_c908,
    0xbb67_ae85_84ca_a73b,
    0x3c6e_f372_fe94_f82b,
    0xa54f_f53a_5f1d_36f1,
    0x510e_527f_ade6_82d1,
    0x9b05_688c_2b3e_6c1f,
    0x1f83_d9ab_fb41_bd6b,
    0x5be0_cd19_137e_2179,
];

// The order in which each of ten rounds takes the block's words (RFC 7693, 2.7).
const SIGMA: [[usize; 16]; 10] = [
    [0, 1, 2, 3, 4, 5, 6, 7, 8, 9, 10, 11, 12, 13, 14, 15],
    [14, 10, 4, 8, 9, 15, 13, 6, 1, 12, 0, 2, 11, 7, 5, 3],
    [11, 8, 12, 0, 5, 2, 15, 13, 10, 14, 3, 6, 7, 1, 9, 4],
    [7, 9, 3, 1, 13, 12, 11, 14, 2, 6, 5, 10, 4, 0, 15, 8],
    [9, 0, 5, 7, 2, 4, 10, 15, 14, 1, 11, 12, 6, 8, 3, 13],
    [2, 12, 6, 10, 0, 11, 8, 3, 4, 13, 7, 5, 15, 14, 1, 9],
    [12, 5, 1, 15, 14, 13, 4, 10, 0, 7, 6, 3, 9, 2, 8, 11],
    [13, 11, 7, 14, 12, 1, 3, 9, 5, 0, 15, 4, 8, 6, 2, 10],
    [6, 15, 14, 9, 11, 3, 0, 8, 12, 2, 13, 7, 1, 4, 10, 5],
    [10, 2, 8, 4, 7, 6, 1, 5, 15, 11, 9, 14, 3, 12, 13, 0],
];

// G (RFC 7693, 3.1) on the words at the places `a`, `b`, `c` and `d`.
#[inline(always)]
fn mix(v: &mut [u64; 16], a: usize, b: usize, c: usize, d: usize, x: u64, y: u64)
    requires a { a < 16 }
    requires b { b < 16 }
    requires c { c < 16 }
    requires d { d < 16 }
    ensures { v.new ≡ mix v.old a b c d x y }
{
    let first_a = v[a].wrapping_add(v[b]).wrapping_add(x);
    let first_d = (v[d] ^ first_a).rotate_right(32);
    let first_c = v[c].wrapping_add(first_d);
    let first_b = (v[b] ^ first_c).rotate_right(24);
    let second_a = first_a.wrapping_add(first_b).wrapping_add(y);
    let second_d = (first_d ^ second_a).rotate_right(16);
    let second_c = first_c.wrapping_add(second_d);
    let second_b = (first_b ^ second_c).rotate_right(63);
    v[a] = second_a;
    v[b] = second_b;
    v[c] = second_c;
    v[d] = second_d;
}

// A round with the block's words `m` in the given order.
#[inline(always)]
fn round(v: &mut [u64; 16], m: &[u64; 16], order: &[usize; 16])
    requires { IsTrue (list_all (λ i. nat_lt i 16) order.now) }
    ensures { v.new ≡ round v.old m.now order.now }
{
    mix(v, 0, 4, 8, 12, m[order[0]], m[order[1]]);
    mix(v, 1, 5, 9, 13, m[order[2]], m[order[3]]);
    mix(v, 2, 6, 10, 14, m[order[4]], m[order[5]]);
    mix(v, 3, 7, 11, 15, m[order[6]], m[order[7]]);
    mix(v, 0, 5, 10, 15, m[order[8]], m[order[9]]);
    mix(v, 1, 6, 11, 12, m[order[10]], m[order[11]]);
    mix(v, 2, 7, 8, 13, m[order[12]], m[order[13]]);
    mix(v, 3, 4, 9, 14, m[order[14]], m[order[15]]);
}

#[inline(always)]
fn word_at(block: &[u8], i: usize) -> u64
    requires { i + 8 ≤ length block.now }
    ensures { result ≡ word_at block.now i }
{
    u64::from_le_bytes([
        block[i],
        block[i + 1],
        block[i + 2],
        block[i + 3],
        block[i + 4],
        block[i + 5],
        block[i + 6],
        block[i + 7],
    ])
}

// The words of a block.
#[inline(always)]
fn block_words(block: &[u8]) -> [u64; 16]
    requires { length block.now ≡ 128 }
    ensures { result ≡ block_words block.now }
{
    let mut words = [0u64; 16];
    for i in 0..16 {
        words[i] = word_at(block, 8 * i);
    }
    words
}

// The last block's flag inverts a word.
#[inline(always)]
fn flagged(word: u64, is_last: bool) -> u64
    ensures { result ≡ (if is_last then bit_not w64 word else word) }
{
    if is_last { !word } else { word }
}

// The working words at the start of a block.
#[inline(always)]
fn working_words(h: [u64; 8], count: u128, is_last: bool) -> [u64; 16]
    ensures { result ≡ working_words h count is_last }
{
    let low = (count % 0x1_0000_0000_0000_0000) as u64;
    let high = (count / 0x1_0000_0000_0000_0000) as u64;
    [
        h[0],
        h[1],
        h[2],
        h[3],
        h[4],
        h[5],
        h[6],
        h[7],
        IV[0],
        IV[1],
        IV[2],
        IV[3],
        IV[4] ^ low,
        IV[5] ^ high,
        flagged(IV[6], is_last),
        IV[7],
    ]
}

// The rounds of a block, written out so that LLVM sees each word's place as a constant.
#[inline(always)]
fn twelve_rounds(v: &mut [u64; 16], m: &[u64; 16])
    ensures { v.new ≡ rounds v.old m.now 12 }
{
    round(v, m, &SIGMA[0]);
    round(v, m, &SIGMA[1]);
    round(v, m, &SIGMA[2]);
    round(v, m, &SIGMA[3]);
    round(v, m, &SIGMA[4]);
    round(v, m, &SIGMA[5]);
    round(v, m, &SIGMA[6]);
    round(v, m, &SIGMA[7]);
    round(v, m, &SIGMA[8]);
    round(v, m, &SIGMA[9]);
    round(v, m, &SIGMA[0]);
    round(v, m, &SIGMA[1]);
}

/// Takes `block` into `state`. `count` is the number of the message's bytes up to the block's end,
/// modulo 2^128.
pub(crate) fn compress(state: &mut [u64; 8], block: &[u8], count: u128, is_last: bool)
    requires { length block.now ≡ 128 }
    ensures { state.new ≡ compress state.old block.now count is_last }
{
    let h = *state;
    let m = block_words(block);
    let mut v = working_words(h, count, is_last);
    twelve_rounds(&mut v, &m);
    *state = [
        h[0] ^ v[0] ^ v[8],
        h[1] ^ v[1] ^ v[9],
        h[2] ^ v[2] ^ v[10],
        h[3] ^ v[3] ^ v[11],
        h[4] ^ v[4] ^ v[12],
        h[5] ^ v[5] ^ v[13],
        h[6] ^ v[6] ^ v[14],
        h[7] ^ v[7] ^ v[15],
    ];
}
