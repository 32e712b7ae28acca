//! A key for eight blocks at once.

ghost use Rattle.std.specs.Prelude.{◌≡◌, ℕ, ◌+◌, ◌*◌, ◌/◌, ◌%◌, ◌<◌, ◌≤◌, [], List, length, map, slice_index};
ghost use Rattle.std.specs.Int.{bit_at};
ghost use Rattle.std.specs.List.{slice_index_or};
ghost use Rattle.icb_aes.specs.Columns.{word_of};
ghost use Rattle.icb_aes.specs.Fips197.{cipher, expanded_key, round_key, rounds};
ghost use Rattle.icb_aes.specs.Planes.{AreKeyRows, Holds, HoldKeys, IsBlock, IsRow, byte_of, planes_of};

use crate::key::AesKey;
use crate::planes::{Planes, last_round, round, sum};
use crate::schedule::{MAX_WORDS, block_of, round_key};
use crate::transposition::transposed;
use std::marker::Model;
use std::simd::u8x16;

// The rows of all round keys of the longest schedule.
const ROWS: usize = 120;

/// A key for eight blocks at once: its round keys, held bit by bit (FIPS 197, 5.1.4).
#[derive(Drop)]
pub struct SlicedKey {
    key: AesKey,
    // Row 8 i + j has bit j of each byte of round key i, on all eight bits of that byte.
    rows: [[u8; 16]; ROWS],
    ghost hold: { HoldKeys rows key },
}

impl Model for SlicedKey {
    ghost use Rattle.std.specs.Prelude.{List, ℕ};

    ghost Value = { List ℕ };

    ghost view = { λ k. k.key };
}

/// Bit `j` of each byte, on all eight bits of that byte.
#[inline(always)]
fn spread(bytes: u8x16, j: u8) -> u8x16
    requires { j < 8 }
    ensures { (p : ℕ) → p < 16
        → IsRow result p (λ _. bit_at (slice_index bytes p) j) }
{
    u8x16::splat(0) - ((bytes >> u8x16::splat(j)) & u8x16::splat(1))
}

/// Writes the eight rows of round key `i`, where those of the round keys before it stand.
fn add_key_rows(rows: &mut [[u8; 16]; ROWS], words: &[u32; MAX_WORDS], i: usize)
    requires { i < 15 }
    ensures { AreKeyRows rows.old (map word_of words.now) (8 * i)
        → AreKeyRows rows.new (map word_of words.now) (8 * (i + 1)) }
{
    let bytes = u8x16::from_array(block_of(round_key(words, i)));
    for j in 0..8usize {
        let row = spread(bytes, j as u8).to_array();
        rows[8 * i + j] = row;
    }
}

/// The rows of the first round keys, so many, and then zeros.
fn key_rows(words: &[u32; MAX_WORDS], count: usize) -> [[u8; 16]; ROWS]
    requires { count ≤ 15 }
    ensures { AreKeyRows result (map word_of words.now) (8 * count) }
{
    let mut rows = [[0; 16]; ROWS];
    for i in 0..count {
        add_key_rows(&mut rows, words, i);
    }
    rows
}

/// The vector of a block.
#[inline(always)]
fn lanes_of(block: [u8; 16]) -> u8x16
    ensures same { result ≡ block }
    ensures block { IsBlock result }
{
    u8x16::from_array(block)
}

/// Eight blocks as planes.
fn planes_of(blocks: &[[u8; 16]; 8]) -> Planes
    ensures { Holds result (λ b p. slice_index (slice_index_or blocks.now b []) p) }
{
    transposed([
        lanes_of(blocks[0]),
        lanes_of(blocks[1]),
        lanes_of(blocks[2]),
        lanes_of(blocks[3]),
        lanes_of(blocks[4]),
        lanes_of(blocks[5]),
        lanes_of(blocks[6]),
        lanes_of(blocks[7]),
    ])
}

/// The bytes of a vector.
#[inline(always)]
fn bytes_of(x: u8x16) -> [u8; 16]
    ensures same { result ≡ x }
    ensures block { IsBlock result }
{
    x.to_array()
}

/// The eight blocks that planes hold.
fn blocks_of(x: Planes) -> [[u8; 16]; 8]
    ensures bytes { (f : ℕ → ℕ → ℕ) → Holds x f → (b p : ℕ) → b < 8 → p < 16
        → slice_index (slice_index_or result b []) p ≡ f b p }
    ensures whole { (b : ℕ) → b < 8 → length (slice_index_or result b []) ≡ 16 }
{
    let rows = transposed(x);
    [
        bytes_of(rows[0]),
        bytes_of(rows[1]),
        bytes_of(rows[2]),
        bytes_of(rows[3]),
        bytes_of(rows[4]),
        bytes_of(rows[5]),
        bytes_of(rows[6]),
        bytes_of(rows[7]),
    ]
}

impl SlicedKey {
    /// The same key, for eight blocks at once.
    pub fn new(key: &AesKey) -> SlicedKey
        ensures { result ≡ key.now }
    {
        let count = key.bytes().len() / 4 + 7;
        let rows = key_rows(key.words(), count);
        SlicedKey { key: *key, rows }
    }

    /// The round key of round `i`, for each of eight blocks.
    #[inline(always)]
    fn round_key(&self, i: usize) -> Planes
        requires { i < 15 }
        ensures { i ≤ rounds self.now
            → Holds result (λ _. byte_of (round_key (expanded_key self.now) i)) }
    {
        [
            u8x16::from_array(self.rows[8 * i]),
            u8x16::from_array(self.rows[8 * i + 1]),
            u8x16::from_array(self.rows[8 * i + 2]),
            u8x16::from_array(self.rows[8 * i + 3]),
            u8x16::from_array(self.rows[8 * i + 4]),
            u8x16::from_array(self.rows[8 * i + 5]),
            u8x16::from_array(self.rows[8 * i + 6]),
            u8x16::from_array(self.rows[8 * i + 7]),
        ]
    }

    /// The ciphers of the blocks (FIPS 197, 5.1).
    pub fn encrypt(&self, blocks: &[[u8; 16]; 8]) -> [[u8; 16]; 8]
        ensures { (b : ℕ) → b < 8
            → slice_index_or result b [] ≡ cipher self.now (slice_index_or blocks.now b []) }
    {
        let rounds = self.key.bytes().len() / 4 + 6;
        let mut state = sum(planes_of(blocks), self.round_key(0));
        for i in 0..rounds - 1 {
            let next = round(state, self.round_key(i + 1));
            state = next;
        }
        blocks_of(last_round(state, self.round_key(rounds)))
    }
}
