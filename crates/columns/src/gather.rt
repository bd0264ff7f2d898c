// Sixty-four messages' yes or no as a word, a bit each: whether it fits.
ghost use Rattle.std.specs.Prelude.{◌≡◌, ℕ, ◌+◌, ◌%◌, ◌^◌, ◌<◌, ◌≤◌, length, get_or};
ghost use Rattle.columns.specs.Firsts.{first_from, found, fitting};
ghost use Rattle.columns.specs.Words.{bit, is_one, word_from, placed, Marks, word_of};

use crate::{Want, fit};

// One of the bytes is 1.
fn any_one(y: &[u8; 64]) -> bool
    ensures { result ≡ found (first_from (is_one y.now) 0 64) }
{
    let mut any = false;
    let mut i = 0;
    while i < 64 {
        any = any | (y[i] == 1);
        i += 1;
    }
    any
}

// Of each byte whether it is 1, at its place among eight.
fn marks(y: &[u8; 64]) -> [u8; 64]
    ensures { (k : ℕ) → k < 64 → get_or result k 0 ≡ placed (is_one y.now k) k }
{
    let mut z = [0u8; 64];
    let mut i = 0;
    while i < 64 {
        z[i] = ((y[i] == 1) as u8) << (i % 8);
        i += 1;
    }
    z
}

// Eight of such bytes, from number `at` on, as a byte.
fn byte_of(y: &[u8; 64], at: usize) -> u8
    requires { (at + 8 ≤ 64) × (at % 8 ≡ 0) × Marks y.now }
    ensures { result ≡ word_of y.now at 8 }
{
    let mut s: u8 = 0;
    let mut i = 0;
    while i < 8 {
        s = s + y[at + i];
        i += 1;
    }
    s
}

// A byte as a word.
fn wide(x: u8) -> u64
    ensures { result ≡ x }
{
    x as u64
}

// Such bytes as a word: bit k is whether byte k is a yes.
fn word_of(y: &[u8; 64]) -> u64
    requires { Marks y.now }
    ensures { result ≡ word_of y.now 0 64 }
{
    let mut w: u64 = 0;
    let mut p: u64 = 0;
    while p < 64 {
        w = w + (wide(byte_of(y, p as usize)) << p);
        p += 8;
    }
    w
}

// Sixty-four messages' yes or no as a word: bit i is whether message at + i fits. That it is 0 is told before it is
// made.
pub fn word_at(
    channels: &[u8],
    keys: &[u32],
    units: &[u16],
    statuses: &[u8],
    at: usize,
    want: Want,
) -> u64
    requires { (at + 64 ≤ length channels.now) × (at + 64 ≤ length keys.now)
        × (at + 64 ≤ length units.now) × (at + 64 ≤ length statuses.now) }
    ensures { result ≡ word_from (λ k. bit (fitting channels.now keys.now units.now
        statuses.now want k)) at 64 }
{
    let y = fit::bytes_at(channels, keys, units, statuses, at, want);
    if !any_one(&y) {
        return 0;
    }
    let z = marks(&y);
    word_of(&z)
}

// The lowest n of a word's bits.
pub fn low_bits(w: u64, n: u16) -> u64
    requires { n ≤ 64 }
    ensures { w < 2 ^ 64 → result ≡ w % 2 ^ n }
{
    if n == 64 {
        return w;
    }
    w % (1 << (n as u64))
}
