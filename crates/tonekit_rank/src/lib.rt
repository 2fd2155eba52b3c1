// The k-th smallest f32 of a slice, with no sort and no memory beside it: the f32s are kept as keys, whole numbers in their order.
#![tactic(auto)]

ghost use Rattle.std.specs.Prelude.{◌≡◌, ◌<◌, ◌^◌, ltb, length, get_or};
ghost use Rattle.std.specs.List.{count_by};
ghost use Rattle.tonekit_rank.specs.Rank.{key_of, value_of, sorted};

use tonekit_float::AnyFloat;

// A key's bits, and the key of +0.
const KEY_BITS: u32 = 32;

const ZERO_KEY: u32 = 0x8000_0000;

// The place of an f32 in the order of `total_cmp`.
#[tactic(auto, unfolding(crate::specs::Rank::key_of))]
pub fn key_of(x: f32) -> u32
    ensures { result ≡ key_of x }
{
    let bits = x.bits();
    if bits < ZERO_KEY {
        bits + ZERO_KEY
    } else {
        u32::MAX - bits
    }
}

// The f32 with this key.
#[tactic(auto, unfolding(crate::specs::Rank::value_of))]
fn value_of(key: u32) -> f32
    ensures { result ≡ value_of key }
{
    if key < ZERO_KEY {
        f32::of_bits(u32::MAX - key)
    } else {
        f32::of_bits(key - ZERO_KEY)
    }
}

// How many keys are below x, in 32 bits: a controller counts in a register, and x86-64 in as many lanes as
// it compares keys.
fn count_below(keys: &[u32], x: u32) -> u32
    requires { length keys.now < 2 ^ 32 }
    ensures { result ≡ count_by (λ key. ltb key x) keys.now }
{
    let mut n: u32 = 0;
    for key in keys {
        if *key < x {
            n += 1;
        }
    }
    n
}

// The k-th smallest of the f32s with these keys, k counted from 0: its key is the greatest number with at
// most k keys below it, found bit by bit.
pub fn ranked(keys: &[u32], k: usize) -> f32
    requires one_of_them { k < length keys.now }
    requires countable { length keys.now < 2 ^ 32 }
    ensures { result ≡ value_of (get_or (sorted keys.now) k 0) }
{
    let mut key: u32 = 0;
    for bit in (0..KEY_BITS).rev() {
        let raised = key + (1 << bit);
        if count_below(keys, raised) as usize <= k {
            key = raised;
        }
    }
    value_of(key)
}
