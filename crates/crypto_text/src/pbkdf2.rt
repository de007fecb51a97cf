//! Keys that are derived from passwords by many rounds, PBKDF2 after RFC 8018, section 5.2.

ghost use Rattle.std.specs.Prelude.{◌≡◌, ℕ, ◌+◌, ◌-◌, ◌<◌, ◌≤◌, List, ◌++◌, length, bit_xor, slice_index};
ghost use Rattle.std.specs.Int.{w32, to_be_bytes};
ghost use Rattle.sha1.specs.Sha1.{sha1};
ghost use Rattle.sha2.specs.Sha256.{sha256};
ghost use Rattle.crypto_text.specs.Rfc2104.{hmac, inner_pad, outer_pad};
ghost use Rattle.crypto_text.specs.Rfc8018.{block_at, derived_key};

use crate::hash_state::HashState;
use crate::keyed::{inner_state, mac_of, outer_state};
use sha1::Sha1;
use sha2::Sha256;

/// Fills `out` with the key that PBKDF2-HMAC-SHA-256 derives in `count` rounds a block.
pub fn pbkdf2_sha256(password: &[u8], salt: &[u8], count: u32, out: &mut [u8])
    requires rounds { 1 ≤ count }
    requires room { length out.old ≤ 1024 }
    ensures { out.new ≡ derived_key (hmac sha256) 32 password.now salt.now count (length out.old) }
{
    derive::<Sha256, 32>(password, salt, count, out);
}

/// Fills `out` with the key that PBKDF2-HMAC-SHA-1 derives in `count` rounds a block.
pub fn pbkdf2_sha1(password: &[u8], salt: &[u8], count: u32, out: &mut [u8])
    requires rounds { 1 ≤ count }
    requires room { length out.old ≤ 1024 }
    ensures { out.new ≡ derived_key (hmac sha1) 20 password.now salt.now count (length out.old) }
{
    derive::<Sha1, 20>(password, salt, count, out);
}

fn derive<H: HashState<N>, const N: usize>(password: &[u8], salt: &[u8], count: u32, out: &mut [u8])
    requires rounds { 1 ≤ count }
    requires room { length out.old ≤ 1024 }
    requires some { 1 ≤ N }
    requires block { N ≤ 64 }
    ensures { out.new ≡ derived_key (hmac H.hash) N password.now salt.now count (length out.old) }
{
    let inner: H = inner_state(password);
    let outer: H = outer_state(password);
    let blocks = out.len().div_ceil(N);
    for i in 0..blocks {
        let block = derived_block(&inner, &outer, salt, i as u32 + 1, count);
        write_block(out, N * i, &block);
    }
}

// As much of the block as there is room for from `at` on.
fn write_block<const N: usize>(out: &mut [u8], at: usize, block: &[u8; N])
    requires within { at ≤ length out.old }
    requires room { length out.old ≤ 1024 }
    requires size { N ≤ 64 }
    ensures before { (k : ℕ) → k < at → slice_index out.new k ≡ slice_index out.old k }
    ensures written { (k : ℕ) → k < N → at + k < length out.old → slice_index out.new (at + k) ≡ slice_index block.now k }
{
    let end = (at + N).min(out.len());
    out[at..end].copy_from_slice(&block[..end - at]);
}

// T of a block, under the password that both states are keyed with. It is folded in place, one MAC
// after the other.
fn derived_block<H: HashState<N>, const N: usize>(
    inner: &H,
    outer: &H,
    salt: &[u8],
    number: u32,
    count: u32,
) -> [u8; N]
    requires rounds { 1 ≤ count }
    ensures { (password : List ℕ) → H.holds inner.now (inner_pad H.hash password) → H.holds outer.now (outer_pad H.hash password)
        → result ≡ block_at (hmac H.hash) N password salt.now count number }
{
    let mut mac = first_mac(inner, outer, salt, number);
    let mut block = mac;
    for round in 1..count {
        mac = next_mac(inner, outer, &mac);
        fold_in(&mut block, &mac);
    }
    block
}

fn first_mac<H: HashState<N>, const N: usize>(
    inner: &H,
    outer: &H,
    salt: &[u8],
    number: u32,
) -> [u8; N]
    ensures { (password : List ℕ) → H.holds inner.now (inner_pad H.hash password) → H.holds outer.now (outer_pad H.hash password)
        → result ≡ hmac H.hash password (salt.now ++ to_be_bytes w32 number) }
{
    let mut state = inner.twin();
    state.take_in(salt);
    state.take_in(&number.to_be_bytes());
    mac_of(state, outer.twin())
}

fn next_mac<H: HashState<N>, const N: usize>(inner: &H, outer: &H, mac: &[u8; N]) -> [u8; N]
    ensures { (password : List ℕ) → H.holds inner.now (inner_pad H.hash password) → H.holds outer.now (outer_pad H.hash password)
        → result ≡ hmac H.hash password mac.now }
{
    let mut state = inner.twin();
    state.take_in(mac);
    mac_of(state, outer.twin())
}

fn fold_in<const N: usize>(block: &mut [u8; N], mac: &[u8; N])
    ensures length { length block.new ≡ length block.old }
    ensures folded { (k : ℕ) → k < N → slice_index block.new k ≡ bit_xor (slice_index block.old k) (slice_index mac.now k) }
{
    for i in 0..N {
        block[i] ^= mac[i];
    }
}
