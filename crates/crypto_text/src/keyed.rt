//! HMAC's two hash states of a key (RFC 2104, section 4): each has taken one block, so that a key of
//! many messages is hashed once.

ghost use Rattle.std.specs.Prelude.{◌≡◌, ℕ, List, ◌++◌, ◌≤◌, length, map, replicate, bit_xor, ◌-◌};
ghost use Rattle.crypto_text.specs.Rfc2104.{block_key, inner_pad, outer_pad};

use crate::hash_state::HashState;

const BLOCK: usize = 64;

/// The state that messages go into.
#[tactic(auto, unfolding(crate::specs::Rfc2104::inner_pad))]
pub(crate) fn inner_state<H: HashState<N>, const N: usize>(key: &[u8]) -> H
    requires { N ≤ 64 }
    ensures { H.holds result (inner_pad H.hash key.now) }
{
    padded::<H, N>(block_key::<H, N>(key), 0x36)
}

/// The state that the inner digest goes into.
#[tactic(auto, unfolding(crate::specs::Rfc2104::outer_pad))]
pub(crate) fn outer_state<H: HashState<N>, const N: usize>(key: &[u8]) -> H
    requires { N ≤ 64 }
    ensures { H.holds result (outer_pad H.hash key.now) }
{
    padded::<H, N>(block_key::<H, N>(key), 0x5c)
}

/// The MAC where `inner` has taken the whole message.
pub(crate) fn mac_of<H: HashState<N>, const N: usize>(inner: H, mut outer: H) -> [u8; N]
    ensures { (i o : List ℕ) → H.holds inner i → H.holds outer o → result ≡ H.hash (o ++ H.hash i) }
{
    let digest = inner.digest_of();
    outer.take_in(&digest);
    outer.digest_of()
}

// The state of a block with each byte changed by xor.
fn padded<H: HashState<N>, const N: usize>(block: [u8; BLOCK], pad: u8) -> H
    ensures { H.holds result (map (λ byte. bit_xor byte pad) block) }
{
    let mut state = H::start();
    state.take_in(&xored(block, pad));
    state
}

fn xored(mut block: [u8; BLOCK], pad: u8) -> [u8; BLOCK]
    ensures { result ≡ map (λ byte. bit_xor byte pad) block }
{
    for i in 0..BLOCK {
        block[i] ^= pad;
    }
    block
}

fn block_key<H: HashState<N>, const N: usize>(key: &[u8]) -> [u8; BLOCK]
    requires { N ≤ 64 }
    ensures { result ≡ block_key H.hash key.now }
{
    if key.len() > BLOCK {
        filled(&digest::<H, N>(key))
    } else {
        filled(key)
    }
}

fn digest<H: HashState<N>, const N: usize>(message: &[u8]) -> [u8; N]
    ensures { result ≡ H.hash message.now }
{
    let mut state = H::start();
    state.take_in(message);
    state.digest_of()
}

fn filled(bytes: &[u8]) -> [u8; BLOCK]
    requires { length bytes.now ≤ 64 }
    ensures { result ≡ bytes.now ++ replicate (64 - length bytes.now) 0 }
{
    let mut block = [0; BLOCK];
    block[..bytes.len()].copy_from_slice(bytes);
    block
}
