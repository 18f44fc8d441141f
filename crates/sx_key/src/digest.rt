//! HMAC with SHA-256.

ghost use Rattle.std.specs.Prelude.{◌≡◌, ◌≤◌, length};
ghost use Rattle.sx_key.specs.Digest.{hmac as hmac_of, padded_digest, padded_key, block_hmac};

use sha2::{Digest, Sha256};

/// HMAC-SHA256 of a text under a key of any length (RFC 2104). It takes no memory.
#[tactic(auto, unfolding(crate::specs::Digest::hmac))]
pub fn hmac(key: &[u8], text: &[u8]) -> [u8; 32]
    ensures { result ≡ hmac_of key.now text.now }
{
    if key.len() > 64 {
        return block_hmac(&Sha256::digest(key), text);
    }
    block_hmac(key, text)
}

/// HMAC under a key of at most a block.
fn block_hmac(key: &[u8], text: &[u8]) -> [u8; 32]
    requires { length key.now ≤ 64 }
    ensures { result ≡ block_hmac key.now text.now }
{
    let inner = padded_digest(0x36, key, text);
    padded_digest(0x5c, key, &inner)
}

/// The digest of a padded key and a text.
fn padded_digest(pad: u8, key: &[u8], text: &[u8]) -> [u8; 32]
    requires { length key.now ≤ 64 }
    ensures { result ≡ padded_digest pad key.now text.now }
{
    let mut hasher = Sha256::new();
    hasher.update(&padded_key(pad, key));
    hasher.update(text);
    hasher.finalize()
}

/// A block of a key and the zeros behind it, each byte combined with the pad's.
fn padded_key(pad: u8, key: &[u8]) -> [u8; 64]
    requires { length key.now ≤ 64 }
    ensures { result ≡ padded_key pad key.now }
{
    let mut block = [pad; 64];
    for index in 0..key.len() {
        block[index] = key[index] ^ pad;
    }
    block
}
