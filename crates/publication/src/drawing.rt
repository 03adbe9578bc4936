// The ticket that a text draws.

ghost use Rattle.std.specs.Prelude.{◌≡◌, ◌<◌, ◌≤◌, ◌∷◌, [], codes, take};
ghost use Rattle.sha2.specs.Sha256.{sha256};
ghost use Rattle.publication.specs.Draws.{ticket_of};

use sha2::{Digest, Sha256};

/// The ticket that a text draws, from 0, of so many: the first eight bytes of its SHA-256 digest as a big-endian number,
/// modulo the number of tickets. Takes no memory.
pub fn ticket_of(text: &[u8], tickets: u32) -> u32
    requires { 1 ≤ tickets }
    ensures exact { result ≡ ticket_of text.now tickets }
    ensures below { result < tickets }
{
    let digest: [u8; 32] = Sha256::digest(text);
    let mut first = [0u8; 8];
    first.copy_from_slice(&digest[..8]);
    (u64::from_be_bytes(first) % u64::from(tickets)) as u32
}

/// Worked examples, computed over the definitions: the digest of `abc` begins with ba7816bf8f01cfea, and draws ticket 74 of
/// 10,000.
pub fn worked_tickets()
    ensures digest { take 8 (sha256 (codes "abc")) ≡ 0xba ∷ 0x78 ∷ 0x16 ∷ 0xbf ∷ 0x8f ∷ 0x01 ∷ 0xcf ∷ 0xea ∷ [] }
    ensures hundred { ticket_of (codes "abc") 100 ≡ 74 }
    ensures usual { ticket_of (codes "abc") 10000 ≡ 74 }
    ensures many { ticket_of (codes "abc") 20000 ≡ 74 }
{}
