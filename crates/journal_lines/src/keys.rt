// Keys of a disk cache.
ghost use Rattle.std.specs.Prelude.{◌≡◌, ◌≤◌, true, length, nat_eq};
ghost use Rattle.std.proofs.Common.{rules};
ghost use Rattle.std.specs.Cmp.{partial_equiv_from_equiv};
ghost use Rattle.std.specs.Cmp.Lexicographic.{pointwise, nat_list_eq_equiv};
ghost use Rattle.std.specs.Cmp.Rules.{hashing};
ghost use Rattle.std.specs.Hash as fed;
ghost use Rattle.std.specs.List.{list_all};
ghost use Rattle.journal_lines.specs.Keys.{is_key_byte, is_key, key_of, padded};

use std::hash::{Hash, Hasher};
use std::marker::Model;

/// The most bytes that a key has.
pub const LONGEST_KEY: usize = 120;

/// The key of an entry: 1 to 120 bytes of `a` to `z`, `0` to `9`, `_` and `-`. Contracts see the list of
/// its bytes.
#[derive(Clone, Copy, Drop)]
pub struct Key {
    bytes: [u8; 120],
    count: usize,
}

impl Model for Key {
    ghost use Rattle.std.specs.Prelude.{ℕ, List, length, take};
    ghost use Rattle.journal_lines.specs.Keys.{padded, KeepsKey, padded_back};

    ghost Value = { List ℕ };

    ghost view = { λ k. take k.count k.bytes };

    ghost invariant = { λ k. KeepsKey k.bytes k.count };

    ghost inverse = { λ v. record { bytes = padded v; count = length v } };

    ghost inverse_ok = { λ k h. λ i. record { bytes = (padded_back k.bytes k.count h).0 i; count = (padded_back k.bytes k.count h).1 i } };
}

fn is_key_byte(byte: u8) -> bool
    ensures { result ≡ is_key_byte byte }
{
    matches!(byte, b'a'..=b'z' | b'0'..=b'9' | b'_' | b'-')
}

fn has_key_bytes(bytes: &[u8]) -> bool
    ensures { result ≡ list_all is_key_byte bytes.now }
{
    bytes.iter().all(|byte| is_key_byte(*byte))
}

fn is_key(bytes: &[u8]) -> bool
    ensures { result ≡ is_key bytes.now }
{
    if bytes.is_empty() || bytes.len() > LONGEST_KEY {
        return false;
    }
    has_key_bytes(bytes)
}

// The bytes, and zeros up to the size of a key's array.
fn padded(bytes: &[u8]) -> [u8; 120]
    requires { length bytes.now ≤ 120 }
    ensures { result ≡ padded bytes.now }
{
    let mut kept = [0u8; 120];
    kept[..bytes.len()].copy_from_slice(bytes);
    kept
}

impl Key {
    /// The key of these bytes, or none exactly where they are no key.
    pub fn read(bytes: &[u8]) -> Option<Key>
        ensures { result ≡ key_of bytes.now }
    {
        if !is_key(bytes) {
            return None;
        }
        Some(Key {
            bytes: padded(bytes),
            count: bytes.len(),
        })
    }

    /// The bytes of the key.
    pub fn bytes(&self) -> &[u8]
        ensures bytes { result.now ≡ self.now }
        ensures key { is_key self.now ≡ true }
        ensures short { length self.now ≤ 120 }
    {
        &self.bytes[..self.count]
    }
}

impl PartialEq for Key {
    ghost eq = { pointwise nat_eq };

    ghost laws = { partial_equiv_from_equiv nat_list_eq_equiv };

    fn eq(&self, other: &Key) -> bool {
        self.bytes() == other.bytes()
    }
}

impl Eq for Key {
    ghost laws = { nat_list_eq_equiv };
}

impl Hash for Key {
    ghost hash_input = { fed.slice fed.u8 };

    ghost respects_eq = { Prim.search (hashing, rules) };

    fn hash<H: Hasher>(&self, state: &mut H) {
        self.bytes().hash(state);
    }
}
