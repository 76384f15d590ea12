// Bytes that are owned.
ghost use Rattle.std.specs.Prelude.{◌≡◌, ◌≤◌, length, IfOk};
ghost use Rattle.std.proofs.Common.{rules};
ghost use Rattle.std.specs.Cmp.{partial_equiv_from_equiv};
ghost use Rattle.std.specs.Cmp.Lexicographic.{nat_list_eq_equiv};
ghost use Rattle.std.specs.Cmp.Rules.{hashing};
ghost use Rattle.std.specs.Hash as fed;
ghost use Rattle.std.specs.Str.{bytes_eq};
ghost use Rattle.cache_key.specs.Key.{url_limit};

use faults::NoMemory;
use std::alloc::Global;
use std::hash::{Hash, Hasher};
use std::marker::Model;

// The least room of a text, in bytes: that of the longest url, so that any text can be overwritten by one.
const LEAST_ROOM: usize = 1_024;

/// Bytes of its own: a url, a signature or a name. Contracts see it as the list of its bytes, by which texts
/// are equal and are keys of a map.
#[derive(Drop)]
pub struct Text {
    bytes: Vec<u8>,
}

impl Model for Text {
    ghost use Rattle.std.specs.Prelude.{ℕ, ◌≤◌, List, vec_capacity};
    ghost use Rattle.cache_key.specs.Key.{url_limit};

    ghost Value = { List ℕ };

    ghost view = { λ s. s.bytes.items };

    ghost invariant = { λ s. url_limit ≤ vec_capacity s.bytes };
}

impl Text {
    /// A copy of the bytes.
    pub fn new(alloc: Global, bytes: &[u8]) -> Result<Text, NoMemory>
        ensures { IfOk result (λ text. text ≡ bytes.now) }
    {
        let mut copy = Vec::with_capacity(alloc, bytes.len().max(LEAST_ROOM))?;
        copy.extend_from_slice(bytes)?;
        Ok(Text { bytes: copy })
    }

    /// The bytes, as they were copied.
    pub fn bytes(&self) -> &[u8]
        ensures { result.now ≡ self.now }
    {
        &self.bytes
    }

    // Overwrites the text. It takes no memory, since each text has room for so many bytes.
    pub(crate) fn overwrite(&mut self, bytes: &[u8])
        requires { length bytes.now ≤ url_limit }
        ensures { self.new ≡ bytes.now }
    {
        self.bytes.clear();
        let _ = self.bytes.extend_from_slice(bytes);
    }
}

impl PartialEq for Text {
    ghost eq = { bytes_eq };

    ghost laws = { partial_equiv_from_equiv nat_list_eq_equiv };

    fn eq(&self, other: &Text) -> bool {
        self.bytes() == other.bytes()
    }
}

impl Eq for Text {
    ghost laws = { nat_list_eq_equiv };
}

impl Hash for Text {
    ghost hash_input = { fed.slice fed.u8 };

    ghost respects_eq = { Prim.search (hashing, rules) };

    fn hash<H: Hasher>(&self, state: &mut H) {
        self.bytes().hash(state);
    }
}
