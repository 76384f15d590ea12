// Names of files.
ghost use Rattle.std.specs.Prelude.{◌≡◌, ◌≤◌, length, Some, IfSome, IfNone, nat_eq, refl};
ghost use Rattle.std.specs.Ordering.{nat_cmp};
ghost use Rattle.std.specs.Cmp.{partial_equiv_from_equiv};
ghost use Rattle.std.specs.Cmp.Lexicographic.{pointwise, slice_cmp, nat_list_eq_equiv, nat_list_cmp_total, texts_ties, texts_po};
ghost use Rattle.outside.specs.Names.{IsName, padded};

use std::cmp::Ordering;
use std::marker::Model;

/// The most bytes that a name has.
pub const LONGEST_NAME: usize = 128;

/// A file's name: 1 to 128 bytes of ASCII. Contracts see the list of its bytes.
#[derive(Clone, Copy, Drop)]
pub struct Name {
    bytes: [u8; 128],
    count: usize,
}

impl Model for Name {
    ghost use Rattle.std.specs.Prelude.{ℕ, List, length, take};
    ghost use Rattle.outside.specs.Names.{padded, KeepsName, padded_back};

    ghost Value = { List ℕ };

    ghost view = { λ n. take n.count n.bytes };

    ghost invariant = { λ n. KeepsName n.bytes n.count };

    ghost inverse = { λ v. record { bytes = padded v; count = length v } };

    ghost inverse_ok = { λ n h. λ i. record {
      bytes = (padded_back n.bytes n.count h).0 i;
      count = (padded_back n.bytes n.count h).1 i;
    } };
}

// The bytes, and zeros up to the size of a name's array.
fn padded(bytes: &[u8]) -> [u8; 128]
    requires { length bytes.now ≤ 128 }
    ensures { result ≡ padded bytes.now }
{
    let mut kept = [0u8; 128];
    kept[..bytes.len()].copy_from_slice(bytes);
    kept
}

impl Name {
    /// The name of these bytes, or none exactly where they are no name.
    pub fn read(bytes: &[u8]) -> Option<Name>
        ensures some { IfSome result (λ name. (name ≡ bytes.now) × IsName bytes.now) }
        ensures none { IfNone result (¬ IsName bytes.now) }
    {
        if bytes.is_empty() || bytes.len() > LONGEST_NAME || !bytes.is_ascii() {
            return None;
        }
        Some(Name {
            bytes: padded(bytes),
            count: bytes.len(),
        })
    }

    /// The bytes of the name.
    pub fn bytes(&self) -> &[u8]
        ensures bytes { result.now ≡ self.now }
        ensures name { IsName self.now }
    {
        &self.bytes[..self.count]
    }
}

impl PartialEq for Name {
    ghost eq = { pointwise nat_eq };

    ghost laws = { partial_equiv_from_equiv nat_list_eq_equiv };

    fn eq(&self, other: &Name) -> bool {
        self.bytes() == other.bytes()
    }
}

impl Eq for Name {
    ghost laws = { nat_list_eq_equiv };
}

impl PartialOrd for Name {
    ghost partial_cmp = { λ x y. Some (slice_cmp nat_cmp x y) };

    ghost laws = { texts_po };

    fn partial_cmp(&self, other: &Name) -> Option<Ordering> {
        Some(self.cmp(other))
    }
}

impl Ord for Name {
    ghost cmp = { slice_cmp nat_cmp };

    ghost total = { nat_list_cmp_total };

    ghost matches_partial_cmp = { λ x y. refl };

    ghost matches_eq = { texts_ties };

    fn cmp(&self, other: &Name) -> Ordering {
        self.bytes().cmp(other.bytes())
    }
}
