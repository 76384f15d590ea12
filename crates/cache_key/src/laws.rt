// Laws of the definitions.
ghost use Rattle.std.specs.Prelude.{◌≡◌, ℕ, true, ◌<◌, ◌^◌, List, ◌++◌, length};
ghost use Rattle.cache_key.specs.Key.{Key, IsKey};
ghost use Rattle.cache_key.specs.KeyBytes.{address_of, sized, key_bytes_of};
ghost use Rattle.journal_lines.specs.Keys.{is_key};
ghost use Rattle.cache_key.specs.FileKey.{file_key};

use crate::bytes::Which;

/// Key bytes tell keys apart: where those of two sources are equal, so are url and signature; where those of
/// two outcomes are equal, so is the whole key; and no source has those of an outcome. A text behind its
/// length is read in one way, whatever follows.
pub fn key_bytes_tell_apart()
    ensures sources { (a b : Key) → IsKey a → IsKey b
        → key_bytes_of Which.SourceBytes a ≡ key_bytes_of Which.SourceBytes b → address_of a ≡ address_of b }
    ensures outcomes { (a b : Key) → IsKey a → IsKey b
        → key_bytes_of Which.Outcome a ≡ key_bytes_of Which.Outcome b → a ≡ b }
    ensures kinds { (a b : Key) → key_bytes_of Which.SourceBytes a ≡ key_bytes_of Which.Outcome b → ⊥ }
    ensures sized { (a b r s : List ℕ) → length a < 2 ^ 32 → length b < 2 ^ 32
        → sized a ++ r ≡ sized b ++ s → (a ≡ b) × (r ≡ s) }
{}

/// Whatever the key bytes are, their file key is a key of the disk cache.
pub fn file_keys_are_keys()
    ensures { (bytes : List ℕ) → is_key (file_key bytes) ≡ true }
{}
