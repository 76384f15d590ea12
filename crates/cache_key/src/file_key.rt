// The keys under which the disk cache keeps its entries.
ghost use Rattle.std.specs.Prelude.{◌≡◌};
ghost use Rattle.hex.specs.Hex.{encode_lower};
ghost use Rattle.cache_key.specs.FileKey.{file_key};

use journal_lines::Key;
use sha2::{Digest, Sha256};

// The 64 hex digits of a digest.
fn hex_digits(digest: [u8; 32]) -> [u8; 64]
    ensures { result ≡ encode_lower digest }
{
    let mut digits = [b'0'; 64];
    let encoded = hex::encode_to_slice(&digest, &mut digits).is_ok();
    prove!(encoded);
    digits
}

/// The key under which the disk cache keeps what these key bytes stand for: their SHA-256 as 64 hex digits in
/// lower case, which is a key whatever the bytes are. Glide's `SafeKeyGenerator` makes it so. It takes no
/// memory.
pub fn safe_key(bytes: &[u8]) -> Key
    ensures { result ≡ file_key bytes.now }
{
    let digits = hex_digits(Sha256::digest(bytes));
    Key::read(&digits).unwrap()
}
