// The bytes by which the disk cache tells keys apart.
ghost use Rattle.std.specs.Prelude.{◌≡◌, ◌<◌, ◌^◌, ◌∷◌, ◌++◌, length, IfOk, OnOk};
ghost use Rattle.cache_key.specs.KeyBytes.{transform_byte, config_byte, rule_byte, sized};
ghost use Rattle.cache_key.specs.KeyBytes.{source_bytes, address_of, choice_bytes, outcome_bytes, key_bytes_of};

use crate::key_room::KeyRoom;
use crate::keys::EngineKey;
use bitmap_kind::{Config, Rule, Transform};
use faults::NoMemory;
use std::alloc::{AllocError, Global};

// What stands beside the texts in key bytes: the kind, two lengths, two sides and three choices.
const BESIDE_TEXTS: usize = 20;

/// What the disk cache keeps of a load: the bytes of its source, as they were fetched, or its outcome, the
/// picture that it shows. Glide keys the first by `DataCacheKey` and the second by `ResourceCacheKey`.
#[derive(Clone, Copy, Debug, PartialEq, Eq)]
pub enum Which {
    SourceBytes,
    Outcome,
}

// The byte that stands for a transform.
fn transform_byte(transform: Transform) -> u8
    ensures { result ≡ transform_byte transform }
{
    match transform {
        Transform::Nothing => 0,
        Transform::Fit => 1,
        Transform::Crop => 2,
        Transform::Inside => 3,
    }
}

// The byte that stands for a config.
fn config_byte(config: Config) -> u8
    ensures { result ≡ config_byte config }
{
    match config {
        Config::Argb8888 => 0,
        Config::Rgb565 => 1,
        Config::Alpha8 => 2,
    }
}

// The byte that stands for a rule.
fn rule_byte(rule: Rule) -> u8
    ensures { result ≡ rule_byte rule }
{
    match rule {
        Rule::AtLeast => 0,
        Rule::AtMost => 1,
    }
}

fn choice_bytes(key: &EngineKey) -> [u8; 3]
    ensures { result ≡ choice_bytes key.now }
{
    [
        transform_byte(key.transform),
        config_byte(key.config),
        rule_byte(key.rule),
    ]
}

// Adds a text behind its length.
fn add_sized(out: &mut Vec<u8>, text: &[u8]) -> Result<(), AllocError>
    requires { length text.now < 2 ^ 32 }
    ensures { OnOk result (out.new.items ≡ out.old.items ++ sized text.now) }
{
    out.extend_from_slice(&(text.len() as u32).to_le_bytes())?;
    out.extend_from_slice(text)
}

// Key bytes up to the end of the signature, with room for all that may follow.
fn front_bytes(alloc: Global, kind: u8, key: &EngineKey) -> Result<Vec<u8>, AllocError>
    ensures { IfOk result (λ out. out.items ≡ kind ∷ (sized key.now.url ++ sized key.now.sig)) }
{
    key.limits();
    let size = BESIDE_TEXTS + key.url.bytes().len() + key.sig.bytes().len();
    let mut out = Vec::with_capacity(alloc, size)?;
    out.push(kind)?;
    add_sized(&mut out, key.url.bytes())?;
    add_sized(&mut out, key.sig.bytes())?;
    Ok(out)
}

fn source_bytes(alloc: Global, key: &EngineKey) -> Result<Vec<u8>, NoMemory>
    ensures { IfOk result (λ bytes. bytes.items ≡ source_bytes (address_of key.now)) }
{
    Ok(front_bytes(alloc, b'S', key)?)
}

fn outcome_bytes(alloc: Global, key: &EngineKey) -> Result<Vec<u8>, NoMemory>
    ensures { IfOk result (λ bytes. bytes.items ≡ outcome_bytes key.now) }
{
    let mut out = front_bytes(alloc, b'R', key)?;
    out.extend_from_slice(&key.width.to_le_bytes())?;
    out.extend_from_slice(&key.height.to_le_bytes())?;
    out.extend_from_slice(&choice_bytes(key))?;
    Ok(out)
}

/// The bytes by which the disk cache knows what it keeps of the load whose spec was copied into the room
/// last. Of the source these are `S`, the url and the signature; of the outcome `R`, the same two, the wanted
/// width and height in pixels, and one byte each for transform (0 none, 1 fit, 2 crop, 3 inside), config
/// (0 argb, 1 rgb565, 2 alpha) and rule (0 at least, 1 at most). A text stands behind its length in bytes;
/// lengths and sides are 32 bits with the low byte first. The layout is this project's own.
pub fn key_bytes(alloc: Global, room: &KeyRoom, which: Which) -> Result<Vec<u8>, NoMemory>
    ensures { IfOk result (λ bytes. bytes.items ≡ key_bytes_of which room.now.key) }
{
    let key = &room.spec().key;
    match which {
        Which::SourceBytes => source_bytes(alloc, key),
        Which::Outcome => outcome_bytes(alloc, key),
    }
}
