// The files of the store's entries.
ghost use Rattle.std.specs.Prelude.{◌≡◌, ◌+◌, ◌<◌, ◌^◌, ◌++◌, length, codes, drop, IfOk, OnOk};
ghost use Rattle.std.specs.Int.{w32, to_le_bytes};
ghost use Rattle.std.specs.Option.{option_map};
ghost use Rattle.std.specs.Str.{bytes_eq};
ghost use Rattle.cache_key.specs.KeyBytes.{sized};
ghost use Rattle.store_world.specs.Envelopes.{envelope, front_size, payload_of};

use faults::NoMemory;
use std::alloc::{AllocError, Global};

// How many bytes an envelope has besides those of its two parts.
pub const AROUND: usize = 12;

// Adds a length as 32 bits, the low byte first.
fn add_length(out: &mut Vec<u8>, length: usize) -> Result<(), AllocError>
    ensures { OnOk result (out.new.items ≡ out.old.items ++ to_le_bytes w32 length) }
{
    out.extend_from_slice(&(length as u64).to_le_bytes()[..4])
}

// Adds what stands before the payload in an envelope of these key bytes.
fn add_front(out: &mut Vec<u8>, bytes: &[u8], payload: usize) -> Result<(), AllocError>
    ensures { OnOk result (out.new.items
        ≡ out.old.items ++ (codes "GLD1" ++ sized bytes.now ++ to_le_bytes w32 payload)) }
{
    out.extend_from_slice(b"GLD1")?;
    add_length(out, bytes.len())?;
    out.extend_from_slice(bytes)?;
    add_length(out, payload)
}

/// The entry file of these key bytes and this payload: `GLD1`, and then each of the two behind its length in
/// bytes, which is 32 bits with the low byte first. The form is this project's own.
pub fn envelope(alloc: Global, bytes: &[u8], payload: &[u8]) -> Result<Vec<u8>, NoMemory>
    requires bytes { length bytes.now < 2 ^ 32 }
    requires payload { length payload.now < 2 ^ 32 }
    ensures { IfOk result (λ text. text.items ≡ envelope bytes.now payload.now) }
{
    let mut text = Vec::with_capacity(alloc, bytes.len() + AROUND + payload.len())?;
    add_front(&mut text, bytes, payload.len())?;
    text.extend_from_slice(payload)?;
    Ok(text)
}

// Whether the text is the envelope of these key bytes and what stands in it after them.
fn is_envelope(alloc: Global, bytes: &[u8], text: &[u8]) -> Result<bool, NoMemory>
    requires { length bytes.now < 2 ^ 32 }
    ensures { IfOk result (λ is. is
        ≡ bytes_eq text.now (envelope bytes.now (drop (front_size bytes.now) text.now))) }
{
    let size = bytes.len() + AROUND;
    if text.len() < size {
        return Ok(false);
    }
    let mut front = Vec::with_capacity(alloc, size)?;
    add_front(&mut front, bytes, text.len() - size)?;
    Ok(&text[..size] == front.as_slice())
}

/// The payload of an entry file that is the envelope of just these key bytes. None comes exactly where it is
/// not.
pub fn payload_of(alloc: Global, bytes: &[u8], text: Vec<u8>) -> Result<Option<Vec<u8>>, NoMemory>
    requires { length bytes.now < 2 ^ 32 }
    ensures { IfOk result (λ found.
        option_map (λ payload. payload.items) found ≡ payload_of bytes.now text.items) }
{
    if !is_envelope(alloc, bytes, &text)? {
        return Ok(None);
    }
    let mut text = text;
    text.drain(..bytes.len() + AROUND);
    Ok(Some(text))
}
