// Lines that are written at once.
ghost use Rattle.std.specs.Prelude.{◌≡◌, ◌++◌, ◌∷◌, [], ℕ, List, length, IfOk, codes, vec_len};
ghost use Rattle.std.specs.Fmt.{decimal};
ghost use Rattle.hex.specs.Hex.{encode_lower};
ghost use Rattle.sha2.specs.Sha256.{sha256};
ghost use Rattle.printed_lines.specs.Printed.{config_word, plain_line, shown_of, shown_words, shown_text, line_text, bad_line_text};
ghost use Rattle.printed_lines.specs.Writes.{Writes};

use crate::words::{PlainState, config_word, plain_words};
use crate::writing::write_all;
use bitmap_kind::{Bitmap, Config};
use outside::{Sink, WriteFault};
use sha2::{Digest, Sha256};
use std::alloc::{AllocError, Global};

/// What a `shown` line says of a picture.
#[derive(Clone, Copy, Debug, PartialEq, Eq)]
pub struct ShownPicture {
    /// In pixels.
    pub width: u32,
    /// In pixels.
    pub height: u32,
    /// How its pixels are stored.
    pub config: Config,
    /// The SHA-256 (FIPS 180-4) of its stored bytes.
    pub digest: [u8; 32],
}

impl ShownPicture {
    /// What such a line says of the picture of a bitmap.
    pub fn of(bitmap: &Bitmap) -> ShownPicture
        ensures { result ≡ shown_of bitmap.now.picture }
    {
        ShownPicture {
            width: bitmap.width(),
            height: bitmap.height(),
            config: bitmap.config(),
            digest: Sha256::digest(bitmap.bytes()),
        }
    }
}

// A view's name, a space and the words.
fn line_start(alloc: Global, view: &[u8], words: &[u8]) -> Result<Vec<u8>, AllocError>
    ensures { IfOk result (λ text. text.items ≡ view.now ++ 32 ∷ words.now) }
{
    let mut text = view.to_vec(alloc)?;
    text.push(b' ')?;
    text.extend_from_slice(words)?;
    Ok(text)
}

fn plain_text(alloc: Global, view: &[u8], state: PlainState) -> Result<Vec<u8>, AllocError>
    ensures { IfOk result (λ text. text.items ≡ line_text (plain_line view.now state)) }
{
    let words = plain_words(alloc, state)?;
    let mut text = line_start(alloc, view, &words)?;
    text.push(b'\n')?;
    Ok(text)
}

/// Writes the line of a view that shows no picture, by one write where the sink takes it at once.
///
/// Want of memory comes before anything is written, and any other fault is the sink's own.
pub fn write_plain_line<W: Sink>(
    alloc: Global,
    out: &mut W,
    view: &[u8],
    state: PlainState,
) -> Result<(), WriteFault>
    ensures { Writes W.Sink out.old out.new (line_text (plain_line view.now state)) result }
{
    let text = plain_text(alloc, view, state)?;
    write_all(out, &text)
}

fn shown_words(alloc: Global, width: u32, height: u32, config: &str) -> Result<Vec<u8>, AllocError>
    ensures { IfOk result (λ words. words.items
        ≡ codes "shown " ++ decimal width ++ 32 ∷ decimal height ++ 32 ∷ config.now ++ 32 ∷ []) }
{
    let text = format!(in alloc; "shown {width} {height} {config} ")?;
    Ok(text.into_bytes())
}

// The hex of a digest, and a line feed.
fn digest_end(digest: [u8; 32]) -> [u8; 65]
    ensures { result ≡ encode_lower digest ++ 10 ∷ [] }
{
    let mut end = [b'\n'; 65];
    let encoded = hex::encode_to_slice(&digest, &mut end[..64]).is_ok();
    prove!(encoded);
    end
}

fn shown_text(alloc: Global, view: &[u8], shown: &ShownPicture) -> Result<Vec<u8>, AllocError>
    ensures { IfOk result (λ text. text.items ≡ shown_text view.now shown.now) }
{
    let words = shown_words(alloc, shown.width, shown.height, config_word(shown.config))?;
    let mut text = line_start(alloc, view, &words)?;
    text.extend_from_slice(&digest_end(shown.digest))?;
    Ok(text)
}

/// Writes the `shown` line of a view, by one write where the sink takes it at once.
///
/// Want of memory comes before anything is written, and any other fault is the sink's own. Of a picture whose
/// stored bytes come in pieces, their digest is taken piece by piece (`sha2`), and nothing copies them.
pub fn write_shown_line<W: Sink>(
    alloc: Global,
    out: &mut W,
    view: &[u8],
    shown: &ShownPicture,
) -> Result<(), WriteFault>
    ensures { Writes W.Sink out.old out.new (shown_text view.now shown.now) result }
{
    let text = shown_text(alloc, view, shown)?;
    write_all(out, &text)
}

fn bad_line_text(alloc: Global, number: u64) -> Result<Vec<u8>, AllocError>
    ensures { IfOk result (λ text. text.items ≡ bad_line_text number) }
{
    let text = format!(in alloc; "glide: bad script line {number}\n")?;
    Ok(text.into_bytes())
}

/// Writes the line that names a bad line of the script, by one write where the sink takes it at once.
///
/// Want of memory comes before anything is written, and any other fault is the sink's own.
pub fn write_bad_line<W: Sink>(alloc: Global, out: &mut W, number: u64) -> Result<(), WriteFault>
    ensures { Writes W.Sink out.old out.new (bad_line_text number) result }
{
    let text = bad_line_text(alloc, number)?;
    write_all(out, &text)
}
