// The line that has all pixels of a picture.
ghost use Rattle.std.specs.Prelude.{◌≡◌, ◌++◌, ◌∷◌, [], ℕ, List, IfOk, OnOk, codes};
ghost use Rattle.hex.specs.Hex.{encode_lower};
ghost use Rattle.printed_lines.specs.Printed.{PixelsLine as pixels_line, pixels_start, line_text};
ghost use Rattle.printed_lines.specs.Writes.{Writes, Adds};

use crate::writing::write_all;
use bitmap_kind::Bitmap;
use outside::{Sink, WriteFault};
use std::alloc::{AllocError, Global};
use std::marker::Model;

// How many stored bytes are handed over at once.
const PIECE: usize = 4096;

// So many bytes are written before more come: the digits of a piece.
const FULL: usize = 8192;

/// A `pixels` line that is printed from pieces of a picture's stored bytes. Contracts see what of the line is
/// not written yet.
///
/// It holds the digits of the pieces that stand, up to 8,192 before the last of them. A line whose picture is
/// stored in up to 4,096 bytes is one write where the sink takes it at once.
#[derive(Drop)]
pub struct PixelsLine {
    text: Vec<u8>,
}

impl Model for PixelsLine {
    ghost Value = { List ℕ };

    ghost view = { λ line. line.text.items };
}

// Adds bytes as hex in lower case.
fn push_hex(text: &mut Vec<u8>, bytes: &[u8]) -> Result<(), AllocError>
    ensures { OnOk result (text.new.items ≡ text.old.items ++ encode_lower bytes.now) }
{
    let digits = hex::encode(*text.allocator(), bytes)?;
    text.extend_from_slice(digits.as_bytes())
}

impl PixelsLine {
    /// Begins the line of a view. Nothing is written yet.
    pub fn begin(alloc: Global, view: &[u8]) -> Result<PixelsLine, AllocError>
        ensures { IfOk result (λ line. line ≡ pixels_start view.now) }
    {
        let mut text = view.to_vec(alloc)?;
        text.extend_from_slice(b" pixels ")?;
        Ok(PixelsLine { text })
    }

    // Writes what stands where it has the digits of a piece.
    fn make_room<W: Sink>(&mut self, out: &mut W) -> Result<(), WriteFault>
        ensures { Adds W.Sink (out.old, self.old) (out.new, self.new) [] result }
    {
        if self.text.len() >= FULL {
            write_all(out, &self.text)?;
            self.text.clear();
        }
        Ok(())
    }

    /// Adds the next of the picture's stored bytes, of which the engine hands out 4,096 at a time.
    ///
    /// What stands is written first where it has 8,192 bytes. After a fault the line is of no more use.
    pub fn piece<W: Sink>(&mut self, out: &mut W, bytes: &[u8]) -> Result<(), WriteFault>
        ensures { Adds W.Sink (out.old, self.old) (out.new, self.new) (encode_lower bytes.now) result }
    {
        self.make_room(out)?;
        push_hex(&mut self.text, bytes)?;
        Ok(())
    }

    /// Ends the line, and writes what of it stands.
    pub fn end<W: Sink>(mut self, out: &mut W) -> Result<(), WriteFault>
        ensures { Writes W.Sink out.old out.new (self ++ 10 ∷ []) result }
    {
        self.text.extend_from_slice(b"\n")?;
        write_all(out, &self.text)
    }
}

/// Writes the `pixels` line of a view that shows the picture of this bitmap.
///
/// Memory may be wanting at any piece: what was written then is a front of the line. Any other fault is the
/// sink's own.
pub fn write_pixels_line<W: Sink>(
    alloc: Global,
    out: &mut W,
    view: &[u8],
    bitmap: &Bitmap,
) -> Result<(), WriteFault>
    ensures { Writes W.Sink out.old out.new (line_text (pixels_line view.now bitmap.now.picture)) result }
{
    let bytes = bitmap.bytes();
    let mut line = PixelsLine::begin(alloc, view)?;
    let mut at = 0;
    while at < bytes.len() {
        let count = PIECE.min(bytes.len() - at);
        line.piece(out, &bytes[at..at + count])?;
        at += count;
    }
    line.end(out)
}
