// Writes a text whole.
ghost use Rattle.printed_lines.specs.Writes.{Writes};

use outside::{Sink, WriteFault};

/// Writes the bytes, by one write where the sink takes them at once, and else by further writes of what is
/// left.
///
/// A fault is the sink's own, and stops the writing: a front of the bytes was written then.
pub fn write_all<W: Sink>(out: &mut W, bytes: &[u8]) -> Result<(), WriteFault>
    ensures { Writes W.Sink out.old out.new bytes.now result }
{
    let mut at = 0;
    while at < bytes.len() {
        at += out.write(&bytes[at..])?;
    }
    Ok(())
}
