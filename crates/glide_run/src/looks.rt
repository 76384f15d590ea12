// Pictures that the engine tells piece by piece.
ghost use Rattle.std.specs.Prelude.{◌≡◌, ℕ, Some, Err, OnOk};
ghost use Rattle.outside.specs.Causes.{HasCause};
ghost use Rattle.bitmap_kind.specs.Picture.{Picture};
ghost use Rattle.printed_lines.specs.Printed.{PixelsLine as pixels_line, line_text, shown_of};
ghost use Rattle.printed_lines.specs.Writes.{Writes};
ghost use Rattle.engine_shared.specs.Caller.{HasReadyLoad, picture_held};
ghost use Rattle.fetch_bounds.specs.Follows.{AllWork};
ghost use Rattle.engine_views.specs.Following.{standing, IsOnWalk};
ghost use Rattle.glide_run.specs.inside.Looks.{Asks, TellsWhole};

use engine_shared::{EngineCalls, Hold, calls_tell_what_they_add};
use engine_views::{EngineViews, quiet_calls_leave_views};
use outside::{Sink, WriteFault};
use printed_lines::{PixelsLine, ShownPicture};
use sha2::{Digest, Sha256};
use std::alloc::Global;

/// What a `shown` line says of the picture that a load of these views is ready on. Its stored bytes are read from the engine in
/// pieces, of which the digest is taken.
pub fn picture_shown<E: EngineCalls>(
    engine: &mut E,
    views: &EngineViews,
    load: &Hold,
) -> ShownPicture
    requires on_walk { IsOnWalk (standing (E.caller engine.old) views.now) }
    requires ready { HasReadyLoad (E.caller engine.old) load.now }
    ensures shown { (picture : Picture) → picture_held (E.caller engine.old) load.now.number ≡ Some picture
        → result ≡ shown_of picture }
    ensures told { (picture : Picture) → picture_held (E.caller engine.old) load.now.number ≡ Some picture
        → Asks views.now (TellsWhole load.now.number picture) (E.caller engine.old) (E.caller engine.new) }
    ensures asks { Asks views.now AllWork (E.caller engine.old) (E.caller engine.new) }
{
    quiet_calls_leave_views();
    calls_tell_what_they_add();
    let shape = engine.look(load);
    let length = shape.length;
    let mut hasher = Sha256::new();
    let mut at = 0;
    while at < length {
        let piece = engine.read(load, at);
        hasher.update(&piece.bytes[..piece.count]);
        at += piece.count;
    }
    ShownPicture {
        width: shape.width,
        height: shape.height,
        config: shape.config,
        digest: hasher.finalize(),
    }
}

/// Writes the `pixels` line of a view of this name with the picture that a load of these views is ready on. Its stored bytes are
/// read from the engine in pieces.
pub fn write_pixels<E: EngineCalls, W: Sink>(
    alloc: Global,
    engine: &mut E,
    out: &mut W,
    views: &EngineViews,
    name: &[u8],
    load: &Hold,
) -> Result<(), WriteFault>
    requires on_walk { IsOnWalk (standing (E.caller engine.old) views.now) }
    requires ready { HasReadyLoad (E.caller engine.old) load.now }
    ensures writes { (picture : Picture) → picture_held (E.caller engine.old) load.now.number ≡ Some picture
        → Writes W.Sink out.old out.new (line_text (pixels_line name.now picture)) result }
    ensures told { OnOk result ((picture : Picture)
        → picture_held (E.caller engine.old) load.now.number ≡ Some picture
        → Asks views.now (TellsWhole load.now.number picture) (E.caller engine.old) (E.caller engine.new)) }
    ensures asks { Asks views.now AllWork (E.caller engine.old) (E.caller engine.new) }
    ensures cause { HasCause (W.faults out.old) (W.faults out.new) (result ≡ Err WriteFault.Failed) }
{
    quiet_calls_leave_views();
    calls_tell_what_they_add();
    let mut line = PixelsLine::begin(alloc, name)?;
    let length = engine.look(load).length;
    let mut at = 0;
    while at < length {
        let piece = engine.read(load, at);
        line.piece(out, &piece.bytes[..piece.count])?;
        at += piece.count;
    }
    line.end(out)
}
