// What a key may be given, and a cause that is made of a refusal.
ghost use Rattle.std.specs.Prelude.{◌≡◌, ◌∷◌, [], Ok, Err, Some, None};
ghost use Rattle.load_cause.specs.Ends.{end_of};

use crate::Cause;
use bitmap_kind::Config;
use image_format::Refusal;
use std::process::Abort;

// Nothing there, a text that is refused, and a red pixel.
fn worked_ends()
    ensures missing { end_of None ≡ Err Cause.Missing }
    ensures refused { end_of (Some (Err Refusal.Unknown)) ≡ Err (Cause.Refused Refusal.Unknown) }
    ensures picture { end_of (Some (Ok record { width = 1; height = 1; config = Config.Rgb565; bytes = 0 ∷ 248 ∷ [] }))
        ≡ Ok record { width = 1; height = 1; config = Config.Rgb565; bytes = 0 ∷ 248 ∷ [] } }
{}

#[test]
fn a_refusal_is_a_cause(rt: HostRuntime) {
    let cause = Cause::from(Refusal::TooLarge);
    assert!(rt; matches!(cause, Cause::Refused(Refusal::TooLarge)));
}
