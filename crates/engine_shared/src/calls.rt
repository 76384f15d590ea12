// The calls of the engine.
ghost use Rattle.std.specs.Prelude.{◌≡◌, ◌<◌, ◌≤◌, ◌↔◌, [], length, take, true, None, IfOk, IfErr, IfSome, IsErr};
ghost use Rattle.std.specs.FinMap.{len};
ghost use Rattle.bitmap_kind.specs.Picture.{IsSize};
ghost use Rattle.engine_world.specs.declared.events.Event.TheVariants as events;
ghost use Rattle.engine_world.specs.declared.events.NotedReply.TheVariants as replies;
ghost use Rattle.engine_world.specs.Steps.{shape_of};
ghost use Rattle.engine_world.specs.Permits.{load_limit, IsAmongLent, IsResult, IsPicture, IsCause};
ghost use Rattle.engine_shared.specs.Caller.{Caller, knowledge_of, quota_of, content_of, picture_held, IsCall, RunsJob, HasLoad, HasReadyLoad};
ghost use Rattle.engine_shared.specs.declared.answers.Outcome.TheVariants as outcomes;
ghost use Rattle.engine_shared.specs.Answers.{OfReply, IsLoaded, collected, IsNext, IsGiven, finished, taken, with_lent, less_lent, IsOther, with_told, IsPiece};

use crate::answers::{Full, Next, Outcome};
use crate::tokens::{Hold, JobPass};
use bitmap_kind::{Bitmap, Config};
use cache_key::{KeyRoom, LoadSpec};
use engine_core::Piece;
use engine_world::{Shape, Totals};
use faults::NoMemory;
use load_cause::Cause;

/// The engine as one caller sees it. Others may call it between two of this caller's calls.
///
/// Each call is one event of the caller's seat, and asks no more than what the caller knows from its own entries. It adds to
/// what the caller has seen the entries of others and then its own. What each event does is Glide's, as `engine_world` says
/// it; that a caller has tokens of its loads and jobs is this project's own.
pub trait EngineCalls {
    // The caller's seat, what it has seen, and the world that this leads to.
    ghost caller: { Self → Caller };

    /// A picture is wanted. It is refused as `Full` exactly where the caller has as many loads as its quota.
    fn load(&mut self, spec: LoadSpec) -> Result<Hold, Full>
        requires few { (knowledge_of (caller self.old)).begun < load_limit }
        ensures entry { OfReply (IsLoaded result)
            (λ reply. IsCall (caller self.old) (events.Load spec) reply (caller self.new)) }
        ensures full { IsErr result
            ↔ (len (knowledge_of (caller self.old)).loads ≡ quota_of (caller self.old)) }
        ensures load { IfOk result (λ hold. HasLoad (caller self.new) hold) }
        ensures who { IfOk result (λ hold. hold.who ≡ (caller self.old).who) }
        ensures number { IfOk result (λ hold. hold.number ≡ (knowledge_of (caller self.old)).begun) }
        ensures key { IfOk result (λ hold. hold.key ≡ spec.key) };

    /// What a load has come to.
    fn collect(&mut self, hold: &Hold) -> Outcome
        requires load { HasLoad (caller self.old) hold.now }
        ensures entry { IsCall (caller self.old) (events.Collect hold.now.number) (collected result)
            (caller self.new) }
        ensures load { HasLoad (caller self.new) hold.now }
        ensures ready { result ≡ outcomes.Ready → HasReadyLoad (caller self.new) hold.now };

    /// The size of the picture that a load is ready on, and how it is stored.
    fn look(&mut self, hold: &Hold) -> Shape
        requires ready { HasReadyLoad (caller self.old) hold.now }
        ensures entry { IsCall (caller self.old) (events.Look hold.now.number) (replies.Shape result)
            (caller self.new) }
        ensures shape { IfSome (picture_held (caller self.old) hold.now.number)
            (λ picture. result ≡ shape_of picture) }
        ensures ready { HasReadyLoad (caller self.new) hold.now };

    /// The stored bytes of that picture from a place on, at most 4,096 of them, and zeros after them.
    fn read(&mut self, hold: &Hold, at: usize) -> Piece
        requires ready { HasReadyLoad (caller self.old) hold.now }
        requires at { IfSome (picture_held (caller self.old) hold.now.number)
            (λ picture. at ≤ length picture.bytes) }
        ensures entry { IsCall (caller self.old) (events.Read hold.now.number at)
            (replies.Piece (take result.count result.bytes)) (caller self.new) }
        ensures piece { IfSome (picture_held (caller self.old) hold.now.number)
            (λ picture. IsPiece at picture result) }
        ensures ready { HasReadyLoad (caller self.new) hold.now };

    /// The load is over.
    fn release(&mut self, hold: Hold)
        requires load { HasLoad (caller self.old) hold }
        ensures entry { IsCall (caller self.old) (events.Release hold.number) replies.Done
            (caller self.new) };

    /// The next job to run, which the room then shows, if one is queued and the engine is not closed.
    fn next_job(&mut self, room: KeyRoom) -> Next
        requires none { (knowledge_of (caller self.old)).job ≡ None }
        ensures entry { OfReply (IsNext result)
            (λ reply. IsCall (caller self.old) (events.NextJob room) reply (caller self.new)) }
        ensures given { IsGiven (caller self.new) result };

    /// A bitmap for a job: of these sides in pixels and of this config. Its stored bytes are any.
    fn take(
        &mut self,
        pass: &mut JobPass,
        width: u32,
        height: u32,
        config: Config,
    ) -> Result<Bitmap, NoMemory>
        requires job { RunsJob (caller self.old) pass.old }
        requires takes { pass.old.takes < 2 }
        requires size { IsSize width height }
        ensures entry { IsCall (caller self.old) (events.Take pass.old.number width height config)
            (taken result) (caller self.new) }
        ensures job { RunsJob (caller self.new) pass.new }
        ensures pass { IfOk result (λ bitmap. pass.new ≡ with_lent bitmap pass.old) }
        ensures other { IfOk result (λ bitmap. IsOther bitmap.number pass.old.out) }
        ensures none { IfErr result (λ _. pass.new ≡ pass.old) }
        ensures width { IfOk result (λ bitmap. bitmap.picture.width ≡ width) }
        ensures height { IfOk result (λ bitmap. bitmap.picture.height ≡ height) }
        ensures config { IfOk result (λ bitmap. bitmap.picture.config ≡ config) };

    /// A job is done with a bitmap, and goes on.
    fn give_back(&mut self, pass: &mut JobPass, bitmap: Bitmap)
        requires job { RunsJob (caller self.old) pass.old }
        requires lent { IsAmongLent bitmap pass.old.out }
        ensures entry { IsCall (caller self.old) (events.GiveBack pass.old.number bitmap) replies.Done
            (caller self.new) }
        ensures job { RunsJob (caller self.new) pass.new }
        ensures pass { pass.new ≡ less_lent bitmap.number pass.old };

    /// The picture that a job was run for. The answer is true where it was taken, and false exactly where the job was cancelled.
    fn finish(&mut self, pass: JobPass, bitmap: Bitmap) -> (bool, KeyRoom)
        requires job { RunsJob (caller self.old) pass }
        requires result { IsResult bitmap pass.out }
        requires picture { IsPicture (content_of (caller self.old)) pass.spec.key bitmap.picture }
        ensures entry { IsCall (caller self.old) (events.Finish pass.number bitmap) (finished result.0)
            (caller self.new) };

    /// There is no picture, for this cause.
    fn fail(&mut self, pass: JobPass, cause: Cause) -> KeyRoom
        requires job { RunsJob (caller self.old) pass }
        requires none_out { pass.out ≡ [] }
        requires cause { IsCause (content_of (caller self.old)) pass.spec.key cause }
        ensures entry { IsCall (caller self.old) (events.Fail pass.number cause) replies.Done
            (caller self.new) };

    /// A job of which `is_cancelled` answered true ends.
    fn quit(&mut self, pass: JobPass) -> KeyRoom
        requires job { RunsJob (caller self.old) pass }
        requires none_out { pass.out ≡ [] }
        requires cancelled { pass.cancelled ≡ true }
        ensures entry { IsCall (caller self.old) (events.Quit pass.number) replies.Done
            (caller self.new) };

    /// Whether a job is cancelled.
    fn is_cancelled(&mut self, pass: &mut JobPass) -> bool
        requires job { RunsJob (caller self.old) pass.old }
        ensures entry { IsCall (caller self.old) (events.IsCancelled pass.old.number)
            (replies.Cancelled result) (caller self.new) }
        ensures job { RunsJob (caller self.new) pass.new }
        ensures pass { pass.new ≡ with_told result pass.old };

    /// Memory is wanted elsewhere, at one of Android's levels (`onTrimMemory`).
    fn trim(&mut self, level: u32)
        ensures entry { IsCall (caller self.old) (events.Trim level) replies.Done (caller self.new) };

    /// No more jobs are to be run.
    fn close(&mut self)
        ensures entry { IsCall (caller self.old) events.Close replies.Done (caller self.new) };

    /// How many loads and takes were answered from where, and how many bitmaps are where by now.
    fn totals(&mut self) -> Totals
        ensures entry { IsCall (caller self.old) events.Totals (replies.Totals result) (caller self.new) };

    /// Waits until others have made a step that the caller has not seen. It adds nothing to what it has seen.
    fn wait_news(&mut self)
        ensures same { caller self.new ≡ caller self.old };
}
