// Laws of the views beside a walk. A function of this file does nothing: its contract is the law.
ghost use Rattle.engine_views.specs.Closing.{ReleasesEndWalks};
ghost use Rattle.engine_views.specs.Quiet.{QuietCallsLeaveViews, OnlyCallersAddTheirEntries};

use engine_world::each_event_keeps_opening;
use fetch_bounds::failures_add_up;

/// Where views stand on a walk, the releases of what they hold are what happens where the walk ends.
pub fn releases_end_walks()
    ensures { ReleasesEndWalks }
{}

/// A call of the engine's only caller adds its entry alone. One that asks how things stand, or trims memory, leaves the views
/// where they stand on a walk.
pub fn quiet_calls_leave_views()
    ensures quiet { QuietCallsLeaveViews }
    ensures alone { OnlyCallersAddTheirEntries }
{
    each_event_keeps_opening();
    failures_add_up();
}
