// One event of a seat.
ghost use Rattle.std.specs.Prelude.{◌≡◌, ◌<◌, length, None};
ghost use Rattle.engine_world.specs.Knowledge.{updated, knowledge_in};
ghost use Rattle.engine_world.specs.Permits.{Permits};
ghost use Rattle.engine_core.specs.Noted.{noted};
ghost use Rattle.random_events.specs.Seats.{IsActOf};

use engine_core::{Core, Reply};
use engine_world::{Event, Note};
use state_machine::own_entries_append;

/// One event of a seat, and what all seats know by then.
pub fn act(core: &mut Core, who: u32, event: Event) -> Reply
    requires served { who < length core.old.world.limits.quotas }
    requires untold { core.old.world.content ≡ None }
    requires permitted { Permits None (knowledge_in core.old.history who) event }
    ensures own { knowledge_in core.new.history who
        ≡ updated event (noted result) (knowledge_in core.old.history who) }
    ensures acts { IsActOf who core.old core.new }
{
    own_entries_append::<Note>();
    core.step(who, event)
}
