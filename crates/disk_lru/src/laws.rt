// How long an entry is offered.
ghost use Rattle.disk_lru.specs.Staying.{EntriesStay};

use cache_folder::calls_keep_others;

/// An entry that files and list offer is offered at each moment of a call on another key, and after it, whatever fails; and so
/// it is through a `get` of its own key that succeeds, and through a rebuild. So what `commit` has stored stays until a `begin`
/// or a `remove` of its key, a call on its key that fails, an eviction that chooses it, or a later start that evicts it.
pub fn entries_stay()
    ensures { EntriesStay }
{
    calls_keep_others();
}
