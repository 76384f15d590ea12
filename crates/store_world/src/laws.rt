// The laws of the store's world, each as the contract of a function that does nothing.
ghost use Rattle.std.specs.Prelude.{◌≡◌, ℕ, ◌<◌, ◌^◌, List, length, Some};
ghost use Rattle.std.specs.declared.option.Option.{Option};
ghost use Rattle.outside.specs.Content.{Contents};
ghost use Rattle.outside.specs.Files.{Folder, FolderHistory};
ghost use Rattle.cache_key.specs.declared.bytes.Which.{Which};
ghost use Rattle.cache_key.specs.Key.{Key, IsKey};
ghost use Rattle.store_world.specs.declared.events.StoreEvent.{StoreEvent};
ghost use Rattle.store_world.specs.Envelopes.{envelope, payload_of};
ghost use Rattle.store_world.specs.Right.{IsPayload, entry_of, IsRight, OffersRight, HoldsRightIn, IsTruthOf, IsDecided};
ghost use Rattle.store_world.specs.Truth.{truth_of};
ghost use Rattle.store_world.specs.World.{World};
ghost use Rattle.store_world.specs.Knowledge.{no_knowledge};
ghost use Rattle.store_world.specs.Sound.{Sound};
ghost use Rattle.store_world.specs.StoreMachine.{IsOpening, BeganRight};
ghost use Rattle.store_world.specs.Laws.{KeepsSound, KeepsSettings, KeepsOff, KeepsNumbers, HoldersBegin, HoldersWrite, RequestsAreFew, OneMoreFits, OneHolder, KeepsWithin, KeepsRight, FetchesRight, CommitStores, RoomKeeps, EvictsOneMore};
ghost use Rattle.store_world.specs.Staying.{KeepsEntries};
ghost use Rattle.store_world.specs.Histories.{OwnEntriesTell, OthersLearnNothing, HistoriesAreSound, HistoriesStaySound, HistoriesKeepOff, HistoriesAreRight, HistoriesOfferGiven, HistoriesKeepEntries, FoldersStayRight};

use cache_folder::calls_keep_others;
use cache_key::key_bytes_tell_apart;
use disk_lru::entries_stay;

/// An envelope is read as it was written, and only what was; and its two parts are the only ones that it can have.
pub fn envelopes_are_read_as_written()
    ensures fits { (bytes payload : List ℕ) → payload_of bytes (envelope bytes payload) ≡ Some payload }
    ensures only { (bytes text payload : List ℕ) → payload_of bytes text ≡ Some payload
        → text ≡ envelope bytes payload }
    ensures parts { (a b p q : List ℕ) → length a < 2 ^ 32 → length b < 2 ^ 32
        → envelope a p ≡ envelope b q → (a ≡ b) × (p ≡ q) }
{
    key_bytes_tell_apart();
}

/// The entry of a key is right exactly where its payload is what the content has for the key.
pub fn entries_are_right()
    ensures right { (content : Contents) (which : Which) (key : Key) (payload : List ℕ) → IsKey key
        → IsPayload content which key payload → IsRight content (entry_of which key payload) }
    ensures only { (content : Contents) (which : Which) (key : Key) (payload : List ℕ) → IsKey key
        → IsRight content (entry_of which key payload) → IsPayload content which key payload }
{
    key_bytes_tell_apart();
}

/// Whether a folder offers only what is right under a content can be decided, and so the truth of each run can be found: one, or
/// none.
pub fn rightness_is_decided()
    ensures folder { (content : Contents) (folder : Folder) → IsDecided (OffersRight content folder) }
    ensures truth { (told : Option Contents) (files : Option FolderHistory)
        → IsTruthOf told files (truth_of told files) }
    ensures right { (told : Option Contents) (files : Option FolderHistory)
        → HoldsRightIn (truth_of told files) files }
{}

/// From a sound world, an event that its seat is permitted leaves a sound one.
pub fn each_event_keeps_sound()
    ensures { (event : StoreEvent) → KeepsSound event }
{}

/// No event changes the content, the greatest size, or whether the store is off.
pub fn each_event_keeps_settings()
    ensures { (event : StoreEvent) → KeepsSettings event }
{}

/// An event of a store that is off changes nothing.
pub fn each_event_keeps_what_is_off()
    ensures { (event : StoreEvent) → KeepsOff event }
{}

/// The edits of other seats that are open keep their numbers.
pub fn each_event_keeps_numbers()
    ensures { (event : StoreEvent) → KeepsNumbers event }
{}

/// What the calls of the disk cache ask: a begin of the seat that has the lock, after the evictions before it, is refused
/// neither as busy nor for want of room; and an edit to which no write failed is open.
pub fn holders_may_call()
    ensures begin { HoldersBegin }
    ensures write { HoldersWrite }
{}

/// There are at most 16 requests, and fewer while a seat that is served has none.
pub fn requests_are_few()
    ensures few { RequestsAreFew }
    ensures more { OneMoreFits }
{}

/// No two seats have one key's lock.
pub fn locks_have_one_holder()
    ensures { OneHolder }
{}

/// Each moment of an event offers only pairs that were offered or kept before it, or that it commits.
pub fn each_moment_offers_what_was_given()
    ensures { (event : StoreEvent) → KeepsWithin event }
{}

/// Where the content is told and the files hold what is right, each moment of an event offers only what is right.
pub fn each_moment_offers_what_is_right()
    ensures { (event : StoreEvent) → KeepsRight event }
{}

/// Where the content is told, what is fetched is a right pair with its key.
pub fn fetches_are_right()
    ensures { FetchesRight }
{}

/// What a commit that succeeded had written is an entry, until the evictions that follow take just this key.
pub fn commits_store()
    ensures { CommitStores }
{
    calls_keep_others();
    entries_stay();
}

/// An entry is offered at each moment of an event and after it, unless an eviction chooses it or a read of it fails.
pub fn each_event_keeps_entries()
    ensures { (event : StoreEvent) → KeepsEntries event }
{
    calls_keep_others();
    entries_stay();
}

/// Where nothing is to go, evictions take nothing and change nothing, and cannot fail.
pub fn room_keeps()
    ensures { RoomKeeps }
{}

/// Evictions, and one more after them.
pub fn evictions_go_on()
    ensures { EvictsOneMore }
{}

/// What a seat knows grows by its own entries alone.
pub fn seats_learn_by_their_own_entries()
    ensures own { OwnEntriesTell }
    ensures others { OthersLearnNothing }
{}

/// What a store opens with is sound.
pub fn openings_are_sound()
    ensures { (content : Option Contents) (before : Option FolderHistory) (w : World)
        → IsOpening content before w → BeganRight content before w → Sound w (λ who. no_knowledge) }
{}

/// Each world that a legal history leads to is sound.
pub fn each_history_is_sound<M>()
    ensures { HistoriesAreSound M }
{}

/// From a sound opening, each legal history leads to a sound world with the settings of the opening.
pub fn each_history_stays_sound<M>()
    ensures { HistoriesStaySound M }
{}

/// A store that is off stays as it opened, whatever its seats do.
pub fn each_history_keeps_what_is_off<M>()
    ensures { HistoriesKeepOff M }
{}

/// Where the content is told, each moment since the start offers only what is right.
pub fn each_history_offers_what_is_right<M>()
    ensures { HistoriesAreRight M }
{}

/// Each moment since the start offers only pairs that were offered when it was called, or that the history committed.
pub fn each_history_offers_what_was_given<M>()
    ensures { HistoriesOfferGiven M }
{}

/// An entry that is offered after a legal history is so after each later one none of whose steps may take it.
pub fn each_history_keeps_entries<M>()
    ensures { HistoriesKeepEntries M }
{
    calls_keep_others();
    entries_stay();
}

/// A folder that offers only what is right still does after any number of runs, each ended or stopped at any moment.
pub fn folders_stay_right<M>()
    ensures { FoldersStayRight M }
{}
