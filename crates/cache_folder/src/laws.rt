// Laws of what a folder offers.
ghost use Rattle.std.specs.Prelude.{◌≡◌, ◌≢◌, ◌≤◌, ◌⊎◌, ℕ, List, [], ◌∷◌, ◌++◌, length, Some, None, IsSome};
ghost use Rattle.std.specs.declared.option.Option.{Option};
ghost use Rattle.std.specs.List.{AllByRecursion};
ghost use Rattle.std.specs.FinMap.{get};
ghost use Rattle.outside.specs.Files.{Folder, FolderHistory, appended, deleted, last_of, renamed};
ghost use Rattle.journal_lines.specs.Lines.{spelled, IsLine};
ghost use Rattle.journal_lines.specs.Journal.{ended};
ghost use Rattle.journal_lines.specs.declared.lines.Line.{Line};
ghost use Rattle.disk_table.specs.Table.{replayed};
ghost use Rattle.cache_folder.specs.Offered.{Replayed, journal_name, journal_tmp, journal_bkp, value_name, readable, offered};
ghost use Rattle.cache_folder.specs.Journals.{Says};
ghost use Rattle.cache_folder.specs.Tables.{Table, edit_at, begun};
ghost use Rattle.cache_folder.specs.Steps.{Cached, CacheStep, stepped, all_stepped};
ghost use Rattle.cache_folder.specs.Laws.{CacheLaws};
ghost use Rattle.cache_folder.specs.Images.{Runs, IsOnTheWay, OffersEither};

use journal_lines::text_is_its_lines;

/// A stop at any byte of the append of a journal's line leaves a folder that offers what was offered before it, or what the
/// whole line leaves. Afterwards the journal says what the line leaves.
pub fn line_is_written_at_once()
    ensures before { (f : Folder) (es : Replayed) → Says f es → offered f ≡ readable f es }
    ensures images { (f : Folder) (es : Replayed) (line : Line) → Says f es → IsLine line
        → length (replayed es line) ≤ 16400
        → AllByRecursion (λ c. (offered c ≡ readable f es) ⊎
        (offered c ≡ readable f (replayed es line)))
        (appended journal_name (ended (spelled line)) f) }
    ensures last { (f : Folder) (es : Replayed) (line : Line) → Says f es → IsLine line
        → length (replayed es line) ≤ 16400
        → Says (last_of f (appended journal_name (ended (spelled line)) f)) (replayed es line) }
{
    text_is_its_lines();
}

/// A folder that offers the list before or after a step is on the way of that step; and where some calls run one after the
/// other, each image of them is on the way of all their steps, in order.
pub fn calls_in_turn()
    ensures step { (es : Cached (List ℕ)) (step : CacheStep (List ℕ)) (c : Folder)
        → OffersEither es (stepped es step) c → IsOnTheWay es (step ∷ []) c }
    ensures turn { (es : Cached (List ℕ)) (xs ys : List (CacheStep (List ℕ))) (h k : FolderHistory)
        (after : Option FolderHistory)
        → Runs (IsOnTheWay es xs) h (Some k) → Runs (IsOnTheWay (all_stepped es xs) ys) k after
        → Runs (IsOnTheWay es (xs ++ ys)) h after }
{}

/// The first changes of a start offer what was offered: `journal.bkp` is deleted where `journal` is there, and takes its name
/// where it is not; `journal.tmp` is deleted; and then each file that is not the journal and of no entry that is offered.
pub fn start_offers_the_same()
    ensures backup { (f : Folder) → IsSome (get f journal_name)
        → AllByRecursion (λ c. offered c ≡ offered f) (deleted journal_bkp f) }
    ensures back { (f : Folder) → get f journal_name ≡ None
        → AllByRecursion (λ c. offered c ≡ offered f) (renamed journal_bkp journal_name f) }
    ensures new { (f : Folder) → AllByRecursion (λ c. offered c ≡ offered f) (deleted journal_tmp f) }
    ensures foreign { (f : Folder) (name : List ℕ) → name ≢ journal_name → get f journal_bkp ≡ None
        → AllByRecursion (λ p. value_name p.0 ≢ name) (offered f)
        → AllByRecursion (λ c. offered c ≡ offered f) (deleted name f) }
{}

/// What a call on a key, and what a rebuild, leave as it was; that sound files offer the table's list; which pairs of a key and
/// bytes a list can keep after some steps; and what the list answers for a key, by the table and after each step.
pub fn calls_keep_others()
    ensures { CacheLaws }
{
    text_is_its_lines();
}

/// A key that is begun has an edit of no bytes.
pub fn begun_edits_are_empty()
    ensures { (key : List ℕ) (t : Table) → edit_at key (begun key t) ≡ Some 0 }
{}
