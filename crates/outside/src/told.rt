// The content that sources tell.
ghost use Rattle.std.specs.Prelude.{◌≡◌, None, map};
ghost use Rattle.outside.specs.Told.{IsToldBy};
ghost use Rattle.outside.specs.inside.Agreeing.{told_by, agreed_from};

use crate::sources::Source;
use snapshots::{SnapshotUpdate, update_snapshot};
use std::marker::Model;
use std::snapshot::Snapshot;

// Stands for what a content may be. No value of it shows one.
#[derive(Drop)]
struct Unsaid {}

impl Model for Unsaid {
    ghost use Rattle.std.specs.Prelude.{None};
    ghost use Rattle.std.specs.Coded.{codes};
    ghost use Rattle.std.specs.FinMap as map;
    ghost use Rattle.std.specs.declared.option.Option.{Option};
    ghost use Rattle.outside.specs.Content.{Contents};

    ghost Value = { Option Contents };

    ghost coded = { Prim.hlevel (codes, map.code) };

    ghost view = { λ s. None };
}

// What one source tells.
struct Tells;

impl<S: Source> SnapshotUpdate<S, Unsaid> for Tells {
    ghost updated = { λ told source. S.content source };
}

// What is told, where one source more tells it too.
struct AlsoTells;

impl<S: Source> SnapshotUpdate<S, Unsaid> for AlsoTells {
    ghost use Rattle.outside.specs.inside.Agreeing.{agreed};

    ghost updated = { λ told source. agreed told (S.content source) };
}

// What a snapshot shows.
struct Shown;

impl SnapshotUpdate<Snapshot<Told>, Unsaid> for Shown {
    ghost updated = { λ told shown. shown.value };
}

/// The content that sources tell, or nothing. It takes no bytes.
///
/// It is there for contracts: what an engine or a disk cache speaks for is the content that all sources tell that it is used
/// with. Contracts see a content, or nothing.
#[derive(Drop)]
pub struct Told {
    content: Snapshot<Unsaid>,
}

impl Model for Told {
    ghost use Rattle.std.specs.Coded.{codes};
    ghost use Rattle.std.specs.FinMap as map;
    ghost use Rattle.std.specs.declared.option.Option.{Option};
    ghost use Rattle.outside.specs.Content.{Contents};

    ghost Value = { Option Contents };

    ghost coded = { Prim.hlevel (codes, map.code) };

    ghost view = { λ s. s.content.value };
}

impl Told {
    /// No content is told.
    pub fn nothing() -> Told
        ensures { result ≡ None }
    {
        Told {
            content: Snapshot::of(&Unsaid {}),
        }
    }

    /// The content that this source tells, or nothing.
    pub fn by<S: Source>(source: &S) -> Told
        ensures { result ≡ S.content source.now }
    {
        let mut content = Snapshot::of(&Unsaid {});
        update_snapshot::<_, _, Tells>(&mut content, source);
        Told { content }
    }

    /// The content that all of the sources tell.
    ///
    /// Nothing is told where the slice is empty, where one of them tells nothing, or where two tell different contents. The
    /// rule is this project's own.
    pub fn of<S: Source>(sources: &[S]) -> Told
        ensures { IsToldBy (map S.content sources.now) result }
    {
        Told {
            content: agreed_by(sources),
        }
    }

    /// What a snapshot shows, which may have been changed by what else is known, as what files hold.
    pub fn shown_by(shown: Snapshot<Told>) -> Told
        ensures { result ≡ shown.value }
    {
        let mut content = Snapshot::of(&Unsaid {});
        update_snapshot::<_, _, Shown>(&mut content, &shown);
        Told { content }
    }
}

// What all of the sources tell: what the first tells, as long as each of the others agrees.
fn agreed_by<S: Source>(sources: &[S]) -> Snapshot<Unsaid>
    ensures { result.value ≡ told_by (map S.content sources.now) }
{
    let mut content = Snapshot::of(&Unsaid {});
    if let Some((first, others)) = sources.split_first() {
        update_snapshot::<_, _, Tells>(&mut content, first);
        agree(&mut content, others);
    }
    content
}

// Leaves what is told, as long as each of the sources agrees.
fn agree<S: Source>(content: &mut Snapshot<Unsaid>, sources: &[S])
    ensures { content.new.value ≡ agreed_from content.old.value (map S.content sources.now) }
{
    for source in sources {
        update_snapshot::<_, _, AlsoTells>(content, source);
    }
}
