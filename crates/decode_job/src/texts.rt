// The texts of jobs.
ghost use Rattle.std.specs.Prelude.{Some, IfOk, IfErr};
ghost use Rattle.decode_job.specs.Sources.{view_of, AskedAlone, WasFetched, HasText};
ghost use Rattle.decode_job.specs.inside.Stops.{FetchFailsFor};

use cache_key::EngineKey;
use load_cause::Cause;
use outside::{FetchFault, Source};
use std::alloc::Global;

/// Fetches the text of a key from its source.
pub fn fetch_text<S: Source>(
    alloc: Global,
    source: &mut S,
    key: &EngineKey,
) -> Result<Vec<u8>, Cause>
    ensures alone { AskedAlone key.now (view_of S.Source source.old) (view_of S.Source source.new) }
    ensures count { WasFetched (view_of S.Source source.old) (view_of S.Source source.new) }
    ensures text { IfOk result (λ text. HasText (S.content source.old) key.now (Some text.items)) }
    ensures cause { IfErr result (λ cause.
        FetchFailsFor key.now (view_of S.Source source.old) (view_of S.Source source.new) cause) }
{
    match source.fetch(alloc, key.url.bytes(), key.sig.bytes()) {
        Ok(Some(text)) => Ok(text),
        Ok(None) => Err(Cause::Missing),
        Err(FetchFault::Failed) => Err(Cause::Source),
        Err(FetchFault::Memory) => Err(Cause::Memory),
    }
}
