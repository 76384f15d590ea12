// The line of the engine's totals.
ghost use Rattle.std.specs.Prelude.{◌≡◌, ◌++◌, IfOk, OnOk, map};
ghost use Rattle.glide_run.specs.Stats.{stats_pairs, pair_text, stats_text};

use engine_world::Totals;
use std::alloc::{AllocError, Global};

/// What the last line of a run tells of its engine and of its source.
#[derive(Clone, Copy, Debug, PartialEq, Eq)]
pub struct Stats {
    /// How often, and how many, after all views were cleared.
    pub totals: Totals,
    /// How many fetches there were in the run.
    pub fetches: u64,
}

// Adds a word and its number to a line.
fn add_pair(alloc: Global, text: &mut Vec<u8>, word: &str, number: u64) -> Result<(), AllocError>
    ensures { OnOk result (text.new.items ≡ text.old.items ++ pair_text (word.now, number)) }
{
    let pair = format!(in alloc; " {word} {number}")?;
    text.extend_from_slice(pair.as_bytes())
}

impl Stats {
    // Each number with its word, in the order of the line.
    fn pairs(&self) -> [(&'static str, u64); 14]
        ensures { map (λ pair. (pair.0.now, pair.1)) result ≡ stats_pairs self.now }
    {
        let totals = &self.totals;
        [
            ("loads", totals.loads),
            ("active", totals.active),
            ("memory", totals.memory),
            ("joined", totals.joined),
            ("started", totals.started),
            ("takes", totals.takes),
            ("reused", totals.reused),
            ("made", totals.made),
            ("decoding", totals.decoding),
            ("held", totals.held),
            ("cached", totals.cached),
            ("pooled", totals.pooled),
            ("recycled", totals.recycled),
            ("fetches", self.fetches),
        ]
    }

    /// The line that tells it, with its line feed.
    pub fn text(&self, alloc: Global) -> Result<Vec<u8>, AllocError>
        ensures { IfOk result (λ text. text.items ≡ stats_text self.now) }
    {
        let mut text = Vec::new(alloc);
        text.extend_from_slice(b"stats")?;
        for (word, number) in self.pairs() {
            add_pair(alloc, &mut text, word, number)?;
        }
        text.push(b'\n')?;
        Ok(text)
    }
}
