// What the words behind the program's name ask for.
ghost use Rattle.std.specs.Prelude.{◌≡◌, not, ◌==◌, ◌&&◌, map, length};
ghost use Rattle.glide_run.specs.Settings.{size, with_pool, with_memory, with_stats, and_size, filled, settings};

use script_lines::is_whole;

/// What the words ask for.
#[derive(Clone, Copy, Debug, PartialEq, Eq)]
pub struct Settings {
    /// The greatest size of the pool of bitmaps, in bytes.
    pub pool: u64,
    /// The greatest size of the memory cache, in bytes.
    pub memory: u64,
    /// Whether the engine's totals are printed at the end.
    pub stats: bool,
}

/// What was said so far, of each kind at most once.
#[derive(Clone, Copy, Debug, PartialEq, Eq)]
pub struct Said {
    pub pool: Option<u64>,
    pub memory: Option<u64>,
    pub stats: bool,
}

// The size in bytes that a word spells.
fn size(word: &str) -> Option<u64>
    ensures { result ≡ size word.now }
{
    if !is_whole(word.as_bytes()) {
        return None;
    }
    let Ok(value) = word.parse::<u64>() else {
        return None;
    };
    if value > 4_294_967_296 {
        return None;
    }
    Some(value)
}

impl Said {
    // The greatest size of the pool, if it was not said.
    fn with_pool(self, bytes: u64) -> Option<Said>
        ensures { result ≡ with_pool self bytes }
    {
        if self.pool.is_some() {
            return None;
        }
        Some(Said {
            pool: Some(bytes),
            ..self
        })
    }

    // The greatest size of the memory cache, if it was not said.
    fn with_memory(self, bytes: u64) -> Option<Said>
        ensures { result ≡ with_memory self bytes }
    {
        if self.memory.is_some() {
            return None;
        }
        Some(Said {
            memory: Some(bytes),
            ..self
        })
    }

    // That the totals are printed, if it was not said.
    fn with_stats(self) -> Option<Said>
        ensures { result ≡ with_stats self }
    {
        if self.stats {
            return None;
        }
        Some(Said {
            stats: true,
            ..self
        })
    }

    // What a word says with the number behind it.
    fn and_size(self, word: &str, number: &str) -> Option<Said>
        ensures { result ≡ and_size self word.now number.now }
    {
        if word == "--pool" {
            return self.with_pool(size(number)?);
        }
        if word == "--memory" {
            return self.with_memory(size(number)?);
        }
        None
    }

    // The settings, with what is not said as it is by default.
    fn filled(self) -> Settings
        ensures { result ≡ filled self }
    {
        Settings {
            pool: self.pool.unwrap_or(67_108_864),
            memory: self.memory.unwrap_or(33_554_432),
            stats: self.stats,
        }
    }
}

impl Settings {
    /// The settings of these words. None comes exactly where they are refused.
    pub fn of_words(words: &[&str]) -> Option<Settings>
        ensures { result ≡ settings (map (λ word. word.now) words.now) }
    {
        let mut said = Said {
            pool: None,
            memory: None,
            stats: false,
        };
        let mut at = 0;
        while at < words.len() {
            let word = words[at];
            if word == "--stats" {
                said = said.with_stats()?;
                at += 1;
            } else {
                let number = *words.get(at + 1)?;
                said = said.and_size(word, number)?;
                at += 2;
            }
        }
        Some(said.filled())
    }
}
