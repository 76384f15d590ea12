// The further words of a load.
ghost use Rattle.std.specs.Prelude.{◌≡◌, map, Some, None};
ghost use Rattle.std.specs.Option.{option_map};
ghost use Rattle.script_lines.specs.Settings.{rule_named, priority_named, strategy_named, further_named, no_settings, and_said, settings_of};

use bitmap_kind::Rule;
use cache_key::{Priority, Strategy};

/// What one further word of a load says.
#[derive(Clone, Copy, Debug, PartialEq, Eq)]
pub enum Further {
    Rule(Rule),
    Priority(Priority),
    Strategy(Strategy),
    Skip,
    Cached,
}

/// What the further words of a load say: of each kind nothing, or one thing.
#[derive(Clone, Copy, Debug, PartialEq, Eq)]
pub struct Settings {
    pub rule: Option<Rule>,
    pub priority: Option<Priority>,
    pub strategy: Option<Strategy>,
    pub skip: bool,
    pub cached: bool,
}

fn rule_named(word: &[u8]) -> Option<Rule>
    ensures { result ≡ rule_named word.now }
{
    if word == b"atleast".as_slice() {
        return Some(Rule::AtLeast);
    }
    if word == b"atmost".as_slice() {
        return Some(Rule::AtMost);
    }
    None
}

fn priority_named(word: &[u8]) -> Option<Priority>
    ensures { result ≡ priority_named word.now }
{
    if word == b"immediate".as_slice() {
        return Some(Priority::Immediate);
    }
    if word == b"high".as_slice() {
        return Some(Priority::High);
    }
    if word == b"normal".as_slice() {
        return Some(Priority::Normal);
    }
    if word == b"low".as_slice() {
        return Some(Priority::Low);
    }
    None
}

fn strategy_named(word: &[u8]) -> Option<Strategy>
    ensures { result ≡ strategy_named word.now }
{
    if word == b"all".as_slice() {
        return Some(Strategy::All);
    }
    if word == b"data".as_slice() {
        return Some(Strategy::Source);
    }
    if word == b"resource".as_slice() {
        return Some(Strategy::Results);
    }
    if word == b"nodisk".as_slice() {
        return Some(Strategy::Nowhere);
    }
    if word == b"auto".as_slice() {
        return Some(Strategy::Automatic);
    }
    None
}

impl Further {
    // What a word says.
    fn named(word: &[u8]) -> Option<Further>
        ensures { result ≡ further_named word.now }
    {
        if word == b"skip".as_slice() {
            return Some(Further::Skip);
        }
        if word == b"cached".as_slice() {
            return Some(Further::Cached);
        }
        if let Some(rule) = rule_named(word) {
            return Some(Further::Rule(rule));
        }
        if let Some(priority) = priority_named(word) {
            return Some(Further::Priority(priority));
        }
        Some(Further::Strategy(strategy_named(word)?))
    }
}

impl Settings {
    // One thing more, if nothing of its kind was said.
    fn and(self, said: Further) -> Option<Settings>
        ensures { result ≡ and_said self said }
    {
        match said {
            Further::Rule(rule) if self.rule.is_none() => Some(Settings {
                rule: Some(rule),
                ..self
            }),
            Further::Priority(priority) if self.priority.is_none() => Some(Settings {
                priority: Some(priority),
                ..self
            }),
            Further::Strategy(strategy) if self.strategy.is_none() => Some(Settings {
                strategy: Some(strategy),
                ..self
            }),
            Further::Skip if !self.skip => Some(Settings { skip: true, ..self }),
            Further::Cached if !self.cached => Some(Settings {
                cached: true,
                ..self
            }),
            _ => None,
        }
    }

    /// What the words say.
    pub fn of_words(words: &[&[u8]]) -> Option<Settings>
        ensures { result ≡ settings_of (map (λ w. w.now) words.now) }
    {
        let mut settings = Settings {
            rule: None,
            priority: None,
            strategy: None,
            skip: false,
            cached: false,
        };
        for word in words {
            settings = settings.and(Further::named(word)?)?;
        }
        Some(settings)
    }
}
