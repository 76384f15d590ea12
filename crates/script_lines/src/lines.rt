// What a line says.
ghost use Rattle.std.specs.Prelude.{◌≡◌, ◌≤◌, map, true, IfOk, IfSome, length};
ghost use Rattle.std.specs.List.{list_all};
ghost use Rattle.cache_key.specs.Size.{IsSize};
ghost use Rattle.script_lines.specs.Words.{is_url, is_sig};
ghost use Rattle.script_lines.specs.Commands.{wanted_of, asked_of, spec_of, are_texts, load_of, layout_of, view_of, trim_of, bare_command, bare_of, command_of, words_line, is_comment, is_line_byte, trimmed, trimmed_line, line_of};

use crate::commands::{Command, Line};
use crate::settings::Settings;
use crate::words::{config_named, is_name, level, sides, transform_named, words_of};
use bitmap_kind::{Config, Rule, Transform};
use cache_key::{EngineKey, LoadSpec, Priority, Strategy, Text};
use faults::NoMemory;
use std::alloc::Global;

/// The size that a load names, in pixels. Where it names none, both sides are 1.
#[derive(Clone, Copy)]
pub struct Wanted {
    pub width: u32,
    pub height: u32,
    pub sized: bool,
}

/// What a load asks for besides its texts.
#[derive(Clone, Copy)]
pub struct Asked {
    pub wanted: Wanted,
    pub transform: Transform,
    pub config: Config,
    pub settings: Settings,
}

fn wanted_of(width: &[u8], height: &[u8]) -> Option<Wanted>
    ensures wanted { result ≡ wanted_of width.now height.now }
    ensures size { IfSome result (λ wanted. IsSize (wanted.width, wanted.height)) }
{
    if width == b"-".as_slice() && height == b"-".as_slice() {
        return Some(Wanted {
            width: 1,
            height: 1,
            sized: false,
        });
    }
    let (width, height) = sides(width, height)?;
    Some(Wanted {
        width,
        height,
        sized: true,
    })
}

fn asked_of(
    width: &[u8],
    height: &[u8],
    transform: &[u8],
    config: &[u8],
    further: &[&[u8]],
) -> Option<Asked>
    ensures asked { result ≡
        asked_of width.now height.now transform.now config.now (map (λ w. w.now) further.now) }
    ensures size { IfSome result (λ asked. IsSize (asked.wanted.width, asked.wanted.height)) }
{
    let wanted = wanted_of(width, height)?;
    let transform = transform_named(transform)?;
    let config = config_named(config)?;
    let settings = Settings::of_words(further)?;
    Some(Asked {
        wanted,
        transform,
        config,
        settings,
    })
}

// What a load of this url and signature asks for.
fn spec_of(alloc: Global, url: &[u8], sig: &[u8], asked: Asked) -> Result<LoadSpec, NoMemory>
    requires url { is_url url.now ≡ true }
    requires sig { is_sig sig.now ≡ true }
    requires size { IsSize (asked.wanted.width, asked.wanted.height) }
    ensures { IfOk result (λ spec. spec ≡ spec_of url.now sig.now asked) }
{
    let settings = asked.settings;
    let key = EngineKey {
        url: Text::new(alloc, url)?,
        sig: Text::new(alloc, sig)?,
        width: asked.wanted.width,
        height: asked.wanted.height,
        transform: asked.transform,
        config: asked.config,
        rule: settings.rule.unwrap_or(Rule::AtLeast),
    };
    Ok(LoadSpec {
        key,
        strategy: settings.strategy.unwrap_or(Strategy::Automatic),
        priority: settings.priority.unwrap_or(Priority::Normal),
        skip: settings.skip,
        cached: settings.cached,
    })
}

fn are_texts(view: &[u8], url: &[u8], sig: &[u8]) -> bool
    ensures { result ≡ are_texts view.now url.now sig.now }
{
    if !is_name(view) {
        return false;
    }
    if url.len() > 1_024 {
        return false;
    }
    sig.len() <= 64
}

fn load_of(alloc: Global, words: &[&[u8]]) -> Result<Option<Command>, NoMemory>
    ensures { IfOk result (λ command. command ≡ load_of (map (λ w. w.now) words.now)) }
{
    let [
        view,
        url,
        sig,
        width,
        height,
        transform,
        config,
        further @ ..,
    ] = words
    else {
        return Ok(None);
    };
    if !are_texts(view, url, sig) {
        return Ok(None);
    }
    let Some(asked) = asked_of(width, height, transform, config, further) else {
        return Ok(None);
    };
    let view = Text::new(alloc, view)?;
    let spec = spec_of(alloc, url, sig, asked)?;
    Ok(Some(Command::Load(view, spec, asked.wanted.sized)))
}

fn layout_of(alloc: Global, words: &[&[u8]]) -> Result<Option<Command>, NoMemory>
    ensures { IfOk result (λ command. command ≡ layout_of (map (λ w. w.now) words.now)) }
{
    let [view, width, height] = words else {
        return Ok(None);
    };
    if !is_name(view) {
        return Ok(None);
    }
    let Some((width, height)) = sides(width, height) else {
        return Ok(None);
    };
    Ok(Some(Command::Layout(Text::new(alloc, view)?, width, height)))
}

// The name of a view that stands alone.
fn view_of(alloc: Global, words: &[&[u8]]) -> Result<Option<Text>, NoMemory>
    ensures { IfOk result (λ view. view ≡ view_of (map (λ w. w.now) words.now)) }
{
    let [view] = words else {
        return Ok(None);
    };
    if !is_name(view) {
        return Ok(None);
    }
    Ok(Some(Text::new(alloc, view)?))
}

fn trim_of(words: &[&[u8]]) -> Option<Command>
    ensures { result ≡ trim_of (map (λ w. w.now) words.now) }
{
    let [word] = words else {
        return None;
    };
    Some(Command::Trim(level(word)?))
}

// What a verb asks for that has no word behind it.
fn bare_command(verb: &[u8]) -> Option<Command>
    ensures { result ≡ bare_command verb.now }
{
    if verb == b"clearall".as_slice() {
        return Some(Command::ClearAll);
    }
    if verb == b"pause".as_slice() {
        return Some(Command::Pause);
    }
    if verb == b"pauseall".as_slice() {
        return Some(Command::PauseAll);
    }
    if verb == b"resume".as_slice() {
        return Some(Command::Resume);
    }
    if verb == b"wait".as_slice() {
        return Some(Command::Wait);
    }
    if verb == b"show".as_slice() {
        return Some(Command::Show);
    }
    None
}

fn bare_of(verb: &[u8], words: &[&[u8]]) -> Option<Command>
    ensures { result ≡ bare_of verb.now (map (λ w. w.now) words.now) }
{
    if words.is_empty() {
        bare_command(verb)
    } else {
        None
    }
}

// What a verb asks for with the words behind it.
fn command_of(alloc: Global, verb: &[u8], words: &[&[u8]]) -> Result<Option<Command>, NoMemory>
    ensures { IfOk result (λ command. command ≡ command_of verb.now (map (λ w. w.now) words.now)) }
{
    if verb == b"load".as_slice() {
        return load_of(alloc, words);
    }
    if verb == b"layout".as_slice() {
        return layout_of(alloc, words);
    }
    if verb == b"clear".as_slice() {
        return Ok(view_of(alloc, words)?.map(Command::Clear));
    }
    if verb == b"dump".as_slice() {
        return Ok(view_of(alloc, words)?.map(Command::Dump));
    }
    if verb == b"trim".as_slice() {
        return Ok(trim_of(words));
    }
    Ok(bare_of(verb, words))
}

fn words_line(alloc: Global, words: &[&[u8]]) -> Result<Line, NoMemory>
    ensures { IfOk result (λ line. line ≡ words_line (map (λ w. w.now) words.now)) }
{
    let [verb, words @ ..] = words else {
        return Ok(Line::Empty);
    };
    match command_of(alloc, verb, words)? {
        Some(command) => Ok(Line::Says(command)),
        None => Ok(Line::Unreadable),
    }
}

fn is_comment(words: &[&[u8]]) -> bool
    ensures { result ≡ is_comment (map (λ w. w.now) words.now) }
{
    match words {
        [word, ..] => word.first() == Some(&b'#'),
        [] => false,
    }
}

fn is_line_byte(b: u8) -> bool
    ensures { result ≡ is_line_byte b }
{
    32 <= b && b <= 126
}

fn are_line_bytes(line: &[u8]) -> bool
    ensures { result ≡ list_all is_line_byte line.now }
{
    line.iter().all(|b| is_line_byte(*b))
}

// The line without one carriage return at its end.
fn trimmed(line: &[u8]) -> &[u8]
    ensures { result.now ≡ trimmed line.now }
{
    match line.strip_suffix(b"\r".as_slice()) {
        Some(front) => front,
        None => line,
    }
}

fn trimmed_line(alloc: Global, line: &[u8]) -> Result<Line, NoMemory>
    ensures { IfOk result (λ said. said ≡ trimmed_line line.now) }
{
    if line.len() > 2048 {
        return Ok(Line::Unreadable);
    }
    let words = words_of(alloc, line)?;
    if is_comment(&words) {
        return Ok(Line::Empty);
    }
    if !are_line_bytes(line) {
        return Ok(Line::Unreadable);
    }
    words_line(alloc, &words)
}

/// What a line says, without its line feed.
pub fn line_of(alloc: Global, line: &[u8]) -> Result<Line, NoMemory>
    ensures { IfOk result (λ said. said ≡ line_of line.now) }
{
    trimmed_line(alloc, trimmed(line))
}
