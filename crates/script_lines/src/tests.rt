// Scripts as a table, a text that is cut in many ways, random lines beside a plain splitter, and the limits.
ghost use Rattle.std.specs.Prelude.{◌≡◌, ◌<◌, Some, length};

use crate::{Command, ScriptFault, ScriptReader};
use bitmap_kind::{Config, Rule, Transform};
use cache_key::{EngineKey, LoadSpec, Priority, Strategy, Text};
use outside::{Failed, Input, MemoryInput};
use std::alloc::{AllocError, Global};
use std::test::Fail;

// A number below a limit, and the next state of Knuth's generator of MMIX.
fn random_below(state: &mut u64, limit: u64) -> u64
    requires { 0 < limit }
    ensures { result < limit }
{
    *state = state
        .wrapping_mul(6_364_136_223_846_793_005)
        .wrapping_add(1_442_695_040_888_963_407);
    (*state >> 33) % limit
}

fn add(out: &mut Vec<u8>, word: &[u8]) -> Result<(), AllocError> {
    out.push(b' ')?;
    out.extend_from_slice(word)
}

fn add_number(alloc: Global, out: &mut Vec<u8>, number: u64) -> Result<(), AllocError> {
    let digits = format!(in alloc; "{number}")?;
    add(out, digits.as_bytes())
}

fn transform_word(transform: Transform) -> &'static [u8] {
    match transform {
        Transform::Nothing => b"none",
        Transform::Fit => b"fit",
        Transform::Crop => b"crop",
        Transform::Inside => b"inside",
    }
}

fn config_word(config: Config) -> &'static [u8] {
    match config {
        Config::Argb8888 => b"argb",
        Config::Rgb565 => b"rgb565",
        Config::Alpha8 => b"alpha",
    }
}

fn priority_word(priority: Priority) -> &'static [u8] {
    match priority {
        Priority::Immediate => b"immediate",
        Priority::High => b"high",
        Priority::Normal => b"normal",
        Priority::Low => b"low",
    }
}

fn strategy_word(strategy: Strategy) -> &'static [u8] {
    match strategy {
        Strategy::All => b"all",
        Strategy::Source => b"data",
        Strategy::Results => b"resource",
        Strategy::Nowhere => b"nodisk",
        Strategy::Automatic => b"auto",
    }
}

fn add_further(out: &mut Vec<u8>, spec: &LoadSpec) -> Result<(), AllocError> {
    if spec.key.rule == Rule::AtMost {
        add(out, b"atmost")?;
    }
    add(out, priority_word(spec.priority))?;
    add(out, strategy_word(spec.strategy))?;
    if spec.skip {
        add(out, b"skip")?;
    }
    if spec.cached {
        add(out, b"cached")?;
    }
    Ok(())
}

fn add_key(alloc: Global, out: &mut Vec<u8>, key: &EngineKey) -> Result<(), AllocError> {
    add(out, key.url.bytes())?;
    add(out, key.sig.bytes())?;
    add_number(alloc, out, u64::from(key.width))?;
    add_number(alloc, out, u64::from(key.height))?;
    add(out, transform_word(key.transform))?;
    add(out, config_word(key.config))
}

fn add_load(
    alloc: Global,
    out: &mut Vec<u8>,
    view: &Text,
    spec: &LoadSpec,
    sized: bool,
) -> Result<(), AllocError> {
    add(out, if sized { b"load" } else { b"load-" })?;
    add(out, view.bytes())?;
    add_key(alloc, out, &spec.key)?;
    add_further(out, spec)
}

fn add_layout(
    alloc: Global,
    out: &mut Vec<u8>,
    view: &Text,
    size: (u32, u32),
) -> Result<(), AllocError> {
    add(out, b"layout")?;
    add(out, view.bytes())?;
    add_number(alloc, out, u64::from(size.0))?;
    add_number(alloc, out, u64::from(size.1))
}

fn add_view(out: &mut Vec<u8>, verb: &[u8], view: &Text) -> Result<(), AllocError> {
    add(out, verb)?;
    add(out, view.bytes())
}

fn add_command(alloc: Global, out: &mut Vec<u8>, command: &Command) -> Result<(), AllocError> {
    match command {
        Command::Load(view, spec, sized) => add_load(alloc, out, view, spec, *sized),
        Command::Layout(view, width, height) => add_layout(alloc, out, view, (*width, *height)),
        Command::Clear(view) => add_view(out, b"clear", view),
        Command::ClearAll => add(out, b"clearall"),
        Command::Pause => add(out, b"pause"),
        Command::PauseAll => add(out, b"pauseall"),
        Command::Resume => add(out, b"resume"),
        Command::Trim(level) => {
            add(out, b"trim")?;
            add_number(alloc, out, u64::from(*level))
        }
        Command::Wait => add(out, b"wait"),
        Command::Show => add(out, b"show"),
        Command::Dump(view) => add_view(out, b"dump", view),
    }
}

// All that a reader gives, command by command with the number of its line, and how it ends.
fn given<I: Input>(alloc: Global, input: &mut I) -> Result<Vec<u8>, Fail> {
    let mut reader = ScriptReader::new(alloc)?;
    let mut out = Vec::new(alloc);
    for _ in 0..1_048_577 {
        match reader.next(alloc, input) {
            Ok(Some(command)) => {
                add_number(alloc, &mut out, reader.line())?;
                add_command(alloc, &mut out, &command)?;
                add(&mut out, b"|")?;
            }
            Ok(None) => {
                add(&mut out, b"end")?;
                return Ok(out);
            }
            Err(ScriptFault::Bad(number)) => {
                add(&mut out, b"bad")?;
                add_number(alloc, &mut out, number)?;
                return Ok(out);
            }
            Err(ScriptFault::Input) => {
                add(&mut out, b"failed")?;
                return Ok(out);
            }
            Err(ScriptFault::Memory) => return Err(Fail::new("ample memory")),
        }
    }
    Err(Fail::new("an end"))
}

fn of_text(alloc: Global, text: &[u8]) -> Result<Vec<u8>, Fail> {
    let mut input = MemoryInput::new(text.to_vec(alloc)?, Vec::new(alloc));
    given(alloc, &mut input)
}

// Whether a text asks for these commands.
fn asks(alloc: Global, text: &[u8], commands: &[u8]) -> Result<bool, Fail> {
    Ok(of_text(alloc, text)?.as_slice() == commands)
}

#[test]
fn lines_that_say_nothing_count(rt: HostRuntime) -> Result<(), Fail> {
    let alloc = rt.alloc();
    assert!(rt; asks(alloc, b"", b" end")?);
    assert!(rt; asks(alloc, b"show", b" 1 show | end")?);
    assert!(rt; asks(alloc, b"\n  \r\n# a\nshow\r\n\n", b" 4 show | end")?);
    Ok(())
}

#[test]
fn loads_are_read(rt: HostRuntime) -> Result<(), Fail> {
    let alloc = rt.alloc();
    let text = b"load a red 1 2 1 none argb\ndump a\n";
    let commands = b" 1 load a red 1 2 1 none argb normal auto | 2 dump a | end";
    assert!(rt; asks(alloc, text, commands)?);
    Ok(())
}

#[test]
fn further_words_are_read(rt: HostRuntime) -> Result<(), Fail> {
    let alloc = rt.alloc();
    let text = b"load a.b x/y s - - inside alpha cached nodisk low skip atmost\n";
    let commands = b" 1 load- a.b x/y s 1 1 inside alpha atmost low nodisk skip cached | end";
    assert!(rt; asks(alloc, text, commands)?);
    Ok(())
}

#[test]
fn short_forms_are_read(rt: HostRuntime) -> Result<(), Fail> {
    let alloc = rt.alloc();
    assert!(rt;
        asks(
            alloc,
            b"pause\npauseall\nresume",
            b" 1 pause | 2 pauseall | 3 resume | end"
        )?
    );
    assert!(rt;
        asks(
            alloc,
            b"clearall\nwait\nclear a",
            b" 1 clearall | 2 wait | 3 clear a | end"
        )?
    );
    assert!(rt; asks(alloc, b" layout  a 16384 1 ", b" 1 layout a 16384 1 | end")?);
    assert!(rt;
        asks(
            alloc,
            b"trim 1000\ntrim 0",
            b" 1 trim 1000 | 2 trim 0 | end"
        )?
    );
    Ok(())
}

#[test]
fn bad_lines_are_told(rt: HostRuntime) -> Result<(), Fail> {
    let alloc = rt.alloc();
    assert!(rt; asks(alloc, b"show\nlayout a 16385 1\nshow", b" 1 show | bad 2")?);
    assert!(rt; asks(alloc, b"load a red 1 2 1 none argb high low", b" bad 1")?);
    assert!(rt; asks(alloc, b"\n\nshow a", b" bad 3")?);
    assert!(rt; asks(alloc, b"wait\n\tshow", b" 1 wait | bad 2")?);
    Ok(())
}

#[test]
fn failing_input_is_told(rt: HostRuntime) -> Result<(), Fail> {
    let alloc = rt.alloc();
    let text = b"show\nwait";
    let mut input = MemoryInput::new(text.to_vec(alloc)?, vec![in alloc; 1; 1]?);
    assert_eq!(rt;
        given(alloc, &mut input)?.as_slice(),
        b" 1 show | failed".as_slice()
    );
    Ok(())
}

// So many lines of 64 bytes, and behind them so many bytes of a comment.
fn long_script(alloc: Global, lines: usize, more: usize) -> Result<Vec<u8>, AllocError> {
    let mut line = vec![in alloc; b'#'; 63]?;
    line.push(b'\n')?;
    let mut text = Vec::new(alloc);
    for _ in 0..lines {
        text.extend_from_slice(&line)?;
    }
    for _ in 0..more {
        text.push(b'#')?;
    }
    Ok(text)
}

#[test]
fn scripts_have_at_most_so_many_bytes(rt: HostRuntime) -> Result<(), Fail> {
    let alloc = rt.alloc();
    assert!(rt; asks(alloc, &long_script(alloc, 16_384, 0)?, b" end")?);
    assert!(rt; asks(alloc, &long_script(alloc, 16_384, 1)?, b" bad 16385")?);
    assert!(rt; asks(alloc, &long_script(alloc, 16_383, 64)?, b" end")?);
    assert!(rt; asks(alloc, &long_script(alloc, 16_383, 65)?, b" bad 16384")?);
    Ok(())
}

// An input whose reads move few bytes, each time another number of them.
#[derive(Drop)]
struct Pieces {
    input: MemoryInput,
    state: u64,
}

impl Input for Pieces {
    ghost left = { λ s. Some s.input.left };

    ghost faults = { λ s. s.input.calls.faults };

    fn read(&mut self, into: &mut [u8]) -> Result<usize, Failed> {
        let most = 1 + random_below(&mut self.state, 60) as usize;
        let room = into.len().min(most);
        self.input.read(&mut into[..room])
    }
}

// Words of which random lines are made: verbs, names, numbers, and words of a load.
const WORDS: [&[u8]; 36] = [
    b"load",
    b"layout",
    b"clear",
    b"clearall",
    b"pause",
    b"pauseall",
    b"resume",
    b"trim",
    b"wait",
    b"show",
    b"dump",
    b"a",
    b"b-1",
    b"c.d_e",
    b"a/b",
    b"0123456789012345678901234567890123",
    b"0",
    b"1",
    b"16384",
    b"16385",
    b"007",
    b"1000",
    b"-",
    b"none",
    b"crop",
    b"argb",
    b"alpha",
    b"atleast",
    b"atmost",
    b"high",
    b"low",
    b"all",
    b"nodisk",
    b"skip",
    b"cached",
    b"soon",
];

// The words that a load mostly has, in their places.
const LOAD: [&[u8]; 8] = [b"load", b"a", b"red", b"1", b"2", b"1", b"crop", b"alpha"];

fn random_word(state: &mut u64) -> &'static [u8] {
    WORDS[random_below(state, 36) as usize]
}

fn add_spaces(line: &mut Vec<u8>, state: &mut u64) -> Result<(), AllocError> {
    if random_below(state, 8) == 0 {
        line.push(b' ')?;
    }
    Ok(())
}

// A line of random words, or a load of which a word in eight is a random one, and words behind it.
fn random_line(alloc: Global, state: &mut u64) -> Result<Vec<u8>, AllocError> {
    let mut line = Vec::new(alloc);
    let loads = random_below(state, 2) == 0;
    if loads {
        for word in LOAD {
            add_spaces(&mut line, state)?;
            if random_below(state, 24) == 0 {
                add(&mut line, random_word(state))?;
            } else {
                add(&mut line, word)?;
            }
        }
    }
    for _ in 0..random_below(state, 5) {
        add_spaces(&mut line, state)?;
        add(&mut line, random_word(state))?;
    }
    add_spaces(&mut line, state)?;
    match random_below(state, 30) {
        0 => line.push(b'\t')?,
        1 => line.insert(0, b'#')?,
        2 => line.push(b'\r')?,
        _ => {}
    }
    Ok(line)
}

// The words of a line, found byte by byte.
fn plain_words(alloc: Global, line: &[u8]) -> Result<Vec<Vec<u8>>, AllocError> {
    let mut words = Vec::new(alloc);
    let mut word = Vec::new(alloc);
    for byte in line {
        if *byte != b' ' {
            word.push(*byte)?;
        } else if !word.is_empty() {
            words.push(word)?;
            word = Vec::new(alloc);
        }
    }
    if !word.is_empty() {
        words.push(word)?;
    }
    Ok(words)
}

fn plain_name(word: &[u8]) -> bool {
    for byte in word {
        if !matches!(byte, b'a'..=b'z' | b'0'..=b'9' | b'_' | b'-' | b'.') {
            return false;
        }
    }
    word.len() <= 32
}

fn plain_number(word: &[u8], least: u64, most: u64) -> bool {
    let mut value = 0u64;
    for byte in word {
        if !byte.is_ascii_digit() {
            return false;
        }
        value = value
            .saturating_mul(10)
            .saturating_add(u64::from(*byte - b'0'));
    }
    (word.len() == 1 || word.first() != Some(&b'0')) && least <= value && value <= most
}

fn is_among(word: &[u8], words: &[&[u8]]) -> bool {
    for other in words {
        if word == *other {
            return true;
        }
    }
    false
}

// Of each kind one word at most, and no other word.
fn plain_further(words: &[Vec<u8>]) -> bool {
    let kinds: [&[&[u8]]; 5] = [
        &[b"atleast", b"atmost"],
        &[b"high", b"low"],
        &[b"all", b"nodisk"],
        &[b"skip"],
        &[b"cached"],
    ];
    let mut known = 0u64;
    for kind in kinds {
        let mut count = 0u64;
        for word in words {
            if is_among(word, kind) {
                count = count.saturating_add(1);
            }
        }
        if count > 1 {
            return false;
        }
        known = known.saturating_add(count);
    }
    known == words.len() as u64
}

fn plain_load(words: &[Vec<u8>]) -> bool {
    let [view, _, _, width, height, transform, config, further @ ..] = words else {
        return false;
    };
    let no_size = width.as_slice() == b"-".as_slice() && height.as_slice() == b"-".as_slice();
    let size = plain_number(width, 1, 16_384) && plain_number(height, 1, 16_384);
    plain_name(view)
        && (no_size || size)
        && is_among(transform, &[b"none", b"crop"])
        && is_among(config, &[b"argb", b"alpha"])
        && plain_further(further)
}

// Whether the words are a form of a line.
fn plain_form(words: &[Vec<u8>]) -> bool {
    match words {
        [] => true,
        [verb] => is_among(
            verb,
            &[
                b"clearall",
                b"pause",
                b"pauseall",
                b"resume",
                b"wait",
                b"show",
            ],
        ),
        [verb, word] if verb.as_slice() == b"trim".as_slice() => plain_number(word, 0, 1_000),
        [verb, word] => is_among(verb, &[b"clear", b"dump"]) && plain_name(word),
        [verb, view, width, height] => {
            verb.as_slice() == b"layout".as_slice()
                && plain_name(view)
                && plain_number(width, 1, 16_384)
                && plain_number(height, 1, 16_384)
        }
        [verb, rest @ ..] => verb.as_slice() == b"load".as_slice() && plain_load(rest),
    }
}

// What a reader gives of a line, by the plain splitter: each word of a command with a space before it, of a load the
// first six.
fn plain_given(alloc: Global, line: &[u8]) -> Result<Vec<u8>, AllocError> {
    let line = line.strip_suffix(b"\r".as_slice()).unwrap_or(line);
    let words = plain_words(alloc, line)?;
    let is_comment = matches!(words.first(), Some(word) if word.first() == Some(&b'#'));
    let mut out = Vec::new(alloc);
    if words.is_empty() || is_comment {
        add(&mut out, b"end")?;
    } else if line.contains(&b'\t') || !plain_form(&words) {
        add(&mut out, b"bad 1")?;
    } else {
        add(&mut out, b"1")?;
        for word in words.iter().take(6) {
            add(&mut out, word)?;
        }
    }
    Ok(out)
}

// Whether both read a random line in the same way.
fn same_line(alloc: Global, state: &mut u64) -> Result<bool, Fail> {
    let line = random_line(alloc, state)?;
    let given = of_text(alloc, &line)?;
    let plain = plain_given(alloc, &line)?;
    if given.starts_with(b" 1 load- ") {
        return Ok(plain.starts_with(b" 1 load "));
    }
    Ok(given.starts_with(&plain))
}

#[test]
fn random_lines_are_read_as_a_plain_splitter_does(rt: HostRuntime) -> Result<(), Fail> {
    let mut state = 2_026;
    for _ in 0..10_000 {
        assert!(rt; same_line(rt.alloc(), &mut state)?);
    }
    Ok(())
}

// Lines that are good, until one is bad.
fn random_text(alloc: Global, state: &mut u64) -> Result<Vec<u8>, Fail> {
    let mut text = Vec::new(alloc);
    for _ in 0..300 {
        let line = random_line(alloc, state)?;
        let words = plain_words(alloc, &line)?;
        if plain_form(&words) || random_below(state, 100) == 0 {
            text.extend_from_slice(&line)?;
            text.push(b'\n')?;
        }
    }
    Ok(text)
}

// Whether a text that is cut at random is read as the whole one.
fn same_cut(alloc: Global, state: &mut u64) -> Result<bool, Fail> {
    let text = random_text(alloc, state)?;
    let whole = of_text(alloc, &text)?;
    let mut pieces = Pieces {
        input: MemoryInput::new(text, Vec::new(alloc)),
        state: *state,
    };
    Ok(given(alloc, &mut pieces)? == whole)
}

#[test]
fn a_text_is_read_the_same_in_all_pieces(rt: HostRuntime) -> Result<(), Fail> {
    let mut state = 7;
    for _ in 0..100 {
        assert!(rt; same_cut(rt.alloc(), &mut state)?);
    }
    Ok(())
}
