// Obeys the script on standard input, with the pictures of the folder `images`, and writes what the views
// show to standard output.
#![tactic(auto)]

ghost use Rattle.std.specs.Prelude.{◌≡◌, ◌≤◌, map, Err, None, IfOk};
ghost use Rattle.std.specs.String.{string_bytes};
ghost use Rattle.glide_run.specs.Settings.{settings};
ghost use Rattle.glide_run.specs.Promise.{IsOrStops};

use glide_run::glide_alone;
use outside::{FolderSource, RealInput, RealSink};
use std::alloc::{AllocError, Global};
use std::env;
use std::io::ErrorKind;
use std::process::ExitCode;

// Why the words of the command line are not there.
#[derive(Clone, Copy, Debug, PartialEq, Eq)]
enum WordsFault {
    Memory,
    // They are in no readable form.
    Unreadable,
}

// The status of a run with these words.
fn run(rt: &HostRuntime, words: &[&str]) -> u8
    ensures known { result ≤ 6 }
    ensures refused { settings (map (λ word. word.now) words.now) ≡ None → IsOrStops 2 result }
{
    let mut input = RealInput::new(rt);
    let mut out = RealSink::new(rt);
    let mut source = FolderSource::new(rt, "images");
    glide_alone(rt.alloc(), words, &mut input, &mut out, &mut source, ()).status
}

// The words as texts.
fn texts<'a>(alloc: Global, words: &'a [String]) -> Result<Vec<&'a str>, AllocError>
    ensures { IfOk result (λ texts. map (λ text. text.now) texts.items ≡ map string_bytes words.now) }
{
    let mut texts = Vec::new(alloc);
    for at in 0..words.len() {
        texts.push(words[at].as_str())?;
    }
    Ok(texts)
}

// The same with words of their own memory.
fn run_words(rt: &HostRuntime, words: &[String]) -> u8
    ensures known { result ≤ 6 }
    ensures refused { settings (map string_bytes words.now) ≡ None → IsOrStops 2 result }
{
    match texts(rt.alloc(), words) {
        Ok(texts) => run(rt, &texts),
        Err(_) => 4,
    }
}

// The same, or the status where the words are not there. Words that cannot be read stand for one that is
// refused.
fn status_of(rt: &HostRuntime, words: Result<Vec<String>, WordsFault>) -> u8
    ensures known { result ≤ 6 }
    ensures refused { IfOk words (λ words.
        settings (map string_bytes words.items) ≡ None → IsOrStops 2 result) }
    ensures unreadable { words ≡ Err WordsFault.Unreadable → IsOrStops 2 result }
    ensures memory { words ≡ Err WordsFault.Memory → result ≡ 4 }
{
    match words {
        Ok(words) => run_words(rt, &words),
        Err(WordsFault::Unreadable) => run(rt, &[""]),
        Err(WordsFault::Memory) => 4,
    }
}

// The words of the command line, after the program's name.
fn command_line(rt: &HostRuntime) -> Result<Vec<String>, WordsFault> {
    match env::args(rt) {
        Ok(args) => match args.skip(1).collect(rt.alloc()) {
            Ok(words) => Ok(words),
            Err(_) => Err(WordsFault::Memory),
        },
        Err(error) if error.kind() == ErrorKind::OutOfMemory => Err(WordsFault::Memory),
        Err(_) => Err(WordsFault::Unreadable),
    }
}

fn main(rt: HostRuntime) -> ExitCode {
    ExitCode::from(status_of(&rt, command_line(&rt)))
}
