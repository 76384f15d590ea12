// The words of a line.
ghost use Rattle.std.specs.Prelude.{◌≡◌, ◌≤◌, ◌<◌, not, ◌==◌, map, IfOk, IfSome, length};
ghost use Rattle.std.specs.List.{filter, slice_split, list_all};
ghost use Rattle.std.specs.Char.{is_ascii_digit};
ghost use Rattle.cache_key.specs.Size.{IsSize};
ghost use Rattle.script_lines.specs.Limits.{level_limit};
ghost use Rattle.script_lines.specs.Words.{words, is_name_byte, is_name, is_whole, number_within, side, sides, level, transform_named, config_named};

use bitmap_kind::{Config, Transform};
use decimal::value_of;
use std::alloc::{AllocError, Global};

/// The parts of a line between spaces.
pub fn words_of<'a>(alloc: Global, line: &'a [u8]) -> Result<Vec<&'a [u8]>, AllocError>
    ensures { IfOk result (λ v. map (λ w. w.now) v.items ≡ words line.now) }
{
    line.split(|b| *b == b' ')
        .filter(|word| !word.is_empty())
        .collect(alloc)
}

fn is_name_byte(b: u8) -> bool
    ensures { result ≡ is_name_byte b }
{
    b.is_ascii_alphanumeric() || b == b'_' || b == b'-' || b == b'.'
}

fn are_name_bytes(word: &[u8]) -> bool
    ensures { result ≡ list_all is_name_byte word.now }
{
    word.iter().all(|b| is_name_byte(*b))
}

/// Whether a word is the name of a view.
pub fn is_name(word: &[u8]) -> bool
    ensures { result ≡ is_name word.now }
{
    if word.is_empty() {
        return false;
    }
    if word.len() > 32 {
        return false;
    }
    are_name_bytes(word)
}

fn are_digits(word: &[u8]) -> bool
    ensures { result ≡ list_all is_ascii_digit word.now }
{
    word.iter().all(|b| b.is_ascii_digit())
}

/// Whether a word spells a whole number: digits without a leading zero, or `0`.
pub fn is_whole(word: &[u8]) -> bool
    ensures { result ≡ is_whole word.now }
{
    if word.is_empty() {
        return false;
    }
    if !are_digits(word) {
        return false;
    }
    if word.len() == 1 {
        return true;
    }
    word[0] != b'0'
}

// The whole number that a word spells, if it lies between these two.
fn number_within(least: u32, most: u32, word: &[u8]) -> Option<u32>
    ensures number { result ≡ number_within least most word.now }
    ensures least { IfSome result (λ number. least ≤ number) }
    ensures most { IfSome result (λ number. number ≤ most) }
{
    if !is_whole(word) {
        return None;
    }
    let value = value_of(word)?;
    if value < least {
        return None;
    }
    if value > most {
        return None;
    }
    Some(value)
}

/// A wanted side in pixels, 1 to 16,384.
pub fn side(word: &[u8]) -> Option<u32>
    ensures side { result ≡ side word.now }
    ensures least { IfSome result (λ number. 1 ≤ number) }
    ensures most { IfSome result (λ number. number ≤ 16384) }
{
    number_within(1, 16_384, word)
}

/// A wanted width and height.
pub fn sides(width: &[u8], height: &[u8]) -> Option<(u32, u32)>
    ensures sides { result ≡ sides width.now height.now }
    ensures size { IfSome result IsSize }
{
    let width = side(width)?;
    let height = side(height)?;
    Some((width, height))
}

/// A level of a trim, 0 to 1,000.
pub fn level(word: &[u8]) -> Option<u32>
    ensures level { result ≡ level word.now }
    ensures most { IfSome result (λ number. number ≤ level_limit) }
{
    number_within(0, 1_000, word)
}

/// The transformation that a word names.
pub fn transform_named(word: &[u8]) -> Option<Transform>
    ensures { result ≡ transform_named word.now }
{
    if word == b"none".as_slice() {
        return Some(Transform::Nothing);
    }
    if word == b"fit".as_slice() {
        return Some(Transform::Fit);
    }
    if word == b"crop".as_slice() {
        return Some(Transform::Crop);
    }
    if word == b"inside".as_slice() {
        return Some(Transform::Inside);
    }
    None
}

/// The config that a word names.
pub fn config_named(word: &[u8]) -> Option<Config>
    ensures { result ≡ config_named word.now }
{
    if word == b"argb".as_slice() {
        return Some(Config::Argb8888);
    }
    if word == b"rgb565".as_slice() {
        return Some(Config::Rgb565);
    }
    if word == b"alpha".as_slice() {
        return Some(Config::Alpha8);
    }
    None
}
