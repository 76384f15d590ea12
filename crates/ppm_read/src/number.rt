// White space, comments and numbers at the beginning of a text.
ghost use Rattle.std.specs.Prelude.{◌||◌, ◌≡◌, ◌<◌, ◌≤◌, ◌^◌, ◌*◌, ◌+◌, ◌-◌, length, drop, IfOk};
ghost use Rattle.std.specs.List.{prefix_len};
ghost use Rattle.picture_rows.specs.Reading.{Gives};
ghost use Rattle.ppm_read.specs.Number.{is_white, is_line_end, begins_comment, is_digit, rest_after, after_gap, missing_at, begins_with, gap_at, is_cut, number_at};

use crate::fault::PpmFault;
use decimal::leading_digits;

pub(crate) fn is_white(byte: u8) -> bool
    ensures { result ≡ is_white byte }
{
    matches!(byte, b'\t' | b'\n' | b'\r' | b' ')
}

fn is_line_end(byte: u8) -> bool
    ensures { result ≡ is_line_end byte }
{
    matches!(byte, b'\n' | b'\r')
}

fn begins_comment(byte: u8) -> bool
    ensures { result ≡ begins_comment byte }
{
    byte == b'#'
}

// How many white bytes the text begins with.
#[inline(always)]
fn white_count(text: &[u8]) -> usize
    ensures count { result ≡ prefix_len is_white text.now }
    ensures bound { result ≤ length text.now }
{
    text.iter().take_while(|byte| is_white(**byte)).count()
}

// The text after the white bytes that it begins with.
pub(crate) fn after_white(text: &[u8]) -> &[u8]
    ensures { result.now ≡ rest_after is_white text.now }
{
    let (_, rest) = text.split_at(white_count(text));
    rest
}

// How many bytes the white space and the comments have that the text begins with.
fn gap_length(text: &[u8]) -> usize
    ensures after { drop result text.now ≡ after_gap text.now }
    ensures bound { result ≤ length text.now }
{
    let mut in_comment = false;
    for (at, byte) in text.iter().enumerate() {
        if in_comment {
            in_comment = !is_line_end(*byte);
        } else if begins_comment(*byte) {
            in_comment = true;
        } else if !is_white(*byte) {
            return at;
        }
    }
    text.len()
}

// What is wrong where a byte that has to come does not.
pub(crate) fn missing(text: &[u8]) -> PpmFault
    ensures { result ≡ missing_at text.now }
{
    match text {
        [] => PpmFault::Truncated,
        _ => PpmFault::BadNumber,
    }
}

fn begins_gap(text: &[u8]) -> bool
    ensures { result ≡ begins_with (λ c. is_white c || begins_comment c) text.now }
{
    match text {
        [] => false,
        [first, ..] => is_white(*first) || begins_comment(*first),
    }
}

pub(crate) fn begins_white(text: &[u8]) -> bool
    ensures { result ≡ begins_with is_white text.now }
{
    match text {
        [] => false,
        [first, ..] => is_white(*first),
    }
}

// The text after a gap, which is white space and comments, some at least.
pub(crate) fn after_gap(text: &[u8]) -> Result<&[u8], PpmFault>
    ensures read { Gives (λ rest. rest.now) result (gap_at text.now) }
    ensures within { IfOk result (λ rest. length rest.now ≤ length text.now) }
{
    if !begins_gap(text) {
        return Err(missing(text));
    }
    let (_, rest) = text.split_at(gap_length(text));
    Ok(rest)
}

// Whether a number is cut, since the text ends with it.
fn is_cut(may_end: bool, rest: &[u8]) -> bool
    ensures { result ≡ is_cut may_end rest.now }
{
    rest.is_empty() && !may_end
}

// A number, which is all digits that come, and the text after it. With `may_end` it is whole also
// where it ends with the text.
#[inline(always)]
#[tactic(auto, unfolding(crate::specs::Number::number_at))]
pub(crate) fn number(text: &[u8], may_end: bool) -> Result<(u32, &[u8]), PpmFault>
    ensures read { Gives (λ found. (found.0, found.1.now)) result (number_at may_end text.now) }
    ensures within { IfOk result (λ found. length found.1.now ≤ length text.now) }
{
    let digits = leading_digits(text);
    if digits.count == 0 {
        return Err(missing(text));
    }
    let (_, rest) = text.split_at(digits.count);
    if is_cut(may_end, rest) {
        return Err(PpmFault::Truncated);
    }
    if digits.value >= 1 << 32 {
        return Err(PpmFault::BadNumber);
    }
    Ok((digits.value as u32, rest))
}
