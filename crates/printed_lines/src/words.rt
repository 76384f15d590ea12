// What a line says of a view that shows no picture.
ghost use Rattle.std.specs.Prelude.{◌≡◌, ℕ, List, ◌++◌, IfOk, codes};
ghost use Rattle.std.specs.Fmt.{decimal};
ghost use Rattle.printed_lines.specs.Printed.{ppm_text, bmp_text, refusal_text, cause_text, config_word, plain_line, line_words};

use bitmap_kind::Config;
use bmp_read::BmpFault;
use image_format::Refusal;
use load_cause::Cause;
use ppm_read::PpmFault;
use std::alloc::{AllocError, Global};

/// The state of a view that shows no picture.
#[derive(Clone, Copy, Debug, PartialEq, Eq)]
pub enum PlainState {
    /// Its load failed.
    Failed(Cause),
    /// It has no size yet.
    Waiting,
    Paused,
    Cleared,
}

// What a line says of a view whose text is refused by the Netpbm reader.
fn ppm_words(fault: PpmFault) -> &'static [u8]
    ensures { result.now ≡ codes "failed refused " ++ ppm_text fault }
{
    match fault {
        PpmFault::BadMagic => b"failed refused unknown",
        PpmFault::BadNumber => b"failed refused bad-number",
        PpmFault::BadSize => b"failed refused bad-size",
        PpmFault::BadMaximum => b"failed refused bad-maximum",
        PpmFault::SampleAbove => b"failed refused sample-above",
        PpmFault::Truncated => b"failed refused truncated",
    }
}

fn compressed_words(alloc: Global, number: u32) -> Result<Vec<u8>, AllocError>
    ensures { IfOk result (λ words. words.items ≡ codes "failed refused compressed " ++ decimal number) }
{
    let text = format!(in alloc; "failed refused compressed {number}")?;
    Ok(text.into_bytes())
}

// What a line says of a view whose text is refused by the reader of Windows bitmaps.
fn bmp_words(alloc: Global, fault: BmpFault) -> Result<Vec<u8>, AllocError>
    ensures { IfOk result (λ words. words.items ≡ codes "failed refused " ++ bmp_text fault) }
{
    match fault {
        BmpFault::BadMagic => b"failed refused unknown".to_vec(alloc),
        BmpFault::BadHeader => b"failed refused bad-header".to_vec(alloc),
        BmpFault::BadSize => b"failed refused bad-size".to_vec(alloc),
        BmpFault::Compressed(number) => compressed_words(alloc, number),
        BmpFault::BadDepth => b"failed refused bad-depth".to_vec(alloc),
        BmpFault::BadMasks => b"failed refused bad-masks".to_vec(alloc),
        BmpFault::Truncated => b"failed refused truncated".to_vec(alloc),
    }
}

fn refusal_words(alloc: Global, refusal: Refusal) -> Result<Vec<u8>, AllocError>
    ensures { IfOk result (λ words. words.items ≡ codes "failed refused " ++ refusal_text refusal) }
{
    match refusal {
        Refusal::Unknown => b"failed refused unknown".to_vec(alloc),
        Refusal::Ppm(fault) => ppm_words(fault).to_vec(alloc),
        Refusal::Bmp(fault) => bmp_words(alloc, fault),
        Refusal::TooLarge => b"failed refused too-large".to_vec(alloc),
    }
}

fn failed_words(alloc: Global, cause: Cause) -> Result<Vec<u8>, AllocError>
    ensures { IfOk result (λ words. words.items ≡ codes "failed " ++ cause_text cause) }
{
    match cause {
        Cause::Missing => b"failed missing".to_vec(alloc),
        Cause::Refused(refusal) => refusal_words(alloc, refusal),
        Cause::Source => b"failed source".to_vec(alloc),
        Cause::Memory => b"failed memory".to_vec(alloc),
        Cause::Uncached => b"failed uncached".to_vec(alloc),
    }
}

/// What a line says of a view in this state, behind its name.
pub fn plain_words(alloc: Global, state: PlainState) -> Result<Vec<u8>, AllocError>
    ensures { IfOk result (λ words. (view : List ℕ) → words.items ≡ line_words (plain_line view state)) }
{
    match state {
        PlainState::Failed(cause) => failed_words(alloc, cause),
        PlainState::Waiting => b"waiting".to_vec(alloc),
        PlainState::Paused => b"paused".to_vec(alloc),
        PlainState::Cleared => b"cleared".to_vec(alloc),
    }
}

/// A config as a script's word.
pub fn config_word(config: Config) -> &'static str
    ensures { result.now ≡ config_word config }
{
    match config {
        Config::Argb8888 => "argb",
        Config::Rgb565 => "rgb565",
        Config::Alpha8 => "alpha",
    }
}
