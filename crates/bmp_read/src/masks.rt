// Masks, which say by their 1 bits where a channel stands in a pixel.
ghost use Rattle.std.specs.Prelude.{◌≡◌, ◌≤◌, ◌<◌, ◌+◌, length};
ghost use Rattle.bmp_read.specs.Header.{moved_down, is_run, is_mask, stored_masks, are_masks};

use crate::bytes::u32_at;
use crate::format::Masks;

// A value's bits, moved down as far as the mask's lowest 1 bit has to go to bit 0.
pub(crate) fn moved_down(mask: u32, value: u32) -> u32
    requires { 0 < mask }
    ensures { result ≡ moved_down mask value }
{
    value >> mask.trailing_zeros()
}

// Whether the mask is 0 or one run of 1 bits.
fn is_run(mask: u32) -> bool
    ensures { result ≡ is_run mask }
{
    if mask == 0 {
        return true;
    }
    (u64::from(moved_down(mask, mask)) + 1).is_power_of_two()
}

// Whether the mask is one of so many bits.
fn is_mask(bits: u16, mask: u32) -> bool
    ensures { result ≡ is_mask bits mask }
{
    is_run(mask) && (bits == 32 || mask < 65_536)
}

// The masks of a text that has them whole.
pub(crate) fn stored_masks(text: &[u8], info_size: u32) -> Masks
    requires short { 66 ≤ length text.now }
    requires long { 40 < info_size → 70 ≤ length text.now }
    requires size { 40 ≤ info_size }
    ensures { result ≡ stored_masks info_size text.now }
{
    Masks {
        red: u32_at(text, 54),
        green: u32_at(text, 58),
        blue: u32_at(text, 62),
        alpha: if info_size == 40 { 0 } else { u32_at(text, 66) },
    }
}

// Whether all masks are masks of so many bits.
pub(crate) fn are_masks(bits: u16, masks: Masks) -> bool
    ensures { result ≡ are_masks bits masks }
{
    is_mask(bits, masks.red)
        && is_mask(bits, masks.green)
        && is_mask(bits, masks.blue)
        && is_mask(bits, masks.alpha)
}
