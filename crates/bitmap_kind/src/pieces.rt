// Pieces of memory that are written: packed pixels, and pixels from other places.
ghost use Rattle.std.specs.Prelude.{◌≡◌, ℕ, ◌+◌, ◌*◌, ◌<◌, ◌≤◌, length, take, drop, replicate, ◌++◌, All};
ghost use Rattle.bitmap_kind.specs.Stored.{pixel_bytes, rgb565_word, stored, overwritten};
ghost use Rattle.std.specs.List.{flat_map};
ghost use Rattle.bitmap_kind.specs.declared.bitmaps.Config.TheVariants.{Rgb565, Alpha8};

use crate::bitmaps::Config;

// The high bits of red, green and blue in 16 bits.
fn rgb565_word(r: u8, g: u8, b: u8) -> u16
    ensures { result ≡ rgb565_word r g b }
{
    u16::from(r >> 3) << 11 | u16::from(g >> 2) << 5 | u16::from(b >> 3)
}

fn pack_rgb565(rgba: &[u8], into: &mut [u8], count: usize)
    requires pixels { length rgba.now ≡ 4 * count }
    requires room { length into.old ≡ 2 * count }
    ensures { into.new ≡ stored Rgb565 rgba.now }
{
    for x in 0..count {
        let word = rgb565_word(rgba[4 * x], rgba[4 * x + 1], rgba[4 * x + 2]);
        into[2 * x..2 * x + 2].copy_from_slice(&word.to_le_bytes());
    }
}

fn pack_alpha8(rgba: &[u8], into: &mut [u8], count: usize)
    requires pixels { length rgba.now ≡ 4 * count }
    requires room { length into.old ≡ count }
    ensures { into.new ≡ stored Alpha8 rgba.now }
{
    for x in 0..count {
        into[x] = rgba[4 * x + 3];
    }
}

// Packs so many pixels into their stored bytes.
fn pack(config: Config, rgba: &[u8], into: &mut [u8], count: usize)
    requires pixels { length rgba.now ≡ 4 * count }
    requires room { length into.old ≡ pixel_bytes config * count }
    ensures { into.new ≡ stored config rgba.now }
{
    match config {
        Config::Argb8888 => into.copy_from_slice(rgba),
        Config::Rgb565 => pack_rgb565(rgba, into, count),
        Config::Alpha8 => pack_alpha8(rgba, into, count),
    }
}

// Writes so many pixels, packed, from a byte on.
pub fn write_pixels(memory: &mut [u8], at: usize, config: Config, rgba: &[u8], count: usize)
    requires pixels { length rgba.now ≡ 4 * count }
    requires room { at + pixel_bytes config * count ≤ length memory.old }
    ensures { memory.new ≡ overwritten memory.old at (stored config rgba.now) }
{
    let end = at + config.pixel_bytes() * count;
    pack(config, rgba, &mut memory[at..end], count);
}

// Writes a piece, from a byte on.
pub fn write_bytes(memory: &mut [u8], at: usize, piece: &[u8])
    requires { at + length piece.now ≤ length memory.old }
    ensures { memory.new ≡ overwritten memory.old at piece.now }
{
    let end = at + piece.len();
    memory[at..end].copy_from_slice(piece);
}

// Sets the first bytes to 0.
pub fn write_zeros(memory: &mut [u8], size: usize)
    requires { size ≤ length memory.old }
    ensures { memory.new ≡ replicate size 0 ++ drop size memory.old }
{
    memory[..size].fill(0);
}

fn gather<const N: usize>(bytes: &[u8], from: usize, columns: &[u32], into: &mut [u8])
    requires some { 0 < N }
    requires columns { All (λ x. (from + x) * N + N ≤ length bytes.now) columns.now }
    requires room { length into.old ≡ length columns.now * N }
    ensures { into.new ≡ flat_map (λ x. take N (drop ((from + x) * N) bytes.now)) columns.now }
{
    for i in 0..columns.len() {
        let place = (from + columns[i] as usize) * N;
        // A pixel in between, which both slices are known not to overlap, spares a test.
        let mut pixel = [0u8; N];
        pixel.copy_from_slice(&bytes[place..place + N]);
        into[i * N..i * N + N].copy_from_slice(&pixel);
    }
}

// Writes the pixels of these columns, from a byte on. The columns count from a pixel on.
pub fn write_columns(
    memory: &mut [u8],
    at: usize,
    config: Config,
    bytes: &[u8],
    from: usize,
    columns: &[u32],
)
    requires columns { All (λ x. (from + x) * pixel_bytes config + pixel_bytes config ≤ length bytes.now)
        columns.now }
    requires room { at + length columns.now * pixel_bytes config ≤ length memory.old }
    ensures { memory.new ≡ overwritten memory.old at (flat_map
        (λ x. take (pixel_bytes config) (drop ((from + x) * pixel_bytes config) bytes.now)) columns.now) }
{
    let end = at + columns.len() * config.pixel_bytes();
    let into = &mut memory[at..end];
    match config {
        Config::Argb8888 => gather::<4>(bytes, from, columns, into),
        Config::Rgb565 => gather::<2>(bytes, from, columns, into),
        Config::Alpha8 => gather::<1>(bytes, from, columns, into),
    }
}
