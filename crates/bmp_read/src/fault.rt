/// The first rule that a text breaks, in the order in which the rules are tried: the file header,
/// the info header, the masks or the palette, and then the raster.
#[derive(Clone, Copy, Debug, PartialEq, Eq)]
pub enum BmpFault {
    /// The text does not begin with `BM`.
    BadMagic,

    /// The info header has none of the lengths 40, 108 and 124, which are those of
    /// BITMAPINFOHEADER, BITMAPV4HEADER and BITMAPV5HEADER, or there is not exactly one plane.
    BadHeader,

    /// The width is not above 0, or the height is 0 or -2,147,483,648.
    BadSize,

    /// The compression, which is given, is neither 0 (none) nor 3 (none, with masks).
    Compressed(u32),

    /// A pixel has not 1, 4, 8, 16, 24 or 32 bits, or with masks not 16 or 32.
    BadDepth,

    /// A mask is neither 0 nor one run of 1 bits, or it is above 65,535 where a pixel has 16 bits.
    BadMasks,

    /// The text ends before the headers, the masks, the palette or the raster do.
    Truncated,
}
