// How pixels are stored.

// The places of the colours in the text: where the first one begins, and how many there are.
#[derive(Clone, Copy, Debug, PartialEq, Eq)]
pub(crate) struct Palette {
    pub(crate) start: usize,
    pub(crate) count: usize,
}

// Which bits of a pixel make each channel.
#[derive(Clone, Copy, Debug, PartialEq, Eq)]
pub(crate) struct Masks {
    pub(crate) red: u32,
    pub(crate) green: u32,
    pub(crate) blue: u32,
    pub(crate) alpha: u32,
}

// What a pixel is: an index of 1, 4 or 8 bits, a colour of 16, 24 or 32 bits, or one of 16 or 32
// bits by masks.
#[derive(Clone, Copy, Debug, PartialEq, Eq)]
pub(crate) enum Format {
    Indexed1(Palette),
    Indexed4(Palette),
    Indexed8(Palette),
    Rgb555,
    Bgr24,
    Bgr32,
    Masked16(Masks),
    Masked32(Masks),
}
