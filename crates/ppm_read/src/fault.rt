/// The first rule that a text breaks, in the order of the text.
#[derive(Clone, Copy, Debug, PartialEq, Eq)]
pub enum PpmFault {
    /// The text begins with none of `P2`, `P3`, `P5` and `P6`, the magic numbers of Netpbm's ppm(5)
    /// and pgm(5) that stand for grey and colour pictures.
    BadMagic,

    /// A byte stands where a gap, a number or white space is due, or a number is above
    /// 4,294,967,295.
    BadNumber,

    /// The width or the height is 0.
    BadSize,

    /// The maximum of a sample is not from 1 to 65,535.
    BadMaximum,

    /// A sample is above the maximum.
    SampleAbove,

    /// The text ends before the picture does.
    Truncated,
}
