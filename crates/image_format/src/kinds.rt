// Which kind of picture a text is.
ghost use Rattle.std.specs.Prelude.{◌≡◌, IfOk};
ghost use Rattle.image_format.specs.Pictures.{kind_of, source_size};
ghost use Rattle.picture_rows.specs.FullPicture.{IsPictureSize};

use crate::refusal::Refusal;

/// A kind of picture.
#[derive(Clone, Copy, Debug, PartialEq, Eq)]
pub enum Kind {
    /// One of Netpbm's: `P2`, `P3`, `P5` or `P6`.
    Netpbm,
    /// A Windows bitmap: `BM`.
    Bitmap,
}

/// The kind that the text's first two bytes tell, if they tell one.
pub fn kind_of(text: &[u8]) -> Option<Kind>
    ensures { result ≡ kind_of text.now }
{
    if text.starts_with(b"BM") {
        return Some(Kind::Bitmap);
    }
    let netpbm = text.starts_with(b"P2")
        || text.starts_with(b"P3")
        || text.starts_with(b"P5")
        || text.starts_with(b"P6");
    if netpbm { Some(Kind::Netpbm) } else { None }
}

/// The width and height that the text's header says, in pixels.
pub fn source_size(text: &[u8]) -> Result<(u32, u32), Refusal>
    ensures size { result ≡ source_size text.now }
    ensures sides { IfOk result (λ size. IsPictureSize size.0 size.1) }
{
    match kind_of(text) {
        Some(Kind::Netpbm) => {
            let head = ppm_read::read_head(text)?;
            Ok((head.width, head.height))
        }
        Some(Kind::Bitmap) => {
            let head = bmp_read::read_head(text)?;
            Ok((head.width, head.height))
        }
        None => Err(Refusal::Unknown),
    }
}
