// What holds of the stored bytes of all pixels. A function of this file does nothing: its contract is the
// law.
ghost use Rattle.bitmap_kind.specs.StoredLaws.{StoresEachPixel, StoresInOrder};

/// Pixels are stored one after the other, each in as many bytes as its config has for one.
pub fn pixels_are_stored_in_order()
    ensures size { StoresEachPixel }
    ensures order { StoresInOrder }
{}
