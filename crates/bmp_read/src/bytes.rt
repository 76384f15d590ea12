// Numbers in a text, the lowest byte first.
ghost use Rattle.std.specs.Prelude.{◌≡◌, ◌≤◌, ◌+◌, length};
ghost use Rattle.bmp_read.specs.Bytes.{u16_at, u32_at};

pub(crate) fn u16_at(text: &[u8], at: usize) -> u16
    requires { at + 2 ≤ length text.now }
    ensures { result ≡ u16_at at text.now }
{
    u16::from_le_bytes([text[at], text[at + 1]])
}

pub(crate) fn u32_at(text: &[u8], at: usize) -> u32
    requires { at + 4 ≤ length text.now }
    ensures { result ≡ u32_at at text.now }
{
    u32::from_le_bytes([text[at], text[at + 1], text[at + 2], text[at + 3]])
}
