// The number that digits spell.
ghost use Rattle.std.specs.Prelude.{◌≡◌, ◌<◌, ◌≤◌, ◌^◌, ◌*◌, ◌+◌, ◌-◌, length, min};
ghost use Rattle.std.specs.List.{prefix_len, take_while};
ghost use Rattle.std.specs.Char.{is_ascii_digit};
ghost use Rattle.std.specs.Option.{SomeIff};
ghost use Rattle.std.specs.Str.Parse.{AllDigits, digits_value};

/// The digits `0` to `9` that a text begins with.
#[derive(Clone, Copy, Debug, PartialEq, Eq)]
pub struct Leading {
    /// How many they are.
    pub count: usize,

    /// The number that they spell, or 4,294,967,296 where it is above that. Leading zeros count for
    /// nothing, and no digits spell 0.
    pub value: u64,
}

// How many digits a text begins with.
fn digit_count(text: &[u8]) -> usize
    ensures count { result ≡ prefix_len is_ascii_digit text.now }
    ensures bound { result ≤ length text.now }
{
    text.iter().take_while(|byte| byte.is_ascii_digit()).count()
}

/// The digits that a text begins with, and their number, read at once.
#[inline(always)]
pub fn leading_digits(text: &[u8]) -> Leading
    ensures count { result.count ≡ prefix_len is_ascii_digit text.now }
    ensures value { result.value ≡ min (digits_value 10 (take_while is_ascii_digit text.now)) (2 ^ 32) }
    ensures bound { result.count ≤ length text.now }
{
    let mut value = 0u64;
    for (at, byte) in text.iter().enumerate() {
        if !byte.is_ascii_digit() {
            return Leading { count: at, value };
        }
        value = 10 * value + u64::from(*byte - b'0');
        if value >= 1 << 32 {
            return Leading {
                count: digit_count(text),
                value: 1 << 32,
            };
        }
    }
    Leading {
        count: text.len(),
        value,
    }
}

/// The number that the digits spell, if 32 bits hold it.
pub fn value_of(digits: &[u8]) -> Option<u32>
    requires { AllDigits 10 digits.now }
    ensures { SomeIff result (digits_value 10 digits.now < 2 ^ 32) (digits_value 10 digits.now) }
{
    let value = leading_digits(digits).value;
    if value < 1 << 32 {
        Some(value as u32)
    } else {
        None
    }
}
