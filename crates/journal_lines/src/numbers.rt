// Lengths as they stand in a line.
ghost use Rattle.std.specs.Prelude.{◌≡◌, ◌≤◌, ◌<◌, ◌^◌, ◌&&◌, nat_lt, length, Some, None, if◌then◌else◌, IsTrue, true};
ghost use Rattle.std.specs.List.{list_all};
ghost use Rattle.std.specs.Char.{digit_value};
ghost use Rattle.std.specs.Str.Parse.{digits_value};
ghost use Rattle.journal_lines.specs.Lines.{is_number, length_of};

// No length is so large.
const LENGTHS_BELOW: u64 = 1 << 40;

fn is_digit(byte: u8) -> bool
    ensures { result ≡ nat_lt (digit_value byte) 10 }
{
    byte.is_ascii_digit()
}

fn are_digits(bytes: &[u8]) -> bool
    ensures { result ≡ list_all (λ b. nat_lt (digit_value b) 10) bytes.now }
{
    bytes.iter().all(|byte| is_digit(*byte))
}

// Whether these are digits, of which the first of several is no zero.
fn is_number(bytes: &[u8]) -> bool
    ensures { result ≡ is_number bytes.now }
{
    if bytes.is_empty() {
        return false;
    }
    if !are_digits(bytes) {
        return false;
    }
    if bytes.len() == 1 {
        return true;
    }
    bytes[0] > b'0'
}

// What a digit stands for.
fn digit_value(digit: u8) -> u64
    requires { digit_value digit < 10 }
    ensures { result ≡ digit_value digit }
{
    u64::from(digit - b'0')
}

// The number that the digits write, where it is a length.
fn digits_value(digits: &[u8]) -> Option<u64>
    requires { list_all (λ b. nat_lt (digit_value b) 10) digits.now ≡ true }
    ensures { result ≡ (if nat_lt (digits_value 10 digits.now) (2 ^ 40)
        then Some (digits_value 10 digits.now) else None) }
{
    let mut value: u64 = 0;
    for digit in digits {
        value = value * 10 + digit_value(*digit);
        if value >= LENGTHS_BELOW {
            return None;
        }
    }
    Some(value)
}

/// The length that these bytes write in its one spelling.
pub fn read_length(bytes: &[u8]) -> Option<u64>
    ensures { result ≡ length_of bytes.now }
{
    if is_number(bytes) {
        digits_value(bytes)
    } else {
        None
    }
}
