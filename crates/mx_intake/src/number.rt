//! A number of few digits.
ghost use Rattle.std.specs.Prelude.{◌≡◌};
ghost use Rattle.mx_intake.specs.Number.{number_of_digits};

/// The most digits of a number.
const MOST_DIGITS: usize = 6;

/// The number that 1 to 6 digits write, and nothing else: zeros may stand in front.
pub fn read_number(bytes: &[u8]) -> Option<u32>
    ensures { result ≡ number_of_digits bytes.now }
{
    if bytes.is_empty() || bytes.len() > MOST_DIGITS {
        return None;
    }
    let mut number: u32 = 0;
    for byte in bytes {
        if !byte.is_ascii_digit() {
            return None;
        }
        number = number * 10 + u32::from(*byte - b'0');
    }
    Some(number)
}
