// Numbers of the text.
ghost use Rattle.std.specs.Prelude.{◌≡◌, cond, ◌≤◌, length, Some, None};
ghost use Rattle.rules.specs.Limits.{max_digits};
ghost use Rattle.rules.specs.Lines.{all_digits, value_of, zero_led, number_of};

use rules::forms::{MAX_DIGITS, MAX_NUMBER};

// The value of the digits, or None where a byte is no digit.
fn digits(s: &[u8]) -> Option<u64>
    requires { length s.now ≤ max_digits }
    ensures { result ≡ cond (all_digits s.now) (Some (value_of s.now)) None }
{
    let mut value = 0u64;
    for &b in s {
        if !b.is_ascii_digit() {
            return None;
        }
        value = value * 10 + u64::from(b - b'0');
    }
    Some(value)
}

fn zero_led(s: &[u8]) -> bool
    ensures { result ≡ zero_led s.now }
{
    1 < s.len() && s[0] == b'0'
}

// "A number is 1 to 10 digits, no leading zero unless it is 0, at most 1,000,000,000."
pub fn read_number(s: &[u8]) -> Option<u64>
    ensures { result ≡ number_of s.now }
{
    if s.is_empty() || MAX_DIGITS < s.len() || zero_led(s) {
        return None;
    }
    digits(s).filter(|&value| value <= MAX_NUMBER)
}
