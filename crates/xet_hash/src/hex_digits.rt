//! The hex digits of a hash.

ghost use Rattle.std.specs.Prelude.{◌≡◌, ◌<◌, ◌↔◌, IsTrue, Some, Ok, true, slice_index};
ghost use Rattle.hex.specs.Hex.{decode_sized, encode_lower, hex_digit_value, is_hex_digit, lower_digits};
ghost use Rattle.xet_hash.specs.Hash.{IsHexText};

// How many hex digits a hash has.
const DIGITS_LEN: usize = 64;

// Returns the lower-case hex digit of a number below 16.
#[inline(always)]
fn lower_digit(value: u8) -> u8
    requires { value < 16 }
    ensures { result ≡ slice_index lower_digits value }
{
    if value < 10 {
        b'0' + value
    } else {
        b'a' - 10 + value
    }
}

// Returns the lower-case hex digits of 32 bytes. A group's text is mostly digits. The arithmetic is the same for each
// byte, so the compiler can do several bytes at once.
pub(crate) fn lower_digits(bytes: &[u8; 32]) -> [u8; 64]
    ensures { result ≡ encode_lower bytes.now }
{
    let mut digits = [0; 64];
    'bytes: for i in 0..bytes.len() {
        digits[2 * i] = lower_digit(bytes[i] / 16);
        digits[2 * i + 1] = lower_digit(bytes[i] % 16);
    }
    digits
}

// Returns whether a text is 64 hex digits, in either case. It looks at all bytes in the same way, so that the compiler can take
// several at once: a branch on each digit takes most of the time of reading a hash.
pub(crate) fn is_hex_text(text: &[u8]) -> bool
    ensures { IsTrue result ↔ IsHexText text.now }
{
    if text.len() != DIGITS_LEN {
        return false;
    }
    let mut count = 0u8;
    'digits: for i in 0..DIGITS_LEN {
        count += text[i].is_ascii_hexdigit() as u8;
    }
    count as usize == DIGITS_LEN
}

// Returns the value of a hex digit, in either case: letters have bit 6, and the low four bits of `a` are 1.
#[inline(always)]
fn digit_value(digit: u8) -> u8
    ensures value { is_hex_digit digit ≡ true → hex_digit_value digit ≡ Some result }
    ensures small { is_hex_digit digit ≡ true → result < 16 }
{
    digit % 16 + 9 * (digit / 64)
}

// Returns the bytes that 64 hex digits spell, each by two digits.
pub(crate) fn spelled_bytes(digits: &[u8]) -> [u8; 32]
    requires { IsHexText digits.now }
    ensures { decode_sized digits.now 32 ≡ Ok result }
{
    let mut bytes = [0; 32];
    'bytes: for i in 0..bytes.len() {
        bytes[i] = 16 * digit_value(digits[2 * i]) + digit_value(digits[2 * i + 1]);
    }
    bytes
}
