//! The decimal digits of sizes. A branch on how many digits there are takes more time than eight of them at once.

ghost use Rattle.std.specs.Prelude.{◌≡◌, ◌+◌, ◌-◌, ◌^◌, ◌<◌, ◌≤◌, ◌++◌, length, take, decimal};
ghost use Rattle.xet_roots.specs.Steps.Digits.{last_digits, word_of};

// The two digits of each number below 100, as the bytes of a word. The lower byte is the first digit.
static PAIRS: [u16; 100] = [
    0x3030, 0x3130, 0x3230, 0x3330, 0x3430, 0x3530, 0x3630, 0x3730, 0x3830, 0x3930, 0x3031, 0x3131,
    0x3231, 0x3331, 0x3431, 0x3531, 0x3631, 0x3731, 0x3831, 0x3931, 0x3032, 0x3132, 0x3232, 0x3332,
    0x3432, 0x3532, 0x3632, 0x3732, 0x3832, 0x3932, 0x3033, 0x3133, 0x3233, 0x3333, 0x3433, 0x3533,
    0x3633, 0x3733, 0x3833, 0x3933, 0x3034, 0x3134, 0x3234, 0x3334, 0x3434, 0x3534, 0x3634, 0x3734,
    0x3834, 0x3934, 0x3035, 0x3135, 0x3235, 0x3335, 0x3435, 0x3535, 0x3635, 0x3735, 0x3835, 0x3935,
    0x3036, 0x3136, 0x3236, 0x3336, 0x3436, 0x3536, 0x3636, 0x3736, 0x3836, 0x3936, 0x3037, 0x3137,
    0x3237, 0x3337, 0x3437, 0x3537, 0x3637, 0x3737, 0x3837, 0x3937, 0x3038, 0x3138, 0x3238, 0x3338,
    0x3438, 0x3538, 0x3638, 0x3738, 0x3838, 0x3938, 0x3039, 0x3139, 0x3239, 0x3339, 0x3439, 0x3539,
    0x3639, 0x3739, 0x3839, 0x3939,
];

// The sizes below this have at most eight digits.
const FEW_DIGITS: u64 = 100_000_000;

// The most digits of a size.
const MAX_DIGITS: usize = 20;

// Returns the two digits of a number, as the bytes of a word. The lowest byte is the first digit.
#[inline(always)]
fn two_digits(n: u64) -> u64
    requires { n < 100 }
    ensures { result ≡ word_of (last_digits 2 n) }
{
    PAIRS[n as usize] as u64
}

// Returns the four digits of a number.
#[inline(always)]
fn four_digits(n: u64) -> u64
    requires { n < 10000 }
    ensures { result ≡ word_of (last_digits 4 n) }
{
    two_digits(n / 100) + two_digits(n % 100) * 0x1_0000
}

// Returns the eight digits of a number.
#[inline(always)]
fn eight_digits(n: u64) -> u64
    requires { n < FEW_DIGITS }
    ensures { result ≡ word_of (last_digits 8 n) }
{
    four_digits(n / 10_000) + four_digits(n % 10_000) * 0x1_0000_0000
}

// Returns how many zeros come first if a number is written with four digits. The last digit isn't one of them.
#[inline(always)]
fn zeros_of_four(n: u64) -> usize
    requires { n < 10000 }
    ensures few { result < 4 }
    ensures below { n < 10 ^ (4 - result) }
    ensures least { result < 3 → 10 ^ (3 - result) ≤ n }
{
    if n < 10 {
        3
    } else if n < 100 {
        2
    } else if n < 1000 {
        1
    } else {
        0
    }
}

// Returns how many zeros come first if a number is written with eight digits. The last digit isn't one of them.
#[inline(always)]
fn zeros_of_eight(n: u64) -> usize
    requires { n < FEW_DIGITS }
    ensures few { result < 8 }
    ensures below { n < 10 ^ (8 - result) }
    ensures least { result < 7 → 10 ^ (7 - result) ≤ n }
{
    if n < 10_000 {
        4 + zeros_of_four(n)
    } else {
        zeros_of_four(n / 10_000)
    }
}

// Writes the digits of a size below 10^8 into a text at a place, and more bytes up to the eighth. Returns where they end.
#[inline(always)]
fn write_few_digits(text: &mut [u8], size: u64, at: usize) -> usize
    requires few { size < FEW_DIGITS }
    requires room { at + 8 ≤ length text.old }
    ensures end { result ≡ at + length (decimal size) }
    ensures size { length text.new ≡ length text.old }
    ensures written { take result text.new ≡ take at text.old ++ decimal size }
{
    let zeros = zeros_of_eight(size);
    let digits = eight_digits(size) >> (8 * zeros);
    text[at..at + 8].copy_from_slice(&digits.to_le_bytes());
    at + (8 - zeros)
}

// Writes the digits of a size into a text at a place, and perhaps more bytes after them. Returns where they end.
#[inline(always)]
pub(crate) fn write_size(text: &mut [u8], size: u64, at: usize) -> usize
    requires { at + MAX_DIGITS ≤ length text.old }
    ensures end { result ≡ at + length (decimal size) }
    ensures size { length text.new ≡ length text.old }
    ensures written { take result text.new ≡ take at text.old ++ decimal size }
{
    if size < FEW_DIGITS {
        return write_few_digits(text, size, at);
    }
    let mut digits = [0; MAX_DIGITS];
    let start = itoa::write_digits(size, &mut digits, MAX_DIGITS);
    let end = at + (MAX_DIGITS - start);
    text[at..end].copy_from_slice(&digits[start..]);
    end
}
