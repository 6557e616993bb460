ghost use Rattle.std.specs.Prelude.{◌≡◌, ◌≤◌, ◌<◌, ◌^◌, ◌↔◌, length, All, IsTrue, IsSome, IfSome};
ghost use Rattle.std.specs.Char.{IsAsciiDigit};
ghost use Rattle.std.specs.Str.Parse.{digits_value};
ghost use Rattle.dali_bank.specs.Gtin.{IsGtin, IsGtinLength, IsGtinNumber, weight_of, weighted_sum as weighted_sum_of};

/// The number of a GTIN, if the text is one. Leading zeros don't show in it.
pub(crate) fn gtin_number(text: &str) -> Option<u64>
    ensures found { IsSome result ↔ IsGtin text.now }
    ensures value { IfSome result (λ number. number ≡ digits_value 10 text.now) }
    ensures small { IfSome result (λ number. number < 256 ^ 6) }
{
    if is_gtin(text.as_bytes()) {
        text.parse().ok()
    } else {
        None
    }
}

/// Whether the number's 14 decimal digits, leading zeros included, are a GTIN.
pub(crate) fn is_gtin_number(number: u64) -> bool
    ensures { IsTrue result ↔ IsGtinNumber number }
{
    number < 10u64.pow(14) && is_gtin(&digits_of(number))
}

// The number's 14 decimal digits, leading zeros included.
fn digits_of(number: u64) -> [u8; 14]
    requires { number < 10 ^ 14 }
    ensures sized { length result ≡ 14 }
    ensures digits { All IsAsciiDigit result }
    ensures value { digits_value 10 result ≡ number }
{
    let mut digits = [b'0'; 14];
    let mut rest = number;
    for place in (0..14).rev() {
        digits[place] = b'0' + (rest % 10) as u8;
        rest /= 10;
    }
    digits
}

fn is_gtin(text: &[u8]) -> bool
    ensures { IsTrue result ↔ IsGtin text.now }
{
    is_gtin_length(text.len()) && are_digits(text) && weighted_sum(text) % 10 == 0
}

fn are_digits(text: &[u8]) -> bool
    ensures { IsTrue result ↔ All IsAsciiDigit text.now }
{
    text.iter().all(|byte| byte.is_ascii_digit())
}

fn is_gtin_length(count: usize) -> bool
    ensures { IsTrue result ↔ IsGtinLength count }
{
    matches!(count, 8 | 12 | 13 | 14)
}

// The sum of the digits, each times its weight.
fn weighted_sum(digits: &[u8]) -> u32
    requires digits { All IsAsciiDigit digits.now }
    requires few { length digits.now ≤ 14 }
    ensures { result ≡ weighted_sum_of digits.now }
{
    let mut sum = 0;
    for (i, digit) in digits.iter().enumerate() {
        let right = digits.len() - 1 - i;
        sum += u32::from(digit - b'0') * weight(right);
    }
    sum
}

// The weight of a digit with this many digits to its right.
fn weight(right: usize) -> u32
    ensures value { result ≡ weight_of right }
    ensures small { result ≤ 3 }
{
    if right % 2 == 0 { 1 } else { 3 }
}
