ghost use Rattle.std.specs.Prelude.{◌≡◌, ◌≤◌, length, decimal};

use arrayvec::ArrayString;

/// The decimal digits of a number.
pub type Decimal = ArrayString<20>;

/// A number's decimal digits, with no zero in front (profile).
pub fn decimal_of(number: u64) -> Decimal
    ensures digits { result.bytes ≡ decimal number }
    ensures short { length result.bytes ≤ 20 }
{
    if number < 10 {
        let mut digit = Decimal::new();
        digit.push(char::from(b'0' + number as u8));
        digit
    } else {
        let mut digits = decimal_of(number / 10);
        digits.push(char::from(b'0' + (number % 10) as u8));
        digits
    }
}
