ghost use Rattle.std.specs.Prelude.{ℕ, ◌≡◌, ◌≢◌, ◌↔◌, ◌<◌, ◌≤◌, length, slice_index, IsTrue, IfSome, IfNone};
ghost use Rattle.dali_bank.specs.Spelling.{IsText, ShowsText};

use crate::spelling::are_all;

/// Whether the bytes are 1 to `most` characters, each from space (20h) to tilde (7Eh).
pub(crate) fn is_text(text: &[u8], most: u8) -> bool
    ensures { IsTrue result ↔ IsText most text.now }
{
    !text.is_empty()
        && text.len() <= most as usize
        && text.iter().all(|byte| matches!(byte, b' '..=b'~'))
}

/// How many characters the text has that the bytes are, filled up with zeros, if they are one.
pub(crate) fn text_length(bytes: &[u8]) -> Option<u8>
    requires { length bytes.now ≤ 60 }
    ensures found { IfSome result (ShowsText (length bytes.now) bytes.now) }
    ensures none { IfNone result ((k : ℕ) → ¬ ShowsText (length bytes.now) bytes.now k) }
{
    let (text, rest) = bytes.split_at(first_zero(bytes));
    if is_text(text, bytes.len() as u8) && are_all(rest, 0) {
        Some(text.len() as u8)
    } else {
        None
    }
}

// The place of the first zero, past the end if there is none.
fn first_zero(bytes: &[u8]) -> usize
    ensures within { result ≤ length bytes.now }
    ensures before { (k : ℕ) → k < result → slice_index bytes.now k ≢ 0 }
    ensures there { result < length bytes.now → slice_index bytes.now result ≡ 0 }
{
    bytes
        .iter()
        .position(|&byte| byte == 0)
        .unwrap_or(bytes.len())
}
