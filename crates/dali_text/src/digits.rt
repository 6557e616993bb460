ghost use Rattle.std.specs.Prelude.{OnOk};
ghost use Rattle.dali_text.specs.Digits.{bytes_digits};
ghost use Rattle.dali_text.specs.Output.{TellsFailure, Takes};

use crate::output::{Output, OutputFailed};
use std::fmt;
use std::io::Write;

/// The two upper-case hexadecimal digits of a byte.
#[derive(Clone, Copy)]
pub struct ByteDigits(pub u8);

impl fmt::Display for ByteDigits {
    ghost use Rattle.std.specs.Prelude.{Some};
    ghost use Rattle.dali_frame.specs.Hex.{byte_digits};

    ghost output = { λ digits. Some (byte_digits digits.0) };

    #[tactic(auto, using(std::proofs::lemmas::Fmt::hex_byte))]
    fn fmt<W: fmt::Write>(&self, f: &mut fmt::Formatter<W>) -> fmt::Result {
        let byte = self.0;
        write!(f, "{byte:02X}")
    }
}

/// The four upper-case hexadecimal digits of a word.
#[derive(Clone, Copy)]
pub struct WordDigits(pub u16);

impl fmt::Display for WordDigits {
    ghost use Rattle.std.specs.Prelude.{Some};
    ghost use Rattle.dali_frame.specs.Hex.{word_digits};

    ghost output = { λ digits. Some (word_digits digits.0) };

    fn fmt<W: fmt::Write>(&self, f: &mut fmt::Formatter<W>) -> fmt::Result {
        let [first, second] = self.0.to_be_bytes().map(ByteDigits);
        write!(f, "{first}{second}")
    }
}

/// Writes the two upper-case hexadecimal digits of each byte, with nothing between them.
#[tactic(auto, using(crate::proofs::StreamLemmas::appends_both))]
pub fn write_bytes<W: Write>(output: &mut Output<W>, bytes: &[u8]) -> Result<(), OutputFailed>
    ensures text { OnOk result (Takes W.contents output.old output.new (bytes_digits bytes.now)) }
    ensures failed { TellsFailure result output.old output.new }
{
    for &byte in bytes {
        output.write_fmt(ByteDigits(byte))?;
    }
    Ok(())
}
