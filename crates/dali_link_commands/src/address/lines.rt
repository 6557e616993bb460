// The lines that tell of short addresses.
ghost use Rattle.std.specs.Prelude.{◌≡◌, ◌+◌, ◌≤◌, ◌<◌, ◌++◌, codes, decimal, [], if◌then◌else◌};
ghost use Rattle.dali_address.specs.declared.task.Line.{Line as Told};
ghost use Rattle.arrayvec.specs.ArrayVec.{array_vec_len};
ghost use Rattle.dali_link_commands.specs.AddressLines.{address_line, count_text, end_text};
ghost use Rattle.dali_link_commands.specs.AddressLines.{random_digits, shared_lines, summary_line, taken_line};

use crate::address::addressing::End;
use arrayvec::ArrayVec;
use dali_address::{CensusEnd, Line as Told, Random, Summary};
use dali_drive::{Line, push_decimal, push_text};
use dali_frame::byte_digits;

// The most bytes of what tells an end.
const MOST_END: usize = 96;

/// The text that says how a run ended, of at most 96 bytes.
pub type EndText = ArrayVec<u8, MOST_END>;

// The most bytes of what tells a count: eleven for each short address.
const MOST_COUNT: usize = 704;

/// The text that says how a count ended, of at most 704 bytes.
pub type CountText = ArrayVec<u8, MOST_COUNT>;

/// The line that tells that units may still be in the initialisation state.
pub const OPEN: &str = "open: units answer searches for up to 16.5 minutes\n";

/// The line of what a run tells on its way: `unit A random RRRRRR` or `shared A`.
#[tactic(auto, using(dali_drive::proofs::UnitLineLemmas::short_byte))]
pub fn address_line(told: Told) -> Line
    ensures { result.items ≡ address_line told }
{
    let mut line = Line::new();
    match told {
        Told::Unit { short, random } => {
            push_text(&mut line, "unit ");
            push_decimal(&mut line, u64::from(short));
            push_text(&mut line, " random ");
            push_random(&mut line, random);
        }
        Told::Shared(short) => return shared_line(short),
    }
    push_text(&mut line, "\n");
    line
}

// Puts a random address's six hexadecimal digits at the end of a line, which has room for them.
fn push_random(line: &mut Line, random: Random)
    requires { array_vec_len line.old + 6 ≤ 80 }
    ensures items { line.new.items ≡ line.old.items ++ random_digits random }
    ensures len { array_vec_len line.new ≡ array_vec_len line.old + 6 }
{
    let _fits = line.try_extend_from_slice(&byte_digits(random.high));
    let _fits = line.try_extend_from_slice(&byte_digits(random.middle));
    let _fits = line.try_extend_from_slice(&byte_digits(random.low));
}

/// The text that says how a run ended: `given G missing M shared S`, and before it a line if units may still be in the
/// initialisation state; or which named short address is that of a unit already.
pub fn end_text(end: End) -> EndText
    ensures { result.items ≡ end_text end }
{
    let mut text = EndText::new();
    match end {
        End::Done(summary) => {
            if summary.open {
                let _fits = text.try_extend_from_slice(OPEN.as_bytes());
            }
            let _fits = text.try_extend_from_slice(&summary_line(summary));
        }
        End::Taken(short) => {
            let _fits = text.try_extend_from_slice(&taken_line(short));
        }
    }
    text
}

#[tactic(auto, using(dali_drive::proofs::UnitLineLemmas::short_byte))]
fn summary_line(summary: Summary) -> Line
    ensures items { result.items ≡ summary_line summary }
    ensures short { array_vec_len result ≤ 33 }
{
    let mut line = Line::new();
    push_text(&mut line, "given ");
    push_decimal(&mut line, u64::from(summary.given));
    push_text(&mut line, " missing ");
    push_decimal(&mut line, u64::from(summary.missing));
    push_text(&mut line, " shared ");
    push_decimal(&mut line, u64::from(summary.shared));
    push_text(&mut line, "\n");
    line
}

#[tactic(auto, using(dali_drive::proofs::UnitLineLemmas::short_byte))]
fn taken_line(short: u8) -> Line
    ensures items { result.items ≡ taken_line short }
    ensures short { array_vec_len result ≤ 70 }
{
    let mut line = Line::new();
    push_text(&mut line, "error: a unit is at short address ");
    push_decimal(&mut line, u64::from(short));
    push_text(&mut line, " already\n");
    line
}

/// The text that says how a count ended: `apart K`, a line `shared A` for each short address that units share, or
/// `unclear`.
pub fn count_text(end: &CensusEnd) -> CountText
    ensures { result.items ≡ count_text end.now }
{
    match end {
        CensusEnd::Apart(units) => apart_text(*units),
        CensusEnd::Shared(sharing) => shared_text(&sharing.addresses),
        CensusEnd::Unclear => unclear_text(),
    }
}

#[tactic(auto, using(dali_drive::proofs::UnitLineLemmas::short_byte))]
fn apart_text(units: u8) -> CountText
    ensures { result.items ≡ codes "apart " ++ decimal units ++ codes "\n" }
{
    let mut line = Line::new();
    push_text(&mut line, "apart ");
    push_decimal(&mut line, u64::from(units));
    push_text(&mut line, "\n");
    let mut text = CountText::new();
    let _fits = text.try_extend_from_slice(&line);
    text
}

fn unclear_text() -> CountText
    ensures { result.items ≡ codes "unclear\n" }
{
    let mut text = CountText::new();
    let _fits = text.try_extend_from_slice("unclear\n".as_bytes());
    text
}

fn shared_text(addresses: &[bool; 64]) -> CountText
    ensures { result.items ≡ shared_lines addresses.now 0 }
{
    let mut text = CountText::new();
    for (short, is_shared) in addresses.iter().enumerate() {
        push_shared(&mut text, short as u8, *is_shared);
    }
    text
}

// Puts the line of a short address at the end, if units share it.
fn push_shared(text: &mut CountText, short: u8, is_shared: bool)
    requires { array_vec_len text.old + 11 ≤ 704 }
    ensures items { text.new.items
        ≡ text.old.items ++ (if is_shared then address_line (Told.Shared short) else []) }
    ensures len { array_vec_len text.new ≤ array_vec_len text.old + 11 }
{
    if is_shared {
        let _fits = text.try_extend_from_slice(&shared_line(short));
    }
}

#[tactic(auto, using(dali_drive::proofs::UnitLineLemmas::short_byte))]
fn shared_line(short: u8) -> Line
    ensures items { result.items ≡ address_line (Told.Shared short) }
    ensures short { array_vec_len result ≤ 11 }
{
    let mut line = Line::new();
    push_text(&mut line, "shared ");
    push_decimal(&mut line, u64::from(short));
    push_text(&mut line, "\n");
    line
}
