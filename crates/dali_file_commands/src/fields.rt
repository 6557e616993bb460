ghost use Rattle.std.specs.Prelude.{◌≡◌, ◌≢◌, ◌↔◌, ◌++◌, IfOk, OnOk, codes, replicate, true};
ghost use Rattle.std.specs.List.{flat_map};
ghost use Rattle.serde_json.specs.Written.{compact_text};
ghost use Rattle.dali_bank.specs.Layout.{length_of};
ghost use Rattle.dali_text.specs.Output.{TellsFailure, Takes, has_failed, is_flushed};
ghost use Rattle.dali_input.specs.Ends.{TellsEnd};
ghost use Rattle.dali_file_commands.specs.FieldLines.{FormsAreOfLayout, array_text, field_text, fields_text, lines_text};
ghost use Rattle.dali_file_commands.specs.FieldLines.{place_text, range_text, unit_data, words_text};
ghost use Rattle.dali_file_commands.specs.FieldLines.{help_of as help_told};

use dali_bank::Field;
use dali_input::Status;
use dali_text::{Output, OutputFailed, write_bytes};
use std::fmt;
use std::io::Write;

// The bytes of the longest field, where it is unknown.
static UNKNOWN: [u8; 60] = [0xFF; 60];

/// Prints the fields of an order, by rising location: an array in JSON, with a line for each.
///
/// If a call of the output fails, later ones write nothing more to it, and it ends as `Unwritten`.
pub fn fields<W: Write>(output: &mut Output<W>) -> Status
    ensures told { result ≢ Status.Unwritten → (result ≡ Status.Good)
        × Takes W.contents output.old output.new fields_text }
    ensures unwritten { result ≡ Status.Unwritten ↔ has_failed output.new ≡ true }
    ensures flushed { result ≢ Status.Unwritten → is_flushed output.new ≡ true }
    ensures layout { FormsAreOfLayout }
{
    match try_fields(output) {
        Ok(status) => status,
        Err(_) => Status::Unwritten,
    }
}

// The same, or that the output has failed.
#[tactic(auto, using(dali_text::proofs::StreamLemmas::appends_kept))]
fn try_fields<W: Write>(output: &mut Output<W>) -> Result<Status, OutputFailed>
    ensures told { IfOk result (λ status. (status ≡ Status.Good)
        × Takes W.contents output.old output.new fields_text) }
    ensures end { TellsEnd result output.new }
{
    write_array(output, &Field::ALL)?;
    output.flush()?;
    Ok(Status::Good)
}

// Writes the array of these fields.
fn write_array<W: Write>(output: &mut Output<W>, fields: &[Field]) -> Result<(), OutputFailed>
    ensures text { OnOk result (Takes W.contents output.old output.new (array_text fields.now)) }
    ensures failed { TellsFailure result output.old output.new }
{
    output.write_all(b"[\n")?;
    write_lines(output, fields)?;
    output.write_all(b"\n]\n")
}

// Writes the lines of these fields.
fn write_lines<W: Write>(output: &mut Output<W>, fields: &[Field]) -> Result<(), OutputFailed>
    ensures text { OnOk result (Takes W.contents output.old output.new (lines_text fields.now)) }
    ensures failed { TellsFailure result output.old output.new }
{
    match fields {
        [] => Ok(()),
        [first, rest @ ..] => {
            write_field(output, *first)?;
            write_rest(output, rest)
        }
    }
}

// Writes the fields that follow the first one, each with the comma before it.
fn write_rest<W: Write>(output: &mut Output<W>, rest: &[Field]) -> Result<(), OutputFailed>
    ensures text { OnOk result (Takes W.contents output.old output.new
        (flat_map (λ field. codes ",\n" ++ field_text field) rest.now)) }
    ensures failed { TellsFailure result output.old output.new }
{
    for &field in rest {
        output.write_all(b",\n")?;
        write_field(output, field)?;
    }
    Ok(())
}

// Writes a field.
fn write_field<W: Write>(output: &mut Output<W>, field: Field) -> Result<(), OutputFailed>
    ensures text { OnOk result (Takes W.contents output.old output.new (field_text field)) }
    ensures failed { TellsFailure result output.old output.new }
{
    let form = Form::of(field);
    write_place(output, field.length(), field.first())?;
    write_words(output, form.word(), help_of(field), field.key())?;
    write_range(output, form.least(), form.most(), unit_of(field))?;
    write_bytes(output, unknown_of(field))?;
    output.write_all(b"\"}")
}

// Writes how many bytes a field has, and its first location.
fn write_place<W: Write>(output: &mut Output<W>, bytes: u8, first: u8) -> Result<(), OutputFailed>
    ensures text { OnOk result (Takes W.contents output.old output.new (place_text bytes first)) }
    ensures failed { TellsFailure result output.old output.new }
{
    write!(output, "{{\"bytes\":{bytes},\"first\":{first}")
}

// Writes the word of a field's form, a few words on the field, and its key.
fn write_words<W: Write>(
    output: &mut Output<W>,
    form: &str,
    help: &str,
    key: &str,
) -> Result<(), OutputFailed>
    ensures text { OnOk result (Takes W.contents output.old output.new (words_text form.now help.now key.now)) }
    ensures failed { TellsFailure result output.old output.new }
{
    write!(
        output,
        ",\"form\":\"{form}\",\"help\":\"{help}\",\"key\":\"{key}\""
    )
}

// Writes a field's range and its unit, up to the bytes of unknown.
fn write_range<W: Write>(
    output: &mut Output<W>,
    least: Option<u64>,
    most: Option<u64>,
    unit: &str,
) -> Result<(), OutputFailed>
    ensures text { OnOk result (Takes W.contents output.old output.new (range_text least most unit.now)) }
    ensures failed { TellsFailure result output.old output.new }
{
    let (least, most) = (OrNull(least), OrNull(most));
    write!(
        output,
        ",\"least\":{least},\"most\":{most},\"unit\":{unit},\"unknown\":\""
    )
}

// The bytes of a field that is unknown.
fn unknown_of(field: Field) -> &'static [u8]
    ensures { result.now ≡ replicate (length_of field) 0xFF }
{
    &UNKNOWN[..usize::from(field.length())]
}

// A number, or null.
#[derive(Clone, Copy)]
struct OrNull(Option<u64>);

impl fmt::Display for OrNull {
    ghost use Rattle.std.specs.Prelude.{Some};
    ghost use Rattle.serde_json.specs.Written.{compact_text};
    ghost use Rattle.dali_file_commands.specs.FieldLines.{number_or_null};

    ghost output = { λ value. Some (compact_text (number_or_null value.0)) };

    fn fmt<W: fmt::Write>(&self, f: &mut fmt::Formatter<W>) -> fmt::Result {
        match self.0 {
            Some(value) => write!(f, "{value}"),
            None => f.write_str("null"),
        }
    }
}

/// The values that a field takes.
#[derive(Clone, Copy)]
pub(crate) enum Form {
    /// The digits of a GTIN.
    Gtin,
    /// Sixteen hexadecimal digits.
    Identification,
    /// A number from the least to the most.
    Number { least: u64, most: u64 },
    /// A text of one character to the most.
    Text { most: u64 },
}

impl Form {
    ghost use Rattle.std.specs.Prelude.{◌≡◌};
    ghost use Rattle.dali_file_commands.specs.FieldLines.{form_of, form_word, least_of, most_of};

    /// The form of this field.
    pub(crate) fn of(field: Field) -> Form
        ensures { result ≡ form_of field }
    {
        match field {
            Field::Gtin => Form::Gtin,
            Field::Identification => Form::Identification,
            Field::Year => Form::up_to(99),
            Field::Week => Form::Number { least: 1, most: 53 },
            Field::InputPower => Form::up_to(65534),
            Field::MinDimPower => Form::up_to(65534),
            Field::MinVoltage => Form::up_to(65534),
            Field::MaxVoltage => Form::up_to(65534),
            Field::LightOutput => Form::up_to(16777214),
            Field::Cri => Form::up_to(100),
            Field::Cct => Form::up_to(65533),
            Field::Distribution => Form::up_to(254),
            Field::Colour => Form::Text { most: 24 },
            Field::Luminaire => Form::Text { most: 60 },
        }
    }

    // A number from 0 to the most.
    fn up_to(most: u64) -> Form
        ensures { result ≡ Form.Number 0 most }
    {
        Form::Number { least: 0, most }
    }

    // Its word.
    fn word(&self) -> &'static str
        ensures { result.now ≡ form_word self.now }
    {
        match self {
            Form::Gtin => "gtin",
            Form::Identification => "identification",
            Form::Number { .. } => "number",
            Form::Text { .. } => "text",
        }
    }

    // The least number, or the fewest characters of a text.
    fn least(&self) -> Option<u64>
        ensures { result ≡ least_of self.now }
    {
        match *self {
            Form::Gtin | Form::Identification => None,
            Form::Number { least, .. } => Some(least),
            Form::Text { .. } => Some(1),
        }
    }

    // The greatest number, or the most characters of a text.
    fn most(&self) -> Option<u64>
        ensures { result ≡ most_of self.now }
    {
        match *self {
            Form::Gtin | Form::Identification => None,
            Form::Number { most, .. } | Form::Text { most } => Some(most),
        }
    }
}

// A few words on a field.
fn help_of(field: Field) -> &'static str
    ensures { result.now ≡ help_told field }
{
    match field {
        Field::Gtin => "global trade item number of the luminaire",
        Field::Identification => "identification number of the luminaire",
        Field::Year => "year of manufacture",
        Field::Week => "week of manufacture",
        Field::InputPower => "nominal input power",
        Field::MinDimPower => "power at the minimum dim level",
        Field::MinVoltage => "nominal minimum AC mains voltage",
        Field::MaxVoltage => "nominal maximum AC mains voltage",
        Field::LightOutput => "nominal light output",
        Field::Cri => "colour rendering index",
        Field::Cct => "correlated colour temperature",
        Field::Distribution => "light distribution type",
        Field::Colour => "colour of the luminaire",
        Field::Luminaire => "identification of the luminaire",
    }
}

/// The unit of a field's number as JSON, or null.
#[tactic(auto, unfolding(json::specs::Print::escape_byte))]
pub(crate) fn unit_of(field: Field) -> &'static str
    ensures { result.now ≡ compact_text (unit_data field) }
{
    match field {
        Field::InputPower | Field::MinDimPower => "\"W\"",
        Field::MinVoltage | Field::MaxVoltage => "\"V\"",
        Field::LightOutput => "\"lm\"",
        Field::Cct => "\"K\"",
        _ => "null",
    }
}
