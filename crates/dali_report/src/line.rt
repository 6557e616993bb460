// The lines of a report: values of JSON.
ghost use Rattle.std.specs.Prelude.{◌≡◌, IfOk, IsOkAnd, List, false, string_bytes};
ghost use Rattle.serde_json.specs.View.{view, members_view};
ghost use Rattle.serde_json.specs.Data.{string, put};
ghost use Rattle.serde_json.specs.Written.{has_float};
ghost use Rattle.dali_frame.specs.Frame.{IsProper, frame_word};
ghost use Rattle.dali_frame.specs.Hex.{word_digits};
ghost use Rattle.dali_drive.specs.Found.{was_found};
ghost use Rattle.dali_report.specs.Differences.{AreDifferences, Difference, held_bank, wanted_bank};
ghost use Rattle.dali_report.specs.Lines.{last_data, end_data, found_data, number_or_null, code_data, name_data};
ghost use Rattle.dali_report.specs.Lines.{ended_data, escaped, found_text, line_of};
ghost use Rattle.dali_report.specs.Lines.{location_data, byte_data, IsFoundLine, cause_data, cause_of};

use crate::differences::differing_fields;
use dali_bank::Order;
use dali_drive::DriveFault;
use dali_frame::{Frame, word_of};
use dali_read::Finding;
use dali_text::{ByteDigits, WordDigits};
use dali_trace::Reply;
use dali_write::Cause;
use serde_json::{Map, Value};
use std::alloc::{AllocError, Global};
use std::fmt;

/// The line of an order at its last reply.
#[derive(Clone, Copy)]
pub(crate) struct LastReply {
    pub(crate) order: u64,
    // Its short address, if that is known.
    pub(crate) unit: Option<u8>,
    // The moment that the journal has kept under its number.
    pub(crate) moment: Option<u64>,
    pub(crate) reply: Reply,
    pub(crate) ended_now: bool,
    // Why it ended badly, if it ended in this drive.
    pub(crate) cause: Option<Cause>,
    pub(crate) frames: u64,
    pub(crate) misses: u64,
    // The run of the report.
    pub(crate) run: u64,
}

impl LastReply {
    /// Its line.
    pub(crate) fn line(&self, alloc: Global) -> Result<Vec<u8>, AllocError>
        ensures { IfOk result (λ line. line.items ≡ line_of (last_data self.now)) }
    {
        let value = self.value(alloc)?;
        line_of(alloc, &value)
    }

    fn value(&self, alloc: Global) -> Result<Value, AllocError>
        ensures { IfOk result (λ value. view value ≡ last_data self.now) }
    {
        let reply = self.reply;
        let reply = format!(in alloc; "{reply}")?;
        let members = with_made(
            Ok(Map::new(alloc)),
            alloc,
            "unit",
            Ok(byte_or_null(self.unit)),
        );
        let members = with_made(members, alloc, "run", Ok(Value::from(self.run)));
        let members = with_made(members, alloc, "reply", Ok(Value::from(reply)));
        let members = with_made(members, alloc, "order", Ok(Value::from(self.order)));
        let members = with_made(members, alloc, "name", self.name(alloc));
        let members = with_made(members, alloc, "moment", Ok(number_or_null(self.moment)));
        let members = with_made(members, alloc, "misses", Ok(Value::from(self.misses)));
        let members = with_made(members, alloc, "frames", Ok(Value::from(self.frames)));
        let members = with_made(members, alloc, "ended", self.ended(alloc));
        let members = with_made(members, alloc, "code", Ok(self.code()));
        let members = with_made(members, alloc, "cause", cause_value(alloc, self.cause))?;
        Ok(Value::Object(members))
    }

    fn code(&self) -> Value
        ensures { view result ≡ code_data self.now.reply }
    {
        match self.reply {
            Reply::Kept(code) => Value::from(code.number()),
            _ => Value::Null,
        }
    }

    fn name(&self, alloc: Global) -> Result<Value, AllocError>
        ensures { IfOk result (λ value. view value ≡ name_data self.now.reply) }
    {
        match self.reply {
            Reply::Kept(code) => Value::try_from_str(alloc, code.name()),
            _ => Ok(Value::Null),
        }
    }

    // Whether its end was kept in this drive, or is known from the journal.
    fn ended(&self, alloc: Global) -> Result<Value, AllocError>
        ensures { IfOk result (λ value. view value ≡ ended_data self.now.reply self.now.ended_now) }
    {
        match (self.reply, self.ended_now) {
            (Reply::Kept(_), true) => Value::try_from_str(alloc, "now"),
            (Reply::Kept(_), false) => Value::try_from_str(alloc, "before"),
            _ => Ok(Value::Null),
        }
    }
}

// Why an order ended badly.
fn cause_value(alloc: Global, cause: Option<Cause>) -> Result<Value, AllocError>
    ensures { IfOk result (λ value. view value ≡ cause_data cause) }
{
    match cause {
        None => Ok(Value::Null),
        Some(Cause::Unread(location)) => cause_of(alloc, "unread", location, None),
        Some(Cause::Unwritten(location)) => cause_of(alloc, "unwritten", location, None),
        Some(Cause::Another(location, byte)) => cause_of(alloc, "other", location, Some(byte)),
    }
}

fn cause_of(alloc: Global, was: &str, location: u8, byte: Option<u8>) -> Result<Value, AllocError>
    ensures { IfOk result (λ value. view value ≡ cause_of was.now location (number_or_null byte)) }
{
    let was = Value::try_from_str(alloc, was)?;
    let members = with(Map::new(alloc), alloc, "was", was)?;
    let members = with(members, alloc, "location", Value::from(location))?;
    let members = with(members, alloc, "byte", byte_or_null(byte))?;
    Ok(Value::Object(members))
}

// The members of an object, with one more. The last key comes first, so that each is put in front of the others.
pub(crate) fn with(
    mut members: Map<String, Value>,
    alloc: Global,
    key: &str,
    value: Value,
) -> Result<Map<String, Value>, AllocError>
    ensures { IfOk result (λ more. members_view more.entries
        ≡ put key.now (view value) (members_view members.entries)) }
{
    serde_json::put(&mut members, alloc, key, value)?;
    Ok(members)
}

// The same, if both could be made.
fn with_made(
    members: Result<Map<String, Value>, AllocError>,
    alloc: Global,
    key: &str,
    value: Result<Value, AllocError>,
) -> Result<Map<String, Value>, AllocError>
    ensures { IfOk result (λ more. IsOkAnd members (λ was. IsOkAnd value
        (λ value. members_view more.entries ≡ put key.now (view value) (members_view was.entries)))) }
{
    with(members?, alloc, key, value?)
}

// The line of a value that has no float.
fn line_of(alloc: Global, value: &Value) -> Result<Vec<u8>, AllocError>
    requires { has_float (view value.now) ≡ false }
    ensures { IfOk result (λ line. line.items ≡ line_of (view value.now)) }
{
    let mut line = value.to_vec(alloc)?;
    line.push(b'\n')?;
    Ok(line)
}

fn byte_or_null(value: Option<u8>) -> Value
    ensures { view result ≡ number_or_null value }
{
    match value {
        Some(value) => Value::from(value),
        None => Value::Null,
    }
}

fn number_or_null(value: Option<u64>) -> Value
    ensures { view result ≡ number_or_null value }
{
    match value {
        Some(value) => Value::from(value),
        None => Value::Null,
    }
}

/// The line in this run of a fault that broke an exchange off: the frame, and what was read of its answer.
pub(crate) fn end_line(
    alloc: Global,
    run: u64,
    fault: DriveFault,
    frame: &Frame,
    text: &[u8],
) -> Result<Vec<u8>, AllocError>
    requires { IsProper frame.now }
    ensures { IfOk result (λ line. line.items ≡ line_of (end_data run fault frame.now text.now)) }
{
    let value = end_value(alloc, run, fault, frame, text)?;
    line_of(alloc, &value)
}

fn end_value(
    alloc: Global,
    run: u64,
    fault: DriveFault,
    frame: &Frame,
    text: &[u8],
) -> Result<Value, AllocError>
    requires { IsProper frame.now }
    ensures { IfOk result (λ value. view value ≡ end_data run fault frame.now text.now) }
{
    let name = format!(in alloc; "{fault}")?;
    let members = with(Map::new(alloc), alloc, "run", Value::from(run))?;
    let members = with(members, alloc, "name", Value::from(name))?;
    let members = with(members, alloc, "frame", digits_of(alloc, frame)?)?;
    let members = with(members, alloc, "fault", Value::from(fault.number()))?;
    let members = with(members, alloc, "answer", Value::from(escaped(alloc, text)?))?;
    Ok(Value::Object(members))
}

// The digits of a frame's word.
fn digits_of(alloc: Global, frame: &Frame) -> Result<Value, AllocError>
    requires { IsProper frame.now }
    ensures { IfOk result (λ value. view value ≡ string (word_digits (frame_word frame.now))) }
{
    let digits = WordDigits(word_of(frame));
    let text = format!(in alloc; "{digits}")?;
    Ok(Value::from(text))
}

// A text in which each byte that isn't a plain character is written as its two digits.
fn escaped(alloc: Global, bytes: &[u8]) -> Result<String, AllocError>
    ensures { IfOk result (λ text. string_bytes text ≡ escaped bytes.now) }
{
    let mut text = String::new(alloc);
    for &byte in bytes {
        let one = EscapedByte(byte);
        let one = format!(in alloc; "{one}")?;
        text.push_str(one.as_str())?;
    }
    Ok(text)
}

// A byte as JSON and a terminal may show it.
#[derive(Clone, Copy)]
struct EscapedByte(u8);

impl fmt::Display for EscapedByte {
    ghost use Rattle.std.specs.Prelude.{Some};
    ghost use Rattle.dali_report.specs.Lines.{escaped_byte};

    ghost output = { λ byte. Some (escaped_byte byte.0) };

    fn fmt<W: fmt::Write>(&self, f: &mut fmt::Formatter<W>) -> fmt::Result {
        let byte = self.0;
        if (0x20..=0x7E).contains(&byte) && byte != b'\\' {
            f.write_char(char::from(byte))
        } else {
            let digits = ByteDigits(byte);
            write!(f, "\\x{digits}")
        }
    }
}

/// The line in this run of what was found of an order, in all these bytes that were read for it: nothing of a silent
/// unit.
pub(crate) fn found_line(
    alloc: Global,
    run: u64,
    order: &Order,
    found: Option<Finding>,
    read: &[u8],
) -> Result<Vec<u8>, AllocError>
    ensures { IfOk result (λ line. IsFoundLine run (was_found order.now found read.now) line.items) }
{
    let value = found_value(alloc, run, order, found, read)?;
    line_of(alloc, &value)
}

fn found_value(
    alloc: Global,
    run: u64,
    order: &Order,
    found: Option<Finding>,
    read: &[u8],
) -> Result<Value, AllocError>
    ensures { IfOk result (λ value. (differing : List Difference)
        × AreDifferences (held_bank order.now read.now) (wanted_bank order.now) differing
        × (view value ≡ found_data run (was_found order.now found read.now) differing)) }
{
    let members = with(Map::new(alloc), alloc, "unit", Value::from(order.unit()))?;
    let members = with(members, alloc, "run", Value::from(run))?;
    let members = with(members, alloc, "order", Value::from(order.id()))?;
    let members = with(members, alloc, "location", location_of(found))?;
    let text = Value::try_from_str(alloc, found_text(found))?;
    let members = with(members, alloc, "found", text)?;
    let members = with(
        members,
        alloc,
        "differs",
        differing_fields(alloc, order, read)?,
    )?;
    let members = with(members, alloc, "byte", byte_of(found))?;
    Ok(Value::Object(members))
}

fn location_of(found: Option<Finding>) -> Value
    ensures { view result ≡ location_data found }
{
    match found {
        Some(Finding::Other(location, _)) => Value::from(location),
        _ => Value::Null,
    }
}

fn byte_of(found: Option<Finding>) -> Value
    ensures { view result ≡ byte_data found }
{
    match found {
        Some(Finding::Other(_, byte)) => Value::from(byte),
        _ => Value::Null,
    }
}

fn found_text(found: Option<Finding>) -> &'static str
    ensures { result.now ≡ found_text found }
{
    match found {
        None => "silent",
        Some(Finding::Same) => "same",
        Some(Finding::Other(_, _)) => "other",
        Some(Finding::Short) => "short",
        Some(Finding::Format) => "format",
    }
}
