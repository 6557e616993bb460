// A line of a file as seen by a report.
ghost use Rattle.std.specs.Prelude.{◌≡◌, ◌+◌, ◌-◌, ◌^◌, ◌≤◌, IfOk, min};
ghost use Rattle.serde_json.specs.View.{view};
ghost use Rattle.dali_report.specs.Seen.{IsSeen, begin_alike, begins_so as beginning, has as has_key, has_count};
ghost use Rattle.dali_report.specs.Seen.{is_end as end_with, is_found as found_with, is_last as last_with};
ghost use Rattle.dali_report.specs.Seen.{is_line as line_with, is_newest as newest, run_in as run_told, seen_by};
ghost use Rattle.dali_report.specs.Seen.{told_run as run_at};

use serde_json::Value;
use std::alloc::{AllocError, Global};

/// The most bytes of a line, without its line feed. The longest one, of a unit that differs from an order in each
/// field, has 1276.
pub const LINE_LIMIT: usize = 2048;

/// A line of a file as seen by a report.
#[derive(Clone, Copy, PartialEq, Eq)]
pub enum Seen {
    /// A line of this run; 0 if it tells none, as one of an earlier version.
    Line(u64),
    /// A first part of a line, which a kill or a full disk left: also one of no byte.
    Torn,
    /// Neither.
    Other,
}

/// A line as seen, without its line feed.
pub fn look_at(alloc: Global, line: &[u8]) -> Result<Seen, AllocError>
    ensures { IfOk result (IsSeen line.now) }
{
    match Value::from_slice(alloc, line) {
        Ok(value) => Ok(seen_in(&value)),
        Err(error) if error.is_memory() => Err(AllocError),
        Err(_) if begins_so(line) => Ok(Seen::Torn),
        Err(_) => Ok(Seen::Other),
    }
}

/// The run after the last one: the first is 1.
pub fn run_behind(last: u64) -> u64
    ensures { result ≡ min (last + 1) (2 ^ 64 - 1) }
{
    last.saturating_add(1)
}

// A line of JSON as seen.
fn seen_in(value: &Value) -> Seen
    ensures { result ≡ seen_by (run_told (view value.now)) }
{
    match run_in(value) {
        Some(run) => Seen::Line(run),
        None => Seen::Other,
    }
}

// Of which run a line is.
fn run_in(value: &Value) -> Option<u64>
    ensures { result ≡ run_told (view value.now) }
{
    if is_line(value, 0) {
        Some(0)
    } else if is_line(value, 1) || is_newest(value) {
        told_run(value)
    } else {
        None
    }
}

// The run that a line tells.
fn told_run(value: &Value) -> Option<u64>
    ensures { result ≡ run_at (view value.now) }
{
    match value.get("run") {
        Some(run) => run.as_u64(),
        None => None,
    }
}

// Whether it has the keys of a kind of lines, and `more` others.
fn is_line(value: &Value, more: usize) -> bool
    requires { more ≤ 1 }
    ensures { result ≡ line_with more (view value.now) }
{
    is_last(value, more) || is_end(value, more) || is_found(value, more)
}

fn is_last(value: &Value, more: usize) -> bool
    requires { more ≤ 2 }
    ensures { result ≡ last_with more (view value.now) }
{
    counts(value, 9 + more)
        && has(value, "code")
        && has(value, "ended")
        && has(value, "frames")
        && has(value, "misses")
        && has(value, "moment")
        && has(value, "name")
        && has(value, "order")
        && has(value, "reply")
        && has(value, "unit")
}

fn is_end(value: &Value, more: usize) -> bool
    requires { more ≤ 1 }
    ensures { result ≡ end_with more (view value.now) }
{
    counts(value, 4 + more)
        && has(value, "answer")
        && has(value, "fault")
        && has(value, "frame")
        && has(value, "name")
}

// Whether it is a line of a verification that tells the fields in which the unit differs, or of a drive that tells a
// cause.
fn is_newest(value: &Value) -> bool
    ensures { result ≡ newest (view value.now) }
{
    (is_found(value, 2) && has(value, "differs")) || (is_last(value, 2) && has(value, "cause"))
}

fn is_found(value: &Value, more: usize) -> bool
    requires { more ≤ 2 }
    ensures { result ≡ found_with more (view value.now) }
{
    counts(value, 5 + more)
        && has(value, "byte")
        && has(value, "found")
        && has(value, "location")
        && has(value, "order")
        && has(value, "unit")
}

// Whether it is an object of this many members.
fn counts(value: &Value, count: usize) -> bool
    ensures { result ≡ has_count count (view value.now) }
{
    match value.as_object() {
        Some(members) => members.len() == count,
        None => false,
    }
}

fn has(value: &Value, key: &str) -> bool
    ensures { result ≡ has_key (view value.now) key.now }
{
    value.get(key).is_some()
}

// Whether a line that is no JSON begins as a line of a report does.
fn begins_so(line: &[u8]) -> bool
    ensures { result ≡ beginning line.now }
{
    begins_as(line, b"{\"code\":")
        || begins_as(line, b"{\"answer\":")
        || begins_as(line, b"{\"byte\":")
        || begins_as(line, b"{\"cause\":")
}

// Whether both begin alike, as far as the shorter one goes.
fn begins_as(one: &[u8], other: &[u8]) -> bool
    ensures { result ≡ begin_alike one.now other.now }
{
    let count = one.len().min(other.len());
    one[..count] == other[..count]
}
