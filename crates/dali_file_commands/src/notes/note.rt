ghost use Rattle.std.specs.Prelude.{◌↔◌, ℕ, List, [], IsTrue, OnOk, length};
ghost use Rattle.dali_text.specs.Output.{TellsFailure, Takes};
ghost use Rattle.dali_file_commands.specs.NoteLines.{ArePlain, AreLines, IsLine, SomeAbout, SomeLines, Tells, front_text};

use crate::notes::first_lines::MOST_LINES;
use crate::notes::front::Front;
use dali_text::{Output, OutputFailed};
use std::alloc::Global;
use std::fmt::Display;
use std::io::Write;

// The most lines that are kept of one note: one more than are written, so that it shows that there are more.
const MOST: usize = MOST_LINES + 1;

// The line if there was no memory for a line.
const NO_MEMORY: &str = "there is no memory to tell what is wrong";

// The line in place of words that a terminal might not show as they are.
const NOT_PLAIN: &str = "what is wrong can't be shown";

/// The notes for a person on one fault, line by line (profile). Lines after the first 1001, and those for which there
/// is no memory, are left out.
#[derive(Drop)]
pub struct Note {
    alloc: Global,
    lines: Vec<String>,
    // The number of the order that it is about, if it is about one.
    order: Option<u64>,
}

impl Note {
    /// A note with no line yet.
    pub fn new(alloc: Global) -> Note {
        Note::of_order(alloc, None)
    }

    // A note with no line yet about an order, which has this number, if any.
    pub(crate) fn of_order(alloc: Global, order: Option<u64>) -> Note {
        Note {
            alloc,
            lines: Vec::new(alloc),
            order,
        }
    }

    /// Adds a line of these words.
    pub fn add<D: Display + Drop>(&mut self, words: D) {
        if !self.is_full() {
            if let Ok(line) = String::format(self.alloc, words) {
                let _ = self.lines.push(line);
            }
        }
    }

    // Whether it has a line.
    pub(crate) fn has_a_line(&self) -> bool {
        self.lines.len() > 0
    }

    // Whether no more lines are kept.
    pub(crate) fn is_full(&self) -> bool {
        self.lines.len() == MOST
    }

    /// Tells its lines, at least one.
    pub fn tell<N: Write>(&self, notes: &mut Output<N>)
        ensures { Tells N.contents notes.old notes.new (SomeLines []) }
    {
        let _ = tell_all(notes, Front::Nothing, self.lines.as_slice());
    }

    /// Tells its lines, at least one, of the thing that has this number.
    pub fn tell_about<N: Write>(&self, notes: &mut Output<N>, what: &str, number: u64)
        ensures { Tells N.contents notes.old notes.new (SomeAbout what.now number) }
    {
        let front = match self.order {
            Some(order) => Front::Order(what, number, order),
            None => Front::Numbered(what, number),
        };
        let _ = tell_all(notes, front, self.lines.as_slice());
    }
}

// Writes the lines, and if there are none, one.
fn tell_all<N: Write>(
    notes: &mut Output<N>,
    front: Front<'_>,
    lines: &[String],
) -> Result<(), OutputFailed>
    ensures told { OnOk result ((text : List ℕ) × SomeLines (front_text front.entry) text
        × Takes N.contents notes.old notes.new text) }
    ensures failed { TellsFailure result notes.old notes.new }
{
    if lines.is_empty() {
        return tell_line(notes, front, NO_MEMORY);
    }
    tell_lines(notes, front, lines)
}

// Tells the lines.
fn tell_lines<N: Write>(
    notes: &mut Output<N>,
    front: Front<'_>,
    lines: &[String],
) -> Result<(), OutputFailed>
    ensures told { OnOk result ((text : List ℕ) × AreLines (front_text front.entry) (length lines.now) text
        × Takes N.contents notes.old notes.new text) }
    ensures failed { TellsFailure result notes.old notes.new }
{
    for line in lines {
        tell_line(notes, front, line.as_str())?;
    }
    Ok(())
}

// Writes a line of these words, if a terminal shows them as they are.
fn tell_line<N: Write>(
    notes: &mut Output<N>,
    front: Front<'_>,
    words: &str,
) -> Result<(), OutputFailed>
    ensures told { OnOk result ((line : List ℕ) × IsLine (front_text front.entry) line
        × Takes N.contents notes.old notes.new line) }
    ensures failed { TellsFailure result notes.old notes.new }
{
    let words = plain(words);
    writeln!(notes, "{front}{words}")
}

// The words, if they are plain.
fn plain(words: &str) -> &str
    ensures { ArePlain result.now }
{
    if are_plain(words.as_bytes()) {
        words
    } else {
        NOT_PLAIN
    }
}

fn are_plain(words: &[u8]) -> bool
    ensures { IsTrue result ↔ ArePlain words.now }
{
    words.iter().all(|byte| matches!(byte, b' '..=b'~'))
}
