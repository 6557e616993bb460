ghost use Rattle.std.specs.Prelude.{◌≡◌, ◌+◌, ◌<◌, ◌⊎◌, ◌^◌, ◌-◌, ◌||◌, ◌∷◌, List, ℕ, IfNone, false, true};
ghost use Rattle.dali_drive.specs.declared.following.Given.{Given};
ghost use Rattle.dali_drive.specs.Followed.{with_next};
ghost use Rattle.dali_link_commands.specs.LineBuffers.{Holds};
ghost use Rattle.dali_link_commands.specs.LinesGave.{Gave, IsOver, LineGives, ready_line as line_when_ready, refuses};

use crate::follow::OrderSource;
use crate::stream::fault::item_line;
use crate::stream::judging::judge_line;
use crate::stream::line_buffer::LineBuffer;
use crate::stream::reading::{LineEnd, read_line};
use dali_drive::{Given, Line, Orders, Source, push_text};
use std::alloc::Global;
use std::io::ErrorKind;

/// Orders that a source gives in lines (profile). A line is a value of JSON of at most 16,384 bytes: an object with the
/// key "submit" is a submission as in a scenario, and any other value is an order itself, submitted at the moment that
/// the stream has. A line that is refused is printed as `item I order N fault F NAME`, where I counts the lines from 1,
/// with `order N` only if the item has a whole number for its order; one of spaces, tabs and carriage returns alone is
/// passed over. A line ends at its line feed, the last one also where the stream ends.
///
/// First of all, and before a byte is read, it gives the line `ready`: the drive that asks for an order is ready to
/// take one. A line is read when the next order is wanted, and no further. No more is held than one line.
#[derive(Drop)]
pub struct OrderLines<R> {
    alloc: Global,
    source: R,
    moment: u64,
    // How many lines were read.
    count: u64,
    // Whether one was refused.
    has_refused: bool,
    // Whether `ready` was given: lines are read from here on.
    is_begun: bool,
    // Whether no more is read: the stream has ended, or it was broken off.
    is_over: bool,
    buffer: LineBuffer,
}

impl<R: Source> OrderLines<R> {
    ghost use Rattle.dali_link_commands.specs.LinesGave.{state_of};

    /// The orders of a source, of which no line was read. An order without a moment is submitted at this one.
    pub fn new(alloc: Global, source: R, moment: u64) -> OrderLines<R>
        ensures { state_of result ≡ record {
          source = source;
          moment = moment;
          count = 0;
          has_refused = false;
          is_begun = false;
          is_over = false;
        } }
    {
        OrderLines {
            alloc,
            source,
            moment,
            count: 0,
            has_refused: false,
            is_begun: false,
            is_over: false,
            buffer: LineBuffer::new(),
        }
    }

    // Tells that lines are read from here on.
    fn begin(&mut self) -> Given
        requires { self.old.is_begun ≡ false }
        ensures given { (first : OrderLines R) (given : List Given) → Gave R.left R.failed first self.old given
            → Gave R.left R.failed first self.new (result ∷ given) }
    {
        self.is_begun = true;
        Given::Line(ready_line())
    }

    // Reads lines up to the next one that gives something, if there is one.
    fn next_given(&mut self) -> Option<Given>
        requires { self.old.is_begun ≡ true }
        ensures given { (first : OrderLines R) (given : List Given) → Gave R.left R.failed first self.old given
            → Gave R.left R.failed first self.new (with_next result given) }
        ensures over { IfNone result (IsOver self.new) }
    {
        while !self.is_over && self.count < u64::MAX {
            if let Some(given) = self.take_line() {
                return Some(given);
            }
        }
        None
    }

    // Reads the next line, and gives its result: nothing if it is blank, or if there is none.
    fn take_line(&mut self) -> Option<Given>
        requires goes_on { self.old.is_over ≡ false }
        requires more { self.old.count < 2 ^ 64 - 1 }
        requires begun { self.old.is_begun ≡ true }
        ensures begun { self.new.is_begun ≡ true }
        ensures given { (first : OrderLines R) (given : List Given) → Gave R.left R.failed first self.old given
            → Gave R.left R.failed first self.new (with_next result given) }
        ensures counted { ((self.new.is_over ≡ true) × (self.new.count ≡ self.old.count))
            ⊎ (self.new.count ≡ self.old.count + 1) }
    {
        match read_line(&mut self.source, &mut self.buffer) {
            LineEnd::LineFeed => {}
            LineEnd::Stream => {
                self.is_over = true;
                if self.buffer.is_empty() {
                    return None;
                }
            }
            LineEnd::Broken => {
                self.is_over = true;
                return None;
            }
        }
        self.count += 1;
        self.judge()
    }

    // The result of the line that was read.
    fn judge(&mut self) -> Option<Given>
        ensures given { (line : List ℕ) → Holds self.old.buffer line
            → LineGives self.old.count self.old.moment line result }
        ensures same { self.new ≡ record self.old { has_refused = self.old.has_refused || refuses result } }
    {
        if self.buffer.is_blank {
            return None;
        }
        match judge_line(self.alloc, &self.buffer, self.moment) {
            Ok((order, moment)) => Some(Given::Order(order, moment)),
            Err(refused) => {
                self.has_refused = true;
                Some(Given::Line(item_line(self.count, refused)))
            }
        }
    }
}

impl<R: Source> Orders for OrderLines<R> {
    ghost use Rattle.dali_link_commands.specs.LinesGave.{Gave, IsOver, gave_none};

    ghost gave = { Gave R.left R.failed };

    ghost over = { IsOver };

    fn next(&mut self) -> Option<Given> {
        if self.is_begun {
            self.next_given()
        } else {
            Some(self.begin())
        }
    }

    ghost gave_none = { gave_none R.left R.failed };
}

impl<R: Source> OrderSource for OrderLines<R> {
    ghost use Rattle.dali_link_commands.specs.LinesGave.{state_of};

    ghost failed = { λ lines. R.failed (state_of lines).source };

    ghost refused = { λ lines. (state_of lines).has_refused };

    fn has_failed(&self) -> bool {
        self.source.has_failed()
    }

    fn has_refused(&self) -> bool {
        self.has_refused
    }

    fn cause(&self) -> Option<ErrorKind> {
        self.source.cause()
    }
}

// The line that tells that lines are read from here on.
fn ready_line() -> Line
    ensures { result.items ≡ line_when_ready }
{
    let mut line = Line::new();
    push_text(&mut line, "ready\n");
    line
}
