// The progress of a command over a link, as a person sees it: one line on standard error, drawn again in place. Nothing
// depends on it, and no contract says what it shows.
ghost use Rattle.std.specs.Prelude.{◌≡◌, is_some};

use crate::expected::{drive_frames, verify_frames};
use crate::progress_line::{Now, Totals};
use crate::watch_state::WatchState;
use dali_bank::Order;
use dali_journal::{Code, Journal, Record};
use dali_read::Finding;
use dali_trace::{Happening, Reply};
use dali_write::Pace;
use std::alloc::{AllocError, Global};
use std::cell::Cell;
use std::io::{IsTerminal, Write};

// The line is drawn again at most every 16 frames.
const FRAMES_BETWEEN: u64 = 16;

// The columns of a terminal whose width isn't known.
const COLUMNS: usize = 80;

// The cursor goes to the beginning of its line, and the line is cleared.
const CLEARED: &str = "\r\x1B[K";

// Text past the last column stays there, and doesn't go to the next line; `WRAPPED` undoes that.
const UNWRAPPED: &str = "\x1B[?7l";

const WRAPPED: &str = "\x1B[?7h";

// How a line begins that tells of a unit and its random address.
const UNIT_LINE: &str = "unit ";

/// The kind of progress that is shown.
#[derive(Clone, Copy, PartialEq, Eq)]
pub enum Watched {
    /// Orders are carried out by this plan.
    Drive(Pace),
    /// Units are compared with orders.
    Verify,
    /// A unit is read.
    Read,
    /// So many addresses are asked whether a unit answers.
    Scan(u64),
    /// Units are found: this many, or 0 if it isn't known how many there are.
    Address(u64),
    /// The 64 short addresses are asked who has them.
    List,
}

/// The progress of a command over a link. On a terminal it is one line, drawn again in place at most every 16 frames
/// and never wider than the terminal; there and elsewhere, at the end, it is a line of totals.
#[derive(Drop)]
pub struct Progress {
    rt: HostRuntime,
    watched: Watched,
    // The terminal's width, if standard error is one.
    columns: Option<usize>,
    state: Cell<WatchState>,
    screen: Cell<Screen>,
}

// The state of the screen.
#[derive(Clone, Copy)]
struct Screen {
    // Whether the line does.
    is_drawn: bool,
    // The frames since it was drawn last.
    since: u64,
    // Whether the command reached its work, so that there are totals.
    has_begun: bool,
}

/// The progress that a person watches, if asked for.
pub fn progress_of(rt: HostRuntime, asked: bool, watched: Watched) -> Option<Progress>
    ensures { is_some result ≡ asked }
{
    if asked {
        Some(Progress::new(rt, watched))
    } else {
        None
    }
}

impl Progress {
    fn new(rt: HostRuntime, watched: Watched) -> Progress {
        let columns = if rt.stderr().is_terminal() {
            Some(columns(rt))
        } else {
            None
        };
        Progress {
            rt,
            watched,
            columns,
            state: Cell::new(WatchState::new()),
            screen: Cell::new(Screen {
                is_drawn: false,
                since: FRAMES_BETWEEN,
                has_begun: false,
            }),
        }
    }

    // These are all orders of the command.
    pub(crate) fn expect(&self, orders: &[Order]) {
        let mut state = self.state.get();
        state.orders = Some(orders.len() as u64);
        for order in orders {
            state.ahead = state.ahead.saturating_add(self.frames_of(order));
        }
        self.state.set(state);
        if self.watched == Watched::Verify {
            self.begin();
        }
    }

    // The frames that an order should take.
    fn frames_of(&self, order: &Order) -> u64 {
        match self.watched {
            Watched::Drive(pace) => drive_frames(order, pace),
            _ => verify_frames(order),
        }
    }

    // The command reached its work.
    fn begin(&self) {
        let mut screen = self.screen.get();
        screen.has_begun = true;
        self.screen.set(screen);
    }

    // A drive begins with this journal.
    pub(crate) fn resume(&self, journal: &Journal) {
        let mut state = self.state.get();
        state.resume(journal);
        state.meter.start(&self.rt);
        self.state.set(state);
        self.begin();
    }

    // This happened in a drive, and this is the journal after it.
    pub(crate) fn see(&self, happening: &Happening, journal: &Journal) {
        let Watched::Drive(pace) = self.watched else {
            return;
        };
        let mut state = self.state.get();
        match happening {
            Happening::Asked(order, _) => {
                state.ask(order, journal, pace);
                state.meter.start(&self.rt);
            }
            Happening::Sent(frame, answer) => state.exchange(frame, *answer),
            Happening::Kept(Record::Ended(_)) => state.end(),
            Happening::Answered(_, Reply::Taken) => {}
            Happening::Answered(id, reply) => {
                state.meter.look(&self.rt);
                state.answer(*id, matches!(reply, Reply::Kept(Code::Done)));
            }
            Happening::Kept(_) | Happening::Stopped(_) | Happening::Powered(_) => {}
        }
        self.state.set(state);
        if let Happening::Sent(_, _) = happening {
            self.draw_in_turn();
        }
    }

    // This was found of an order.
    pub(crate) fn find(&self, order: &Order, found: Option<Finding>) {
        let mut state = self.state.get();
        state.meter.look(&self.rt);
        state.compare(order, found == Some(Finding::Same));
        self.state.set(state);
    }

    // These bytes of frames went to the link. The frames of a drive are passed on by its report.
    pub(crate) fn send(&self, bytes: &[u8]) {
        if let Watched::Drive(_) = self.watched {
            return;
        }
        self.begin();
        let mut state = self.state.get();
        if state.meter.is_new() {
            state.meter.start(&self.rt);
        }
        state.count();
        if let Some(word) = word_in(bytes) {
            state.meet(unit_in(word));
            state.found.see(word);
        }
        self.state.set(state);
        self.draw_in_turn();
    }

    // One more frame was sent.
    fn draw_in_turn(&self) {
        let mut screen = self.screen.get();
        screen.since = screen.since.saturating_add(1);
        let is_due = screen.since >= FRAMES_BETWEEN;
        if is_due {
            screen.since = 0;
        }
        self.screen.set(screen);
        if is_due {
            self.draw();
        }
    }

    // Draws the line, if there is a terminal, and memory for it.
    fn draw(&self) {
        let Some(columns) = self.columns else {
            return;
        };
        let mut state = self.state.get();
        state.meter.look(&self.rt);
        self.state.set(state);
        let line = Now {
            watched: self.watched,
            state,
        };
        if let Ok(text) = drawn(self.rt.alloc(), line, columns) {
            let mut screen = self.screen.get();
            screen.is_drawn = true;
            self.screen.set(screen);
            let _ = self.rt.stderr().write_all(text.as_slice());
        }
    }

    // These bytes of lines take the place of the one that is drawn. A unit that they name is one that was found.
    pub(crate) fn tell(&self, bytes: &[u8]) {
        self.clear();
        if bytes.starts_with(UNIT_LINE.as_bytes()) {
            let mut state = self.state.get();
            state.found.tell();
            self.state.set(state);
        }
    }

    // Clears the line, if it is drawn: another one takes its place.
    fn clear(&self) {
        let mut screen = self.screen.get();
        if screen.is_drawn {
            screen.is_drawn = false;
            self.screen.set(screen);
            let _ = self.rt.stderr().write_all(CLEARED.as_bytes());
        }
    }

    /// The command has ended: its line is cleared, and if it reached its work a line of totals is written.
    pub fn end(&self) {
        self.clear();
        if !self.screen.get().has_begun {
            return;
        }
        let mut state = self.state.get();
        if state.is_at_work() {
            state.meter.look(&self.rt);
        }
        state.close();
        let totals = Totals {
            watched: self.watched,
            state,
        };
        if let Ok(text) = ended(self.rt.alloc(), totals, self.columns) {
            let _ = self.rt.stderr().write_all(text.as_slice());
        }
    }
}

// The two bytes of a frame's line.
fn word_in(line: &[u8]) -> Option<[u8; 2]> {
    let [a, b, c, d, ..] = line else {
        return None;
    };
    Some([byte_of(*a, *b)?, byte_of(*c, *d)?])
}

fn byte_of(high: u8, low: u8) -> Option<u8> {
    let high = char::from(high).to_digit(16)?;
    let low = char::from(low).to_digit(16)?;
    Some((high * 16 + low) as u8)
}

// The unit to which a frame goes, if it goes to one: its address byte is odd and below 80h.
fn unit_in([address, _]: [u8; 2]) -> Option<u8> {
    (address < 0x80 && address % 2 == 1).then_some(address / 2)
}

// The characters that draw a line in the place of the one before.
fn drawn(alloc: Global, line: Now, columns: usize) -> Result<Vec<u8>, AllocError> {
    let line = format!(in alloc; "{line}")?;
    let mut text = Vec::new(alloc);
    let shown = cut(line.as_bytes(), Some(columns));
    for piece in [
        CLEARED.as_bytes(),
        UNWRAPPED.as_bytes(),
        shown,
        WRAPPED.as_bytes(),
    ] {
        text.extend_from_slice(piece)?;
    }
    Ok(text)
}

// The line of totals.
fn ended(alloc: Global, totals: Totals, columns: Option<usize>) -> Result<Vec<u8>, AllocError> {
    let line = format!(in alloc; "{totals}")?;
    let mut text = Vec::from_slice(alloc, cut(line.as_bytes(), columns))?;
    text.push(b'\n')?;
    Ok(text)
}

// As much of a line as fits before the last column.
fn cut(line: &[u8], columns: Option<usize>) -> &[u8] {
    match columns {
        Some(columns) if columns <= line.len() => &line[..columns.saturating_sub(1)],
        _ => line,
    }
}

// How many columns the terminal has, as the environment tells.
fn columns(rt: HostRuntime) -> usize {
    let Ok(told) = std::env::var(&rt, "COLUMNS") else {
        return COLUMNS;
    };
    match told.as_str().parse::<usize>() {
        Ok(columns) if columns > 0 => columns,
        _ => COLUMNS,
    }
}
