// The lines that a person watches.
use crate::progress::Watched;
use crate::watch_state::{AtHand, WatchState};
use std::fmt;

// The frames that giving a short address takes where nothing is lost.
const FRAMES_A_UNIT: u64 = 97;

// All short addresses.
const ADDRESSES: u64 = 64;

/// How far a command is.
#[derive(Clone, Copy)]
pub(crate) struct Now {
    pub(crate) watched: Watched,
    pub(crate) state: WatchState,
}

impl fmt::Display for Now {
    fn fmt<W: fmt::Write>(&self, f: &mut fmt::Formatter<W>) -> fmt::Result {
        match self.watched {
            Watched::Drive(_) => self.write_order(f),
            Watched::Verify => self.write_compared(f),
            Watched::Read => self.write_unit(f),
            Watched::Scan(units) => self.write_asked(f, units),
            Watched::Address(units) => self.write_found(f, units),
            Watched::List => self.write_listed(f),
        }
    }
}

impl Now {
    fn write_order<W: fmt::Write>(&self, f: &mut fmt::Formatter<W>) -> fmt::Result {
        let Some(order) = self.state.at_hand else {
            return Ok(());
        };
        self.write_place(f, &order)?;
        let id = order.id;
        let unit = order.unit;
        let frames = order.tally.frames;
        write!(f, "order {id} unit {unit}, frame {frames}")?;
        if let Some(expected) = order.expected {
            write!(f, " of {expected}")?;
        }
        let misses = order.tally.misses;
        write!(f, ", misses {misses}")?;
        match order.expected {
            Some(_) => self.write_left(f, order.left().saturating_add(self.state.ahead)),
            None => Ok(()),
        }
    }

    // Which of the orders it is.
    fn write_place<W: fmt::Write>(&self, f: &mut fmt::Formatter<W>, order: &AtHand) -> fmt::Result {
        let given = self.state.given;
        match self.state.orders {
            _ if order.is_resumed => f.write_str("left unfinished: "),
            Some(orders) => write!(f, "{given} of {orders}: "),
            None => write!(f, "{given}: "),
        }
    }

    fn write_compared<W: fmt::Write>(&self, f: &mut fmt::Formatter<W>) -> fmt::Result {
        let order = self.state.given.saturating_add(1);
        let orders = self.state.orders.unwrap_or(order);
        write!(f, "{order} of {orders}: ")?;
        self.write_unit(f)?;
        let expected = self.state.expected();
        write!(f, " of {expected}")?;
        self.write_left(f, expected.saturating_sub(self.state.frames))
    }

    fn write_asked<W: fmt::Write>(&self, f: &mut fmt::Formatter<W>, units: u64) -> fmt::Result {
        let asked = self.state.units.max(1);
        write!(f, "{asked} of {units}: ")?;
        self.write_unit(f)?;
        self.write_to_ask(f, asked, units)
    }

    // The time that the addresses take that weren't asked yet.
    fn write_to_ask<W: fmt::Write>(
        &self,
        f: &mut fmt::Formatter<W>,
        asked: u64,
        units: u64,
    ) -> fmt::Result {
        let to_ask = units.saturating_sub(asked);
        self.write_left(f, self.state.frames.saturating_mul(to_ask) / asked.max(1))
    }

    fn write_found<W: fmt::Write>(&self, f: &mut fmt::Formatter<W>, units: u64) -> fmt::Result {
        let found = self.state.found.count();
        let frames = self.state.frames;
        if units == 0 {
            return write!(f, "found {found}, frame {frames}");
        }
        write!(f, "found {found} of {units}, frame {frames}")?;
        let each = (frames / found.max(1)).max(FRAMES_A_UNIT);
        self.write_left(f, each.saturating_mul(units.saturating_sub(found)))
    }

    fn write_listed<W: fmt::Write>(&self, f: &mut fmt::Formatter<W>) -> fmt::Result {
        let asked = self.state.units.max(1);
        let found = self.state.found.count();
        let frames = self.state.frames;
        write!(f, "{asked} of {ADDRESSES}: found {found}, frame {frames}")?;
        self.write_to_ask(f, asked, ADDRESSES)
    }

    fn write_unit<W: fmt::Write>(&self, f: &mut fmt::Formatter<W>) -> fmt::Result {
        if let Some(unit) = self.state.unit {
            write!(f, "unit {unit}, ")?;
        }
        let frames = self.state.frames;
        write!(f, "frame {frames}")
    }

    // The time that this many more frames should take.
    fn write_left<W: fmt::Write>(&self, f: &mut fmt::Formatter<W>, frames: u64) -> fmt::Result {
        match self.state.meter.seconds_for(frames) {
            Some(seconds) => {
                let left = Seconds(seconds);
                write!(f, ", left {left}")
            }
            None => Ok(()),
        }
    }
}

/// The totals of a command.
#[derive(Clone, Copy)]
pub(crate) struct Totals {
    pub(crate) watched: Watched,
    pub(crate) state: WatchState,
}

impl fmt::Display for Totals {
    fn fmt<W: fmt::Write>(&self, f: &mut fmt::Formatter<W>) -> fmt::Result {
        match self.watched {
            Watched::Drive(_) => self.write_driven(f)?,
            Watched::Verify => self.write_verified(f)?,
            Watched::Read | Watched::Scan(_) => {
                let frames = self.state.frames;
                write!(f, "frames {frames}")?;
            }
            Watched::Address(_) | Watched::List => {
                let found = self.state.found.count();
                let frames = self.state.frames;
                write!(f, "found {found}, frames {frames}")?;
            }
        }
        match self.state.meter.seconds() {
            Some(seconds) => {
                let seconds = Seconds(seconds);
                write!(f, ", time {seconds}")
            }
            None => Ok(()),
        }
    }
}

impl Totals {
    fn write_driven<W: fmt::Write>(&self, f: &mut fmt::Formatter<W>) -> fmt::Result {
        if self.state.is_new {
            f.write_str("new journal, ")?;
        }
        self.write_undone(f, "not done")?;
        let WatchState {
            good,
            known,
            frames,
            misses,
            ..
        } = self.state;
        write!(
            f,
            "written now {good}, known before {known}, frames {frames}, misses {misses}"
        )
    }

    fn write_verified<W: fmt::Write>(&self, f: &mut fmt::Formatter<W>) -> fmt::Result {
        self.write_undone(f, "not the same")?;
        let WatchState { good, frames, .. } = self.state;
        write!(f, "the same {good}, frames {frames}")
    }

    // The count of orders under this name, which ones, and how many weren't reached.
    fn write_undone<W: fmt::Write>(&self, f: &mut fmt::Formatter<W>, name: &str) -> fmt::Result {
        let count = self.state.undone.count;
        write!(f, "{name} {count}")?;
        self.write_named(f)?;
        let left = self.state.unreached();
        if left > 0 {
            write!(f, ", not reached {left}")?;
        }
        f.write_str(", ")
    }

    // The numbers of the first ones.
    fn write_named<W: fmt::Write>(&self, f: &mut fmt::Formatter<W>) -> fmt::Result {
        let named = self.state.undone.named();
        if named.is_empty() {
            return Ok(());
        }
        f.write_char(':')?;
        for id in named {
            write!(f, " {id}")?;
        }
        if self.state.undone.count > named.len() as u64 {
            f.write_str(" ..")?;
        }
        Ok(())
    }
}

// A time, as 1:05 or 1:00:05.
#[derive(Clone, Copy)]
struct Seconds(u64);

impl fmt::Display for Seconds {
    fn fmt<W: fmt::Write>(&self, f: &mut fmt::Formatter<W>) -> fmt::Result {
        let seconds = self.0 % 60;
        let minutes = self.0 / 60 % 60;
        let hours = self.0 / 3600;
        if hours > 0 {
            write!(f, "{hours}:{minutes:02}:{seconds:02}")
        } else {
            write!(f, "{minutes}:{seconds:02}")
        }
    }
}
