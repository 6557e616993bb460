// How far a command over a link is, as a person watches it.
use crate::attempt::Attempt;
use crate::expected::{CLOSING, drive_frames, verify_frames};
use crate::found_units::FoundUnits;
use crate::meter::Meter;
use crate::tally::Tally;
use dali_bank::Order;
use dali_frame::Frame;
use dali_journal::{Journal, Standing};
use dali_write::Pace;

// At most this many orders that aren't done are listed by their numbers.
const MOST_NAMED: usize = 8;

/// Orders that aren't done: how many, and the numbers of the first ones.
#[derive(Clone, Copy)]
pub(crate) struct Undone {
    pub(crate) count: u64,
    named: [u64; MOST_NAMED],
}

impl Undone {
    fn new() -> Undone {
        Undone {
            count: 0,
            named: [0; MOST_NAMED],
        }
    }

    pub(crate) fn add(&mut self, id: u64) {
        if self.count < MOST_NAMED as u64 {
            self.named[self.count as usize] = id;
        }
        self.count = self.count.saturating_add(1);
    }

    /// The numbers of the first ones.
    pub(crate) fn named(&self) -> &[u64] {
        if self.count < MOST_NAMED as u64 {
            &self.named[..self.count as usize]
        } else {
            &self.named
        }
    }
}

/// The order that is carried out.
#[derive(Clone, Copy)]
pub(crate) struct AtHand {
    pub(crate) id: u64,
    pub(crate) unit: u8,
    /// Whether a journal had left it unfinished.
    pub(crate) is_resumed: bool,
    /// Whether its end was kept.
    pub(crate) has_ended: bool,
    pub(crate) tally: Tally,
    attempt: Attempt,
    /// The frames that it should take, if that is known.
    pub(crate) expected: Option<u64>,
}

impl AtHand {
    fn new(order: &Order, is_resumed: bool, expected: Option<u64>) -> AtHand {
        AtHand {
            id: order.id(),
            unit: order.unit(),
            is_resumed,
            has_ended: false,
            tally: Tally::new(),
            attempt: Attempt::new(),
            expected,
        }
    }

    // One more frame of it, with this answer or none.
    fn add(&mut self, frame: &Frame, answer: Option<u8>) {
        let misses = self.tally.misses;
        self.tally.add(frame, answer);
        let more = self.attempt.add(frame, self.tally.misses > misses);
        if let Some(expected) = self.expected {
            self.expected = Some(expected.saturating_add(more).max(self.tally.frames));
        }
    }

    /// The frames that it should still take.
    pub(crate) fn left(&self) -> u64 {
        match self.expected {
            Some(expected) => expected.saturating_sub(self.tally.frames),
            None => 0,
        }
    }
}

/// How far a command is.
#[derive(Clone, Copy)]
pub(crate) struct WatchState {
    /// How many orders there are, if that is known.
    pub(crate) orders: Option<u64>,
    /// How many of them came so far.
    pub(crate) given: u64,
    /// The frames that the orders after the one at hand should take.
    pub(crate) ahead: u64,
    pub(crate) at_hand: Option<AtHand>,
    /// The unit that was asked last, and how many were, one after the other.
    pub(crate) unit: Option<u8>,
    pub(crate) units: u64,
    // The frames before the order that is compared.
    before: u64,
    /// All frames and misses.
    pub(crate) frames: u64,
    pub(crate) misses: u64,
    /// The orders that are done by this command, or are the same; and those that were done before.
    pub(crate) good: u64,
    pub(crate) known: u64,
    /// Whether the journal had no order when the drive began.
    pub(crate) is_new: bool,
    pub(crate) undone: Undone,
    pub(crate) found: FoundUnits,
    pub(crate) meter: Meter,
}

impl WatchState {
    /// Before anything.
    pub(crate) fn new() -> WatchState {
        WatchState {
            orders: None,
            given: 0,
            ahead: 0,
            at_hand: None,
            unit: None,
            units: 0,
            before: 0,
            frames: 0,
            misses: 0,
            good: 0,
            known: 0,
            is_new: false,
            undone: Undone::new(),
            found: FoundUnits::new(),
            meter: Meter::new(),
        }
    }

    /// A drive begins with this journal, which may leave an order to be done.
    pub(crate) fn resume(&mut self, journal: &Journal) {
        self.is_new = journal.orders() == 0;
        if let Standing::Began(order) | Standing::Opened(order) = journal.standing() {
            self.at_hand = Some(AtHand::new(&order, true, None));
        }
    }

    /// An order was asked, by this plan.
    pub(crate) fn ask(&mut self, order: &Order, journal: &Journal, pace: Pace) {
        let frames = drive_frames(order, pace);
        let closing = match journal.standing() {
            Standing::Left(_) => CLOSING,
            _ => 0,
        };
        self.given = self.given.saturating_add(1);
        self.ahead = self.ahead.saturating_sub(frames);
        let expected = frames.saturating_add(closing);
        self.at_hand = Some(AtHand::new(order, false, Some(expected)));
    }

    /// A frame was sent for the order at hand, with this answer or none.
    pub(crate) fn exchange(&mut self, frame: &Frame, answer: Option<u8>) {
        self.count();
        if let Some(mut order) = self.at_hand {
            let misses = order.tally.misses;
            order.add(frame, answer);
            self.misses = self
                .misses
                .saturating_add(order.tally.misses.saturating_sub(misses));
            self.at_hand = Some(order);
        }
    }

    /// The end of the order at hand was kept.
    pub(crate) fn end(&mut self) {
        if let Some(mut order) = self.at_hand {
            order.has_ended = true;
            self.at_hand = Some(order);
        }
    }

    /// The order of this number had its last reply: it is done or not.
    pub(crate) fn answer(&mut self, id: u64, is_done: bool) {
        let ended_now = match self.at_hand {
            Some(order) => order.has_ended && order.id == id,
            None => false,
        };
        if !is_done {
            self.undone.add(id);
        } else if ended_now {
            self.good = self.good.saturating_add(1);
        } else {
            self.known = self.known.saturating_add(1);
        }
        self.at_hand = None;
    }

    /// A frame was sent.
    pub(crate) fn count(&mut self) {
        self.frames = self.frames.saturating_add(1);
        self.meter.add();
    }

    /// A frame of the unit was sent, or of none.
    pub(crate) fn meet(&mut self, unit: Option<u8>) {
        if unit.is_some() && unit != self.unit {
            self.unit = unit;
            self.units = self.units.saturating_add(1);
        }
    }

    /// The order was compared: its unit has exactly what it writes, or not.
    pub(crate) fn compare(&mut self, order: &Order, is_same: bool) {
        self.given = self.given.saturating_add(1);
        self.ahead = self.ahead.saturating_sub(verify_frames(order));
        self.before = self.frames;
        if is_same {
            self.good = self.good.saturating_add(1);
        } else {
            self.undone.add(order.id());
        }
    }

    /// The frames that all comparisons should take, as far as is known by now.
    pub(crate) fn expected(&self) -> u64 {
        self.before.saturating_add(self.ahead).max(self.frames)
    }

    /// Whether it doesn't wait for an order.
    pub(crate) fn is_at_work(&self) -> bool {
        self.at_hand.is_some() || self.unit.is_some()
    }

    /// Nothing more comes: the order at hand isn't done.
    pub(crate) fn close(&mut self) {
        if let Some(order) = self.at_hand {
            self.undone.add(order.id);
            self.at_hand = None;
        }
    }

    /// How many orders never came.
    pub(crate) fn unreached(&self) -> u64 {
        match self.orders {
            Some(orders) => orders.saturating_sub(self.given),
            None => 0,
        }
    }
}
