// The try at hand of an access, by the frames that were sent.
use dali_frame::Frame;

/// The kind of a try, as far as its frames show.
#[derive(Clone, Copy)]
enum Kind {
    /// It reads, or it is a checked write.
    Whole,
    /// It writes right after another write, to the location after it.
    Next,
    /// It writes right after another write, to any other location.
    Elsewhere,
}

/// A frame, as far as it tells whether the next one begins a try.
#[derive(Clone, Copy)]
enum Before {
    Enable,
    Write,
    Other,
}

/// The try at hand. One of a read begins as DTR1 is set, one of a write as its unit is enabled, or, right after another
/// write, as it is asked for DTR1 or DTR0 is set.
#[derive(Clone, Copy)]
pub(crate) struct Attempt {
    frames: u64,
    kind: Kind,
    before: Before,
}

// A checked write has this many frames more than a write to the location after the one just written, and than one to
// any other location right after another write.
const MORE_THAN_NEXT: u64 = 4;

const MORE_THAN_ELSEWHERE: u64 = 3;

impl Attempt {
    /// Of no frames.
    pub(crate) fn new() -> Attempt {
        Attempt {
            frames: 0,
            kind: Kind::Whole,
            before: Before::Other,
        }
    }

    /// One more frame, which missed or not. The answer is how many frames more that makes: those of a try that missed
    /// are sent again, and a write is then a checked one.
    pub(crate) fn add(&mut self, frame: &Frame, missed: bool) -> u64 {
        self.begin(frame);
        self.frames = self.frames.saturating_add(1);
        let more = match self.kind {
            Kind::Whole => 0,
            Kind::Next => MORE_THAN_NEXT,
            Kind::Elsewhere => MORE_THAN_ELSEWHERE,
        };
        if missed {
            self.frames.saturating_add(more)
        } else {
            0
        }
    }

    // The frame may begin a try.
    fn begin(&mut self, frame: &Frame) {
        let kind = match (frame, self.before) {
            (Frame::Enable(_), Before::Enable) | (Frame::Dtr1(_), Before::Enable) => None,
            (Frame::Enable(_), _) | (Frame::Dtr1(_), _) => Some(Kind::Whole),
            (Frame::AskDtr1(_), Before::Write) => Some(Kind::Next),
            (Frame::Dtr0(_), Before::Write) => Some(Kind::Elsewhere),
            _ => None,
        };
        if let Some(kind) = kind {
            self.kind = kind;
            self.frames = 0;
        }
        self.before = match frame {
            Frame::Enable(_) => Before::Enable,
            Frame::Write(_) => Before::Write,
            _ => Before::Other,
        };
    }
}
