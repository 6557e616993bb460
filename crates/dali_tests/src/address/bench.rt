use dali_address::{Addressing, Call, Line, Summary, Task, Want};

// The most lines that a bench keeps.
const MOST_LINES: usize = 70;

// A unit that draws its own random address at each RANDOMISE. Every frame that counts twice counts at once.
#[derive(Clone, Copy)]
pub(crate) struct SimUnit {
    pub(crate) short: Option<u8>,
    pub(crate) drawn: [u8; 3],
    pub(crate) random: [u8; 3],
    pub(crate) search: [u8; 3],
    pub(crate) is_on: bool,
    pub(crate) is_out: bool,
}

impl SimUnit {
    pub(crate) fn new(short: Option<u8>, drawn: [u8; 3]) -> SimUnit {
        SimUnit {
            short,
            drawn,
            random: [0xFF, 0xFF, 0xFF],
            search: [0xFF, 0xFF, 0xFF],
            is_on: false,
            is_out: false,
        }
    }

    pub(crate) fn hear(&mut self, call: &Call) -> Option<u8> {
        self.change(call);
        self.answer(call)
    }

    fn change(&mut self, call: &Call) {
        let is_chosen = self.is_on && self.random == self.search;
        match *call {
            Call::Terminate => self.is_on = false,
            Call::InitialiseAll => self.enter(),
            Call::InitialiseMissing if self.short.is_none() => self.enter(),
            Call::InitialiseAt(short) if self.short == Some(short) => self.enter(),
            Call::Randomise if self.is_on => self.random = self.drawn,
            Call::Withdraw if is_chosen => self.is_out = true,
            Call::SearchHigh(byte) => self.search[0] = byte,
            Call::SearchMiddle(byte) => self.search[1] = byte,
            Call::SearchLow(byte) => self.search[2] = byte,
            Call::Program(short) if is_chosen => self.short = Some(short),
            Call::Remove if is_chosen => self.short = None,
            _ => {}
        }
    }

    fn enter(&mut self) {
        self.is_on = true;
        self.is_out = false;
    }

    fn answer(&self, call: &Call) -> Option<u8> {
        let told = match *call {
            Call::Compare => (self.is_on && !self.is_out && self.random <= self.search).then_some(
                0xFF,
            ),
            Call::AskShort => (self.is_on && self.random == self.search).then_some(
                self.told_short(),
            ),
            Call::AskMissing => self.short.is_none().then_some(0xFF),
            Call::AskPresent(short) => (self.short == Some(short)).then_some(0xFF),
            Call::AskRandomHigh(short) => (self.short == Some(short)).then_some(self.random[0]),
            Call::AskRandomMiddle(short) => (self.short == Some(short)).then_some(self.random[1]),
            Call::AskRandomLow(short) => (self.short == Some(short)).then_some(self.random[2]),
            _ => None,
        };
        told
    }

    fn told_short(&self) -> u8 {
        match self.short {
            Some(short) => short.saturating_mul(2).saturating_add(1),
            None => 0xFF,
        }
    }
}

// Units on a bus, the lines that were written, and how many frames went.
#[derive(Drop)]
pub(crate) struct Bench<'a> {
    pub(crate) units: &'a mut [SimUnit],
    lines: [Option<Line>; 70],
    pub(crate) count: usize,
    pub(crate) frames: u32,
}

impl Bench<'_> {
    pub(crate) fn new(units: &mut [SimUnit]) -> Bench<'_> {
        Bench {
            units,
            lines: [None; 70],
            count: 0,
            frames: 0,
        }
    }

    // Of several answers at once YES is heard as YES, and else nothing.
    fn carry(&mut self, call: &Call) -> Option<u8> {
        let mut told = None;
        let mut answers = 0u32;
        for unit in self.units.iter_mut() {
            if let Some(byte) = unit.hear(call) {
                told = Some(byte);
                answers = answers.saturating_add(1);
            }
        }
        let is_yes = matches!(call, Call::Compare | Call::AskMissing | Call::AskPresent(_));
        if answers < 2 || is_yes { told } else { None }
    }

    // The line of this number, counted from 0.
    pub(crate) fn line(&self, number: usize) -> Option<Line> {
        if number < MOST_LINES {
            let line = self.lines[number];
            line
        } else {
            None
        }
    }

    fn keep(&mut self, line: Line) {
        if self.count < MOST_LINES {
            self.lines[self.count] = Some(line);
            self.count += 1;
        }
    }

    // Carries a run to its end, or until `most` frames went. The frame of the number `lost` is lost to all.
    pub(crate) fn go(&mut self, task: Task, asked: &[u8], lost: u32, most: u32) -> Want {
        let mut run = Addressing::new(task, asked);
        for _step in 0..100_000u32 {
            match run.want() {
                Want::Send(_) if self.frames >= most => break,
                Want::Send(call) => {
                    let answer = if self.frames == lost {
                        None
                    } else {
                        self.carry(&call)
                    };
                    self.frames = self.frames.saturating_add(1);
                    run.heard(answer);
                }
                Want::Tell(line) => {
                    self.keep(line);
                    run.said();
                }
                _ => break,
            }
        }
        run.want()
    }
}

pub(crate) const NONE_LOST: u32 = u32::MAX;

pub(crate) fn ended(given: u8, missing: u8, shared: u8) -> Want {
    Want::Ended(Summary {
        given,
        missing,
        shared,
        open: false,
    })
}
