// How many units a command has found that gives short addresses, tells who has them or counts units: for a person, by
// its frames and its lines.

// The first bytes of frames, and a whole one (IEC 62386-102: special commands).
const SEARCH_HIGH: u8 = 0xB1;

const SEARCH_MIDDLE: u8 = 0xB3;

const SEARCH_LOW: u8 = 0xB5;

const PROGRAM: u8 = 0xB7;

const WITHDRAW: [u8; 2] = [0xAB, 0x00];

/// The units that were found so far.
#[derive(Clone, Copy)]
pub(crate) struct FoundUnits {
    // Which short addresses were given: bit A is that of A.
    given: u64,
    // How many were given, reported by a line, or counted.
    programmed: u64,
    told: u64,
    counted: u64,
    // The search address, and that of the unit that was counted last.
    search: [u8; 3],
    newest: Option<[u8; 3]>,
}

impl FoundUnits {
    /// None.
    pub(crate) fn new() -> FoundUnits {
        FoundUnits {
            given: 0,
            programmed: 0,
            told: 0,
            counted: 0,
            search: [0; 3],
            newest: None,
        }
    }

    /// This frame was sent.
    pub(crate) fn see(&mut self, word: [u8; 2]) {
        match word {
            [SEARCH_HIGH, byte] => self.search[0] = byte,
            [SEARCH_MIDDLE, byte] => self.search[1] = byte,
            [SEARCH_LOW, byte] => self.search[2] = byte,
            [PROGRAM, byte] => self.program(byte),
            _ if word == WITHDRAW => self.withdraw(),
            _ => {}
        }
    }

    // A short address is given; FFh takes one away.
    fn program(&mut self, byte: u8) {
        let bit = 1 << (byte / 2 % 64);
        if byte < 0x80 && self.given & bit == 0 {
            self.given |= bit;
            self.programmed = self.programmed.saturating_add(1);
        }
    }

    // A unit is counted, or withdrawn once more.
    fn withdraw(&mut self) {
        if self.newest != Some(self.search) {
            self.newest = Some(self.search);
            self.counted = self.counted.saturating_add(1);
        }
    }

    /// A line reported one.
    pub(crate) fn tell(&mut self) {
        self.told = self.told.saturating_add(1);
    }

    /// How many there are.
    pub(crate) fn count(&self) -> u64 {
        self.programmed.max(self.told).max(self.counted)
    }
}
