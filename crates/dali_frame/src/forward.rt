ghost use Rattle.std.specs.Prelude.{◌≡◌, ℕ, ◌+◌, ◌*◌, ◌<◌, ◌↔◌, IsTrue, IfSome, IfNone};
ghost use Rattle.dali_frame.specs.Frame.{frame_word, command_word, IsUnlisted, IsProper, Spells, Lists};
ghost use Rattle.dali_frame.specs.declared.forward.Frame.{Frame};

// The address bytes that name the special commands.
const DTR0: u8 = 0xA3;

const DTR1: u8 = 0xC3;

const DTR2: u8 = 0xC5;

const WRITE_MEMORY_LOCATION: u8 = 0xC7;

const WRITE_MEMORY_LOCATION_NO_REPLY: u8 = 0xC9;

// The opcodes of the commands to a short address.
const ENABLE_WRITE_MEMORY: u8 = 0x81;

const QUERY_CONTENT_DTR0: u8 = 0x98;

const QUERY_CONTENT_DTR1: u8 = 0x9C;

const QUERY_CONTENT_DTR2: u8 = 0x9D;

const READ_MEMORY_LOCATION: u8 = 0xC5;

/// A forward frame (IEC 62386-102, forward frames).
///
/// The first five are special commands, which every unit hears, and hold an operand, 0 to 255. The
/// next five are commands to one unit, and hold its short address, 0 to 63.
#[derive(Clone, Copy, PartialEq, Eq)]
pub enum Frame {
    /// DTR0: the operand becomes DTR0, the memory location (special commands).
    Dtr0(u8),
    /// DTR1: the operand becomes DTR1, the memory bank (special commands).
    Dtr1(u8),
    /// DTR2: the operand becomes DTR2 (special commands).
    Dtr2(u8),
    /// WRITE MEMORY LOCATION: the operand is written and answered (memory access).
    Write(u8),
    /// WRITE MEMORY LOCATION - NO REPLY: the operand is written (memory access).
    WriteSilent(u8),
    /// ENABLE WRITE MEMORY: two in succession enable writing (memory access).
    Enable(u8),
    /// QUERY CONTENT DTR0: the answer is DTR0 (queries).
    AskDtr0(u8),
    /// QUERY CONTENT DTR1: the answer is DTR1 (queries).
    AskDtr1(u8),
    /// QUERY CONTENT DTR2: the answer is DTR2 (queries).
    AskDtr2(u8),
    /// READ MEMORY LOCATION: the answer is the byte at DTR1 and DTR0 (memory access).
    Read(u8),
    /// Any other word.
    Other(u16),
}

impl Frame {
    /// Whether some word spells this frame: its short address is at most 63, and the word of an
    /// `Other` spells no other variant (IEC 62386-102, forward frames).
    pub fn is_proper(&self) -> bool
        ensures { IsTrue result ↔ IsProper self.now }
    {
        match *self {
            // Bound by a name, since the proof knows the range of a byte that is read.
            Frame::Dtr0(_operand)
            | Frame::Dtr1(_operand)
            | Frame::Dtr2(_operand)
            | Frame::Write(_operand)
            | Frame::WriteSilent(_operand) => true,
            Frame::Enable(address)
            | Frame::AskDtr0(address)
            | Frame::AskDtr1(address)
            | Frame::AskDtr2(address)
            | Frame::Read(address) => address < 64,
            Frame::Other(word) => listed_frame(word).is_none(),
        }
    }
}

/// The frame that a word spells, for every word from 0 to FFFFh (IEC 62386-102, forward frames).
/// It is proper, and `word_of` gives the word back.
pub fn frame_of(word: u16) -> Frame
    ensures spells { Spells result word }
    ensures only { (frame : Frame) → Spells frame word → frame ≡ result }
{
    match listed_frame(word) {
        Some(frame) => frame,
        None => Frame::Other(word),
    }
}

/// The word that spells a frame, which has to be proper (IEC 62386-102, forward frames).
/// `frame_of` gives the frame back.
pub fn word_of(frame: &Frame) -> u16
    requires { IsProper frame.now }
    ensures { result ≡ frame_word frame.now }
{
    match *frame {
        Frame::Dtr0(operand) => u16::from_be_bytes([DTR0, operand]),
        Frame::Dtr1(operand) => u16::from_be_bytes([DTR1, operand]),
        Frame::Dtr2(operand) => u16::from_be_bytes([DTR2, operand]),
        Frame::Write(operand) => u16::from_be_bytes([WRITE_MEMORY_LOCATION, operand]),
        Frame::WriteSilent(operand) => u16::from_be_bytes([
            WRITE_MEMORY_LOCATION_NO_REPLY,
            operand,
        ]),
        Frame::Enable(address) => command_word(address, ENABLE_WRITE_MEMORY),
        Frame::AskDtr0(address) => command_word(address, QUERY_CONTENT_DTR0),
        Frame::AskDtr1(address) => command_word(address, QUERY_CONTENT_DTR1),
        Frame::AskDtr2(address) => command_word(address, QUERY_CONTENT_DTR2),
        Frame::Read(address) => command_word(address, READ_MEMORY_LOCATION),
        Frame::Other(word) => word,
    }
}

/// The word of a command to a short address.
fn command_word(address: u8, opcode: u8) -> u16
    requires { address < 64 }
    ensures { result ≡ command_word address opcode }
{
    u16::from_be_bytes([2 * address + 1, opcode])
}

/// The frame other than `Other` that a word spells, if there is one.
fn listed_frame(word: u16) -> Option<Frame>
    ensures listed { IfSome result (λ frame. Lists frame word) }
    ensures unlisted { IfNone result (IsUnlisted word) }
{
    let [first, second] = word.to_be_bytes();
    match first {
        DTR0 => Some(Frame::Dtr0(second)),
        DTR1 => Some(Frame::Dtr1(second)),
        DTR2 => Some(Frame::Dtr2(second)),
        WRITE_MEMORY_LOCATION => Some(Frame::Write(second)),
        WRITE_MEMORY_LOCATION_NO_REPLY => Some(Frame::WriteSilent(second)),
        // 0AAAAAA1b: a command to the short address AAAAAAb.
        _ if first < 128 && first % 2 == 1 => listed_command(first / 2, second),
        _ => None,
    }
}

/// The command to a short address that has an opcode, if there is one.
fn listed_command(address: u8, opcode: u8) -> Option<Frame>
    requires { address < 64 }
    ensures listed { IfSome result (λ frame. Lists frame (command_word address opcode)) }
    ensures unlisted { IfNone result (IsUnlisted (command_word address opcode)) }
{
    match opcode {
        ENABLE_WRITE_MEMORY => Some(Frame::Enable(address)),
        QUERY_CONTENT_DTR0 => Some(Frame::AskDtr0(address)),
        QUERY_CONTENT_DTR1 => Some(Frame::AskDtr1(address)),
        QUERY_CONTENT_DTR2 => Some(Frame::AskDtr2(address)),
        READ_MEMORY_LOCATION => Some(Frame::Read(address)),
        _ => None,
    }
}
