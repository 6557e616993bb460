ghost use Rattle.std.specs.Prelude.{◌≡◌, ◌<◌, ◌+◌, ◌*◌};
ghost use Rattle.dali_frame.specs.Frame.{IsUnlisted};
ghost use Rattle.dali_address.specs.Calls.{IsCall, call_word, short_byte};

/// A frame that gives or asks addresses (IEC 62386-102: special commands, queries). A short address
/// is 0 to 63.
#[derive(Clone, Copy, PartialEq, Eq)]
pub enum Call {
    /// TERMINATE: the initialisation state ends.
    Terminate,
    /// INITIALISE, which counts if it comes twice: every unit enters the initialisation state.
    InitialiseAll,
    /// INITIALISE: units without a short address do.
    InitialiseMissing,
    /// INITIALISE: units at this short address do.
    InitialiseAt(u8),
    /// RANDOMISE, which counts if it comes twice: each unit in the initialisation state draws a random address.
    Randomise,
    /// COMPARE: a unit answers YES if it is in the initialisation state, isn't withdrawn, and its
    /// random address is the search address or below.
    Compare,
    /// WITHDRAW: a unit whose random address is the search address compares no more.
    Withdraw,
    /// SEARCHADDRH: the high byte of the search address.
    SearchHigh(u8),
    /// SEARCHADDRM: its middle byte.
    SearchMiddle(u8),
    /// SEARCHADDRL: its low byte.
    SearchLow(u8),
    /// PROGRAM SHORT ADDRESS: a unit whose random address is the search address takes this one.
    Program(u8),
    /// PROGRAM SHORT ADDRESS with MASK: such a unit has no short address any more.
    Remove,
    /// QUERY SHORT ADDRESS: such a unit answers its short address, or MASK.
    AskShort,
    /// QUERY MISSING SHORT ADDRESS, to all: a unit without a short address answers YES.
    AskMissing,
    /// QUERY CONTROL GEAR PRESENT: a unit at this short address answers YES.
    AskPresent(u8),
    /// QUERY RANDOM ADDRESS (H): a unit at this short address answers that byte.
    AskRandomHigh(u8),
    /// QUERY RANDOM ADDRESS (M).
    AskRandomMiddle(u8),
    /// QUERY RANDOM ADDRESS (L).
    AskRandomLow(u8),
}

/// The word that spells the frame. In the frame table of `dali_frame` it is `Other`: so it sets no
/// register, and neither enables, nor reads, nor writes.
#[tactic(auto, using(crate::proofs::UnlistedLemmas::call_unlisted))]
pub fn word_of_call(call: &Call) -> u16
    requires { IsCall call.now }
    ensures word { result ≡ call_word call.now }
    ensures unlisted { IsUnlisted result }
{
    let [first, second] = match *call {
        Call::Terminate => [0xA1, 0x00],
        Call::InitialiseAll => [0xA5, 0x00],
        Call::InitialiseMissing => [0xA5, 0xFF],
        Call::InitialiseAt(short) => [0xA5, address_byte(short)],
        Call::Randomise => [0xA7, 0x00],
        Call::Compare => [0xA9, 0x00],
        Call::Withdraw => [0xAB, 0x00],
        Call::SearchHigh(byte) => [0xB1, byte],
        Call::SearchMiddle(byte) => [0xB3, byte],
        Call::SearchLow(byte) => [0xB5, byte],
        Call::Program(short) => [0xB7, address_byte(short)],
        Call::Remove => [0xB7, 0xFF],
        Call::AskShort => [0xBB, 0x00],
        Call::AskMissing => [0xFF, 0x96],
        Call::AskPresent(short) => [address_byte(short), 0x91],
        Call::AskRandomHigh(short) => [address_byte(short), 0xC2],
        Call::AskRandomMiddle(short) => [address_byte(short), 0xC3],
        Call::AskRandomLow(short) => [address_byte(short), 0xC4],
    };
    u16::from_be_bytes([first, second])
}

// 0AAAAAA1b: the byte that spells a short address.
fn address_byte(short: u8) -> u8
    requires { short < 64 }
    ensures { result ≡ short_byte short }
{
    2 * short + 1
}
