// The bytes that are kept of the line that is read.
ghost use Rattle.std.specs.Prelude.{◌≡◌, ◌↔◌, ◌++◌, ◌∷◌, [], ℕ, List, IsTrue};
ghost use Rattle.dali_link_commands.specs.StreamLines.{is_blank, is_space};
ghost use Rattle.dali_link_commands.specs.LineBuffers.{Holds};

use arrayvec::ArrayVec;

/// The most bytes of a line, without its line feed (profile).
pub const LINE_LIMIT: u32 = 16_384;

const MOST_LINE: usize = LINE_LIMIT as usize;

// A line that is read, byte by byte.
#[derive(Drop)]
pub(crate) struct LineBuffer {
    // Its bytes, as long as there is room for them.
    pub(crate) bytes: ArrayVec<u8, MOST_LINE>,
    // Whether there was no room for one.
    pub(crate) is_long: bool,
    // Whether all were spaces, tabs and carriage returns.
    pub(crate) is_blank: bool,
}

impl LineBuffer {
    // That of a line of which no byte was read.
    pub(crate) fn new() -> LineBuffer
        ensures { Holds result [] }
    {
        LineBuffer {
            bytes: ArrayVec::new(),
            is_long: false,
            is_blank: true,
        }
    }

    // Begins a line.
    pub(crate) fn begin(&mut self)
        ensures { Holds self.new [] }
    {
        self.bytes.clear();
        self.is_long = false;
        self.is_blank = true;
    }

    // Appends a byte to what was read of the line.
    pub(crate) fn push(&mut self, byte: u8)
        ensures { (line : List ℕ) → Holds self.old line → Holds self.new (line ++ byte ∷ []) }
    {
        self.is_blank &= is_space(byte);
        if self.bytes.try_push(byte).is_err() {
            self.is_long = true;
        }
    }

    // Whether no byte was read of the line.
    pub(crate) fn is_empty(&self) -> bool
        ensures { (line : List ℕ) → Holds self.now line → IsTrue result ↔ (line ≡ []) }
    {
        !self.is_long && self.bytes.is_empty()
    }
}

// Whether the byte is a space, a tab or a carriage return.
fn is_space(byte: u8) -> bool
    ensures { result ≡ is_space byte }
{
    byte == b' ' || byte == b'\t' || byte == b'\r'
}
