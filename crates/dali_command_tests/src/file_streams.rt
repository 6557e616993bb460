//! Readers and writers that fail under the commands over a file, and readers without end. The cases of examples/ say
//! what the commands answer if nothing fails.

use crate::streams::{Behind, TestReader, TestWriter};
use dali_file_commands::FileCommand;
use dali_file_commands::frame::frame;
use dali_input::{Input, Status};
use dali_shared_tests::{expect_at, expect_that};
use dali_text::Output;
use std::alloc::Global;
use std::io;
use std::io::Read;
use std::test::Fail;

// The commands; a static holds no `FileCommand`.
#[derive(Clone, Copy)]
enum Command {
    Check,
    Run,
    RunFrames,
    Journal,
    Updates,
    Show,
}

impl Command {
    fn with_options(self) -> FileCommand<'static> {
        match self {
            Command::Check => FileCommand::Check { known: None },
            Command::Run => FileCommand::Run {
                single_frames: false,
            },
            Command::RunFrames => FileCommand::Run {
                single_frames: true,
            },
            Command::Journal => FileCommand::Journal {
                with_updates: false,
            },
            Command::Updates => FileCommand::Journal { with_updates: true },
            Command::Show => FileCommand::Show,
        }
    }
}

const ORDER: &[u8] = br#"[{"order":1,"unit":5,"gtin":"4006381333931"}]"#;

const ORDER_TOLD: &[u8] = b"\
item 1 order 1 unit 5 bytes 6
03 03
04 A4
05 CE
06 EF
07 AD
08 AB
accepted 1 refused 0
";

// A unit that isn't there: one frame of the first try.
const SCENARIO: &[u8] = br#"{"limit":10,"units":[],
"events":[{"submit":{"order":1,"unit":9,"gtin":"4006381333931"}},{"steps":3},{"stop":0},{"power":5}]}"#;

const SCENARIO_TOLD: &[u8] = b"\
ask 1
reply 1 taken
keep B order 1 unit 9 at 0 bytes 6
frames 2
stop
power 5
total 2
journal 35
";

const SCENARIO_FRAMES_TOLD: &[u8] = b"\
ask 1
reply 1 taken
keep B order 1 unit 9 at 0 bytes 6
send C301 --
send 139C --
stop
power 5
total 2
journal 35
";

// Order 1 for unit 5 with a GTIN, which was submitted at 1700000000 and is done.
const DONE: &[u8] = b"\
DB1\x02B\x00\x00\x00\x00\x00\x00\x00\x01\x00\x00\x00\x00\x65\x53\xF1\x00\x05\x06\
\x03\x03\x04\xA4\x05\xCE\x06\xEF\x07\xAD\x08\xABO\x05E\x00";

const DONE_TOLD: &[u8] = b"\
version 2
B order 1 unit 5 at 1700000000 bytes 6
O unit 5
E 0 Done
counts 39 of 39 orders 1 standing idle
";

const DONE_UPDATES_TOLD: &[u8] = b"\
version 2
B order 1 unit 5 at 1700000000 bytes 6
03 03
04 A4
05 CE
06 EF
07 AD
08 AB
O unit 5
E 0 Done
counts 39 of 39 orders 1 standing idle
";

// The first 5 bytes of a bank.
const BANK: &[u8] = b"77FFFF\n03A4";

// The first lines that `show` writes.
const BANK_TOLD: &[u8] = b"\
last 77
indicator FF
lock FF
gtin absent
identification absent
format absent
";

// Commands, inputs, and what is written of them, or begins with it.
static WRITTEN: [(Command, &[u8], &[u8]); 10] = [
    (Command::Check, ORDER, ORDER_TOLD),
    (Command::Check, b"[", b"fault 11 Json\n"),
    (Command::Run, SCENARIO, SCENARIO_TOLD),
    (Command::RunFrames, SCENARIO, SCENARIO_FRAMES_TOLD),
    (Command::Run, b"[", b"fault 11 Json\n"),
    (Command::Journal, DONE, DONE_TOLD),
    (Command::Updates, DONE, DONE_UPDATES_TOLD),
    (Command::Journal, b"D", b"journal fault 7 Header\n"),
    (Command::Show, BANK, BANK_TOLD),
    (Command::Show, b"0", b"fault 14 Hex\n"),
];

// Whether a command ends so over what a reader has, and writes this, if there is this room.
fn does<R: Read>(
    alloc: Global,
    command: Command,
    input: &mut Input<R>,
    room: Option<usize>,
    status: Status,
    text: &[u8],
) -> bool {
    let mut writer = TestWriter::new(alloc, room);
    let mut output = Output::new(&mut writer);
    let mut notes = Output::new(io::sink());
    let ended = command
        .with_options()
        .carry_out(alloc, input, &mut output, &mut notes);
    ended == status && writer.held.as_slice() == text
}

// Whether the command ends as unwritten over an input, if there is room for this text alone.
fn is_cut(alloc: Global, command: Command, input: &[u8], text: &[u8]) -> bool {
    let mut reader = Input::new(TestReader::new(input, Behind::Nothing));
    let room = Some(text.len());
    does(alloc, command, &mut reader, room, Status::Unwritten, text)
}

// The writer fails at each place of what is written, and at the flush after it, or amid more lines. Nothing more is
// written then.
fn fails_to_write(alloc: Global, command: Command, input: &[u8], text: &[u8]) -> Result<(), Fail> {
    for room in 0..=text.len() {
        let is_so = is_cut(alloc, command, input, &text[..room]);
        expect_at(room, is_so, "a writer that fails")?;
    }
    Ok(())
}

#[test]
fn writers_that_fail_in_mid_text(rt: HostRuntime) -> Result<(), Fail> {
    for &(command, input, text) in &WRITTEN {
        fails_to_write(rt.alloc(), command, input, text)?;
    }
    Ok(())
}

// Whether the frame's line is cut so far, and no more is written.
fn is_frame_cut(alloc: Global, argument: &str, text: &[u8]) -> bool {
    let mut writer = TestWriter::new(alloc, Some(text.len()));
    let mut notes = Output::new(io::sink());
    let ended = frame(alloc, argument, &mut Output::new(&mut writer), &mut notes);
    ended == Status::Unwritten && writer.held.as_slice() == text
}

// Words of `frame`, and what is written of them.
static WORDS: [(&str, &[u8]); 2] = [
    ("0B81", b"0B81 ENABLE WRITE MEMORY unit 5\n"),
    ("A3", b"fault 14 Hex\n"),
];

#[test]
fn writers_that_fail_in_a_frame(rt: HostRuntime) -> Result<(), Fail> {
    for &(argument, text) in &WORDS {
        for room in 0..=text.len() {
            let is_so = is_frame_cut(rt.alloc(), argument, &text[..room]);
            expect_at(room, is_so, argument)?;
        }
    }
    Ok(())
}

// Whether the command reports that the reader fails after these bytes.
fn fails_behind(alloc: Global, command: Command, bytes: &[u8]) -> bool {
    let mut input = Input::new(TestReader::new(bytes, Behind::Failures));
    let told = b"fault 21 File\n";
    does(alloc, command, &mut input, None, Status::Failed, told)
}

#[test]
fn readers_that_fail_in_mid_stream(rt: HostRuntime) -> Result<(), Fail> {
    for &(command, input, _text) in &WRITTEN {
        for count in 0..=input.len() {
            let is_so = fails_behind(rt.alloc(), command, &input[..count]);
            expect_at(count, is_so, "a reader that fails")?;
        }
    }
    Ok(())
}

// The commands, and at most how many bytes they read: one more than the largest input has.
static LIMITS: [(Command, u64); 4] = [
    (Command::Check, 16_777_217),
    (Command::Run, 16_777_217),
    (Command::Journal, 33_554_433),
    (Command::Show, 4097),
];

#[test]
fn readers_without_end(rt: HostRuntime) -> Result<(), Fail> {
    for &(command, limit) in &LIMITS {
        let mut reader = TestReader::new(&[], Behind::SpacesWithoutEnd);
        let mut input = Input::new(&mut reader);
        let told = b"fault 13 TooBig\n";
        let is_refused = does(rt.alloc(), command, &mut input, None, Status::Refused, told);
        expect_that(is_refused && reader.spaces == limit, "a reader without end")?;
    }
    Ok(())
}
