use dali_frame::Frame;
use dali_shared_tests::expect_that;
use std::test::Fail;

// Frames, and whether some word spells them.
static FRAMES: [(Frame, bool); 9] = [
    (Frame::Dtr0(0xFF), true),
    (Frame::Read(63), true),
    (Frame::Other(0x0AFE), true),
    (Frame::Other(0xA200), true),
    (Frame::Enable(64), false),
    (Frame::AskDtr0(64), false),
    (Frame::Read(255), false),
    (Frame::Other(0xA303), false),
    (Frame::Other(0x7FC5), false),
];

#[test]
fn frames_that_a_word_spells(_rt: HostRuntime) -> Result<(), Fail> {
    for (frame, is_proper) in &FRAMES {
        expect_that(frame.is_proper() == *is_proper, "a proper frame or none")?;
    }
    Ok(())
}
