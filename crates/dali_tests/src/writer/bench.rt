use crate::writer::case::{Case, DONE, Deed, PLAIN, TAKEN, judge, judge_all};
use dali_engine::Reply;
use dali_journal::Code;
use dali_shared_tests::{ENOUGH, GTIN};
use std::test::Fail;

const YEAR: [(u8, u8); 1] = [(0x13, 24)];

const NEXT_YEAR: [(u8, u8); 1] = [(0x13, 25)];

const YEAR_AND_WEEK: [(u8, u8); 2] = [(0x13, 0x18), (0x14, 0x35)];

const YEAR_AND_VOLTAGE: [(u8, u8); 3] = [(0x13, 0x18), (0x19, 0x00), (0x1A, 0xDC)];

// Order 1 for a unit that is then left, and order 2 for another one, twice.
const LEFT: [Deed<'static>; 6] = [
    Deed::Submit(1, 5, &GTIN),
    Deed::Steps(ENOUGH),
    Deed::Submit(2, 6, &GTIN),
    Deed::Steps(ENOUGH),
    Deed::Submit(2, 6, &GTIN),
    Deed::Steps(ENOUGH),
];

static LOSSES: [Case<'static>; 6] = [
    Case {
        name: "frame 40, of year and voltage",
        lost: &[(40, 40)],
        deeds: &[Deed::Submit(1, 5, &YEAR_AND_VOLTAGE), Deed::Steps(ENOUGH)],
        answers: &[(1, TAKEN, 0), (1, DONE, 90)],
        ..PLAIN
    },
    Case {
        name: "frame 19",
        lost: &[(19, 19)],
        ..PLAIN
    },
    Case {
        name: "seven answers",
        unanswered: &[11, 15, 19, 23, 27, 31, 35],
        answers: &[(1, TAKEN, 0), (1, DONE, 140)],
        ..PLAIN
    },
    Case {
        name: "eight answers of one access",
        unanswered: &[11, 15, 19, 23, 27, 31, 35, 39],
        answers: &[(1, TAKEN, 0), (1, Reply::Kept(Code::Doubt), 53)],
        ..PLAIN
    },
    Case {
        name: "frames 1 and 8, with DTR1 02h",
        dtrs: (0x00, 0x02, 0x00),
        lost: &[(1, 1), (8, 8)],
        answers: &[(1, TAKEN, 0), (1, DONE, 120)],
        ..PLAIN
    },
    // A writer that reads bank 2 and asks for no answer to the queries of DTR1 loses the frame 10 that sets it for the
    // unlock.
    Case {
        name: "frames 1 and 10, with DTR1 02h",
        dtrs: (0x00, 0x02, 0x00),
        lost: &[(1, 1), (10, 10)],
        answers: &[(1, TAKEN, 0), (1, DONE, 121)],
        ..PLAIN
    },
];

static ORDERS: [Case<'static>; 4] = [
    Case {
        name: "year and week",
        deeds: &[Deed::Submit(1, 5, &YEAR_AND_WEEK), Deed::Steps(ENOUGH)],
        answers: &[(1, TAKEN, 0), (1, DONE, 70)],
        ..PLAIN
    },
    Case {
        name: "year and voltage",
        deeds: &[Deed::Submit(1, 5, &YEAR_AND_VOLTAGE), Deed::Steps(ENOUGH)],
        answers: &[(1, TAKEN, 0), (1, DONE, 84)],
        ..PLAIN
    },
    Case {
        name: "two years, and the first one again",
        deeds: &[
            Deed::Submit(1, 5, &YEAR),
            Deed::Steps(ENOUGH),
            Deed::Submit(2, 5, &NEXT_YEAR),
            Deed::Steps(ENOUGH),
            Deed::Submit(1, 5, &YEAR),
            Deed::Steps(ENOUGH),
        ],
        answers: &[
            (1, TAKEN, 0),
            (1, DONE, 56),
            (2, TAKEN, 56),
            (2, DONE, 112),
            (1, DONE, 112),
        ],
        ..PLAIN
    },
    Case {
        name: "a left unit that answers late",
        lost: &[(20, 179)],
        deeds: &LEFT,
        answers: &[
            (1, TAKEN, 0),
            (1, Reply::Kept(Code::DoubtOpen), 96),
            (2, TAKEN, 96),
            (2, Reply::Blocked(5), 144),
            (2, TAKEN, 144),
            (2, DONE, 297),
        ],
        ..PLAIN
    },
];

static STOPS: [Case<'static>; 5] = [
    Case {
        name: "a stop amid the writes",
        deeds: &[
            Deed::Fill(1, 0x3C, 0x77, 0x42),
            Deed::Steps(240),
            Deed::Stop(0),
            Deed::Submit(2, 6, &GTIN),
            Deed::Steps(ENOUGH),
        ],
        answers: &[(1, TAKEN, 0), (2, Reply::Busy, 238), (1, DONE, 1_099)],
        ..PLAIN
    },
    // Of the 31 bytes of Began only 22 reach the journal, and they are no whole record: the order is forgotten.
    Case {
        name: "Began is cut, and steps do nothing",
        deeds: &[
            Deed::Submit(1, 5, &GTIN),
            Deed::Stop(22),
            Deed::Steps(200),
            Deed::Submit(1, 5, &GTIN),
            Deed::Steps(ENOUGH),
        ],
        answers: &[(1, TAKEN, 0), (1, TAKEN, 0), (1, DONE, 112)],
        ..PLAIN
    },
    Case {
        name: "Began is whole, and more would reach the journal",
        deeds: &[
            Deed::Submit(1, 5, &GTIN),
            Deed::Stop(400),
            Deed::Steps(ENOUGH),
        ],
        ..PLAIN
    },
    Case {
        name: "Opened is whole",
        deeds: &[
            Deed::Submit(1, 5, &GTIN),
            Deed::Steps(8),
            Deed::Stop(2),
            Deed::Steps(ENOUGH),
        ],
        ..PLAIN
    },
    // DTR1 is 00h, so the read isn't answered, and the next try begins.
    Case {
        name: "power lost after two steps of the first read",
        deeds: &[
            Deed::Submit(1, 5, &GTIN),
            Deed::Steps(3),
            Deed::Power(5),
            Deed::Steps(200),
        ],
        answers: &[(1, TAKEN, 0), (1, DONE, 117)],
        ..PLAIN
    },
];

#[test]
fn runs_and_their_frames(rt: HostRuntime) -> Result<(), Fail> {
    judge_all(rt.alloc(), &LOSSES)?;
    judge_all(rt.alloc(), &ORDERS)?;
    judge_all(rt.alloc(), &STOPS)
}

static LEFT_RUN: Case<'static> = Case {
    name: "a left unit",
    lost: &[(8, 135)],
    deeds: &LEFT,
    answers: &[
        (1, TAKEN, 0),
        (1, Reply::Kept(Code::DoubtOpen), 87),
        (2, TAKEN, 87),
        (2, Reply::Blocked(5), 135),
        (2, TAKEN, 135),
        (2, DONE, 261),
    ],
    ..PLAIN
};

// `./test` runs this one again and again, with each allocation refused in turn.
#[test]
fn a_run_with_a_left_unit(rt: HostRuntime) -> Result<(), Fail> {
    judge(rt.alloc(), &LEFT_RUN)
}
