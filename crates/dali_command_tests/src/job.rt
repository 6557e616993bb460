// One command line that names a job: which others name which, the contract says, and the cases of examples/ and the
// tests of the program have each option. Command lines that name none, of which only the kind of their error is looked
// at here.
use clap::error::ErrorKind;
use dali_job::{Job, job_of};
use dali_shared_tests::expect_that;
use std::alloc::{AllocError, Global};
use std::test::Fail;

// The words of a command line, with a space between them.
fn words_of(alloc: Global, line: &str) -> Result<Vec<&str>, AllocError> {
    line.split(' ').collect(alloc)
}

#[test]
fn a_command_line(rt: HostRuntime) -> Result<(), Fail> {
    let words = words_of(rt.alloc(), "dali_bench frame A303")?;
    expect_that(
        matches!(job_of(rt.alloc(), &words), Ok(Job::Frame("A303"))),
        "the job of a frame",
    )
}

// Whether a command line has an error of the kind.
fn is_refused(alloc: Global, kind: ErrorKind, line: &str) -> Result<bool, AllocError> {
    let words = words_of(alloc, line)?;
    match job_of(alloc, &words) {
        Ok(_) => Ok(false),
        Err(error) => Ok(error.kind() == kind),
    }
}

// Tests that each of the command lines has an error of the kind.
fn refused(alloc: Global, kind: ErrorKind, lines: &str) -> Result<(), Fail> {
    for line in lines.split('\n') {
        expect_that(is_refused(alloc, kind, line)?, line)?;
    }
    Ok(())
}

const UNVALUED: &str = "dali_bench run
dali_bench drive
dali_bench drive a
dali_bench drive a --moment 5
dali_bench drive a --report r
dali_bench drive a --older c
dali_bench journal --updates
dali_bench verify";

const UNKNOWN: &str = "dali_bench check a b
dali_bench fields a
dali_bench check --frames a
dali_bench check --moment 5 a
dali_bench journal --report r a
dali_bench journal --older c a
dali_bench run a b
dali_bench drive a b c
dali_bench drive --frames a b
dali_bench verify --follow a
dali_bench verify --require-done a
dali_bench verify --older c a
dali_bench read --moment 5 5 a
dali_bench scan --all";

const TWICE: &str = "dali_bench run --frames a --frames
dali_bench check --journal b a --journal b
dali_bench drive --moment 1 a b --moment 1
dali_bench drive --require-done a b --require-done
dali_bench drive --follow a b --follow
dali_bench drive --report r a b --report r
dali_bench journal --updates a --updates
dali_bench scan --gtin 5 --gtin";

const NO_VALUE: &str = "dali_bench check a --journal
dali_bench check a --older
dali_bench drive a b --report
dali_bench drive a b --older c --older
dali_bench verify a --report";

// The kind of the error of each of the command lines beside it.
static REFUSED: [(ErrorKind, &str); 6] = [
    (ErrorKind::MissingSubcommand, "dali_bench"),
    (ErrorKind::MissingRequiredArgument, UNVALUED),
    (ErrorKind::UnknownArgument, UNKNOWN),
    (ErrorKind::ArgumentConflict, TWICE),
    (ErrorKind::InvalidValue, NO_VALUE),
    (ErrorKind::ValueValidation, "dali_bench scan 5 --gtin 64 9"),
];

#[test]
fn command_lines_that_name_no_job(rt: HostRuntime) -> Result<(), Fail> {
    for &(kind, lines) in &REFUSED {
        refused(rt.alloc(), kind, lines)?;
    }
    Ok(())
}
