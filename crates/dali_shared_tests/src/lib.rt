//! The shared part of the test crates.
//!
//! A crate of its own: both crates of tests use it.
#![tactic(auto)]

ghost use Rattle.std.specs.Prelude.{◌≡◌, IfOk, IfErr, true, false};

mod gtin;

pub use gtin::GTIN;
use std::alloc::AllocError;
use std::test::Fail;

/// As many steps as any order of the tests takes, and more.
pub const ENOUGH: usize = 1_700;

/// Fails a test if something isn't so, and prints what was wanted. It is proved once, and an `assert_eq` at each place.
pub fn expect_that(is_so: bool, wanted: &str) -> Result<(), Fail>
    ensures ok { IfOk result (λ done. is_so ≡ true) }
    ensures err { IfErr result (λ fail. is_so ≡ false) }
{
    if is_so {
        Ok(())
    } else {
        Err(Fail::from(wanted))
    }
}

/// The same at a place, which it tells too.
pub fn expect_at(place: usize, is_so: bool, wanted: &str) -> Result<(), Fail>
    ensures ok { IfOk result (λ done. is_so ≡ true) }
    ensures err { IfErr result (λ fail. is_so ≡ false) }
{
    if is_so {
        Ok(())
    } else {
        Err(Fail::from((place, wanted)))
    }
}

/// Puts one more at the end of a list.
pub fn put<T: Drop>(list: &mut Vec<T>, item: T) -> Result<(), AllocError> {
    list.reserve(1)?;
    list.push_reserved(item);
    Ok(())
}
