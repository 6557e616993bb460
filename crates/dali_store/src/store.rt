// The place of one journal.
ghost use Rattle.std.specs.Prelude.{◌≡◌, ◌<◌, ◌≤◌, ◌||◌, ℕ, Bool, List, Option, not, length, take, true, false};
ghost use Rattle.std.specs.Prelude.{IfOk, IfSome, IsErrOf, OnOk, OnErr, Some};
ghost use Rattle.std.specs.Io.KnownBytes.{Appends};
ghost use Rattle.dali_store.specs.declared.store.StoreFault.TheVariants.{TooBig};
ghost use Rattle.dali_store.specs.Stores.{Shows, IsDurable, IsBetween, IsWithin, MayAlso, Elapses, LeavesOnly};
ghost use Rattle.dali_store.specs.Stores.{Takes, CutsTo, IsBehind, IsLonger, Becomes, KeepsOrBecomes};
ghost use Rattle.dali_store.specs.Stores.{is_refusal, is_failure};

use std::alloc::{AllocError, AllocFailed, Global};

/// Why a store doesn't do what is asked.
#[derive(Clone, Copy, Debug, PartialEq, Eq)]
pub enum StoreFault {
    /// The store failed.
    Failed,
    /// It holds more bytes than may be read.
    TooBig,
    /// There is no memory.
    NoMemory,
}

impl From<AllocError> for StoreFault {
    ghost use Rattle.dali_store.specs.declared.store.StoreFault.TheVariants.{NoMemory};

    ghost from_gives = { λ _ e. e ≡ NoMemory };

    fn from(_: AllocError) -> StoreFault {
        StoreFault::NoMemory
    }
}

impl<T: Drop> From<AllocFailed<T>> for StoreFault {
    ghost use Rattle.dali_store.specs.declared.store.StoreFault.TheVariants.{NoMemory};

    ghost from_gives = { λ _ e. e ≡ NoMemory };

    fn from(_: AllocFailed<T>) -> StoreFault {
        StoreFault::NoMemory
    }
}

/// The place where the bytes of one journal are kept (profile). A stop, of the program or of the computer, may come
/// at any moment, and what is kept then is what the store left.
pub trait Store {
    /// The bytes that a read gives, if they are known.
    ghost seen: { Self → Option (List ℕ) };

    /// The bytes that a stop at this moment may leave.
    ghost may_leave: { Self → List ℕ → Type 0 };

    /// The moment, as a number that doesn't fall.
    ghost moment: { Self → ℕ };

    /// The bytes that a stop at some moment from that one on might have left, during a call or between two.
    ghost left_since: { Self → ℕ → List ℕ → Type 0 };

    /// Whether a call has failed.
    ghost failed: { Self → Bool };

    /// All the bytes, if there are no more than `limit`.
    fn read(&mut self, alloc: Global, limit: usize) -> Result<Vec<u8>, StoreFault>
        ensures bytes { IfOk result (λ bytes. Shows (seen self.old) bytes.items × (length bytes.items ≤ limit)) }
        ensures too_big { IsErrOf result TooBig → IsLonger limit (seen self.old) }
        ensures same { seen self.new ≡ seen self.old }
        ensures stop { (c : List ℕ) → may_leave self.new c → may_leave self.old c }
        ensures time { Elapses (moment self.old) (moment self.new) (left_since self.old) (left_since self.new)
            (may_leave self.new) }
        ensures failed { failed self.new ≡ (failed self.old || is_failure result) };

    /// Puts some bytes after those that are there: `Some(k)` if just the first `k` of them were put. `None` and
    /// `Some(0)` are failures, and at `None` a first part of them may have been put.
    ///
    /// There has to be a byte. A stop leaves what it might have left before, or a first part of what is there then,
    /// with all that was there.
    fn append(&mut self, bytes: &[u8]) -> Option<usize>
        requires { 0 < length bytes.now }
        ensures bytes { Takes (seen self.old) (seen self.new) result bytes.now }
        ensures stop { MayAlso (IsBetween (seen self.old) (seen self.new)) (may_leave self.old) (may_leave self.new) }
        ensures time { Elapses (moment self.old) (moment self.new) (left_since self.old) (left_since self.new)
            (may_leave self.new) }
        ensures failed { failed self.new ≡ (failed self.old || is_refusal result) };

    /// Cuts away the bytes after the first `len`. If it fails nothing is cut away.
    ///
    /// A stop leaves what it might have left before, or a first part of what was there, with all that is there then.
    fn cut(&mut self, len: usize) -> bool
        requires { IsWithin len (seen self.old) }
        ensures bytes { CutsTo len (seen self.old) (seen self.new) result }
        ensures stop { MayAlso (IsBehind len (seen self.old)) (may_leave self.old) (may_leave self.new) }
        ensures time { Elapses (moment self.old) (moment self.new) (left_since self.old) (left_since self.new)
            (may_leave self.new) }
        ensures failed { failed self.new ≡ (failed self.old || not result) };

    /// Puts these bytes in the place of all that is there, whole or not at all. If that succeeds a stop leaves them.
    fn replace(&mut self, bytes: &[u8]) -> bool
        ensures bytes { result ≡ true → Becomes (seen self.old) (seen self.new) bytes.now }
        ensures whole { result ≡ false → KeepsOrBecomes (seen self.old) (seen self.new) bytes.now }
        ensures settled { result ≡ true → IsDurable (seen self.new) (may_leave self.new) }
        ensures stop { MayAlso (λ c. c ≡ bytes.now) (may_leave self.old) (may_leave self.new) }
        ensures time { Elapses (moment self.old) (moment self.new) (left_since self.old) (left_since self.new)
            (may_leave self.new) }
        ensures failed { failed self.new ≡ (failed self.old || not result) };

    /// After it a stop leaves what a read gives. `false` if that failed.
    fn sync(&mut self) -> bool
        ensures same { seen self.new ≡ seen self.old }
        ensures settled { result ≡ true → IsDurable (seen self.new) (may_leave self.new) }
        ensures stop { (c : List ℕ) → may_leave self.new c → may_leave self.old c }
        ensures time { Elapses (moment self.old) (moment self.new) (left_since self.old) (left_since self.new)
            (may_leave self.new) }
        ensures failed { failed self.new ≡ (failed self.old || not result) };

    /// Whether a call has failed.
    fn has_failed(&self) -> bool
        ensures { result ≡ failed self.now };

    /// The failure, in words for a person, if there are any.
    fn cause(&self) -> Option<&str>
        ensures { IfSome result (λ words. failed self.now ≡ true) };

    /// This moment is one of those since an earlier one.
    ghost counts_now: { (store : Self) (t : ℕ) (c : List ℕ) → t ≤ moment store → may_leave store c
        → left_since store t c };

    /// Bytes that are seen may be left.
    ghost leaves_what_is_seen: { (store : Self) (c : List ℕ) → seen store ≡ Some c → may_leave store c };

    /// Since this moment there is no other.
    ghost only_now: { (store : Self) (c : List ℕ) → left_since store (moment store) c → may_leave store c };
}

/// Puts all the bytes after those that are there. If that fails a first part of them was put.
///
/// If a stop left all that was there before, at each moment it leaves that with a first part of what was put.
pub fn append_all<S: Store>(store: &mut S, bytes: &[u8]) -> bool
    ensures whole { result ≡ true → Appends (S.seen store.old) (S.seen store.new) bytes.now }
    ensures cut { result ≡ false
        → (k : ℕ) × (k ≤ length bytes.now) × Appends (S.seen store.old) (S.seen store.new) (take k bytes.now) }
    ensures stop { IsDurable (S.seen store.old) (S.may_leave store.old)
        → (c : List ℕ) → S.may_leave store.new c → IsBetween (S.seen store.old) (S.seen store.new) c }
    ensures any_moment { IsDurable (S.seen store.old) (S.may_leave store.old)
        → LeavesOnly S.moment S.left_since store.old store.new (IsBetween (S.seen store.old) (S.seen store.new)) }
    ensures failed { S.failed store.new ≡ (S.failed store.old || not result) }
{
    let mut done = 0;
    while done < bytes.len() {
        match store.append(&bytes[done..]) {
            Some(count) if count > 0 => done += count,
            _ => return false,
        }
    }
    true
}
