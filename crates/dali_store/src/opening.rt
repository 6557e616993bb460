// A journal is opened over a store.
ghost use Rattle.std.specs.Prelude.{◌≡◌, ◌≢◌, ◌<◌, ◌≤◌, ◌||◌, ℕ, List, IfOk, IfErr, OnOk};
ghost use Rattle.dali_journal.specs.declared.version.Version.TheVariants.{Two};
ghost use Rattle.dali_journal.specs.Spelling.{journal_spelling};
ghost use Rattle.dali_store.specs.Stores.{IsDurable, Becomes, LeavesOnly, is_failure};
ghost use Rattle.dali_store.specs.Opened.{IsFound, IsOpened, IsOpenFault, LeavesAlike, is_store_failure};

use crate::store::{Store, StoreFault};
use dali_journal::{JoinFault, Journal, JournalFault, Version};
use std::alloc::Global;

/// Why no journal is opened.
#[derive(Clone, Copy, Debug, PartialEq, Eq)]
pub enum OpenFault {
    /// The store doesn't do what is asked.
    Store(StoreFault),
    /// Its bytes are no journal's.
    Journal(JournalFault),
    /// It can't follow the older ones. `open` has none, and never gives this.
    Join(JoinFault),
}

// A journal that was found, in which version, how many bytes count, and how many there are.
#[derive(Drop)]
struct Found {
    journal: Journal,
    version: Version,
    counted: usize,
    total: usize,
}

/// Opens the journal that a store holds, for at most `limit` orders, of at most `most` bytes. The store holds it in
/// version 2 then, with nothing after the bytes that count, and a stop leaves that.
///
/// At each moment a stop leaves what it might have left before, or bytes of the same records.
pub fn open<S: Store>(
    alloc: Global,
    store: &mut S,
    limit: u32,
    most: usize,
) -> Result<Journal, OpenFault>
    ensures journal { IfOk result (λ journal. IsOpened limit most (S.seen store.old) journal) }
    ensures holds { IfOk result (λ journal.
        Becomes (S.seen store.old) (S.seen store.new) (journal_spelling Two journal.records)) }
    ensures settled { OnOk result (IsDurable (S.seen store.new) (S.may_leave store.new)) }
    ensures fault { IfErr result (IsOpenFault limit most (S.seen store.old) (S.seen store.new)) }
    ensures any_moment { LeavesOnly S.moment S.left_since store.old store.new
        (LeavesAlike limit (S.seen store.old) (S.may_leave store.old)) }
    ensures stop { (c : List ℕ) → S.may_leave store.new c
        → LeavesAlike limit (S.seen store.old) (S.may_leave store.old) c }
    ensures failed { OnOk result (S.failed store.new ≡ S.failed store.old) }
    ensures failed_err { IfErr result (λ fault. S.failed store.new ≡ (S.failed store.old || is_store_failure fault)) }
{
    let found = match found_in(alloc, store, limit, most) {
        Ok(found) => found,
        Err(fault) => return Err(fault),
    };
    match ready(alloc, store, limit, most, &found) {
        Ok(()) => Ok(found.journal),
        Err(fault) => Err(OpenFault::Store(fault)),
    }
}

// Reads the journal of a store.
fn found_in<S: Store>(
    alloc: Global,
    store: &mut S,
    limit: u32,
    most: usize,
) -> Result<Found, OpenFault>
    ensures ok { IfOk result (λ found.
        IsFound limit most (S.seen store.old) found.journal found.version found.counted found.total) }
    ensures err { IfErr result (IsOpenFault limit most (S.seen store.old) (S.seen store.new)) }
    ensures same { S.seen store.new ≡ S.seen store.old }
    ensures stop { (c : List ℕ) → S.may_leave store.new c → S.may_leave store.old c }
    ensures any_moment { LeavesOnly S.moment S.left_since store.old store.new (S.may_leave store.old) }
    ensures failed { OnOk result (S.failed store.new ≡ S.failed store.old) }
    ensures failed_err { IfErr result (λ fault. S.failed store.new ≡ (S.failed store.old || is_store_failure fault)) }
{
    match store.read(alloc, most) {
        Ok(bytes) => {
            let total = bytes.len();
            match Journal::load_vec(alloc, limit, bytes) {
                Ok((journal, counted, version)) => Ok(Found {
                    journal,
                    version,
                    counted,
                    total,
                }),
                Err(fault) => Err(OpenFault::Journal(fault)),
            }
        }
        Err(fault) => Err(OpenFault::Store(fault)),
    }
}

// Sees to it that a store holds a journal in version 2 and nothing after it.
fn ready<S: Store>(
    alloc: Global,
    store: &mut S,
    limit: u32,
    most: usize,
    found: &Found,
) -> Result<(), StoreFault>
    requires found { IsFound limit most (S.seen store.old) found.now.journal found.now.version found.now.counted
        found.now.total }
    ensures holds { OnOk result
        (Becomes (S.seen store.old) (S.seen store.new) (journal_spelling Two found.now.journal.records)) }
    ensures settled { OnOk result (IsDurable (S.seen store.new) (S.may_leave store.new)) }
    ensures fault { IfErr result (λ fault.
        IsOpenFault limit most (S.seen store.old) (S.seen store.new) (OpenFault.Store fault)) }
    ensures any_moment { LeavesOnly S.moment S.left_since store.old store.new
        (LeavesAlike limit (S.seen store.old) (S.may_leave store.old)) }
    ensures failed { S.failed store.new ≡ (S.failed store.old || is_failure result) }
{
    match found.version {
        Version::Two => {
            if found.total == 0 {
                write_anew(alloc, store, limit, most, found)
            } else if found.counted < found.total {
                cut_behind(store, limit, most, found)
            } else {
                sync_whole(store, limit, most, found)
            }
        }
        Version::One => write_anew(alloc, store, limit, most, found),
    }
}

// Puts a journal's bytes in version 2 in the place of all.
fn write_anew<S: Store>(
    alloc: Global,
    store: &mut S,
    limit: u32,
    most: usize,
    found: &Found,
) -> Result<(), StoreFault>
    requires found { IsFound limit most (S.seen store.old) found.now.journal found.now.version found.now.counted
        found.now.total }
    ensures holds { OnOk result
        (Becomes (S.seen store.old) (S.seen store.new) (journal_spelling Two found.now.journal.records)) }
    ensures settled { OnOk result (IsDurable (S.seen store.new) (S.may_leave store.new)) }
    ensures fault { IfErr result (λ fault.
        IsOpenFault limit most (S.seen store.old) (S.seen store.new) (OpenFault.Store fault)) }
    ensures any_moment { LeavesOnly S.moment S.left_since store.old store.new
        (LeavesAlike limit (S.seen store.old) (S.may_leave store.old)) }
    ensures failed { S.failed store.new ≡ (S.failed store.old || is_failure result) }
{
    let Ok(bytes) = found.journal.to_bytes(alloc) else {
        return Err(StoreFault::NoMemory);
    };
    if store.replace(&bytes) {
        Ok(())
    } else {
        Err(StoreFault::Failed)
    }
}

// Cuts away the bytes after those that count.
fn cut_behind<S: Store>(
    store: &mut S,
    limit: u32,
    most: usize,
    found: &Found,
) -> Result<(), StoreFault>
    requires found { IsFound limit most (S.seen store.old) found.now.journal Two found.now.counted found.now.total }
    requires some { found.now.counted < found.now.total }
    ensures holds { OnOk result
        (Becomes (S.seen store.old) (S.seen store.new) (journal_spelling Two found.now.journal.records)) }
    ensures settled { OnOk result (IsDurable (S.seen store.new) (S.may_leave store.new)) }
    ensures fault { IfErr result (λ fault.
        IsOpenFault limit most (S.seen store.old) (S.seen store.new) (OpenFault.Store fault)) }
    ensures any_moment { LeavesOnly S.moment S.left_since store.old store.new
        (LeavesAlike limit (S.seen store.old) (S.may_leave store.old)) }
    ensures failed { S.failed store.new ≡ (S.failed store.old || is_failure result) }
{
    if !store.cut(found.counted) {
        return Err(StoreFault::Failed);
    }
    if store.sync() {
        Ok(())
    } else {
        Err(StoreFault::Failed)
    }
}

// Leaves all bytes as they are.
fn sync_whole<S: Store>(
    store: &mut S,
    limit: u32,
    most: usize,
    found: &Found,
) -> Result<(), StoreFault>
    requires found { IsFound limit most (S.seen store.old) found.now.journal Two found.now.counted found.now.total }
    requires some { found.now.total ≢ 0 }
    requires whole { found.now.total ≤ found.now.counted }
    ensures holds { OnOk result
        (Becomes (S.seen store.old) (S.seen store.new) (journal_spelling Two found.now.journal.records)) }
    ensures settled { OnOk result (IsDurable (S.seen store.new) (S.may_leave store.new)) }
    ensures fault { IfErr result (λ fault.
        IsOpenFault limit most (S.seen store.old) (S.seen store.new) (OpenFault.Store fault)) }
    ensures any_moment { LeavesOnly S.moment S.left_since store.old store.new
        (LeavesAlike limit (S.seen store.old) (S.may_leave store.old)) }
    ensures failed { S.failed store.new ≡ (S.failed store.old || is_failure result) }
{
    if !store.sync() {
        return Err(StoreFault::Failed);
    }
    Ok(())
}
