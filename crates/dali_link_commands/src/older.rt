// Older journals: those that are full or retired, whose orders still count as begun.
ghost use Rattle.std.specs.Prelude.{◌≡◌, ◌≢◌, [], IfErr, IfOk, IfSome, OnErr, OnOk, length, map};
ghost use Rattle.std.specs.List.{AllByRecursion};
ghost use Rattle.dali_journal.specs.declared.standing.Standing.TheVariants.{Idle};
ghost use Rattle.dali_journal.specs.Sentence.{standing_of};
ghost use Rattle.dali_store.specs.Stores.{IsDurable, Shows};
ghost use Rattle.dali_link_commands.specs.Older.{AreJoined, IsFirstUnusable, IsJoinedBehind, IsOlderFault, IsReadBehind};
ghost use Rattle.dali_link_commands.specs.Older.{IsStoreFailure, IsUnusable, fault_older, held_under};
ghost use Rattle.dali_link_commands.specs.BehindAnswers.{MayBeUnusable};
ghost use Rattle.dali_link_commands.specs.OrdersAnswers.{IsUnopened};

use crate::journal_files::JournalFiles;
use crate::problem::Problem;
use dali_drive::DriveFault;
use dali_input::{Fault, InputFault, JOURNAL_LIMIT, journal_in};
use dali_journal::{JoinFault, Journal, JournalFault, Standing};
use dali_store::{Store, StoreFault};
use std::alloc::Global;

/// Why a file can't be used as an older journal.
#[derive(Clone, Copy, PartialEq, Eq)]
pub enum OlderFault {
    /// Its bytes can't be read, or are no journal's.
    Unloaded(Fault),
    /// Its end is cut: the last drive of it was stopped in mid-record, or it isn't whole.
    Cut,
    /// It isn't at rest: an order of it isn't ended, or a unit is left.
    AtWork,
    /// It has an order number that another one has, or there was no memory.
    Join(JoinFault),
}

impl OlderFault {
    /// The fault that is reported: 15 Older, 20 Memory or 21 File.
    pub fn fault(&self) -> Fault
        ensures is { result ≡ fault_older self.now }
        ensures reported { result ≢ Fault.Drive DriveFault.Out }
    {
        match self {
            OlderFault::Unloaded(Fault::Input(InputFault::Memory))
            | OlderFault::Unloaded(Fault::Journal(JournalFault::NoMemory))
            | OlderFault::Join(JoinFault::NoMemory) => Fault::Input(InputFault::Memory),
            OlderFault::Unloaded(Fault::Input(InputFault::File)) => Fault::Input(InputFault::File),
            OlderFault::Unloaded(_) | OlderFault::Cut | OlderFault::AtWork | OlderFault::Join(_) =>
                Fault::Older,
        }
    }
}

/// The journal of these bytes, of either version, after the older one, if there is one already: all their orders.
///
/// The older one has to be at rest, and so has this one, and no record of it may be cut.
pub fn joined_behind(
    alloc: Global,
    older: Option<Journal>,
    bytes: Vec<u8>,
) -> Result<Journal, OlderFault>
    requires rests { IfSome older (λ journal. standing_of journal.records ≡ Idle) }
    ensures ok { IfOk result (IsJoinedBehind older bytes.items) }
    ensures err { IfErr result (IsOlderFault older bytes.items) }
{
    let length = bytes.len();
    let (own, counted) = match journal_in(alloc, bytes) {
        Ok((own, counted, _)) => (own, counted),
        Err(fault) => return Err(OlderFault::Unloaded(fault)),
    };
    if counted != length {
        return Err(OlderFault::Cut);
    }
    let Standing::Idle = own.standing() else {
        return Err(OlderFault::AtWork);
    };
    match older {
        None => Ok(own),
        Some(older) => match own.behind(older) {
            Ok(journal) => Ok(journal),
            Err(fault) => Err(OlderFault::Join(fault)),
        },
    }
}

/// The journals of these stores as one, each after those that are named before it; none if there are no stores.
///
/// Each has its name, and has to be at rest, and is durable before it counts. After the first one that can't be used no
/// store is touched.
pub fn joined_older<S: Store>(
    alloc: Global,
    names: &[&str],
    stores: &mut [S],
) -> Result<Option<Journal>, Problem>
    requires { length names.now ≡ length stores.old }
    ensures ok { IfOk result (AreJoined (map S.seen stores.old)) }
    ensures settled { OnOk result
        (AllByRecursion (λ store. IsDurable (S.seen store) (S.may_leave store)) stores.new) }
    ensures same { OnOk result (map S.seen stores.new ≡ map S.seen stores.old) }
    ensures err { IfErr result (λ problem. IsFirstUnusable S.seen S.failed stores.old stores.new problem.fault) }
{
    let mut older = None;
    for (index, store) in stores.iter_mut().enumerate() {
        match joined_store(alloc, older, names[index], store) {
            Ok(journal) => older = Some(journal),
            Err(problem) => return Err(problem),
        }
    }
    Ok(older)
}

// The journal of this store after the older one. It is synced once it is read: what a program that was killed has
// written may be lost until then.
fn joined_store<S: Store>(
    alloc: Global,
    older: Option<Journal>,
    name: &str,
    store: &mut S,
) -> Result<Journal, Problem>
    requires rests { IfSome older (λ journal. standing_of journal.records ≡ Idle) }
    ensures ok { IfOk result (IsReadBehind older (S.seen store.old)) }
    ensures settled { OnOk result (IsDurable (S.seen store.new) (S.may_leave store.new)) }
    ensures same { S.seen store.new ≡ S.seen store.old }
    ensures err { IfErr result (λ problem.
        IsUnusable older (S.seen store.old) (S.failed store.old) (S.failed store.new) problem.fault) }
{
    let fault = match read_settled(alloc, store) {
        Ok(bytes) => match joined_behind(alloc, older, bytes) {
            Ok(journal) => return Ok(journal),
            Err(fault) => fault,
        },
        Err(fault) => OlderFault::Unloaded(Fault::Input(fault)),
    };
    Err(Problem::older(alloc, name, fault, store.cause()))
}

/// All the bytes of a store, which are durable then.
pub(crate) fn read_settled<S: Store>(alloc: Global, store: &mut S) -> Result<Vec<u8>, InputFault>
    ensures ok { IfOk result (λ bytes. Shows (S.seen store.old) bytes.items) }
    ensures settled { OnOk result (IsDurable (S.seen store.new) (S.may_leave store.new)) }
    ensures same { S.seen store.new ≡ S.seen store.old }
    ensures err { IfErr result (IsStoreFailure (S.seen store.old) (S.failed store.old) (S.failed store.new)) }
{
    match store.read(alloc, JOURNAL_LIMIT as usize) {
        Ok(bytes) if store.sync() => Ok(bytes),
        Ok(_) | Err(StoreFault::Failed) => Err(InputFault::File),
        Err(StoreFault::TooBig) => Err(InputFault::TooBig),
        Err(StoreFault::NoMemory) => Err(InputFault::Memory),
    }
}

/// The files of journals that are at rest, and the one journal that they are, each after those that are named before
/// it; none if none is named. As long as this is there no drive can open one of them.
#[derive(Drop)]
pub(crate) struct HeldOlder<S: Store + Drop> {
    pub(crate) journal: Option<Journal>,
    files: Vec<S>,
}

/// The journals of the files of these names as one, as `held_older` has it.
pub(crate) fn read_older<R: JournalFiles + AllocGlobal>(
    rt: &R,
    names: &[&str],
) -> Result<Option<Journal>, Problem>
    ensures ok { IfOk result (AreJoined (held_under (R.has rt.now) names.entry.now)) }
    ensures rests { IfOk result (λ older. IfSome older (λ journal. standing_of journal.records ≡ Idle)) }
    ensures err { OnErr result (names.entry.now ≢ []) }
    ensures why { IfErr result (λ problem. MayBeUnusable (held_under (R.has rt.now) names.entry.now) problem.fault) }
{
    match held_older(rt, names) {
        Ok(held) => Ok(held.journal),
        Err(problem) => Err(problem),
    }
}

/// The files of these names as one journal. All are open, and no drive can open one, before the first of them is read.
pub(crate) fn held_older<R: JournalFiles + AllocGlobal>(
    rt: &R,
    names: &[&str],
) -> Result<HeldOlder<R::Opened>, Problem>
    ensures ok { IfOk result (λ held. AreJoined (held_under (R.has rt.now) names.entry.now) held.journal) }
    ensures rests { IfOk result (λ held. IfSome held.journal (λ journal. standing_of journal.records ≡ Idle)) }
    ensures err { OnErr result (names.entry.now ≢ []) }
    ensures why { IfErr result (λ problem. MayBeUnusable (held_under (R.has rt.now) names.entry.now) problem.fault) }
{
    let mut stores = all_opened(rt, names)?;
    match joined_older(rt.alloc(), names, &mut stores) {
        Ok(journal) => Ok(HeldOlder {
            journal,
            files: stores,
        }),
        Err(problem) => Err(problem),
    }
}

// The files of these names, each of which no drive has open.
fn all_opened<R: JournalFiles + AllocGlobal>(
    rt: &R,
    names: &[&str],
) -> Result<Vec<R::Opened>, Problem>
    ensures all { IfOk result (λ stores.
        map R.Opened.seen stores.items ≡ held_under (R.has rt.now) names.entry.now) }
    ensures err { OnErr result (names.entry.now ≢ []) }
    ensures why { IfErr result (λ problem. IsUnopened problem.fault) }
{
    let mut stores = Vec::new(rt.alloc());
    for &name in names {
        match rt.open_older(name) {
            Ok(store) => {
                if stores.push(store).is_err() {
                    let fault = OlderFault::Unloaded(Fault::Input(InputFault::Memory));
                    return Err(Problem::older(rt.alloc(), name, fault, None));
                }
            }
            Err(problem) => return Err(problem),
        }
    }
    Ok(stores)
}
