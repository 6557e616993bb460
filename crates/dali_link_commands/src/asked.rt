// The journal that is asked what it says of orders: nothing of it is changed, and no lock is waited for.
ghost use Rattle.std.specs.Prelude.{◌≡◌, IfErr, IfOk, IfSome, OnOk};
ghost use Rattle.dali_journal.specs.declared.standing.Standing.TheVariants.{Idle};
ghost use Rattle.dali_journal.specs.Sentence.{standing_of};
ghost use Rattle.dali_store.specs.Stores.{IsDurable};
ghost use Rattle.dali_link_commands.specs.Asked.{IsAskedAmong, IsReadAsked, IsUnasked};
ghost use Rattle.dali_link_commands.specs.Older.{held_under};

use crate::journal_files::JournalFiles;
use crate::older::{OlderFault, read_older, read_settled};
use crate::problem::Problem;
use dali_input::{Fault, InputFault, journal_in};
use dali_journal::Journal;
use dali_store::Store;
use std::alloc::Global;

/// The journal that a store has, of either version, after the older one if there is one, as in a drive: all their
/// orders. A record that is cut at its end doesn't count. It is durable before it counts. The words for why it can't be
/// asked have its name.
///
/// The older one has to be at rest.
pub fn asked_in<S: Store>(
    alloc: Global,
    older: Option<Journal>,
    name: &str,
    store: &mut S,
) -> Result<Journal, Problem>
    requires rests { IfSome older (λ journal. standing_of journal.records ≡ Idle) }
    ensures ok { IfOk result (IsReadAsked older (S.seen store.old)) }
    ensures settled { OnOk result (IsDurable (S.seen store.new) (S.may_leave store.new)) }
    ensures same { S.seen store.new ≡ S.seen store.old }
    ensures err { IfErr result (λ problem.
        IsUnasked older (S.seen store.old) (S.failed store.old) (S.failed store.new) problem.fault) }
{
    let bytes = match read_settled(alloc, store) {
        Ok(bytes) => bytes,
        Err(InputFault::Memory) => {
            return Err(Problem::unread(alloc, name, InputFault::Memory, None));
        }
        Err(fault) => {
            return Err(Problem::unasked(alloc, name, Fault::Input(fault), store.cause()));
        }
    };
    let own = match journal_in(alloc, bytes) {
        Ok((own, _, _)) => own,
        Err(fault) => return Err(Problem::unasked(alloc, name, fault, store.cause())),
    };
    match older {
        None => Ok(own),
        Some(older) => match own.behind(older) {
            Ok(journal) => {
                // it shows what is true of every journal
                let _most = journal.limit();
                Ok(journal)
            }
            Err(fault) => Err(Problem::older(alloc, name, OlderFault::Join(fault), None)),
        },
    }
}

/// The journal of a file after those of older files, which are read as in a drive: each has to be at rest, and none may
/// be in use. Its own file may be in use.
pub fn read_asked<R: JournalFiles + AllocGlobal>(
    rt: &R,
    name: &str,
    older: &[&str],
) -> Result<Journal, Problem>
    ensures { IfOk result (IsAskedAmong (R.has rt.now name.now) (held_under (R.has rt.now) older.entry.now)) }
{
    let whole = match read_older(rt, older) {
        Ok(whole) => whole,
        Err(problem) => return Err(problem),
    };
    match rt.open_asked(name) {
        Ok(store) => {
            let mut store = store;
            asked_in(rt.alloc(), whole, name, &mut store)
        }
        Err(problem) => Err(problem),
    }
}
