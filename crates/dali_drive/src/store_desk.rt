// A desk whose journal is in a store.
ghost use Rattle.std.specs.Prelude.{◌≡◌, IfErr, IfOk, IfSome, ⊤};
ghost use Rattle.dali_journal.specs.declared.standing.Standing.TheVariants.{Idle};
ghost use Rattle.dali_journal.specs.Sentence.{standing_of};
ghost use Rattle.dali_drive.specs.Behind.{IsUnjoined, IsWhole};

use crate::desk::{Desk, OpenDesk};
use crate::lines::AnswerText;
use crate::link::exchange_noting;
use crate::streams::{Sink, Source, put_all};
use dali_frame::Frame;
use dali_journal::{JoinFault, Journal};
use dali_store::{OpenFault, Store, append_all, open};
use dali_trace::DriveFault;
use std::alloc::Global;

/// A desk whose journal is in a store (profile).
#[derive(Drop)]
pub struct StoreDesk<I, L, S, O> {
    pub link_in: I,
    pub link_out: L,
    pub journal: S,
    /// The journal of all older ones, which that of the store follows, if there are any.
    pub older: Option<Journal>,
    pub out: O,
}

impl<I: Source, L: Sink, S: Store, O: Sink> Desk for StoreDesk<I, L, S, O> {
    ghost use Rattle.dali_drive.specs.StoreDesks.{store_look};

    ghost look = { store_look S.seen S.failed S.may_leave L.held L.failed I.left I.failed O.held O.failed };

    ghost link_flushed = { λ desk. L.flushed desk.link_out };

    ghost moment = { λ desk. S.moment desk.journal };

    ghost left_since = { λ desk. S.left_since desk.journal };

    ghost same = { λ _ _. ⊤ };

    fn put(&mut self, bytes: &[u8]) -> bool {
        append_all(&mut self.journal, bytes)
    }

    fn settle(&mut self) -> bool {
        self.journal.sync()
    }

    fn exchange(&mut self, frame: &Frame, text: &mut AnswerText) -> Result<Option<u8>, DriveFault> {
        exchange_noting(frame, &mut self.link_in, &mut self.link_out, text)
    }

    fn say(&mut self, line: &[u8]) -> bool {
        put_all(&mut self.out, line)
    }

    ghost only_now = { λ desk c left. S.only_now desk.journal c left };

    ghost same_now = { λ _. tt };

    ghost same_on = { λ _ _ _ _ _. tt };
}

impl<I: Source, L: Sink, S: Store, O: Sink> OpenDesk for StoreDesk<I, L, S, O> {
    ghost older = { λ desk. desk.older };

    fn open(&mut self, alloc: Global, limit: u32, most: usize) -> Result<Journal, OpenFault> {
        let own = match open(alloc, &mut self.journal, limit, most) {
            Ok(own) => own,
            Err(fault) => return Err(fault),
        };
        match joined(own, self.older.take()) {
            Ok(journal) => Ok(journal),
            Err(fault) => Err(OpenFault::Join(fault)),
        }
    }
}

// The journal after the older one, if there is one.
fn joined(own: Journal, older: Option<Journal>) -> Result<Journal, JoinFault>
    requires rests { IfSome older (λ journal. standing_of journal.records ≡ Idle) }
    ensures ok { IfOk result (IsWhole older own.limit own) }
    ensures err { IfErr result (λ fault. IsUnjoined fault own older) }
{
    let Some(older) = older else {
        return Ok(own);
    };
    match own.behind(older) {
        Ok(whole) => {
            // it shows what is true of every journal
            let _most = whole.limit();
            Ok(whole)
        }
        Err(fault) => Err(fault),
    }
}
