// A desk of streams that are lent, of which the journal is a sink.
ghost use Rattle.dali_drive.specs.Desks.{failures, look_of};
ghost use Rattle.dali_drive.specs.Transcript.{shown};

use crate::desk::Desk;
use crate::lines::AnswerText;
use crate::link::exchange_noting;
use crate::streams::{Sink, Source, put_all};
use dali_frame::Frame;
use dali_trace::DriveFault;

/// A desk of streams that are lent, of which the journal is a sink (profile).
#[derive(Drop)]
pub struct LentSinks<'i, 'l, 's, 'o, I: Source, L: Sink, J: Sink, O: Sink> {
    pub link_in: &'i mut I,
    pub link_out: &'l mut L,
    pub journal: &'s mut J,
    pub out: &'o mut O,
}

impl<I: Source, L: Sink, J: Sink, O: Sink> Desk for LentSinks<'_, '_, '_, '_, I, L, J, O> {
    ghost use Rattle.dali_drive.specs.LentSinks.{IsSame, SinkLeaves, SinkLeft};
    ghost use Rattle.dali_drive.specs.LentSinks.{flushed_count, left_now, same_now, same_on};

    ghost look = { λ desk. look_of
        (shown (J.held desk.journal.now) (L.held desk.link_out.now) (I.left desk.link_in.now) (O.held desk.out.now))
        (failures (J.failed desk.journal.now) (L.failed desk.link_out.now) (I.failed desk.link_in.now)
        (O.failed desk.out.now))
        (SinkLeaves (J.flushed desk.journal.now) (J.held desk.journal.now)) };

    ghost link_flushed = { λ desk. L.flushed desk.link_out.now };

    ghost moment = { λ desk. flushed_count (J.flushed desk.journal.now) };

    ghost left_since = { λ desk. SinkLeft (J.flushed desk.journal.now) (J.held desk.journal.now) };

    ghost same = { IsSame };

    fn put(&mut self, bytes: &[u8]) -> bool {
        put_all(&mut *self.journal, bytes)
    }

    fn settle(&mut self) -> bool {
        self.journal.flush()
    }

    fn exchange(&mut self, frame: &Frame, text: &mut AnswerText) -> Result<Option<u8>, DriveFault> {
        exchange_noting(frame, &mut *self.link_in, &mut *self.link_out, text)
    }

    fn say(&mut self, line: &[u8]) -> bool {
        put_all(&mut *self.out, line)
    }

    ghost only_now = { λ desk c left. left_now (J.flushed desk.journal.now) (J.held desk.journal.now)
        (J.flushed_is_held desk.journal.now) c left };

    ghost same_now = { same_now };

    ghost same_on = { same_on };
}
