ghost use Rattle.std.specs.Prelude.{◌≡◌, ◌∷◌, ◌≤◌, ◌+◌, ◌-◌, ◌*◌, ℕ, List, Some, None, Ok, IfSome, IsNone, length, drop};
ghost use Rattle.std.specs.Prelude.{[], get_or, take};
ghost use Rattle.dali_write.specs.Requests.{block};
ghost use Rattle.dali_write.specs.Plans.{greatest, judge_length, judge_format, next_plan, give_up, rows_of, read_back};
ghost use Rattle.dali_write.specs.Plans.{most_of, write_next, read_format, read_backs, expect_all, Plan};
ghost use Rattle.dali_write.specs.Counts.{rows_frames};
ghost use Rattle.dali_write.specs.declared.access.Access.TheVariants.{ReadFrom};
ghost use Rattle.dali_write.specs.Tries.{most_tries, plan_requests};
ghost use Rattle.dali_write.specs.declared.access.Access.{Access};
ghost use Rattle.dali_write.specs.declared.stage.Task.{Task};
ghost use Rattle.dali_write.specs.Stages.{plan_at, access_of, updates_for, pace_for, written_before, go_again};
ghost use Rattle.dali_write.specs.FramesLeft.{limit_at, read_limit};
ghost use Rattle.dali_write.specs.Causes.{cause_by};

use crate::access::Access;
use crate::ask::{Cause, Verdict};
use crate::block::Block;
use crate::pace::Pace;
use crate::row::{another, holds, others_in_row};
use dali_bank::Order;

/// The task of a session.
#[derive(Drop)]
pub(crate) enum Task {
    Fresh(Order, Pace),
    Opened(Order, Pace),
    Closing,
    Reading,
    ReadingBlock(Block),
}

impl Task {
    // The updates of its order.
    pub(crate) fn updates(&self) -> &[(u8, u8)]
        ensures { result.now ≡ updates_for self.now }
    {
        match self {
            Task::Fresh(order, _) | Task::Opened(order, _) => order.updates(),
            Task::Closing | Task::Reading | Task::ReadingBlock(_) => &[],
        }
    }

    // The plan that it keeps to.
    fn pace(&self) -> Pace
        ensures { result ≡ pace_for self.now }
    {
        match self {
            Task::Fresh(_, pace) | Task::Opened(_, pace) => *pace,
            Task::Closing | Task::Reading | Task::ReadingBlock(_) => Pace::Checked,
        }
    }
}

impl Pace {
    // The first read of the content format.
    fn format(self) -> Block
        ensures { Ok (ReadFrom result) ≡ access_of (read_format self) }
    {
        match self {
            Pace::Checked => Block {
                location: 0x11,
                count: 1,
            },
            Pace::Short => Block {
                location: 0x11,
                count: 2,
            },
        }
    }

    // The most locations of a row that is read back.
    fn most(self) -> usize
        ensures value { result ≡ most_of self }
        ensures few { result ≤ 16 }
    {
        match self {
            Pace::Checked => 1,
            Pace::Short => 16,
        }
    }

    // A write just after one to another location.
    fn write(self, before: u8, location: u8, byte: u8) -> Access
        ensures { result ≡ write_next self before location byte }
    {
        match self {
            Pace::Checked => Access::WriteTo(location, byte),
            Pace::Short => Access::WriteOn(before, location, byte),
        }
    }
}

// A row that failed, or told other bytes, and has more locations than this is read again.
const MOST_ONCE: usize = 3;

// It is read again in rows of at most this many.
const MOST_AGAIN: usize = 2;

// The read of the row that begins at a location, before these updates.
fn row(most: usize, location: u8, behind: &[(u8, u8)]) -> Access
    requires { most ≤ 16 }
    ensures back { (byte : ℕ) → Ok result ≡ access_of (read_back (rows_of most ((location, byte) ∷ behind.now))) }
    ensures again { (byte : ℕ) (after : Plan) → Ok result
        ≡ access_of (go_again (rows_of most ((location, byte) ∷ behind.now)) after) }
{
    let count = 1 + others_in_row(most, location, behind) as u8;
    Access::ReadFrom(Block { location, count })
}

// How many of these updates were read back in one row with this one before them; none if other bytes were read.
fn row_held(most: usize, own: (u8, u8), behind: &[(u8, u8)], read: &[u8]) -> Option<usize>
    requires { most ≤ 16 }
    ensures some { IfSome result (λ others. read_back (rows_of most (drop others behind.now))
        ≡ next_plan (read_back (rows_of most (own ∷ behind.now))) (Some read.now)) }
    ensures again { (after : Plan) → IfSome result (λ others. expect_all (rows_of most (drop others behind.now)) after
        ≡ next_plan (go_again (rows_of most (own ∷ behind.now)) after) (Some read.now)) }
    ensures none { IsNone result
        → next_plan (read_back (rows_of most (own ∷ behind.now))) None
        ≡ next_plan (read_back (rows_of most (own ∷ behind.now))) (Some read.now) }
    ensures other { (after : Plan) → IsNone result
        → give_up ≡ next_plan (go_again (rows_of most (own ∷ behind.now)) after) (Some read.now) }
    ensures limit { (unit : ℕ) → IfSome result (λ others.
        length (plan_requests unit (read_back (rows_of most (own ∷ behind.now))) 1) ≤ others + 7) }
    ensures left { (unit : ℕ) (after : Plan) → IfSome result (λ others.
        length (plan_requests unit (go_again (rows_of most (own ∷ behind.now)) after) 1)
        + rows_frames (rows_of most (drop others behind.now)) ≡ rows_frames (rows_of most (own ∷ behind.now))) }
    ensures within { IfSome result (λ others. others ≤ length behind.now) }
{
    let others = others_in_row(most, own.0, behind);
    if holds(read, own.1, others, behind) {
        Some(others)
    } else {
        None
    }
}

// The byte that is read back with this index, the lock byte the first, and those that are read back after it.
fn back_from(updates: &[(u8, u8)], index: usize) -> Option<((u8, u8), &[(u8, u8)])>
    ensures some { IfSome result (λ own. drop index (read_backs updates.now) ≡ own.0 ∷ own.1.now) }
    ensures count { IfSome result (λ own. index + 1 + length own.1.now ≡ 1 + length updates.now) }
    ensures none { IsNone result → 1 + length updates.now ≤ index }
{
    if index == 0 {
        Some((LOCKED, updates))
    } else {
        match updates.get(index - 1..) {
            Some([own, behind @ ..]) => Some((*own, behind)),
            _ => None,
        }
    }
}

// The same among `left` of them.
fn piece_from(updates: &[(u8, u8)], index: usize, left: usize) -> Option<((u8, u8), &[(u8, u8)])>
    ensures some { IfSome result (λ own. take left (drop index (read_backs updates.now)) ≡ own.0 ∷ own.1.now) }
    ensures count { IfSome result (λ own. index + 1 + length own.1.now ≤ 1 + length updates.now) }
    ensures none { IsNone result → take left (drop index (read_backs updates.now)) ≡ [] }
{
    match back_from(updates, index) {
        Some((own, behind)) if left > 0 => Some((own, behind.get(..left - 1).unwrap_or(behind))),
        _ => None,
    }
}

// The location of the write before the update with this index: the first one comes after the lock byte.
fn written_before(updates: &[(u8, u8)], index: usize) -> u8
    ensures { result ≡ written_before updates.now index }
{
    if index == 0 {
        0x02
    } else {
        updates.get(index - 1).copied().unwrap_or((0, 0)).0
    }
}

// A checked read of a location.
fn read_at(location: u8) -> Access
    ensures { result ≡ Access.ReadFrom (block location 1) }
{
    Access::ReadFrom(Block { location, count: 1 })
}

/// The next step of a session.
#[derive(Clone, Copy)]
pub(crate) enum Stage {
    ReadLength,
    ReadFormat,
    /// The first byte of the content format was read.
    ReadFormatLow(u8),
    Unlock,
    /// Write the update with this index and those after it. Past the last one, lock the unit.
    WriteOn(usize),
    /// Read back what is to be read back with this index, the lock byte first, and what comes after it.
    ReadBack(usize),
    /// Read this many of these again, of a row that failed or told other bytes, in smaller rows.
    ReadPiece(usize, usize),
    /// Lock the unit, and see whether it answers: then the first verdict, else the second.
    Close(Verdict, Verdict),
    ReadClosed(Verdict, Verdict),
    ReadAll,
    /// Read this location and those after it, up to the last one.
    ReadOn(u8, u8),
    /// Read the session's block.
    ReadBlock,
    Over(Verdict),
}

impl Stage {
    // The access at hand, or how the session ended.
    pub(crate) fn access(self, task: &Task) -> Result<Access, Verdict>
        ensures { result ≡ access_of (plan_at task.now self) }
    {
        match self {
            Stage::ReadLength | Stage::ReadAll => Ok(read_at(0x00)),
            Stage::ReadFormat => Ok(Access::ReadFrom(task.pace().format())),
            Stage::ReadFormatLow(_) => Ok(read_at(0x12)),
            Stage::Unlock => Ok(Access::WriteTo(0x02, 0x55)),
            Stage::WriteOn(index) => {
                let before = written_before(task.updates(), index);
                match task.updates().get(index).copied() {
                    Some((location, byte)) => Ok(task.pace().write(before, location, byte)),
                    None => Ok(task.pace().write(before, 0x02, 0xFF)),
                }
            }
            Stage::ReadClosed(_, _) => Ok(read_at(0x02)),
            Stage::ReadBack(index) => match back_from(task.updates(), index) {
                Some(((location, _), behind)) => Ok(row(task.pace().most(), location, behind)),
                None => Err(Verdict::Done),
            },
            Stage::ReadPiece(index, left) => match piece_from(task.updates(), index, left) {
                Some(((location, _), behind)) => Ok(row(MOST_AGAIN, location, behind)),
                None => Err(Verdict::Done),
            },
            Stage::Close(_, _) => Ok(Access::WriteTo(0x02, 0xFF)),
            Stage::ReadOn(location, last) => {
                if location <= last {
                    Ok(read_at(location))
                } else {
                    Err(Verdict::Read)
                }
            }
            Stage::ReadBlock => match task {
                Task::ReadingBlock(block) => Ok(Access::ReadFrom(*block)),
                _ => Err(Verdict::Read),
            },
            Stage::Over(verdict) => Err(verdict),
        }
    }

    // The stage after this one, whose access came to its end: its reads told these bytes.
    #[tactic(auto, using(crate::proofs::FramesLemmas::told_next))]
    pub(crate) fn told(self, task: &Task, read: &[u8]) -> Stage
        ensures plan { plan_at task.now result ≡ next_plan (plan_at task.now self) (Some read.now) }
        ensures limit { (unit : ℕ)
            → limit_at task.now result + most_tries * length (plan_requests unit (plan_at task.now self) 1)
            ≤ limit_at task.now self }
    {
        match self {
            Stage::ReadLength => judge_length(task.updates(), byte_in(read, 0)),
            Stage::ReadFormat => match task.pace() {
                Pace::Checked => Stage::ReadFormatLow(byte_in(read, 0)),
                Pace::Short => judge_format(byte_in(read, 0), byte_in(read, 1)),
            },
            Stage::ReadFormatLow(high) => judge_format(high, byte_in(read, 0)),
            Stage::Unlock => Stage::WriteOn(0),
            Stage::WriteOn(index) if index < task.updates().len() => Stage::WriteOn(index + 1),
            Stage::WriteOn(_) => Stage::ReadBack(0),
            Stage::ReadBack(index) => match back_from(task.updates(), index) {
                Some((own, behind)) => match row_held(task.pace().most(), own, behind, read) {
                    Some(others) => Stage::ReadBack(index + 1 + others),
                    None => self.failed(task),
                },
                None => self,
            },
            Stage::ReadPiece(index, left) => match piece_from(task.updates(), index, left) {
                Some((own, behind)) => match row_held(MOST_AGAIN, own, behind, read) {
                    Some(others) if others < behind.len() => Stage::ReadPiece(
                        index + 1 + others,
                        left - 1 - others,
                    ),
                    Some(last) => Stage::ReadBack(index + 1 + last),
                    None => GIVE_UP,
                },
                None => self,
            },
            Stage::Close(answered, unanswered) => Stage::ReadClosed(answered, unanswered),
            Stage::ReadClosed(answered, _) => Stage::Over(answered),
            Stage::ReadAll => Stage::ReadOn(1, byte_in(read, 0).min(0xFE)),
            Stage::ReadOn(location, last) if location < last => Stage::ReadOn(location + 1, last),
            Stage::ReadOn(_, _) | Stage::ReadBlock => Stage::Over(Verdict::Read),
            Stage::Over(_) => self,
        }
    }

    // Why the session gives up after this stage, if it does: its access read these bytes.
    #[tactic(auto, using(crate::proofs::CauseLemmas::ends_without))]
    pub(crate) fn another(self, task: &Task, read: &[u8]) -> Option<Cause>
        ensures { result ≡ cause_by (updates_for task.now) (plan_at task.now self) (Some read.now) }
    {
        match (self.access(task), self.told(task, read).access(task)) {
            (Ok(Access::ReadFrom(block)), Ok(Access::WriteTo(_, _) | Access::WriteOn(_, _, _))) =>
                Some(another(task.updates(), block.location, read)),
            _ => None,
        }
    }

    // The same if its access failed: a row that is read again is no cause.
    #[tactic(auto, using(crate::proofs::CauseLemmas::fails_without))]
    pub(crate) fn failure(self, task: &Task) -> Option<Cause>
        ensures { result ≡ cause_by (updates_for task.now) (plan_at task.now self) None }
    {
        match (self.access(task), self.failed(task).access(task)) {
            (Ok(Access::ReadFrom(_)), Ok(Access::ReadFrom(_))) => None,
            (Ok(access), _) => Some(access.failure()),
            (Err(_), _) => None,
        }
    }

    // The stage after this one, whose access failed.
    #[tactic(auto, using(crate::proofs::FramesLemmas::failed_next))]
    pub(crate) fn failed(self, task: &Task) -> Stage
        ensures plan { plan_at task.now result ≡ next_plan (plan_at task.now self) None }
        ensures limit { (unit : ℕ)
            → limit_at task.now result + most_tries * length (plan_requests unit (plan_at task.now self) 1)
            ≤ limit_at task.now self }
    {
        match self {
            Stage::ReadLength | Stage::ReadFormat | Stage::ReadFormatLow(_) | Stage::ReadAll =>
                SILENT,
            Stage::ReadOn(location, last) if location > last => Stage::Over(Verdict::Read),
            Stage::ReadOn(_, _) => SILENT,
            Stage::ReadBlock => match task {
                Task::ReadingBlock(_) => SILENT,
                _ => Stage::Over(Verdict::Read),
            },
            Stage::Unlock => GIVE_UP,
            Stage::WriteOn(_) => GIVE_UP,
            Stage::ReadBack(index) => match back_from(task.updates(), index) {
                Some(((location, _), behind)) => {
                    let others = others_in_row(task.pace().most(), location, behind);
                    if others < MOST_ONCE {
                        GIVE_UP
                    } else {
                        Stage::ReadPiece(index, 1 + others)
                    }
                }
                None => self,
            },
            Stage::ReadPiece(index, left) => match piece_from(task.updates(), index, left) {
                Some(_) => GIVE_UP,
                None => self,
            },
            Stage::Close(answered, unanswered) => Stage::ReadClosed(answered, unanswered),
            Stage::ReadClosed(_, unanswered) => Stage::Over(unanswered),
            Stage::Over(_) => self,
        }
    }
}

// An opened session gives its order up, and a fresh or a reading one ends.
const GIVE_UP: Stage = Stage::Close(Verdict::Doubt, Verdict::DoubtOpen);

const SILENT: Stage = Stage::Over(Verdict::Silent);

// The lock byte of bank 1 as it must be read back.
const LOCKED: (u8, u8) = (0x02, 0xFF);

// The byte with this index that an access has read, or 0.
fn byte_in(read: &[u8], index: usize) -> u8
    ensures { result ≡ get_or read.now index 0 }
{
    read.get(index).copied().unwrap_or(0)
}

// The stage after the read of the last location.
fn judge_length(updates: &[(u8, u8)], last: u8) -> Stage
    ensures plan { (task : Task) → updates_for task ≡ updates.now
        → plan_at task result ≡ judge_length (pace_for task) updates.now last }
    ensures limit { (task : Task) → limit_at task result ≤ 2 * read_limit }
{
    let greatest = greatest_location(updates);
    if last < greatest {
        Stage::Over(Verdict::Short)
    } else if greatest < 0x13 {
        Stage::Over(Verdict::MayOpen)
    } else {
        Stage::ReadFormat
    }
}

/// The greatest location of the updates, each a location and a byte; 0 if there are none.
pub fn greatest_location(updates: &[(u8, u8)]) -> u8
    ensures { result ≡ greatest updates.now }
{
    let mut greatest = 0;
    for &(location, _) in updates {
        if location > greatest {
            greatest = location;
        }
    }
    greatest
}

// The stage after the read of the content format's second byte.
fn judge_format(high: u8, low: u8) -> Stage
    ensures plan { (task : Task) → plan_at task result ≡ judge_format high low }
    ensures limit { (task : Task) → limit_at task result ≡ 0 }
{
    Stage::Over(if high == 0x00 && low == 0x03 {
        Verdict::MayOpen
    } else {
        Verdict::Format
    })
}
