// A journal after older ones, as one journal.
ghost use Rattle.std.specs.Prelude.{◌≡◌, ◌+◌, ◌++◌, ℕ, true, slice_get, All, Some, IsTrue, IsFalse, IfOk, IfErr, IfSome, IsNone};
ghost use Rattle.dali_journal.specs.declared.standing.Standing.TheVariants.{Idle};
ghost use Rattle.dali_journal.specs.Sentence.{standing_of, is_begun};
ghost use Rattle.dali_journal.specs.JournalState.{order_count};
ghost use Rattle.dali_journal.specs.Behind.{IsJoinFault, IsApart, AreApart};

use crate::fault::NoMemory;
use crate::journal::Journal;
use crate::settled::Settled;

/// Why two journals are no journal together (profile).
#[derive(Clone, Copy, Debug, PartialEq, Eq)]
pub enum JoinFault {
    /// Both have begun an order of this number.
    Repeated(u64),
    /// There was no memory.
    NoMemory,
}

impl Journal {
    /// This journal after an older one, as one journal: it has the orders of both, and may hold as many more as this
    /// one. The older one grows by these records alone, however many it has.
    ///
    /// The older one has to be at rest: its standing is `Idle`. `Repeated` if both have begun an order of one number,
    /// `NoMemory` if there is no memory.
    pub fn behind(self, older: Journal) -> Result<Journal, JoinFault>
        requires rests { standing_of older.records ≡ Idle }
        ensures records { IfOk result (λ joined. joined.records ≡ self.records ++ older.records) }
        ensures limit { IfOk result (λ joined. joined.limit ≡ order_count older + self.limit) }
        ensures err { IfErr result (λ fault. IsJoinFault fault self.records older.records) }
    {
        if let Some(id) = common_number(&self, &older) {
            return Err(JoinFault::Repeated(id));
        }
        match self.joined(older) {
            Ok(whole) => Ok(whole),
            Err(NoMemory) => Err(JoinFault::NoMemory),
        }
    }
}

// The number of an order that both have begun.
fn common_number(newer: &Journal, older: &Journal) -> Option<u64>
    ensures some { IfSome result (λ id.
        (is_begun id newer.now.records ≡ true) × (is_begun id older.now.records ≡ true)) }
    ensures none { IsNone result → AreApart newer.now.records older.now.records }
{
    if let Some(id) = common_among(&newer.settled, newer, older) {
        return Some(id);
    }
    for place in 0..newer.index.len() {
        if let Some(id) = common_at(newer, older, place) {
            return Some(id);
        }
    }
    None
}

// The number of one of these orders, if both have begun one of it.
fn common_among(settled: &[Settled], newer: &Journal, older: &Journal) -> Option<u64>
    ensures some { IfSome result (λ id.
        (is_begun id newer.now.records ≡ true) × (is_begun id older.now.records ≡ true)) }
    ensures none { IsNone result → All (λ one. IsApart newer.now.records older.now.records one.id) settled.now }
{
    for one in settled {
        if is_common(newer, older, one.id) {
            return Some(one.id);
        }
    }
    None
}

// The number at this place of the newer one's index, if both have begun an order of it.
fn common_at(newer: &Journal, older: &Journal, place: usize) -> Option<u64>
    ensures some { IfSome result (λ id.
        (is_begun id newer.now.records ≡ true) × (is_begun id older.now.records ≡ true)) }
    ensures none { IsNone result → (id : ℕ) → slice_get newer.now.numbers place ≡ Some id
        → IsApart newer.now.records older.now.records id }
{
    let Some((&id, _)) = newer.index.get_index(place) else {
        return None;
    };
    if is_common(newer, older, id) {
        Some(id)
    } else {
        None
    }
}

// Whether both have begun an order of this number.
fn is_common(newer: &Journal, older: &Journal, id: u64) -> bool
    ensures yes { IsTrue result
        → (is_begun id newer.now.records ≡ true) × (is_begun id older.now.records ≡ true) }
    ensures no { IsFalse result → IsApart newer.now.records older.now.records id }
{
    older.has_begun(id) && newer.has_begun(id)
}
