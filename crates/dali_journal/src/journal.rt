ghost use Rattle.std.specs.Prelude.{◌≡◌, ◌≢◌, ◌+◌, ◌^◌, ◌<◌, ◌≤◌, ◌↔◌, ◌++◌, ◌∷◌, [], length};
ghost use Rattle.std.specs.Prelude.{IsTrue, IsOk, OnOk, IfOk, IfErr, IfSome, IsNone, vec_len, vec_capacity};
ghost use Rattle.dali_bank.specs.Order.{Contents};
ghost use Rattle.dali_journal.specs.declared.record.Record.TheVariants.{Began};
ghost use Rattle.dali_journal.specs.Sentence.{standing_of, Allows, HasShortUnit, is_begun};
ghost use Rattle.dali_journal.specs.declared.version.Version.TheVariants.{One, Two};
ghost use Rattle.dali_journal.specs.Orders.{kept_of, moment_of};
ghost use Rattle.dali_journal.specs.Index.{orders_begun, Agrees};
ghost use Rattle.dali_journal.specs.Spelling.{spelling, records_spelling, header, journal_spelling};
ghost use Rattle.dali_journal.specs.JournalState.{HasRoom, MayBegin, KeepsRoom, HoldsOrders, IsLimit, AreKept, IsJournal};
ghost use Rattle.dali_journal.specs.JournalState.{order_count, bytes_due};
ghost use Rattle.dali_journal.specs.declared.standing.Standing.TheVariants.{Idle};
ghost use Rattle.dali_journal.specs.Behind.{AreApart};
ghost use Rattle.dali_journal.specs.Faults.{IsNewFault};
ghost use Rattle.dali_journal.specs.Loading.{HasVersion, HasBrokenHeader, IsTorn, IsLoaded, IsLoadableWithin};
ghost use Rattle.dali_journal.specs.Loading.{IsLoadFault, IsRecordRefused};

use crate::fault::{JournalFault, NoMemory};
use crate::group::groups_ahead;
use crate::index::{IndexEntry, enter, index_entry, kept_at, moment_at, note};
use crate::kept::Kept;
use crate::read::Piece;
use crate::record::Record;
use crate::settled::{Settled, find, settled_both};
use crate::standing::Standing;
use crate::version::{HEADER, Version};
use dali_bank::Order;
use indexmap::IndexMap;
use std::alloc::Global;
use std::marker::Model;
use std::mem;

/// The most orders that a journal can be made for.
pub const MOST_ORDERS: u32 = 100_000;

// An `Opened`, an `Ended` and a `Closed`.
const BYTES_BEHIND_BEGAN: usize = 6;

/// The journal of a writer (profile): its records, and the most orders that it may hold.
///
/// Its records are a list of groups, one for each order, of which the last may end early; their orders' numbers are
/// distinct, and there are no more than the limit: 1 to 100000, and after an older journal the orders of that one
/// besides. There is always room for the records that end what the journal has begun.
pub struct Journal {
    pub(crate) limit: u32,
    pub(crate) orders: u32,
    pub(crate) standing: Standing,
    // the records' bytes in version 2, the oldest first, without the header
    pub(crate) bytes: Vec<u8>,
    // of the first `front` bytes, those of older journals, the orders are settled
    pub(crate) front: usize,
    pub(crate) settled: Vec<Settled>,
    // where the order of each other number began, from there on, and how it ended; a number is here before its order
    // begins
    pub(crate) index: IndexMap<u64, IndexEntry>,
}

// A function of its own, which is called wherever a journal goes: what is derived is written out at each such place.
impl Drop for Journal {
    fn drop(self) {
        let Journal {
            limit: _,
            orders: _,
            standing: _,
            bytes: _,
            front: _,
            settled: _,
            index: _,
        } = self;
    }
}

impl Model for Journal {
    ghost use Rattle.std.specs.Prelude.{◌-◌, vec_len, vec_capacity};
    ghost use Rattle.std.specs.Map.{keys_of};
    ghost use Rattle.indexmap.specs.IndexMap.{spare};
    ghost use Rattle.dali_journal.specs.declared.version.Version.TheVariants.{Two};
    ghost use Rattle.dali_journal.specs.Decoding.{records_in};
    ghost use Rattle.dali_journal.specs.JournalState.{JournalState};
    ghost use Rattle.dali_journal.specs.Index.{IsSound};

    ghost Value = { JournalState };

    ghost view = { λ j. record {
      records = records_in Two j.bytes.items;
      limit = j.limit;
      room = vec_capacity j.bytes - vec_len j.bytes;
      numbers = keys_of j.index.entries;
      index_room = spare j.index;
    } };

    ghost invariant = { λ j.
        IsSound j.bytes.items (records_in Two j.bytes.items) j.standing j.orders j.limit
        (vec_capacity j.bytes - vec_len j.bytes) (spare j.index) j.front j.settled.items j.index.entries };
}

impl Journal {
    /// An empty journal for at most this many orders.
    ///
    /// Fault 1 Limit if the limit is 0 or over 100000. It takes no memory, so that fault 2 NoMemory doesn't come.
    pub fn new(alloc: Global, limit: u32) -> Result<Journal, JournalFault>
        ensures accepted { OnOk result (IsLimit limit) }
        ensures succeeds { IsLimit limit → IsOk result }
        ensures ok { IfOk result (λ journal. (journal.records ≡ []) × (journal.limit ≡ limit)) }
        ensures room { IfOk result (λ journal. (journal.room ≡ 0) × (journal.numbers ≡ [])) }
        ensures err { IfErr result (λ fault. IsNewFault limit fault) }
    {
        if limit < 1 || limit > MOST_ORDERS {
            return Err(JournalFault::Limit);
        }
        Ok(Journal::empty(alloc, limit))
    }

    // An empty journal for at most this many orders.
    pub(crate) fn empty(alloc: Global, limit: u32) -> Journal
        requires { HoldsOrders limit }
        ensures records { result.records ≡ [] }
        ensures limit { result.limit ≡ limit }
        ensures room { (result.room ≡ 0) × (result.numbers ≡ []) }
    {
        Journal {
            limit,
            orders: 0,
            standing: Standing::Idle,
            bytes: Vec::new(alloc),
            front: 0,
            settled: Vec::new(alloc),
            index: IndexMap::new(alloc),
        }
    }

    // Whether an order of this number was begun.
    pub(crate) fn has_begun(&self, id: u64) -> bool
        ensures { result ≡ is_begun id self.now.records }
    {
        let (_, known) = self.told(id);
        known.is_begun()
    }

    // The index entry of the order of this number, and the bytes that hold it.
    fn told(&self, id: u64) -> (&[u8], IndexEntry)
        ensures { Agrees result.0.now result.1 (kept_of id self.now.records) (moment_of id self.now.records) }
    {
        match find(&self.settled, id) {
            Some(one) => (&self.bytes, IndexEntry::Ended(one.at, one.code)),
            None => (&self.bytes[self.front..], index_entry(&self.index, id)),
        }
    }

    /// The most orders that the journal may hold: 1 to 100000, and after an older journal the orders of that one
    /// besides.
    pub fn limit(&self) -> u32
        ensures value { result ≡ self.now.limit }
        ensures journal { IsJournal self.now }
    {
        self.limit
    }

    /// How many orders were begun.
    pub fn orders(&self) -> u32
        ensures { result ≡ order_count self.now }
    {
        self.orders
    }

    /// Whether no further order may begin: as many were begun as the limit.
    pub fn is_full(&self) -> bool
        ensures { IsTrue result ↔ (self.now.limit ≤ order_count self.now) }
    {
        self.orders >= self.limit
    }

    /// The work that the last records leave to be done. A unit that was left is a short address, 0 to 63.
    pub fn standing(&self) -> Standing
        ensures value { result ≡ standing_of self.now.records }
        ensures short { HasShortUnit result }
        ensures journal { IsJournal self.now }
    {
        self.standing.copy()
    }

    /// The journal's kept state of the order of this number.
    pub fn kept(&self, id: u64) -> Kept
        ensures { result ≡ kept_of id self.now.records }
    {
        let (bytes, known) = self.told(id);
        kept_at(bytes, known)
    }

    /// The moment at which the order of this number was submitted, if it was begun.
    pub fn moment(&self, id: u64) -> Option<u64>
        ensures { result ≡ moment_of id self.now.records }
    {
        let (bytes, known) = self.told(id);
        moment_at(bytes, known)
    }

    /// Whether there is room for a `Closed` of the unit that is left, for what else is due, and for
    /// all records of the order.
    pub fn has_room(&self, order: &Order) -> bool
        ensures { IsTrue result ↔ HasRoom self.now order.now }
    {
        self.bytes.capacity() - self.bytes.len() >= bytes_wanted(&self.standing, order)
            && self.index.contains_key(&order.id())
    }

    /// Makes room for a `Closed` of the unit that is left, for what else is due, and for all records
    /// of the order.
    ///
    /// `NoMemory` if there is no memory. The journal says the same before and after.
    pub fn reserve(&mut self, order: &Order) -> Result<(), NoMemory>
        ensures records { self.new.records ≡ self.old.records }
        ensures limit { self.new.limit ≡ self.old.limit }
        ensures room { OnOk result (HasRoom self.new order.now) }
        ensures kept_room { (other : Contents) → HasRoom self.old other → HasRoom self.new other }
        ensures succeeds { HasRoom self.old order.now → IsOk result }
    {
        self.bytes.reserve(bytes_wanted(&self.standing, order))?;
        enter(&mut self.index, order.id())?;
        Ok(())
    }

    /// Adds a record at the end, without taking memory.
    ///
    /// The standing has to allow it. For `Began` there has to be room (`has_room`), the journal may
    /// not be full (`is_full`), and the order's number has to be new (`kept`).
    pub fn append(&mut self, entry: Record)
        requires allowed { Allows (standing_of self.old.records) entry }
        requires may_begin { MayBegin self.old entry }
        ensures records { self.new.records ≡ entry ∷ self.old.records }
        ensures limit { self.new.limit ≡ self.old.limit }
        ensures kept_room { KeepsRoom entry self.old self.new }
        ensures room { self.new.room + length (spelling Two entry) ≡ self.old.room }
        ensures index_room { self.new.index_room ≡ self.old.index_room }
    {
        let bytes = entry.bytes();
        let at = self.bytes.len() - self.front;
        note(&mut self.index, &self.standing, &entry, at);
        self.orders += orders_begun(&entry);
        let standing = mem::replace(&mut self.standing, Standing::Idle);
        self.standing = standing.after(&entry);
        put_in_room(&mut self.bytes, &bytes);
    }

    // This journal after an older one that has no number of it.
    pub(crate) fn joined(self, older: Journal) -> Result<Journal, NoMemory>
        requires rests { standing_of older.records ≡ Idle }
        requires apart { AreApart self.records older.records }
        ensures records { IfOk result (λ joined. joined.records ≡ self.records ++ older.records) }
        ensures limit { IfOk result (λ joined. joined.limit ≡ order_count older + self.limit) }
    {
        let Some(limit) = older.orders.checked_add(self.limit) else {
            return Err(NoMemory);
        };
        let Journal {
            limit: _,
            orders,
            standing: _,
            mut bytes,
            front,
            settled,
            index,
        } = older;
        let len = bytes.len();
        let settled = settled_both(settled, &index, front, &self.settled, len)?;
        drop(index);
        bytes.extend_from_slice(&self.bytes)?;
        bytes.reserve(self.standing.bytes_due())?;
        let Journal {
            limit: _,
            orders: own_orders,
            standing,
            bytes: _,
            front: own_front,
            settled: _,
            index: own_index,
        } = self;
        Ok(Journal {
            limit,
            orders: orders + own_orders,
            standing,
            bytes,
            front: len + own_front,
            settled,
            index: own_index,
        })
    }

    /// The bytes of its records in version 2 (profile), the oldest first, without the header.
    pub fn record_bytes(&self) -> &[u8]
        ensures { result.now ≡ records_spelling Two self.now.records }
    {
        self.bytes.as_slice()
    }

    /// A copy of the journal's bytes (profile), always in version 2: the header, and those of its records, the
    /// oldest first.
    ///
    /// `NoMemory` if there is no memory.
    pub fn to_bytes(&self, alloc: Global) -> Result<Vec<u8>, NoMemory>
        ensures { IfOk result (λ bytes. bytes.items ≡ journal_spelling Two self.now.records) }
    {
        let mut bytes = Vec::with_capacity(alloc, HEADER.len() + self.bytes.len())?;
        bytes.extend_from_slice(&HEADER)?;
        bytes.extend_from_slice(&self.bytes)?;
        Ok(bytes)
    }
}

// The bytes of what is due and of all records of the order.
fn bytes_wanted(standing: &Standing, order: &Order) -> usize
    ensures { result ≡ bytes_due standing.now + length (spelling Two (Began order.now 0)) + 6 }
{
    let began_bytes = Version::Two.began_head_len() + 2 * order.updates().len();
    standing.bytes_due() + began_bytes + BYTES_BEHIND_BEGAN
}

// How many orders a record begins.
fn orders_begun(entry: &Record) -> u32
    ensures { result ≡ orders_begun entry.now }
{
    match entry {
        Record::Began(_, _) => 1,
        Record::Opened(_) | Record::Ended(_) | Record::Closed(_) => 0,
    }
}

// Puts bytes at the end, if there is room for them.
fn put_in_room(bytes: &mut Vec<u8>, more: &[u8])
    requires { vec_len bytes.old + length more.now ≤ vec_capacity bytes.old }
    ensures items { bytes.new.items ≡ bytes.old.items ++ more.now }
    ensures len { vec_len bytes.new ≡ vec_len bytes.old + length more.now }
    ensures capacity { vec_capacity bytes.new ≡ vec_capacity bytes.old }
{
    for &byte in more {
        bytes.push_reserved(byte);
    }
}
