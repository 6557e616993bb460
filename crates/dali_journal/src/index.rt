ghost use Rattle.std.specs.Prelude.{◌≡◌, ℕ, ◌==◌, nat_eq, Option, Some, IsOk, OnOk, if◌then◌else◌};
ghost use Rattle.indexmap.specs.IndexMap.{get, keys, spare, ContainsKey};
ghost use Rattle.dali_bank.specs.Order.{Contents};
ghost use Rattle.dali_journal.specs.declared.kept.Kept.{Kept as KeptValue};
ghost use Rattle.dali_journal.specs.declared.record.Record.TheVariants.{Began};
ghost use Rattle.dali_journal.specs.Index.{is_begun_at, index_entry, ended_index_entry, index_entry_after};
ghost use Rattle.dali_journal.specs.Index.{EntersNumber, IsRecordAt, Agrees, order_in};

use crate::kept::Kept;
use crate::read::Piece;
use crate::record::{Code, Record};
use crate::standing::Standing;
use dali_bank::Order;
use indexmap::IndexMap;
use std::alloc::AllocFailed;

/// An entry of the index for an order's number: the place of its `Began`, and how it ended.
#[derive(Clone, Copy, PartialEq, Eq)]
pub enum IndexEntry {
    /// No order of this number was begun.
    NotBegun,
    /// The order was begun there.
    Begun(usize),
    /// The order was begun there, and ended so.
    Ended(usize, Code),
}

impl IndexEntry {
    // Whether an order was begun.
    pub(crate) fn is_begun(self) -> bool
        ensures { result ≡ is_begun_at self }
    {
        match self {
            IndexEntry::NotBegun => false,
            IndexEntry::Begun(_) => true,
            IndexEntry::Ended(_, _) => true,
        }
    }

    // The entry once the order has ended.
    fn ended(self, code: Code) -> IndexEntry
        ensures { result ≡ ended_index_entry code self }
    {
        match self {
            IndexEntry::Begun(at) => IndexEntry::Ended(at, code),
            IndexEntry::NotBegun | IndexEntry::Ended(_, _) => self,
        }
    }
}

// Enters a number, as not begun if it is new.
pub(crate) fn enter(
    index: &mut IndexMap<u64, IndexEntry>,
    id: u64,
) -> Result<(), AllocFailed<(u64, IndexEntry)>>
    ensures entered { OnOk result (ContainsKey nat_eq index.new id) }
    ensures same { (other : ℕ)
        → index_entry (get nat_eq index.new other) ≡ index_entry (get nat_eq index.old other) }
    ensures stays { (other : ℕ) → ContainsKey nat_eq index.old other → ContainsKey nat_eq index.new other }
    ensures succeeds { ContainsKey nat_eq index.old id → IsOk result }
{
    if !index.contains_key(&id) {
        index.insert(id, IndexEntry::NotBegun)?;
    }
    Ok(())
}

// The entry of a number in the index.
pub(crate) fn index_entry(index: &IndexMap<u64, IndexEntry>, id: u64) -> IndexEntry
    ensures { result ≡ index_entry (get nat_eq index.now id) }
{
    match index.get(&id) {
        Some(known) => *known,
        None => IndexEntry::NotBegun,
    }
}

// Writes the entry of its order in the index that results from a record that is there. It takes no memory.
pub(crate) fn note(
    index: &mut IndexMap<u64, IndexEntry>,
    standing: &Standing,
    entry: &Record,
    at: usize,
)
    requires { EntersNumber index.old.entries entry.now }
    ensures index_entries { (id : ℕ) → index_entry (get nat_eq index.new id)
        ≡ index_entry_after standing.now entry.now at id (index_entry (get nat_eq index.old id)) }
    ensures numbers { keys index.new ≡ keys index.old }
    ensures room { spare index.new ≡ spare index.old }
{
    match entry {
        Record::Began(order, _) => set_index_entry(index, order.id(), IndexEntry::Begun(at)),
        Record::Ended(code) => match standing {
            Standing::Began(order) => end_index_entry(index, order.id(), *code),
            Standing::Opened(order) => end_index_entry(index, order.id(), *code),
            Standing::Idle | Standing::Left(_) => {}
        },
        Record::Opened(_) | Record::Closed(_) => {}
    }
}

// Writes what is known of a number that is in the index.
fn set_index_entry(index: &mut IndexMap<u64, IndexEntry>, id: u64, known: IndexEntry)
    requires { ContainsKey nat_eq index.old id }
    ensures index_entries { (other : ℕ) → index_entry (get nat_eq index.new other)
        ≡ (if id == other then known else index_entry (get nat_eq index.old other)) }
    ensures numbers { keys index.new ≡ keys index.old }
    ensures room { spare index.new ≡ spare index.old }
{
    if let Some(entry) = index.get_mut(&id) {
        *entry = known;
    }
}

// Writes the end of the order of a number.
fn end_index_entry(index: &mut IndexMap<u64, IndexEntry>, id: u64, code: Code)
    ensures index_entries { (other : ℕ) → index_entry (get nat_eq index.new other)
        ≡ (if id == other then ended_index_entry code (index_entry (get nat_eq index.old other))
        else index_entry (get nat_eq index.old other)) }
    ensures numbers { keys index.new ≡ keys index.old }
    ensures room { spare index.new ≡ spare index.old }
{
    if let Some(known) = index.get_mut(&id) {
        *known = known.ended(code);
    }
}

// The kept state of the order with this entry.
pub(crate) fn kept_at(bytes: &[u8], known: IndexEntry) -> Kept
    ensures { (kept : KeptValue) (since : Option ℕ) → Agrees bytes.now known kept since → result ≡ kept }
{
    match known {
        IndexEntry::NotBegun => Kept::Absent,
        IndexEntry::Begun(at) => match order_at(bytes, at) {
            Some((order, _)) => Kept::Unfinished(order),
            None => Kept::Absent,
        },
        IndexEntry::Ended(at, code) => match order_at(bytes, at) {
            Some((order, _)) => Kept::Ended(order, code),
            None => Kept::Absent,
        },
    }
}

// The moment of the order that this is known of.
pub(crate) fn moment_at(bytes: &[u8], known: IndexEntry) -> Option<u64>
    ensures { (kept : KeptValue) (since : Option ℕ) → Agrees bytes.now known kept since → result ≡ since }
{
    match known {
        IndexEntry::NotBegun => None,
        IndexEntry::Begun(at) => match order_at(bytes, at) {
            Some((_, moment)) => Some(moment),
            None => None,
        },
        IndexEntry::Ended(at, _) => match order_at(bytes, at) {
            Some((_, moment)) => Some(moment),
            None => None,
        },
    }
}

// The order that begins there, and its moment.
fn order_at(bytes: &[u8], at: usize) -> Option<(Order, u64)>
    ensures { (order : Contents) (moment : ℕ) → IsRecordAt bytes.now at (Began order moment)
        → result ≡ Some (order, moment) }
{
    if at > bytes.len() {
        return None;
    }
    order_in(Record::read(&bytes[at..]))
}

// The order that a piece begins, and its moment.
fn order_in(piece: Piece) -> Option<(Order, u64)>
    ensures { result ≡ order_in piece }
{
    match piece {
        Piece::Whole(Record::Began(order, moment), _) => Some((order, moment)),
        _ => None,
    }
}
