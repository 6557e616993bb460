// Orders that have ended, of journals that don't grow again: in the order of their numbers, a few bytes each.
ghost use Rattle.std.specs.Prelude.{◌≡◌, ◌+◌, ◌-◌, ◌≤◌, ◌++◌, ◌∷◌, [], nat_eq, length, slice_get, IsTrue, All, Contains, map, filter_map, Some, IsNone, IfSome, IfOk, OnOk};
ghost use Rattle.std.specs.List.Sorted.{IsNonDecreasingBy, IsPermutation};
ghost use Rattle.indexmap.specs.IndexMap.{get};
ghost use Rattle.dali_journal.specs.Settled.{IsUnsettled, moved, settled_at, settled_both};

use crate::fault::NoMemory;
use crate::index::IndexEntry;
use crate::record::Code;
use indexmap::IndexMap;

/// An order that has ended: its number, the place of its `Began`, and how it ended.
#[derive(Clone, Copy, PartialEq, Eq)]
pub struct Settled {
    pub id: u64,
    pub at: usize,
    pub code: Code,
}

// The order of this number, if it is among them.
pub(crate) fn find(settled: &[Settled], id: u64) -> Option<Settled>
    requires { IsNonDecreasingBy (λ one. one.id) settled.now }
    ensures some { IfSome result (λ found. Contains settled.now found × (found.id ≡ id)) }
    ensures none { IsNone result → IsUnsettled id settled.now }
{
    match settled.binary_search_by_key(&id, |one| one.id) {
        Ok(place) => Some(settled[place]),
        Err(_) => None,
    }
}

// Those of an older journal and of a newer one, whose bytes come after this many, in the order of their numbers: of the
// older one also those that its index has as ended, whose places count from there.
pub(crate) fn settled_both(
    older: Vec<Settled>,
    index: &IndexMap<u64, IndexEntry>,
    front: usize,
    own: &[Settled],
    len: usize,
) -> Result<Vec<Settled>, NoMemory>
    requires { IsNonDecreasingBy (λ one. one.id) older.items }
    ensures both { IfOk result (λ settled.
        IsPermutation (settled_both front older.items index.now.entries len own.now) settled.items) }
    ensures sorted { IfOk result (λ settled. IsNonDecreasingBy (λ one. one.id) settled.items) }
    ensures told { OnOk result (All (λ entry. get nat_eq index.now entry.0 ≡ Some entry.1) index.now.entries) }
{
    let mut newer = Vec::new(*older.allocator());
    push_ended(&mut newer, index, front)?;
    push_moved(&mut newer, own, len)?;
    sort(&mut newer)?;
    let settled = put_behind(older, &newer)?;
    Ok(settled)
}

// Both in the order of numbers, in which each of them is. If the newer ones are all higher, as where numbers rise from
// journal to journal, the older ones stay where they are.
fn put_behind(older: Vec<Settled>, newer: &[Settled]) -> Result<Vec<Settled>, NoMemory>
    requires older { IsNonDecreasingBy (λ one. one.id) older.items }
    requires newer { IsNonDecreasingBy (λ one. one.id) newer.now }
    ensures both { IfOk result (λ settled. IsPermutation (older.items ++ newer.now) settled.items) }
    ensures sorted { IfOk result (λ settled. IsNonDecreasingBy (λ one. one.id) settled.items) }
{
    let is_above = is_above(&older, newer);
    let mut settled = older;
    settled.extend_from_slice(newer)?;
    if is_above {
        return Ok(settled);
    }
    sort(&mut settled)?;
    Ok(settled)
}

// Whether the first of the newer ones is above the last of the older ones, if there are both.
fn is_above(older: &[Settled], newer: &[Settled]) -> bool
    ensures { IsTrue result → (last first : Settled) → slice_get older.now (length older.now - 1) ≡ Some last
        → slice_get newer.now 0 ≡ Some first → last.id ≤ first.id }
{
    match (older.last(), newer.first()) {
        (Some(last), Some(first)) => last.id <= first.id,
        _ => true,
    }
}

// Puts the orders that an index has as ended after the others. The places of the index count from there.
fn push_ended(
    settled: &mut Vec<Settled>,
    index: &IndexMap<u64, IndexEntry>,
    front: usize,
) -> Result<(), NoMemory>
    ensures more { OnOk result
        (settled.new.items ≡ settled.old.items ++ filter_map (settled_at front) index.now.entries) }
    ensures told { OnOk result (All (λ entry. get nat_eq index.now entry.0 ≡ Some entry.1) index.now.entries) }
{
    for place in 0..index.len() {
        let Some((id, known)) = index.get_index(place) else {
            return Err(NoMemory);
        };
        push_entry(settled, *id, *known, front)?;
    }
    Ok(())
}

// Puts the order of this entry after the others, if it has ended.
fn push_entry(
    settled: &mut Vec<Settled>,
    id: u64,
    known: IndexEntry,
    front: usize,
) -> Result<(), NoMemory>
    ensures { OnOk result
        (settled.new.items ≡ settled.old.items ++ filter_map (settled_at front) ((id, known) ∷ [])) }
{
    if let IndexEntry::Ended(at, code) = known {
        let Some(at) = front.checked_add(at) else {
            return Err(NoMemory);
        };
        settled.push(Settled { id, at, code })?;
    }
    Ok(())
}

// Puts these after the others, this many bytes further on.
fn push_moved(settled: &mut Vec<Settled>, more: &[Settled], front: usize) -> Result<(), NoMemory>
    ensures { OnOk result (settled.new.items ≡ settled.old.items ++ map (moved front) more.now) }
{
    for one in more {
        let Some(at) = front.checked_add(one.at) else {
            return Err(NoMemory);
        };
        settled.push(Settled {
            id: one.id,
            at,
            code: one.code,
        })?;
    }
    Ok(())
}

// Puts them in the order of their numbers.
fn sort(settled: &mut Vec<Settled>) -> Result<(), NoMemory>
    ensures same { IsPermutation settled.old.items settled.new.items }
    ensures sorted { OnOk result (IsNonDecreasingBy (λ one. one.id) settled.new.items) }
{
    settled.sort_by_key(|one| one.id)?;
    Ok(())
}
