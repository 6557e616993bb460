// A store in memory.
ghost use Rattle.std.specs.Prelude.{◌≡◌, ◌<◌, ◌≤◌, ℕ, List, [], ◌∷◌, ◌++◌, ◌||◌, not, true, false, length};
ghost use Rattle.std.specs.Prelude.{Some, IfOk, IfSome};
ghost use Rattle.std.proofs.Common.{inl};
ghost use Rattle.dali_store.specs.Memory.{memory_leaves, memory_left, only_now, seen_left};
ghost use Rattle.dali_store.specs.Stores.{Takes, CutsTo, IsBetween, IsBehind, IsDurable, MayAlso, Elapses, is_refusal};

use crate::store::{Store, StoreFault};
use std::alloc::{AllocError, Global};
use std::mem;

/// A store in memory (profile). A stop may leave what is there, and each content that was there since the last sync.
#[derive(Drop)]
pub struct MemoryStore {
    alloc: Global,
    bytes: Vec<u8>,
    unsynced: Vec<Vec<u8>>,
    past: Vec<Vec<Vec<u8>>>,
    failed: bool,
}

impl MemoryStore {
    ghost use Rattle.dali_store.specs.Memory.{memory_bytes, memory_unsynced, memory_past, memory_failed};

    /// A store with these bytes, all of them synced.
    pub fn new(alloc: Global, bytes: Vec<u8>) -> MemoryStore
        ensures bytes { memory_bytes result ≡ bytes.items }
        ensures unsynced { memory_unsynced result ≡ [] }
        ensures past { memory_past result ≡ [] }
        ensures failed { memory_failed result ≡ false }
    {
        MemoryStore {
            alloc,
            bytes,
            unsynced: Vec::new(alloc),
            past: Vec::new(alloc),
            failed: false,
        }
    }

    /// The bytes that are there.
    pub fn bytes(&self) -> &[u8]
        ensures { result.now ≡ memory_bytes self.now }
    {
        &self.bytes
    }

    /// The bytes that were there since the last sync, the oldest first. A stop may leave each of them.
    pub fn unsynced(&self) -> &[Vec<u8>]
        ensures { result.now ≡ memory_unsynced self.now }
    {
        &self.unsynced
    }

    /// The unsynced bytes before each sync that found any, the oldest first.
    pub fn past(&self) -> &[Vec<Vec<u8>>]
        ensures { result.now ≡ memory_past self.now }
    {
        &self.past
    }

    // Puts other bytes in the place of those that are there.
    fn put(&mut self, next: Vec<u8>) -> bool
        ensures bytes { result ≡ true → self.new.bytes.items ≡ next.items }
        ensures unsynced { result ≡ true
            → self.new.unsynced.items ≡ self.old.unsynced.items ++ self.old.bytes ∷ [] }
        ensures same { result ≡ false → self.new.bytes.items ≡ self.old.bytes.items }
        ensures none { result ≡ false → (c : List ℕ) → memory_leaves self.new c → memory_leaves self.old c }
        ensures still { (c : List ℕ) → memory_leaves self.old c → memory_leaves self.new c }
        ensures stop { MayAlso (λ c. c ≡ next.items) (memory_leaves self.old) (memory_leaves self.new) }
        ensures time { Elapses (length self.old.past.items) (length self.new.past.items) (memory_left self.old)
            (memory_left self.new) (memory_leaves self.new) }
        ensures failed { self.new.failed ≡ (self.old.failed || not result) }
    {
        match self.unsynced.push(mem::replace(&mut self.bytes, next)) {
            Ok(()) => true,
            Err(refused) => {
                self.bytes = refused.value;
                self.failed = true;
                false
            }
        }
    }

    // From then on a stop leaves what is there alone.
    fn settle(&mut self) -> bool
        ensures bytes { self.new.bytes.items ≡ self.old.bytes.items }
        ensures unsynced { result ≡ true → self.new.unsynced.items ≡ [] }
        ensures past { result ≡ true → self.new.past.items ≡ self.old.past.items ++ self.old.unsynced ∷ [] }
        ensures stop { (c : List ℕ) → memory_leaves self.new c → memory_leaves self.old c }
        ensures time { Elapses (length self.old.past.items) (length self.new.past.items) (memory_left self.old)
            (memory_left self.new) (memory_leaves self.new) }
        ensures failed { self.new.failed ≡ (self.old.failed || not result) }
    {
        let none = Vec::new(self.alloc);
        match self.past.push(mem::replace(&mut self.unsynced, none)) {
            Ok(()) => true,
            Err(refused) => {
                self.unsynced = refused.value;
                self.failed = true;
                false
            }
        }
    }
}

// These bytes, and one more after them.
fn with_byte(alloc: Global, bytes: &[u8], byte: u8) -> Result<Vec<u8>, AllocError>
    ensures { IfOk result (λ more. more.items ≡ bytes.now ++ byte ∷ []) }
{
    let mut more = bytes.to_vec(alloc)?;
    more.push(byte)?;
    Ok(more)
}

impl Store for MemoryStore {
    ghost seen = { λ m. Some m.bytes.items };

    ghost may_leave = { λ m. memory_leaves m };

    ghost moment = { λ m. length m.past.items };

    ghost left_since = { λ m. memory_left m };

    ghost failed = { λ m. m.failed };

    ghost counts_now = { λ m t c le now. inl now };

    ghost leaves_what_is_seen = { seen_left };

    ghost only_now = { λ m c left. only_now m.bytes.items m.unsynced.items m.past.items c left };

    fn read(&mut self, alloc: Global, limit: usize) -> Result<Vec<u8>, StoreFault> {
        if self.bytes.len() > limit {
            return Err(StoreFault::TooBig);
        }
        match self.bytes.to_vec(alloc) {
            Ok(bytes) => Ok(bytes),
            Err(_) => Err(StoreFault::NoMemory),
        }
    }

    // One byte alone, so that each first part of what is put is a content of its own.
    fn append(&mut self, bytes: &[u8]) -> Option<usize>
        requires { 0 < length bytes.now }
        ensures bytes { Takes (Some self.old.bytes.items) (Some self.new.bytes.items) result bytes.now }
        ensures stop { MayAlso (IsBetween (Some self.old.bytes.items) (Some self.new.bytes.items))
            (memory_leaves self.old) (memory_leaves self.new) }
        ensures time { Elapses (length self.old.past.items) (length self.new.past.items) (memory_left self.old)
            (memory_left self.new) (memory_leaves self.new) }
        ensures failed { self.new.failed ≡ (self.old.failed || is_refusal result) }
        ensures one { IfSome result (λ count. count ≡ 1) }

        // Nothing is synced by the way.
        ensures unsynced { (c : List ℕ) → memory_leaves self.old c → memory_leaves self.new c }
    {
        let Ok(next) = with_byte(self.alloc, &self.bytes, bytes[0]) else {
            self.failed = true;
            return None;
        };
        if self.put(next) { Some(1) } else { None }
    }

    fn cut(&mut self, len: usize) -> bool
        requires { len ≤ length self.old.bytes.items }
        ensures bytes { CutsTo len (Some self.old.bytes.items) (Some self.new.bytes.items) result }
        ensures stop { MayAlso (IsBehind len (Some self.old.bytes.items)) (memory_leaves self.old)
            (memory_leaves self.new) }
        ensures time { Elapses (length self.old.past.items) (length self.new.past.items) (memory_left self.old)
            (memory_left self.new) (memory_leaves self.new) }
        ensures failed { self.new.failed ≡ (self.old.failed || not result) }

        // Nothing is synced by the way.
        ensures unsynced { (c : List ℕ) → memory_leaves self.old c → memory_leaves self.new c }
    {
        let Ok(next) = self.bytes[..len].to_vec(self.alloc) else {
            self.failed = true;
            return false;
        };
        self.put(next)
    }

    fn replace(&mut self, bytes: &[u8]) -> bool {
        let Ok(next) = bytes.to_vec(self.alloc) else {
            self.failed = true;
            return false;
        };
        self.put(next) && self.settle()
    }

    // If nothing is new all stays as it is, so that a sync takes no memory then.
    fn sync(&mut self) -> bool
        ensures still { self.old.unsynced.items ≡ [] → self.new ≡ self.old }
        ensures same { self.new.bytes.items ≡ self.old.bytes.items }
        ensures settled { result ≡ true → IsDurable (Some self.new.bytes.items) (memory_leaves self.new) }
        ensures stop { (c : List ℕ) → memory_leaves self.new c → memory_leaves self.old c }
        ensures time { Elapses (length self.old.past.items) (length self.new.past.items) (memory_left self.old)
            (memory_left self.new) (memory_leaves self.new) }
        ensures failed { self.new.failed ≡ (self.old.failed || not result) }
    {
        self.unsynced.is_empty() || self.settle()
    }

    fn has_failed(&self) -> bool {
        self.failed
    }

    fn cause(&self) -> Option<&str> {
        None
    }
}
