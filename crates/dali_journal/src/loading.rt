// How a journal is loaded from bytes of either version.
ghost use Rattle.std.specs.Prelude.{◌≡◌, ◌≢◌, ◌+◌, ◌^◌, ◌<◌, ◌≤◌, ◌++◌, ◌∷◌, [], length, drop, OnOk, IfOk, IfErr, IfSome, IsNone};
ghost use Rattle.dali_journal.specs.declared.version.Version.TheVariants.{One, Two};
ghost use Rattle.dali_journal.specs.Spelling.{records_spelling, header, journal_spelling};
ghost use Rattle.dali_journal.specs.JournalState.{HoldsOrders, IsLimit, AreKept, IsJournal};
ghost use Rattle.dali_journal.specs.Loading.{HasVersion, HasBrokenHeader, IsTorn, IsLoaded, IsLoadableWithin};
ghost use Rattle.dali_journal.specs.Loading.{IsLoadFault, IsRecordRefused};

use crate::fault::JournalFault;
use crate::group::groups_ahead;
use crate::journal::{Journal, MOST_ORDERS};
use crate::read::Piece;
use crate::record::Record;
use crate::standing::Standing;
use crate::version::{HEADER, Version};
use crate::widen::widened;
use std::alloc::Global;

impl Journal {
    /// The journal of these bytes, how many of them count, those of the header and the whole records, and their
    /// version (profile). No bytes at all are a journal of version 2 without records, of which 0 count.
    ///
    /// The bytes may end in a proper prefix of some record's, which doesn't count. Fault 1 Limit if the limit is 0 or
    /// over 100000, before all else; then 7 Header, if the bytes begin with 44h and not with the whole header. Then the
    /// records are tested in their order, each for 3 Record, if neither a record is there nor, at the end, a proper
    /// prefix of one; 4 Sequence, if the standing doesn't allow it; 5 Repeated, if it begins an order whose number was
    /// there; 6 Full, if it begins one past the limit. Each of these four has the place of the record's first byte. 2
    /// NoMemory, if there is no memory, may come in place of these five and of success.
    pub fn load(
        alloc: Global,
        limit: u32,
        bytes: &[u8],
    ) -> Result<(Journal, usize, Version), JournalFault>
        ensures accepted { OnOk result (IsLimit limit) }
        ensures ok { IfOk result (λ loaded. IsLoaded limit bytes.now loaded.0 loaded.1 loaded.2) }
        ensures err { IfErr result (λ fault. IsLoadFault IsLimit limit bytes.now fault) }
        ensures torn { IfErr result (λ fault.
            IsLoadableWithin IsLimit limit bytes.now → fault ≡ JournalFault.NoMemory) }
    {
        if limit < 1 || limit > MOST_ORDERS {
            return Err(JournalFault::Limit);
        }
        match bytes.to_vec(alloc) {
            Ok(bytes) => Journal::load_vec(alloc, limit, bytes),
            Err(_) => Err(JournalFault::NoMemory),
        }
    }

    /// The same as `load`, of bytes that become the journal's own if they are of version 2, so that there is no second
    /// copy of them. The limit may be larger than 100000, for the orders of older journals in front: fault 1 Limit
    /// comes only if it is 0.
    pub fn load_vec(
        alloc: Global,
        limit: u32,
        bytes: Vec<u8>,
    ) -> Result<(Journal, usize, Version), JournalFault>
        ensures accepted { OnOk result (HoldsOrders limit) }
        ensures ok { IfOk result (λ loaded. IsLoaded limit bytes.items loaded.0 loaded.1 loaded.2) }
        ensures err { IfErr result (λ fault. IsLoadFault HoldsOrders limit bytes.items fault) }
        ensures torn { IfErr result (λ fault.
            IsLoadableWithin HoldsOrders limit bytes.items → fault ≡ JournalFault.NoMemory) }
    {
        if limit < 1 {
            return Err(JournalFault::Limit);
        }
        let journal = Journal::empty(alloc, limit);
        if bytes.is_empty() {
            return Ok((journal, 0, Version::Two));
        }
        match version_of(&bytes) {
            None => Err(JournalFault::Header),
            Some(Version::One) => journal.upgraded(alloc, &bytes),
            Some(Version::Two) => journal.filled(alloc, behind_header(bytes)),
        }
    }

    // The journal of these bytes of version 1 in place of this one, for as many orders, and how many of them count.
    //
    // The groups in front become those of version 2 all at once. If they aren't a journal together, for example because
    // a number comes twice, the records show what is wrong, one by one.
    fn upgraded(
        mut self,
        alloc: Global,
        bytes: &[u8],
    ) -> Result<(Journal, usize, Version), JournalFault>
        requires version { HasVersion One bytes.now }
        ensures ok { IfOk result (λ loaded. IsLoaded self.limit bytes.now loaded.0 loaded.1 loaded.2) }
        ensures err { IfErr result (λ fault. IsLoadFault HoldsOrders self.limit bytes.now fault) }
        ensures torn { IfErr result (λ fault. IsLoadableWithin HoldsOrders self.limit bytes.now
            → fault ≡ JournalFault.NoMemory) }
    {
        let limit = self.limit();
        let Ok((wide, len)) = widened(alloc, bytes) else {
            return Err(JournalFault::NoMemory);
        };
        match self.take_groups(alloc, wide) {
            Ok(rest) if rest.is_empty() => self.upgraded_behind(len, bytes),
            _ => Journal::empty(alloc, limit).upgraded_behind(0, bytes),
        }
    }

    // The same if `len` of the bytes are those of its own records.
    fn upgraded_behind(
        mut self,
        len: usize,
        bytes: &[u8],
    ) -> Result<(Journal, usize, Version), JournalFault>
        requires journal { IsJournal self }
        requires kept { AreKept One self.limit self.records }
        requires front { bytes.now ≡ records_spelling One self.records ++ drop len bytes.now }
        requires within { len ≤ length bytes.now }
        requires version { HasVersion One bytes.now }
        ensures ok { IfOk result (λ loaded. IsLoaded self.limit bytes.now loaded.0 loaded.1 loaded.2) }
        ensures err { IfErr result (λ fault. IsLoadFault HoldsOrders self.limit bytes.now fault) }
        ensures torn { IfErr result (λ fault. IsLoadableWithin HoldsOrders self.limit bytes.now
            → fault ≡ JournalFault.NoMemory) }
    {
        match self.take_rest(Version::One, len, &bytes[len..]) {
            Ok(counted) => Ok((self, counted, Version::One)),
            Err(fault) => Err(fault),
        }
    }

    // The journal of these bytes after the header in place of this one, for as many orders, and how many count.
    fn filled(
        mut self,
        alloc: Global,
        bytes: Vec<u8>,
    ) -> Result<(Journal, usize, Version), JournalFault>
        ensures ok { IfOk result (λ loaded.
            IsLoaded self.limit (header Two ++ bytes.items) loaded.0 loaded.1 loaded.2) }
        ensures err { IfErr result (λ fault. IsLoadFault HoldsOrders self.limit (header Two ++ bytes.items) fault) }
        ensures torn { IfErr result (λ fault. IsLoadableWithin HoldsOrders self.limit (header Two ++ bytes.items)
            → fault ≡ JournalFault.NoMemory) }
    {
        let whole = HEADER.len() + bytes.len();
        let rest = match self.take_groups(alloc, bytes) {
            Ok(rest) => rest,
            Err(fault) => return Err(fault),
        };
        let front = whole - rest.len();
        match self.take_rest(Version::Two, front, &rest) {
            Ok(len) => Ok((self, len, Version::Two)),
            Err(fault) => Err(fault),
        }
    }

    // Makes it the journal of the whole groups in front of the bytes, up to its limit. Returns the bytes after them.
    fn take_groups(&mut self, alloc: Global, mut bytes: Vec<u8>) -> Result<Vec<u8>, JournalFault>
        ensures journal { OnOk result (IsJournal self.new) }
        ensures limit { OnOk result (self.new.limit ≡ self.old.limit) }
        ensures spelled { IfOk result (λ rest. bytes.items ≡ records_spelling Two self.new.records ++ rest.items) }
        ensures err { IfErr result (λ fault. IsLoadFault HoldsOrders self.old.limit (header Two ++ bytes.items) fault) }
    {
        // it tells the groups what is so of every limit
        let limit = self.limit();
        let groups = match groups_ahead(alloc, limit, &bytes) {
            Ok(groups) => groups,
            Err(fault) => return Err(fault),
        };
        let Ok(rest) = bytes[groups.len..].to_vec(alloc) else {
            return Err(JournalFault::NoMemory);
        };
        bytes.truncate(groups.len);
        self.orders = groups.orders;
        self.standing = Standing::Idle;
        self.bytes = bytes;
        self.front = 0;
        self.settled = Vec::new(alloc);
        self.index = groups.index;
        Ok(rest)
    }

    // Adds the records of a version that the bytes after its own, this many, begin with, up to a cut one. Returns how
    // many bytes count then.
    fn take_rest(
        &mut self,
        version: Version,
        front: usize,
        rest: &[u8],
    ) -> Result<usize, JournalFault>
        requires journal { IsJournal self.old }
        requires kept { AreKept version self.old.limit self.old.records }
        requires front { front ≡ length (journal_spelling version self.old.records) }
        requires long { front + length rest.now < 2 ^ 64 }
        requires version { HasVersion version (journal_spelling version self.old.records ++ rest.now) }
        ensures limit { OnOk result (self.new.limit ≡ self.old.limit) }
        ensures kept { OnOk result (AreKept version self.old.limit self.new.records) }
        ensures ok { IfOk result (λ len.
            IsTorn version (journal_spelling version self.old.records ++ rest.now) self.new.records len) }
        ensures err { IfErr result (λ fault.
            IsLoadFault HoldsOrders self.old.limit (journal_spelling version self.old.records ++ rest.now) fault) }
    {
        let mut at = 0;
        'records: loop {
            match Record::read_in(version, &rest[at..]) {
                Piece::Cut => return Ok(front + at),
                Piece::Bad => return Err(JournalFault::Record(front + at)),
                Piece::Whole(entry, len) => {
                    if let Err(fault) = self.take(entry, front + at) {
                        return Err(fault);
                    }
                    at += len;
                }
            }
        }
    }

    // Adds a record that was read at this place, if it may follow.
    fn take(&mut self, entry: Record, at: usize) -> Result<(), JournalFault>
        ensures records { OnOk result (self.new.records ≡ entry ∷ self.old.records) }
        ensures limit { self.new.limit ≡ self.old.limit }
        ensures journal { IsJournal self.new }
        ensures err { IfErr result (λ fault. IsRecordRefused fault self.old.limit at self.old.records entry) }
    {
        if !self.standing.allows(&entry) {
            return Err(JournalFault::Sequence(at));
        }
        if let Record::Began(order, _) = &entry {
            if self.has_begun(order.id()) {
                return Err(JournalFault::Repeated(at));
            }
            if self.is_full() {
                return Err(JournalFault::Full(at));
            }
            if self.reserve(order).is_err() {
                return Err(JournalFault::NoMemory);
            }
        }
        self.append(entry);
        // it tells the caller what is so of every journal
        let _limit = self.limit();
        Ok(())
    }
}

// The version of bytes that aren't none. None if they begin as the header does, and go on otherwise or end.
fn version_of(bytes: &[u8]) -> Option<Version>
    requires { bytes.now ≢ [] }
    ensures some { IfSome result (λ version. HasVersion version bytes.now) }
    ensures none { IsNone result → HasBrokenHeader bytes.now }
{
    match bytes {
        [0x44, 0x42, 0x31, 0x02, ..] => Some(Version::Two),
        [0x44, ..] => None,
        _ => Some(Version::One),
    }
}

// The bytes without the header in front.
fn behind_header(mut bytes: Vec<u8>) -> Vec<u8>
    requires { HasVersion Two bytes.items }
    ensures { header Two ++ result.items ≡ bytes.items }
{
    let len = bytes.len() - HEADER.len();
    bytes.copy_within(HEADER.len().., 0);
    bytes.truncate(len);
    bytes
}
