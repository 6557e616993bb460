ghost use Rattle.std.specs.Prelude.{◌≡◌, ◌↔◌, ◌<◌, ◌≤◌, ◌∷◌, length, IfOk, OnOk, OnErr, IfSome, IsNone, List};
ghost use Rattle.dali_journal.specs.declared.record.Record.{Record};
ghost use Rattle.dali_journal.specs.declared.version.Version.TheVariants.{Two};
ghost use Rattle.dali_journal.specs.Reading.{IsCutOf};
ghost use Rattle.dali_journal.specs.Spelling.{spelling};
ghost use Rattle.dali_trace.specs.declared.happening.Happening.{Happening};
ghost use Rattle.dali_trace.specs.declared.happening.Happening.TheVariants as happenings;
ghost use Rattle.dali_trace.specs.declared.happening.Want.{Want};
ghost use Rattle.dali_engine.specs.Phases.{want_of};
ghost use Rattle.dali_trace.specs.Trace.{Start};
ghost use Rattle.dali_engine.specs.Describes.{Describes};
ghost use Rattle.dali_engine.specs.Follows.{Follows};
ghost use Rattle.dali_engine.specs.Served.{IsStop};
ghost use Rattle.dali_trace.specs.Parts.{IsKeptNext};

use crate::writer::Writer;
use dali_journal::{Journal, JournalFault, NoMemory, Record};
use dali_trace::Want;
use std::alloc::Global;

// Stops the writer and begins it anew, when this many bytes of the record that is wanted reach the journal. Returns the
// record that was kept, if all of its bytes do.
pub(crate) fn stop(
    alloc: Global,
    writer: &mut Writer,
    bytes: u16,
) -> Result<Option<Record>, NoMemory>
    ensures { IfOk result (λ kept. IsStop bytes writer.old kept writer.new) }
{
    match keep_within(writer, bytes) {
        Some(entry) => match begin_anew(alloc, writer, &[]) {
            Ok(()) => Ok(Some(entry)),
            Err(fault) => Err(fault),
        },
        None => match cut_off(alloc, writer, bytes) {
            Ok(()) => Ok(None),
            Err(fault) => Err(fault),
        },
    }
}

// Keeps the record that is wanted, if there is one and it has at most this many bytes: all of them reach the journal.
fn keep_within(writer: &mut Writer, bytes: u16) -> Option<Record>
    ensures wanted { IfSome result (λ entry. want_of writer.old.phase ≡ Want.Keep entry) }
    ensures described { IfSome result (λ entry. (start : Start) (past : List Happening)
        → Describes start past writer.old → Describes start (happenings.Kept entry ∷ past) writer.new) }
    ensures follows { IfSome result (λ entry. (start : Start) (past : List Happening) → Describes start past writer.old
        → Follows start past writer.old → Follows start (happenings.Kept entry ∷ past) writer.new) }
    ensures few { IfSome result (λ entry. length (spelling Two entry) ≤ bytes) }
    ensures pace { writer.new.pace ≡ writer.old.pace }
    ensures same { IsNone result → writer.new ≡ writer.old }
    ensures cut { IsNone result → (entry : Record) → want_of writer.old.phase ≡ Want.Keep entry
        → bytes < length (spelling Two entry) }
    ensures next { (start : Start) (past : List Happening) → Describes start past writer.old
        → Follows start past writer.old
        → (entry : Record) → (want_of writer.old.phase ≡ Want.Keep entry) ↔ IsKeptNext start past entry }
{
    match writer.want() {
        Want::Keep(entry) => {
            if entry.bytes().len() <= usize::from(bytes) {
                writer.kept();
                Some(entry)
            } else {
                None
            }
        }
        Want::Idle | Want::Send(_) | Want::Say(_, _) => None,
    }
}

// Begins the writer anew, with no more than these bytes of the record that is wanted, if there is one, in the journal.
fn cut_off(alloc: Global, writer: &mut Writer, bytes: u16) -> Result<(), NoMemory>
    requires { (entry : Record) → want_of writer.old.phase ≡ Want.Keep entry → bytes < length (spelling Two entry) }
    ensures described { OnOk result ((start : Start) (past : List Happening)
        → Describes start past writer.old → Describes start (happenings.Stopped writer.old.pace ∷ past) writer.new) }
    ensures follows { OnOk result ((start : Start) (past : List Happening)
        → Follows start past writer.old → Follows start (happenings.Stopped writer.old.pace ∷ past) writer.new) }
    ensures err { OnErr result (writer.new ≡ writer.old) }
{
    match writer.want() {
        Want::Keep(entry) => {
            let spelled = entry.bytes();
            begin_anew(alloc, writer, &spelled[..usize::from(bytes)])
        }
        Want::Idle | Want::Send(_) | Want::Say(_, _) => begin_anew(alloc, writer, &[]),
    }
}

// Begins the writer anew, from the bytes of its journal with those of a cut record after them.
fn begin_anew(alloc: Global, writer: &mut Writer, cut: &[u8]) -> Result<(), NoMemory>
    requires { (last : Record) × IsCutOf Two cut.now last }
    ensures described { OnOk result ((start : Start) (past : List Happening)
        → Describes start past writer.old → Describes start (happenings.Stopped writer.old.pace ∷ past) writer.new) }
    ensures follows { OnOk result ((start : Start) (past : List Happening)
        → Follows start past writer.old → Follows start (happenings.Stopped writer.old.pace ∷ past) writer.new) }
    ensures err { OnErr result (writer.new ≡ writer.old) }
{
    match loaded_again(alloc, writer.journal(), cut) {
        Ok(journal) => {
            *writer = Writer::with_pace(journal, writer.pace());
            Ok(())
        }
        Err(fault) => Err(fault),
    }
}

// The journal that is loaded from the bytes of this one, with those of a cut record after them.
fn loaded_again(alloc: Global, journal: &Journal, cut: &[u8]) -> Result<Journal, NoMemory>
    requires { (last : Record) × IsCutOf Two cut.now last }
    ensures { IfOk result (λ again. (again.records ≡ journal.now.records) × (again.limit ≡ journal.now.limit)) }
{
    let mut left = journal.to_bytes(alloc)?;
    left.extend_from_slice(cut)?;
    match Journal::load_vec(alloc, journal.limit(), left) {
        Ok((again, _, _)) => Ok(again),
        Err(JournalFault::NoMemory) => Err(NoMemory),
        Err(_) => unreachable!(),
    }
}
