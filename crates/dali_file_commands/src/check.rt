ghost use Rattle.std.specs.Prelude.{◌≡◌, ◌≢◌, ◌↔◌, ◌⊎◌, ℕ, List, [], IfOk, Ok, true, is_ok, codes};
ghost use Rattle.serde_json.specs.Data.{Data, Items as DataItems};
ghost use Rattle.dali_text.specs.Output.{TellsFailure, Takes, has_failed, is_flushed};
ghost use Rattle.dali_input.specs.Input.{ReadsAtMost, state_of};
ghost use Rattle.dali_input.specs.Items.{Judges};
ghost use Rattle.dali_input.specs.ItemsLeft.{AreLeft, IsItem};
ghost use Rattle.dali_input.specs.Orders.{Outcome, JudgesEach, orders_limit};
ghost use Rattle.dali_input.specs.Ends.{TellsEnd};
ghost use Rattle.dali_file_commands.specs.NoteLines.{SomeAbout, Tells};
ghost use Rattle.dali_file_commands.specs.Known.{asked};
ghost use Rattle.dali_file_commands.specs.Survey.{IsSurveyed};
ghost use Rattle.dali_file_commands.specs.Report.{accepted_count, refused_count, report_status, AreEach, AreItemLines};
ghost use Rattle.dali_file_commands.specs.Report.{IsAnswered, IsChecked, IsReportText};
ghost use Rattle.dali_file_commands.specs.Notes.{AreItemNotes, IsItemNote, IsNotedCheck};

use crate::known::{Ledger, write_free, write_known};
use crate::notes::{
    Note, Repeats, note_of_accepted, note_of_item, note_of_orders, write_noted_failure,
};
use dali_bank::Order;
use dali_input::{
    Fault, Input, Item, ItemFault, Items, ORDERS_LIMIT, Status, read_input, write_refused_item,
};
use dali_journal::Journal;
use dali_text::{Output, OutputFailed, write_order, write_tally};
use json::Scratch;
use std::alloc::Global;
use std::io::{Read, Write};

// An item, its number in the list, counted from 1, and its keys that orders don't have or that occur there again.
#[derive(Drop)]
struct NumberedItem<'a> {
    number: u64,
    item: Item<'a>,
    keys: &'a [&'a str],
}

/// Reads a JSON list of orders, and writes what becomes of each: the updates of an accepted item,
/// the fault of a refused one, and how many there were of both.
///
/// If a journal is to be asked, one line after the updates of an accepted item gives its answer about that order, as a
/// writer over it would reply: `known kept C NAME` (followed by ` closed` if the order left its unit open and that was
/// closed since), `known reused`, `known begun`, `new` or `full`; and a last line gives the first number above all that
/// it has, `free N`, or `free none`. The journal stays as it is.
///
/// If the input is no such list it writes the fault alone: 13 TooBig over 16777216 bytes, 11 Json, 12 Document, 20
/// Memory or 21 File.
///
/// If a call of the output fails, later ones write nothing more to it, and it ends as `Unwritten`.
///
/// The `notes` tell a person where the input or an item is wrong and what its rule is, and what is odd about an
/// accepted one, as the number of an earlier one that is another order (the writer replies `reused`). Whatever becomes
/// of the notes, the answer is the same.
pub fn check<R: Read, W: Write, N: Write>(
    alloc: Global,
    input: &mut Input<R>,
    output: &mut Output<W>,
    known: Option<&Journal>,
    notes: &mut Output<N>,
) -> Status
    ensures checked { result ≢ Status.Unwritten → (text : List ℕ)
        × IsChecked (asked known.entry) orders_limit (state_of R.remaining input.old) (state_of R.remaining input.new)
        result text
        × Takes W.contents output.old output.new text }
    ensures read { ReadsAtMost orders_limit (state_of R.remaining input.old) (state_of R.remaining input.new) }
    ensures unwritten { result ≡ Status.Unwritten ↔ has_failed output.new ≡ true }
    ensures flushed { result ≢ Status.Unwritten → is_flushed output.new ≡ true }
    ensures noted { result ≢ Status.Unwritten → (text : List ℕ) × Takes W.contents output.old output.new text
        × Tells N.contents notes.old notes.new (IsNotedCheck (asked known.entry) text) }
{
    match try_check(alloc, input, output, &Ledger::of(known), notes) {
        Ok(status) => status,
        Err(_) => Status::Unwritten,
    }
}

// The same, or that the output has failed.
fn try_check<R: Read, W: Write, N: Write>(
    alloc: Global,
    input: &mut Input<R>,
    output: &mut Output<W>,
    ledger: &Ledger<'_>,
    notes: &mut Output<N>,
) -> Result<Status, OutputFailed>
    requires surveyed { IsSurveyed ledger.now }
    ensures checked { IfOk result (λ status. (text : List ℕ) × IsChecked (asked ledger.now.journal) orders_limit
        (state_of R.remaining input.old) (state_of R.remaining input.new) status text
        × Takes W.contents output.old output.new text) }
    ensures read { ReadsAtMost orders_limit (state_of R.remaining input.old) (state_of R.remaining input.new) }
    ensures noted { IfOk result (λ _. (text : List ℕ) × Takes W.contents output.old output.new text
        × Tells N.contents notes.old notes.new (IsNotedCheck (asked ledger.now.journal) text)) }
    ensures end { TellsEnd result output.new }
{
    match read_input(alloc, input, ORDERS_LIMIT) {
        Ok(bytes) => write_checked(alloc, bytes.as_slice(), output, ledger, notes),
        Err(fault) => write_noted_failure(output, Fault::Input(fault), notes, &Note::new(alloc)),
    }
}

// Writes what becomes of an input.
fn write_checked<W: Write, N: Write>(
    alloc: Global,
    input: &[u8],
    output: &mut Output<W>,
    ledger: &Ledger<'_>,
    notes: &mut Output<N>,
) -> Result<Status, OutputFailed>
    requires surveyed { IsSurveyed ledger.now }
    ensures answered { IfOk result (λ status. (text : List ℕ)
        × IsAnswered (asked ledger.now.journal) orders_limit input.now status text
        × Takes W.contents output.old output.new text) }
    ensures noted { IfOk result (λ _. (text : List ℕ) × Takes W.contents output.old output.new text
        × Tells N.contents notes.old notes.new (IsNotedCheck (asked ledger.now.journal) text)) }
    ensures end { TellsEnd result output.new }
{
    let mut scratch = Scratch::new(alloc);
    let fault = match Items::of(alloc, input, ORDERS_LIMIT, &mut scratch) {
        Ok(mut items) => return write_report(alloc, &mut items, output, ledger, notes),
        Err(fault) => fault,
    };
    // The memory that the notes take comes in its place.
    drop(scratch);
    let note = note_of_orders(alloc, input, fault);
    write_noted_failure(output, Fault::Input(fault), notes, &note)
}

// Writes what becomes of each item.
#[tactic(auto, using(dali_text::proofs::StreamLemmas::appends_both, dali_text::proofs::StreamLemmas::appends_kept))]
fn write_report<W: Write, N: Write>(
    alloc: Global,
    items: &mut Items<'_>,
    output: &mut Output<W>,
    ledger: &Ledger<'_>,
    notes: &mut Output<N>,
) -> Result<Status, OutputFailed>
    requires surveyed { IsSurveyed ledger.now }
    ensures report { (all : DataItems) → AreLeft items.old all
        → IfOk result (λ status. (outcomes : List Outcome) × JudgesEach all outcomes
        × (status ≡ report_status outcomes)
        × (text : List ℕ) × IsReportText (asked ledger.now.journal) outcomes text
        × Takes W.contents output.old output.new text
        × Tells N.contents notes.old notes.new (AreItemNotes 1 outcomes)) }
    ensures end { TellsEnd result output.new }
{
    let (accepted, refused) = write_items(alloc, items, output, ledger, notes)?;
    write_tally(output, accepted, refused)?;
    write_free(output, ledger)?;
    output.flush()?;
    Ok(if refused == 0 {
        Status::Good
    } else {
        Status::Refused
    })
}

// Writes the lines of each item, and how many were accepted and how many refused.
fn write_items<W: Write, N: Write>(
    alloc: Global,
    items: &mut Items<'_>,
    output: &mut Output<W>,
    ledger: &Ledger<'_>,
    notes: &mut Output<N>,
) -> Result<(u64, u64), OutputFailed>
    requires surveyed { IsSurveyed ledger.now }
    ensures lines { (all : DataItems) → AreLeft items.old all
        → IfOk result (λ counted. (outcomes : List Outcome) × JudgesEach all outcomes
        × (accepted_count outcomes ≡ counted.0) × (refused_count outcomes ≡ counted.1)
        × (text : List ℕ) × AreEach (AreItemLines (asked ledger.now.journal)) 1 outcomes text
        × Takes W.contents output.old output.new text
        × Tells N.contents notes.old notes.new (AreItemNotes 1 outcomes)) }
    ensures failed { TellsFailure result output.old output.new }
{
    let mut accepted = 0u64;
    let mut refused = 0u64;
    let mut repeats = Repeats::new(alloc);
    let count = items.left();
    'items: while let Some(item) = items.next() {
        let number = count - items.left();
        let keys = items.odd_keys().as_slice();
        let item = NumberedItem { number, item, keys };
        if write_item(alloc, output, &item, ledger, notes, &mut repeats)? {
            accepted += 1;
        } else {
            refused += 1;
        }
    }
    Ok((accepted, refused))
}

// Writes what becomes of an item, and whether it was accepted.
fn write_item<W: Write, N: Write>(
    alloc: Global,
    output: &mut Output<W>,
    item: &NumberedItem<'_>,
    ledger: &Ledger<'_>,
    notes: &mut Output<N>,
    repeats: &mut Repeats,
) -> Result<bool, OutputFailed>
    requires surveyed { IsSurveyed ledger.now }
    ensures lines { IfOk result (λ accepted. (outcome : Outcome)
        × ((source : Data) → IsItem source item.now.item → Judges source outcome) × (is_ok outcome ≡ accepted)
        × (text : List ℕ) × AreItemLines (asked ledger.now.journal) item.now.number outcome text
        × Takes W.contents output.old output.new text
        × Tells N.contents notes.old notes.new (IsItemNote item.now.number outcome)) }
    ensures failed { TellsFailure result output.old output.new }
{
    match item.item.order() {
        Ok(order) => {
            let written = write_accepted(output, item.number, &order, ledger);
            note_accepted(alloc, notes, item, &order, repeats);
            written?;
            Ok(true)
        }
        Err(fault) => {
            let written = write_refused_item(output, item.number, fault);
            note_refused(alloc, notes, item, fault);
            written?;
            Ok(false)
        }
    }
}

// Writes an accepted item with its updates, and what the journal that is asked says of it.
fn write_accepted<W: Write>(
    output: &mut Output<W>,
    number: u64,
    order: &Order,
    ledger: &Ledger<'_>,
) -> Result<(), OutputFailed>
    requires surveyed { IsSurveyed ledger.now }
    ensures lines { IfOk result (λ _. (text : List ℕ)
        × AreItemLines (asked ledger.now.journal) number (Ok order.now) text
        × Takes W.contents output.old output.new text) }
    ensures failed { TellsFailure result output.old output.new }
{
    write_order(output, number, order)?;
    write_known(output, ledger.known(order))
}

// Tells what is odd about an accepted item.
fn note_accepted<N: Write>(
    alloc: Global,
    notes: &mut Output<N>,
    item: &NumberedItem<'_>,
    order: &Order,
    repeats: &mut Repeats,
)
    ensures { Tells N.contents notes.old notes.new
        (λ note. (note ≡ []) ⊎ SomeAbout (codes "item") item.now.number note) }
{
    if let Some(note) = note_of_accepted(alloc, item.number, order, item.keys, repeats) {
        note.tell_about(notes, "item", item.number);
    }
}

// Tells what is wrong with a refused item, while the notes are taken.
fn note_refused<N: Write>(
    alloc: Global,
    notes: &mut Output<N>,
    item: &NumberedItem<'_>,
    fault: ItemFault,
)
    ensures { Tells N.contents notes.old notes.new (SomeAbout (codes "item") item.now.number) }
{
    if !notes.has_failed() {
        note_of_item(alloc, &item.item, item.keys, fault).tell_about(notes, "item", item.number);
    }
}
