ghost use Rattle.std.specs.Prelude.{◌≡◌, ◌≢◌, ◌+◌, ◌<◌, ◌≤◌, ◌⊎◌, ◌∷◌, IfErr, IfOk, IfSome, IsUtf8, MatchOption};
ghost use Rattle.std.specs.Prelude.{List, None, OnOk, Ok, Err, Some, is_err, length, true};
ghost use Rattle.json.specs.Json.{value};
ghost use Rattle.json.specs.Lex.{tokens};
ghost use Rattle.json.specs.Reads.{token_of};
ghost use Rattle.json.specs.Token.{Token as TextToken, begin_array};
ghost use Rattle.serde_json.specs.Data.{Data, Items as DataItems, item, no_items};
ghost use Rattle.serde_json.specs.Events.{items_len};
ghost use Rattle.serde_json.specs.Find.{as_array};
ghost use Rattle.serde_json.specs.Read.{converted, of_json, read as read_text};
ghost use Rattle.dali_input.specs.Input.{IsNoJson};
ghost use Rattle.dali_input.specs.ItemsLeft.{AreLeft, IsItem, item_depth, items_to_end, left_of, value_to_end};
ghost use Rattle.dali_input.specs.Orders.{AreItems, IsInputFault};

use crate::fault::InputFault;
use crate::item::Item;
use crate::members::{Members, read_members};
use crate::odd_keys::OddKeys;
use crate::shallow::Shallow;
use crate::value::{MAX_DEPTH, read_value, value_of};
use json::{Invalid, Reader, Scratch, Token};
use simdutf8::compat::from_utf8;
use std::alloc::Global;

// How deep an item may nest: the array around it is one level.
const ITEM_DEPTH: usize = MAX_DEPTH - 1;

// How many keys of an item are kept to be reported: more than are reported.
const MOST_ODD: usize = 1001;

/// The items of an array that are still to come, of a text that is known to be JSON to its end (profile). Of each no
/// more is held than its members' values.
#[derive(Drop)]
pub struct Items<'a> {
    reader: Reader<'a>,
    // How many there are.
    left: u64,
    // The keys of the last one that orders don't have, or that occur there again.
    odd: OddKeys<'a>,
}

impl<'a> Items<'a> {
    /// The items of an input. It is read to its end, to know that it is JSON, and then again, item by item.
    ///
    /// InputFault 13 TooBig if the input has more bytes than the limit, 11 Json if they are no JSON, 12 Document if the
    /// JSON is no array, 20 Memory if there is no memory.
    pub fn of(
        alloc: Global,
        input: &'a [u8],
        limit: u32,
        scratch: &'a mut Scratch,
    ) -> Result<Items<'a>, InputFault>
        ensures ok { IfOk result (λ items. (all : DataItems) × AreItems limit input.now all × AreLeft items all) }
        ensures err { IfErr result (IsInputFault limit input.now) }
    {
        let text = text_within(input, limit)?;
        let left = count_items(text, scratch)?;
        let mut reader = Reader::new(text, scratch)?;
        let _bracket = reader.next();
        Ok(Items {
            reader,
            left,
            odd: OddKeys::new(alloc, MOST_ODD),
        })
    }

    /// How many are still to come.
    pub fn left(&self) -> u64
        ensures { result ≡ left_of self.now }
    {
        self.left
    }

    /// The next item.
    pub fn next(&mut self) -> Option<Item<'a>>
        ensures next { (all : DataItems) → AreLeft self.old all → MatchOption result (all ≡ no_items)
            (λ found. (source : Data) × (others : DataItems) × (all ≡ item source others) × IsItem source found
            × AreLeft self.new others) }
        ensures fewer { IfSome result (λ _. left_of self.new + 1 ≡ left_of self.old) }
    {
        self.left = self.left.checked_sub(1)?;
        self.odd.clear();
        read_item(&mut self.reader, &mut self.odd).ok()
    }

    /// The keys of the last item that orders don't have or that occur there again, for whoever reports them.
    pub fn odd_keys(&self) -> &OddKeys<'a> {
        &self.odd
    }
}

// The text of an input of at most `limit` bytes.
fn text_within(input: &[u8], limit: u32) -> Result<&str, InputFault>
    ensures ok { IfOk result (λ text. (length input.now ≤ limit) × IsUtf8 input.now × (text.now ≡ input.now)) }
    ensures err { IfErr result (IsNoJson limit input.now) }
{
    if input.len() > limit as usize {
        return Err(InputFault::TooBig);
    }
    match from_utf8(input) {
        Ok(text) => Ok(text),
        Err(_) => Err(InputFault::Json),
    }
}

// How many items the array has that a text is.
fn count_items(text: &str, scratch: &mut Scratch) -> Result<u64, InputFault>
    ensures ok { IfOk result (λ count. (all : DataItems) × (rest : List TextToken)
        × (tokens text.now ≡ begin_array ∷ rest) × (items_to_end rest ≡ Some all) × (count ≡ items_len all)) }
    ensures document { result ≡ Err InputFault.Document
        → (json : Data) × (read_text text.now ≡ Some json) × (as_array json ≡ None) }
    ensures json { result ≡ Err InputFault.Json → read_text text.now ≡ None }
    ensures faults { IfErr result (λ fault.
        (fault ≡ InputFault.Document) ⊎ ((fault ≡ InputFault.Json) ⊎ (fault ≡ InputFault.Memory))) }
    ensures memory { result ≡ Err InputFault.Memory → 0 < length text.now }
{
    let mut reader = Reader::new(text, scratch)?;
    match reader.next() {
        Some(Token::BeginArray) => count_to_end(&mut reader),
        Some(token) => Err(fault_of_other(&mut reader, token)),
        None => Err(InputFault::Json),
    }
}

// How many items there are up to the bracket that closes their array and ends the text. Each is read, and let go.
fn count_to_end(reader: &mut Reader<'_>) -> Result<u64, InputFault>
    ensures ok { IfOk result (λ count. (all : DataItems) × (items_to_end reader.old ≡ Some all)
        × (count ≡ items_len all)) }
    ensures json { result ≡ Err InputFault.Json → items_to_end reader.old ≡ None }
    ensures faults { IfErr result (λ fault. (fault ≡ InputFault.Json) ⊎ (fault ≡ InputFault.Memory)) }
{
    let mut count = 0u64;
    'items: while !reader.take_end_array() {
        let Ok(_) = read_value(reader, ITEM_DEPTH) else {
            return Err(InputFault::Json);
        };
        count = count.checked_add(1).ok_or(InputFault::Memory)?;
    }
    match reader.next() {
        Some(_) => Err(InputFault::Json),
        None => Ok(count),
    }
}

// Why a text has no items that begins with another token than an array.
fn fault_of_other<'a>(reader: &mut Reader<'a>, token: Token<'a>) -> InputFault
    requires { token ≢ Token.BeginArray }
    ensures document { result ≡ InputFault.Document → (json : Data)
        × (value_to_end (token_of token.entry ∷ reader.old) ≡ Some json) × (as_array json ≡ None) }
    ensures json { result ≡ InputFault.Json → value_to_end (token_of token.entry ∷ reader.old) ≡ None }
    ensures faults { (result ≡ InputFault.Document) ⊎ (result ≡ InputFault.Json) }
{
    if value_of(reader, token, MAX_DEPTH).is_err() || reader.next().is_some() {
        return InputFault::Json;
    }
    InputFault::Document
}

// The item that comes next, and its keys that orders don't have. Invalid if there is none that `serde_json` reads.
fn read_item<'a>(reader: &mut Reader<'a>, odd: &mut OddKeys<'a>) -> Result<Item<'a>, Invalid>
    ensures ok { IfOk result (λ found. (source : Data) × IsItem source found
        × (converted of_json (value item_depth reader.old) ≡ Some (source, reader.new))) }
    ensures err { is_err result ≡ true → converted of_json (value item_depth reader.old) ≡ None }
    ensures shorter { OnOk result (length reader.new < length reader.old) }
{
    match reader.next() {
        Some(Token::BeginObject) => {
            let members = read_members(reader, ITEM_DEPTH - 1, odd)?;
            Ok(Item {
                value: Shallow::Object,
                members,
            })
        }
        Some(token) => {
            let value = value_of(reader, token, ITEM_DEPTH)?;
            Ok(Item {
                value,
                members: Members::new(),
            })
        }
        None => Err(Invalid),
    }
}
