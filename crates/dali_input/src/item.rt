ghost use Rattle.std.specs.Prelude.{◌≡◌, ◌≤◌, Some, None, IfOk, IfErr, IfSome, IfNone, OnOk, length, option_map};
ghost use Rattle.std.specs.Prelude.{option_and_then};
ghost use Rattle.serde_json.specs.Data.{Data};
ghost use Rattle.serde_json.specs.Find.{as_number, as_u64};
ghost use Rattle.serde_json.specs.View.{view};
ghost use Rattle.dali_bank.specs.Spelling.{plain};
ghost use Rattle.dali_bank.specs.Draft.{Drafted, found_of, empty_draft};
ghost use Rattle.dali_input.specs.Items.{given as given_value, text_given as given_text, HasNumbers, IsForUnit};
ghost use Rattle.dali_input.specs.Items.{HasFieldsOf, IsFieldFault, IsOrderOf, IsFaultOf};
ghost use Rattle.dali_input.specs.ItemsLeft.{IsItem};
ghost use Rattle.dali_input.specs.Members.{AreMembersOf, IsGivenBy, IsRefusedAs, held};
ghost use Rattle.dali_input.specs.Shallow.{data_of};

use crate::fault::InputFault;
use crate::members::{Members, members_of};
use crate::shallow::Shallow;
use dali_bank::{BankFault, Draft, Field, Order, Value};
use serde_json::Value as Json;
use std::error::Error;
use std::fmt;

/// Why an item of a list of orders, or a line of a stream of them, was refused.
#[derive(Clone, Copy, Debug, PartialEq, Eq)]
pub enum ItemFault {
    /// The line is too long, no JSON, or no submission, or memory ran out. An item of a list never has it.
    Input(InputFault),
    /// A fault of a draft.
    Bank(BankFault),
    /// The item is no object with a whole number as order and one as unit.
    Shape,
    /// The object has a key that orders don't have.
    Key,
}

impl ItemFault {
    ghost use Rattle.dali_input.specs.Faults.{item_name_of, item_number_of};

    /// The fault's number.
    pub fn number(&self) -> u8
        ensures { result ≡ item_number_of self.now }
    {
        match self {
            ItemFault::Input(fault) => fault.number(),
            ItemFault::Bank(fault) => fault.number(),
            ItemFault::Shape => 9,
            ItemFault::Key => 10,
        }
    }

    /// The fault's name, of at most 8 characters.
    pub fn name(&self) -> &'static str
        ensures name { result.now ≡ item_name_of self.now }
        ensures short { length result.now ≤ 8 }
    {
        match self {
            ItemFault::Input(fault) => fault.name(),
            ItemFault::Bank(fault) => fault.name(),
            ItemFault::Shape => "Shape",
            ItemFault::Key => "Key",
        }
    }
}

impl fmt::Display for ItemFault {
    ghost use Rattle.std.specs.Prelude.{Some};
    ghost use Rattle.dali_input.specs.Faults.{item_name_of};

    ghost output = { λ fault. Some (item_name_of fault) };

    fn fmt<W: fmt::Write>(&self, f: &mut fmt::Formatter<W>) -> fmt::Result {
        f.write_str(self.name())
    }
}

impl Error for ItemFault {}

/// An item of a list of orders.
#[derive(Drop)]
pub struct Item<'a> {
    /// Its kind, without its contents.
    pub value: Shallow<'a>,
    /// The values of its members, if it is an object.
    pub members: Members<'a>,
}

impl<'a> Item<'a> {
    /// A JSON value as an item.
    pub fn of(json: &'a Json) -> Item<'a>
        ensures { IsItem (view json.now) result }
    {
        Item {
            value: Shallow::of(json),
            members: members_of(json),
        }
    }

    /// The order that it spells.
    ///
    /// The first ItemFault that applies (profile): 9 Shape, 10 Key, 1 Unit, then 2 Kind, 3 Range, 4 Gtin and 5 Text of
    /// the fields by rising location, then 7 Voltage, 8 Empty.
    pub fn order(&self) -> Result<Order, ItemFault>
        ensures ok { IfOk result (λ order. (source : Data) → IsItem source self.now → IsOrderOf source order) }
        ensures err { IfErr result (λ fault. (source : Data) → IsItem source self.now → IsFaultOf source fault) }
    {
        order_of_members(&self.members)
    }
}

/// The order that a JSON value spells, as `Item::order` says.
pub fn order_of(item: &Json) -> Result<Order, ItemFault>
    ensures ok { IfOk result (IsOrderOf (view item.now)) }
    ensures err { IfErr result (IsFaultOf (view item.now)) }
{
    Item::of(item).order()
}

// The order that the members of an object spell.
fn order_of_members(members: &Members<'_>) -> Result<Order, ItemFault>
    ensures ok { IfOk result (λ order. (source : Data) → AreMembersOf source members.now → IsOrderOf source order) }
    ensures err { IfErr result (λ fault. (source : Data) → AreMembersOf source members.now → IsFaultOf source fault) }
{
    let mut draft = empty_draft_of(members)?;
    if let Err(fault) = set_fields(&mut draft, members) {
        return Err(ItemFault::Bank(fault));
    }
    match draft.finish() {
        Ok(order) => Ok(order),
        Err((_, fault)) => Err(ItemFault::Bank(fault)),
    }
}

// The empty draft for the number and the unit of an object, if it has no other key.
fn empty_draft_of(members: &Members<'_>) -> Result<Draft, ItemFault>
    ensures ok { IfOk result (λ draft. (draft ≡ empty_draft draft.id draft.unit)
        × ((source : Data) → AreMembersOf source members.now
        → IsForUnit source draft.id draft.unit)) }
    ensures err { IfErr result (λ fault. (source : Data) → AreMembersOf source members.now
        → IsFaultOf source fault) }
{
    let (id, unit) = numbers_of(members)?;
    if !members.are_known {
        return Err(ItemFault::Key);
    }
    let Ok(unit) = u8::try_from(unit) else {
        return Err(ItemFault::Bank(BankFault::Unit));
    };
    match Draft::new(id, unit) {
        Ok(draft) => Ok(draft),
        Err(fault) => Err(ItemFault::Bank(fault)),
    }
}

// The object's number, and its unit's.
fn numbers_of(members: &Members<'_>) -> Result<(u64, u64), ItemFault>
    ensures ok { IfOk result (λ numbers. (source : Data) → AreMembersOf source members.now
        → HasNumbers source numbers.0 numbers.1) }
    ensures err { IfErr result (λ fault. (source : Data) → AreMembersOf source members.now
        → IsFaultOf source fault) }
{
    match (whole(members.order), whole(members.unit)) {
        (Some(id), Some(unit)) => Ok((id, unit)),
        _ => Err(ItemFault::Shape),
    }
}

// The whole number that a value is.
fn whole(value: Option<Shallow<'_>>) -> Option<u64>
    ensures { result ≡ option_and_then as_u64 (option_and_then as_number (held value.entry)) }
{
    match value {
        Some(Shallow::Number(number)) => number.as_u64(),
        _ => None,
    }
}

// Sets each field as the object gives it, by rising location.
fn set_fields(draft: &mut Draft, members: &Members<'_>) -> Result<(), BankFault>
    requires { draft.old ≡ empty_draft draft.old.id draft.old.unit }
    ensures ok { OnOk result ((source : Data) → AreMembersOf source members.now
        → HasFieldsOf source draft.old draft.new) }
    ensures err { IfErr result (λ fault. (source : Data) → AreMembersOf source members.now
        → IsFieldFault source fault) }
{
    for field in Field::ALL {
        if let Some(value) = members.field(field) {
            set_given(draft, field, value)?;
        }
    }
    Ok(())
}

// Sets a field as a value gives it.
fn set_given(draft: &mut Draft, field: Field, value: Shallow<'_>) -> Result<(), BankFault>
    requires { found_of field draft.old ≡ None }
    ensures ok { OnOk result (IsGivenBy (data_of value.entry) field draft.old draft.new) }
    ensures err { IfErr result (IsRefusedAs (data_of value.entry) field) }
{
    let Some(given) = given(field, value) else {
        return Err(BankFault::Kind);
    };
    draft.set(field, given)
}

/// The fault of what a value gives to a field, whatever else the item has (profile): 2 Kind, 3 Range, 4 Gtin or 5 Text.
/// None if the field takes it.
pub fn field_fault(field: Field, value: Shallow<'_>) -> Option<BankFault>
    ensures fault { IfSome result (IsRefusedAs (data_of value.entry) field) }
    ensures none { IfNone result
        ((drafted : Drafted) × IsGivenBy (data_of value.entry) field (empty_draft 0 0) drafted) }
{
    let Ok(mut draft) = Draft::new(0, 0) else {
        unreachable!();
    };
    match set_given(&mut draft, field, value) {
        Ok(()) => None,
        Err(fault) => Some(fault),
    }
}

// The field value that a JSON value gives, if it is of a kind that orders have.
fn given<'a>(field: Field, value: Shallow<'a>) -> Option<Value<'a>>
    ensures { option_map plain result ≡ given_value field (data_of value.entry) }
{
    match value {
        Shallow::Null => Some(Value::Unknown),
        Shallow::Number(number) => match number.as_u64() {
            Some(number) => Some(Value::Number(number)),
            None => None,
        },
        Shallow::Text(text) => Some(text_given(field, text)),
        Shallow::Bool(_) | Shallow::Array | Shallow::Object => None,
    }
}

// The field value that a text gives.
fn text_given<'a>(field: Field, text: &'a str) -> Value<'a>
    ensures { plain result ≡ given_text field text.now }
{
    match field {
        Field::Gtin => Value::Digits(text),
        Field::Identification => Value::Hex(text),
        _ => Value::Text(text),
    }
}
