ghost use Rattle.std.specs.Prelude.{◌≡◌, ◌≢◌, ◌&&◌, ◌<◌, IfNone, IfOk, IfSome, None, OnOk, Some, is_err, length, true};
ghost use Rattle.json.specs.Json.{members as members_in, value};
ghost use Rattle.serde_json.specs.Data.{Members as JsonMembers, no_members, object};
ghost use Rattle.serde_json.specs.Find.{as_object};
ghost use Rattle.serde_json.specs.Read.{converted, of_members};
ghost use Rattle.serde_json.specs.View.{view};
ghost use Rattle.dali_input.specs.Items.{is_key};
ghost use Rattle.dali_input.specs.Keys.{text_of};
ghost use Rattle.dali_input.specs.Members.{AreMembersOf, HasNone, held, value_at};
ghost use Rattle.dali_input.specs.Shallow.{data_of};
ghost use Rattle.dali_input.specs.declared.key.Key.{Key as KeyName};
ghost use Rattle.dali_input.specs.declared.key.Key.TheVariants.{Of};

use crate::key::{Key, key_named};
use crate::odd_keys::OddKeys;
use crate::shallow::Shallow;
use crate::value::read_value;
use dali_bank::Field;
use json::{Invalid, Reader};
use serde_json::Value as Json;

// How many fields there are.
const FIELDS: usize = Field::ALL.len();

/// The values of an object at each key of orders, gathered in one walk over it.
#[derive(Drop)]
pub struct Members<'a> {
    pub order: Option<Shallow<'a>>,
    pub unit: Option<Shallow<'a>>,
    // by the fields' places in `Field::ALL`
    fields: [Option<Shallow<'a>>; FIELDS],
    /// Whether the object has no other key.
    pub are_known: bool,
}

impl<'a> Members<'a> {
    // Those of a value that has none.
    pub(crate) fn new() -> Members<'a>
        ensures { HasNone result }
    {
        Members {
            order: None,
            unit: None,
            fields: [None; FIELDS],
            are_known: true,
        }
    }

    /// The value that the object gives to a field.
    pub fn field(&self, field: Field) -> Option<Shallow<'a>>
        ensures { held result ≡ value_at (Of field) self.now }
    {
        let fields = &self.fields[..];
        fields[field as usize]
    }

    // Adds a key that orders have, if a member with it was taken before.
    fn tell_again<'b>(&self, key: &'b str, odd: &mut OddKeys<'b>) {
        let is_again = match key_named(key) {
            Some(Key::Order) => self.order.is_some(),
            Some(Key::Unit) => self.unit.is_some(),
            Some(Key::Of(field)) => self.field(field).is_some(),
            None => false,
        };
        if is_again {
            odd.add(key);
        }
    }

    // Takes the member with this key, and tells whether orders have the key.
    fn put(&mut self, key: &str, value: Shallow<'a>) -> bool
        ensures here { (k : KeyName) → text_of k ≡ key.now
            → value_at k self.new ≡ Some (data_of value.entry) }
        ensures others { (k : KeyName) → text_of k ≢ key.now
            → value_at k self.new ≡ value_at k self.old }
        ensures known { self.new.are_known ≡ (self.old.are_known && is_key key.now) }
        ensures result { result ≡ is_key key.now }
    {
        match key_named(key) {
            Some(Key::Order) => self.order = Some(value),
            Some(Key::Unit) => self.unit = Some(value),
            Some(Key::Of(field)) => {
                let fields = &mut self.fields[..];
                fields[field as usize] = Some(value);
            }
            None => {
                self.are_known = false;
                return false;
            }
        }
        true
    }
}

/// The members of a value, none if it is no object.
pub fn members_of(item: &Json) -> Members<'_>
    ensures { AreMembersOf (view item.now) result }
{
    let mut members = Members::new();
    let Some(object) = item.as_object() else {
        return members;
    };
    for (key, json) in object.iter() {
        let _is_known = members.put(key.as_str(), Shallow::of(json));
    }
    members
}

/// The members of the object after whose brace the reader is, with values nested at most `depth` deep, up to the brace
/// that closes it. Invalid if there is none that `serde_json` reads.
pub fn read_members<'a>(
    reader: &mut Reader<'a>,
    depth: usize,
    odd: &mut OddKeys<'a>,
) -> Result<Members<'a>, Invalid>
    ensures ok { IfOk result (λ members. (found : JsonMembers) × AreMembersOf (object found) members
        × (converted (λ ms. of_members ms no_members) (members_in (value depth) (length reader.old) reader.old)
        ≡ Some (found, reader.new))) }
    ensures err { is_err result ≡ true → converted (λ ms. of_members ms no_members)
        (members_in (value depth) (length reader.old) reader.old) ≡ None }
    ensures shorter { OnOk result (length reader.new < length reader.old) }
{
    let mut members = Members::new();
    'members: while let Some(key) = reader.next_key()? {
        let value = read_value(reader, depth)?;
        members.tell_again(key, odd);
        if !members.put(key, value) {
            odd.add(key);
        }
    }
    Ok(members)
}
