ghost use Rattle.std.specs.Prelude.{◌≡◌, ◌≢◌, ◌↔◌, ◌≤◌, ◌+◌, ℕ, List, [], ◌++◌, length, None, IsTrue, IsOk, IfOk, OnOk};
ghost use Rattle.std.specs.Prelude.{IfErr, IfSome, IfNone};
ghost use Rattle.dali_bank.specs.Draft.{placed_at};
ghost use Rattle.dali_bank.specs.Spelling.{AreFieldBytes, HasBytes, plain};

use crate::fault::BankFault;
use crate::field::{FIELDS, Field};
use crate::order::{Order, Updates};
use crate::spelling::{FieldBytes, are_all, big_endian_number, field_bytes};
use crate::value::Value;
use std::marker::Model;

/// An order in the making: its number, its unit, and the fields that are set so far.
#[derive(Drop)]
pub struct Draft {
    id: u64,
    unit: u8,
    // each field's bytes, in the order of `Field::ALL`
    found: [Option<FieldBytes>; FIELDS],
}

impl Model for Draft {
    ghost use Rattle.std.specs.Prelude.{◌≤◌, map};
    ghost use Rattle.std.specs.Option.{option_map};
    ghost use Rattle.dali_bank.specs.Draft.{Drafted, AreFound};

    ghost Value = { Drafted };

    ghost view = { λ d. record {
      id = d.id;
      unit = d.unit;
      found = map (option_map (λ b. b.items)) d.found;
    } };

    ghost invariant = { λ d. (d.unit ≤ 63) × AreFound (map (option_map (λ b. b.items)) d.found) };
}

impl Draft {
    ghost use Rattle.dali_bank.specs.Draft.{empty_draft, found_of, bytes_of, with_field, order_of, updates_of};
    ghost use Rattle.dali_bank.specs.Draft.{GivesNumber, VoltagesCross};
    ghost use Rattle.dali_bank.specs.Faults.{IsSetFault, IsFinishFault};
    ghost use Rattle.dali_bank.specs.Layout.{length_of};

    /// A draft with no field set.
    ///
    /// Fault 1 Unit if the short address is over 63.
    pub fn new(id: u64, unit: u8) -> Result<Draft, BankFault>
        ensures short { IsOk result ↔ (unit ≤ 63) }
        ensures ok { IfOk result (λ draft. draft ≡ empty_draft id unit) }
        ensures err { IfErr result (λ fault. fault ≡ BankFault.Unit) }
    {
        if unit > 63 {
            return Err(BankFault::Unit);
        }
        Ok(Draft {
            id,
            unit,
            found: Default::default(),
        })
    }

    /// Sets a field that isn't set yet.
    ///
    /// Fault 2 Kind if the field doesn't take a value of this kind, 3 Range if a number is out of the field's range, 4
    /// Gtin if the digits are no GTIN, 5 Text if a text isn't 1 to as many characters as the field has bytes, each 20h
    /// to 7Eh, or an identification number isn't 16 hexadecimal digits, 6 Twice if the field is set already: the first
    /// that applies. The draft is then as it was.
    pub fn set(&mut self, field: Field, value: Value<'_>) -> Result<(), BankFault>
        ensures accepted { HasBytes field (plain value.entry) → found_of field self.old ≡ None
            → IsOk result }
        ensures ok { OnOk result ((bytes : List ℕ) × AreFieldBytes field (plain value.entry) bytes
            × (found_of field self.old ≡ None) × (self.new ≡ with_field field bytes self.old)) }
        ensures err { IfErr result (λ fault. IsSetFault field (plain value.entry) self.old fault
            × (self.new ≡ self.old)) }
    {
        let bytes = field_bytes(field, value)?;
        if self.found[field.rank()].is_some() {
            return Err(BankFault::Twice);
        }
        self.found[field.rank()] = Some(bytes);
        Ok(())
    }

    /// The order of all fields that are set.
    ///
    /// Fault 7 Voltage if both voltages are numbers and the minimum is over the maximum, 8 Empty if no field is set:
    /// the first that applies. The draft then comes back as it was.
    pub fn finish(self) -> Result<Order, (Draft, BankFault)>
        ensures accepted { IsOk result ↔ ((¬ VoltagesCross self) × (updates_of self ≢ [])) }
        ensures ok { IfOk result (λ order. order ≡ order_of self) }
        ensures err { IfErr result (λ refused. (refused.0 ≡ self) × IsFinishFault self refused.1) }
    {
        if self.voltages_cross() {
            return Err((self, BankFault::Voltage));
        }
        let updates = self.updates();
        if updates.is_empty() {
            return Err((self, BankFault::Empty));
        }
        Ok(Order::new(self.id, self.unit, updates))
    }

    // Whether both voltages are numbers, and the minimum is over the maximum.
    fn voltages_cross(&self) -> bool
        ensures { IsTrue result ↔ VoltagesCross self.now }
    {
        let least = self.number(Field::MinVoltage);
        let most = self.number(Field::MaxVoltage);
        matches!((least, most), (Some(least), Some(most)) if most < least)
    }

    // The number that the field is set to.
    fn number(&self, field: Field) -> Option<u64>
        requires { length_of field ≤ 8 }
        ensures found { IfSome result (GivesNumber field self.now) }
        ensures none { IfNone result ((n : ℕ) → ¬ GivesNumber field self.now n) }
    {
        let bytes = self.bytes(field);
        if are_all(bytes, 0xff) {
            return None;
        }
        Some(big_endian_number(bytes))
    }

    // The updates of all fields that are set, by rising location.
    fn updates(&self) -> Updates
        ensures { result.items ≡ updates_of self.now }
    {
        let mut updates = Updates::new();
        for field in Field::ALL {
            push_bytes(&mut updates, field.first(), self.bytes(field));
        }
        updates
    }

    // The bytes of a field, none if it isn't set.
    fn bytes(&self, field: Field) -> &[u8]
        ensures value { result.now ≡ bytes_of field self.now }
        ensures few { length result.now ≤ length_of field }
        ensures sized { IfSome (found_of field self.now) (λ bytes. length bytes ≡ length_of field) }
    {
        match &self.found[field.rank()] {
            Some(bytes) => bytes.as_slice(),
            None => &[],
        }
    }
}

// Puts the bytes at the locations from the first on.
fn push_bytes(updates: &mut Updates, first: u8, bytes: &[u8])
    requires room { length updates.old.items + length bytes.now ≤ 115 }
    requires places { first + length bytes.now ≤ 0x78 }
    ensures { updates.new.items ≡ updates.old.items ++ placed_at first bytes.now }
{
    let mut location = first;
    for &byte in bytes {
        updates.push((location, byte));
        location += 1;
    }
}
