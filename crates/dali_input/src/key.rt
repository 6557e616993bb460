ghost use Rattle.std.specs.Prelude.{◌≡◌, false, IfSome, IfNone};
ghost use Rattle.std.specs.List.{list_any};
ghost use Rattle.std.specs.Str.{bytes_eq};
ghost use Rattle.dali_bank.specs.Keys.{key_of};
ghost use Rattle.dali_bank.specs.Layout.{fields};
ghost use Rattle.dali_input.specs.Items.{is_key};
ghost use Rattle.dali_input.specs.Keys.{text_of};

use dali_bank::Field;

/// The meaning of a key of an order object.
#[derive(Clone, Copy)]
pub enum Key {
    /// The order's number.
    Order,
    /// The unit's number.
    Unit,
    /// A field's value.
    Of(Field),
}

/// The meaning of the text, if it is a key of order objects.
pub fn key_named(text: &str) -> Option<Key>
    ensures named { IfSome result (λ key. text.now ≡ text_of key) }
    ensures none { IfNone result (is_key text.now ≡ false) }
{
    match text {
        "order" => Some(Key::Order),
        "unit" => Some(Key::Unit),
        _ => field_named(text).map(Key::Of),
    }
}

// The field that has the key.
fn field_named(text: &str) -> Option<Field>
    ensures named { IfSome result (λ field. text.now ≡ key_of field) }
    ensures none { IfNone result (list_any (λ field. bytes_eq text.now (key_of field)) fields ≡ false) }
{
    for field in Field::ALL {
        if text == field.key() {
            return Some(field);
        }
    }
    None
}
