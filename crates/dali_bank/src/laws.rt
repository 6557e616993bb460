//! Laws of fields, banks and updates. Each is the contract of a function that does nothing.

ghost use Rattle.std.specs.Prelude.{◌≡◌};
ghost use Rattle.dali_bank.specs.declared.blank.TheConstants.{BLANK};
ghost use Rattle.dali_bank.specs.declared.field.TheConstants.Field.{ALL};
ghost use Rattle.dali_bank.specs.Blank.{blank_bank};
ghost use Rattle.dali_bank.specs.Layout.{fields};
ghost use Rattle.dali_bank.specs.Law.{IsShownOnce, SetValuesAreShown, UpdatesAreFound};

/// The bytes that a field has for a value, laid in a bank, are shown as that value.
///
/// There are two exceptions: digits are shown as their number, and an identification number of FFh
/// in every byte is shown as unknown.
pub fn set_values_are_shown()
    ensures { SetValuesAreShown }
{}

/// A field of a bank is shown in one way: what `read_field` tells is all that its contract allows.
pub fn fields_are_shown_once()
    ensures { IsShownOnce }
{}

/// The byte that an order's updates have for a location is the one that is among them with it.
pub fn updates_are_found_by_location()
    ensures { UpdatesAreFound }
{}

/// The constants are those of the rules: the bytes of a blank unit's bank, and the fields by rising location.
pub fn constants_are_these()
    ensures blank { BLANK ≡ blank_bank }
    ensures fields { ALL ≡ fields }
{}
