ghost use Rattle.std.specs.Prelude.{◌≡◌, map, Some, IfOk, IfErr};
ghost use Rattle.std.specs.List.{list_any};
ghost use Rattle.std.specs.Str.{bytes_eq};
ghost use Rattle.serde_json.specs.View.{view};
ghost use Rattle.dali_input.specs.Values.{IsWhole, IsArrayOf, IsNoReading, has_only_keys as only_keys};

use crate::fault::InputFault;
use serde_json::Value as Json;
use std::alloc::Global;

/// Whether the value is an object with no key but these.
pub fn has_only_keys(json: &Json, keys: &[&str]) -> bool
    ensures { result ≡ only_keys (map (λ key. key.now) keys.now) (view json.now) }
{
    let Some(object) = json.as_object() else {
        return false;
    };
    for (key, _) in object.iter() {
        if !is_one_of(key.as_str(), keys) {
            return false;
        }
    }
    true
}

// Whether the text is one of these.
fn is_one_of(text: &str, texts: &[&str]) -> bool
    ensures { result ≡ list_any (bytes_eq text.now) (map (λ one. one.now) texts.now) }
{
    match texts {
        [] => false,
        [first, rest @ ..] => text == *first || is_one_of(text, rest),
    }
}

/// The whole number that a value is.
///
/// InputFault 12 Document if it is none, or one that isn't within the bounds.
pub fn whole_within(json: &Json, least: u64, most: u64) -> Result<u64, InputFault>
    ensures ok { IfOk result (IsWhole least most (view json.now)) }
    ensures err { IfErr result (IsNoReading (IsWhole least most (view json.now))) }
    ensures document { IfErr result (λ fault. fault ≡ InputFault.Document) }
{
    match json.as_u64() {
        Some(number) if least <= number && number <= most => Ok(number),
        _ => Err(InputFault::Document),
    }
}

/// The whole numbers that an array holds, 0 to `most` each.
///
/// InputFault 12 Document if the value is no such array, 20 Memory if there is no memory.
pub fn numbers_of(alloc: Global, json: &Json, most: u8) -> Result<Vec<u8>, InputFault>
    ensures ok { IfOk result (λ numbers. IsArrayOf (IsWhole 0 most) (view json.now) numbers.items) }
    ensures err { IfErr result (IsNoReading (IsArrayOf (IsWhole 0 most) (view json.now))) }
{
    let Some(items) = json.as_array() else {
        return Err(InputFault::Document);
    };
    let mut numbers = Vec::new(alloc);
    for item in items {
        let number = whole_within(item, 0, most as u64)?;
        numbers.push(number as u8)?;
    }
    Ok(numbers)
}
