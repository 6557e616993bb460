// The values of a command's arguments, by what a parse entered.
ghost use Rattle.std.specs.Prelude.{◌≡◌, ◌≤◌, [], List, ℕ, IfOk, IfSome, IfNone, map, unwrap_or, codes};
ghost use Rattle.std.specs.Bool.{Decides};
ghost use Rattle.clap.specs.Words.{all_of, found_of, rows_of, subcommand_rows_of};
ghost use Rattle.dali_job.specs.Jobs.{AreUnits, HasFlag, HasNumber, HasUnit, HasUnits, HasValue, HasValues, IsEntered};
ghost use Rattle.dali_job.specs.Jobs.{IsNumber};

use clap::ArgMatches;
use std::alloc::{AllocError, Global};

// Whether a parse entered the command.
pub(crate) fn is_entered(matches: &ArgMatches<'_>, command: &str) -> bool
    ensures { Decides result (IsEntered (subcommand_rows_of matches.now) command.now) }
{
    matches.subcommand_matches(command).is_some()
}

// The value of a command's argument, if a parse entered that command.
pub(crate) fn value_of<'a>(matches: &ArgMatches<'a>, command: &str, id: &str) -> Option<&'a str>
    ensures found { IfSome result (λ value. HasValue (subcommand_rows_of matches.now) command.now id.now value.now) }
    ensures none { IfNone result
        ((value : List ℕ) → ¬ HasValue (subcommand_rows_of matches.now) command.now id.now value) }
{
    match matches.subcommand_matches(command) {
        Some(found) => found.get_str(id),
        None => None,
    }
}

// The values that a command's option was given, in their order, if a parse entered that command.
pub(crate) fn values_of<'a>(
    alloc: Global,
    matches: &ArgMatches<'a>,
    command: &str,
    id: &str,
) -> Result<Option<Vec<&'a str>>, AllocError>
    ensures found { IfOk result (λ found. IfSome found (λ values.
        HasValues (subcommand_rows_of matches.now) command.now id.now (map (λ value. value.now) values.items))) }
    ensures none { IfOk result (λ found. IfNone found
        ((values : List (List ℕ)) → ¬ HasValues (subcommand_rows_of matches.now) command.now id.now values)) }
{
    match matches.subcommand_matches(command) {
        Some(found) => Ok(Some(given_values(alloc, found, id)?)),
        None => Ok(None),
    }
}

// The values of all uses of an argument, in their order: none if it wasn't used.
fn given_values<'a>(
    alloc: Global,
    found: &ArgMatches<'a>,
    id: &str,
) -> Result<Vec<&'a str>, AllocError>
    ensures { IfOk result (λ values.
        unwrap_or (all_of id.now (rows_of (found_of found.now))) [] ≡ map (λ value. value.now) values.items) }
{
    match found.get_strs(id) {
        Some(values) => Vec::from_slice(alloc, values),
        None => Ok(Vec::new(alloc)),
    }
}

// The number that a command's argument has, if a parse entered that command.
pub(crate) fn number_of(matches: &ArgMatches<'_>, command: &str, id: &str) -> Option<u64>
    ensures found { IfSome result (HasNumber (subcommand_rows_of matches.now) command.now id.now) }
    ensures none { IfNone result
        ((number : ℕ) → ¬ HasNumber (subcommand_rows_of matches.now) command.now id.now number) }
{
    match matches.subcommand_matches(command) {
        Some(found) => found.get_one(id),
        None => None,
    }
}

// The short address that a command's argument has, if a parse entered that command.
pub(crate) fn unit_of(matches: &ArgMatches<'_>, command: &str, id: &str) -> Option<u8>
    ensures found { IfSome result (HasUnit (subcommand_rows_of matches.now) command.now id.now) }
    ensures none { IfNone result
        ((unit : ℕ) → ¬ HasUnit (subcommand_rows_of matches.now) command.now id.now unit) }
{
    let number = number_of(matches, command, id)?;
    if number <= 63 {
        Some(number as u8)
    } else {
        None
    }
}

// The short addresses that a command was given, if a parse entered it.
pub(crate) fn short_addresses_of(
    alloc: Global,
    matches: &ArgMatches<'_>,
    command: &str,
) -> Result<Option<Vec<u8>>, AllocError>
    ensures found { IfOk result (λ found. IfSome found (λ units.
        HasUnits (subcommand_rows_of matches.now) command.now (codes "UNIT") units.items)) }
    ensures none { IfOk result (λ found. IfNone found
        ((units : List ℕ) → ¬ HasUnits (subcommand_rows_of matches.now) command.now (codes "UNIT") units)) }
{
    let Some(texts) = values_of(alloc, matches, command, "UNIT")? else {
        return Ok(None);
    };
    units_of(alloc, texts.as_slice())
}

// The short addresses that these texts are, in their order: none if one of them is none.
fn units_of(alloc: Global, texts: &[&str]) -> Result<Option<Vec<u8>>, AllocError>
    ensures found { IfOk result (λ found. IfSome found (λ units.
        AreUnits (map (λ text. text.now) texts.now) units.items)) }
    ensures none { IfOk result (λ found. IfNone found
        ((units : List ℕ) → ¬ AreUnits (map (λ text. text.now) texts.now) units)) }
{
    let mut units = Vec::new(alloc);
    for text in texts {
        let Some(unit) = unit_in(text) else {
            return Ok(None);
        };
        units.push(unit)?;
    }
    Ok(Some(units))
}

// The short address that a text is, if it is one.
fn unit_in(text: &str) -> Option<u8>
    ensures found { IfSome result (λ unit. IsNumber text.now unit × (unit ≤ 63)) }
    ensures none { IfNone result ((unit : ℕ) → ¬ (IsNumber text.now unit × (unit ≤ 63))) }
{
    match text.parse::<u64>() {
        Ok(number) if number <= 63 => Some(number as u8),
        _ => None,
    }
}

// Whether a parse entered the command with its flag.
pub(crate) fn has_flag(matches: &ArgMatches<'_>, command: &str, id: &str) -> bool
    ensures { Decides result (HasFlag (subcommand_rows_of matches.now) command.now id.now) }
{
    match matches.subcommand_matches(command) {
        Some(found) => found.get_one(id) == Some(true),
        None => false,
    }
}
