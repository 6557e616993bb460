// From tokens to a value, whose contents aren't kept.
ghost use Rattle.std.specs.Prelude.{◌≡◌, ◌<◌, ◌≤◌, ◌∷◌, IfOk, None, Ok, OnOk, Some, is_err, length, true};
ghost use Rattle.json.specs.Json.{items, members, value};
ghost use Rattle.json.specs.Reads.{token_of};
ghost use Rattle.serde_json.specs.Data.{Data, Items, Members, no_members};
ghost use Rattle.serde_json.specs.Read.{converted, of_items, of_json, of_members, read as read_text};
ghost use Rattle.dali_input.specs.Shallow.{data_of, emptied};

use crate::number::number_of;
use crate::shallow::Shallow;
use json::{Invalid, Reader, Scratch, Token};
use std::alloc::AllocError;

/// How deep a text may nest, as `serde_json` reads it.
pub const MAX_DEPTH: usize = 127;

/// The value that a whole text is, as `serde_json` reads it, or how many of its bytes come before the place where it
/// stops being JSON.
pub fn value_of_text<'a>(
    text: &'a str,
    scratch: &'a mut Scratch,
) -> Result<Result<Shallow<'a>, usize>, AllocError>
    ensures ok { IfOk result (λ read. IfOk read
        (λ shallow. (json : Data) × (read_text text.now ≡ Some json) × (data_of shallow ≡ emptied json))) }
    ensures err { IfOk result (λ read. is_err read ≡ true → read_text text.now ≡ None) }
{
    let mut reader = Reader::new(text, scratch)?;
    let Ok(value) = read_value(&mut reader, MAX_DEPTH) else {
        return Ok(Err(reader.offset()));
    };
    let end = reader.offset();
    match reader.next() {
        Some(_) => Ok(Err(end)),
        None => Ok(Ok(value)),
    }
}

/// The value that a token begins, nested at most `depth` deep. Invalid if there is none that `serde_json` reads.
#[cycle(read)]
#[inline(always)]
pub fn value_of<'a>(
    reader: &mut Reader<'a>,
    token: Token<'a>,
    depth: usize,
) -> Result<Shallow<'a>, Invalid>
    ensures ok { IfOk result (λ shallow. (json : Data) × (data_of shallow ≡ emptied json)
        × (converted of_json (value depth (token_of token.entry ∷ reader.old)) ≡ Some (json, reader.new))) }
    ensures err { is_err result ≡ true → converted of_json (value depth (token_of token.entry ∷ reader.old)) ≡ None }
    ensures shorter { OnOk result (length reader.new ≤ length reader.old) }
    ensures array { result ≡ Ok Shallow.Array → token.entry ≡ Token.BeginArray }
    ensures object { result ≡ Ok Shallow.Object → token.entry ≡ Token.BeginObject }
{
    match token {
        Token::String(text) => Ok(Shallow::Text(text)),
        Token::Number(text) => match number_of(text) {
            Some(number) => Ok(Shallow::Number(number)),
            None => Err(Invalid),
        },
        Token::Bool(truth) => Ok(Shallow::Bool(truth)),
        Token::Null => Ok(Shallow::Null),
        Token::EndObject | Token::EndArray | Token::Key(_) | Token::Bad => Err(Invalid),
        Token::BeginArray => {
            if depth == 0 {
                return Err(Invalid);
            }
            pass_items(reader, depth - 1)?;
            Ok(Shallow::Array)
        }
        Token::BeginObject => {
            if depth == 0 {
                return Err(Invalid);
            }
            pass_members(reader, depth - 1)?;
            Ok(Shallow::Object)
        }
    }
}

/// The value that comes next, nested at most `depth` deep. Invalid if there is none that `serde_json` reads.
#[cycle(read)]
#[inline(always)]
pub fn read_value<'a>(reader: &mut Reader<'a>, depth: usize) -> Result<Shallow<'a>, Invalid>
    ensures ok { IfOk result (λ shallow. (json : Data) × (data_of shallow ≡ emptied json)
        × (converted of_json (value depth reader.old) ≡ Some (json, reader.new))) }
    ensures err { is_err result ≡ true → converted of_json (value depth reader.old) ≡ None }
    ensures shorter { OnOk result (length reader.new < length reader.old) }
{
    match reader.next() {
        Some(token) => value_of(reader, token, depth),
        None => Err(Invalid),
    }
}

// Passes the items of an array after its bracket, and the bracket that closes it.
#[cycle(read)]
#[inline(never)]
fn pass_items(reader: &mut Reader<'_>, depth: usize) -> Result<(), Invalid>
    ensures ok { OnOk result ((found : Items)
        × (converted of_items (items (value depth) (length reader.old) reader.old) ≡ Some (found, reader.new))) }
    ensures err { is_err result ≡ true
        → converted of_items (items (value depth) (length reader.old) reader.old) ≡ None }
    ensures shorter { OnOk result (length reader.new < length reader.old) }
{
    'items: while !reader.take_end_array() {
        read_value(reader, depth)?;
    }
    Ok(())
}

// Passes the members of an object after its brace, and the brace that closes it.
#[cycle(read)]
#[inline(never)]
fn pass_members(reader: &mut Reader<'_>, depth: usize) -> Result<(), Invalid>
    ensures ok { OnOk result ((found : Members) × (converted (λ ms. of_members ms no_members)
        (members (value depth) (length reader.old) reader.old) ≡ Some (found, reader.new))) }
    ensures err { is_err result ≡ true → converted (λ ms. of_members ms no_members)
        (members (value depth) (length reader.old) reader.old) ≡ None }
    ensures shorter { OnOk result (length reader.new < length reader.old) }
{
    'members: while let Some(_) = reader.next_key()? {
        read_value(reader, depth)?;
    }
    Ok(())
}
