ghost use Rattle.std.specs.Prelude.{◌≡◌};
ghost use Rattle.serde_json.specs.View.{view};
ghost use Rattle.dali_input.specs.Shallow.{data_of, emptied};

use serde_json::{Number, Value as Json};

/// A JSON value without its contents.
#[derive(Clone, Copy, Drop)]
pub enum Shallow<'a> {
    Null,
    Bool(bool),
    Number(Number),
    Text(&'a str),
    Array,
    Object,
}

impl<'a> Shallow<'a> {
    /// A value without its contents.
    pub fn of(json: &'a Json) -> Shallow<'a>
        ensures { data_of result ≡ emptied (view json.now) }
    {
        match json {
            Json::Null => Shallow::Null,
            Json::Bool(truth) => Shallow::Bool(*truth),
            Json::Number(number) => Shallow::Number(*number),
            Json::String(text) => Shallow::Text(text.as_str()),
            Json::Array(_) => Shallow::Array,
            Json::Object(_) => Shallow::Object,
        }
    }
}
