use dali_gear::{LEAST_BANK, MOST_ADDRESS, MOST_BANK};
use dali_input::{MOST_EVENTS, scenario_key as key};
use dali_journal::MOST_ORDERS;
use serde_json::Value as Json;
use std::fmt;

// The digits of the shortest bank and of the longest.
const LEAST_DIGITS: usize = 2 * LEAST_BANK;

const MOST_DIGITS: usize = 2 * MOST_BANK;

/// The rule for a value of a scenario.
#[derive(Clone, Copy)]
pub enum Rule {
    /// A whole number from the least to the most.
    Whole { least: u64, most: u64 },
    /// An array of whole numbers from the least to the most.
    Wholes { least: u64, most: u64 },
    /// Three whole numbers from 0 to 255.
    Registers,
    /// The hexadecimal digits of a bank, two for each byte.
    Digits,
    /// True or false.
    Truth,
    /// The name of a plan.
    Plan,
    /// An array.
    List,
    /// Any value.
    Anything,
}

impl Rule {
    /// Whether the value follows the rule.
    pub fn suits(&self, json: &Json) -> bool {
        match *self {
            Rule::Whole { least, most } => is_whole(json, least, most),
            Rule::Wholes { least, most } => are_wholes(json, least, most),
            Rule::Registers => are_wholes(json, 0, 255) && count(json) == 3,
            Rule::Digits => are_digits(json),
            Rule::Truth => json.as_bool().is_some(),
            Rule::Plan => is_plan(json),
            Rule::List => json.as_array().is_some(),
            Rule::Anything => true,
        }
    }
}

impl fmt::Display for Rule {
    fn fmt<W: fmt::Write>(&self, f: &mut fmt::Formatter<W>) -> fmt::Result {
        match *self {
            Rule::Whole { least, most } => write!(f, "a whole number from {least} to {most}"),
            Rule::Wholes { least, most } => {
                write!(f, "an array of whole numbers from {least} to {most}")
            }
            Rule::Registers => f.write_str("an array of three whole numbers from 0 to 255"),
            Rule::Digits => {
                let (least, most) = (LEAST_DIGITS, MOST_DIGITS);
                write!(
                    f,
                    "a string of {least} to {most} hexadecimal digits, two for each byte"
                )
            }
            Rule::Truth => f.write_str("true or false"),
            Rule::Plan => write!(f, "\"{}\" or \"{}\"", key::CHECKED, key::SHORT),
            Rule::List => f.write_str("an array"),
            Rule::Anything => f.write_str("an order"),
        }
    }
}

/// A key that an object of a scenario may have, or has to have.
#[derive(Clone, Copy)]
pub struct Member {
    pub key: &'static str,
    pub is_required: bool,
    pub rule: Rule,
}

// The rule for a short address.
const ADDRESS: Rule = Rule::Whole {
    least: 0,
    most: MOST_ADDRESS as u64,
};

// A key that has to be there.
fn required(key: &'static str, rule: Rule) -> Member {
    Member {
        key,
        is_required: true,
        rule,
    }
}

// A key that may be missing.
fn optional(key: &'static str, rule: Rule) -> Member {
    Member {
        key,
        is_required: false,
        rule,
    }
}

/// The keys of a scenario.
pub fn scenario_members() -> [Member; 5] {
    [
        required(
            key::LIMIT,
            Rule::Whole {
                least: 1,
                most: u64::from(MOST_ORDERS),
            },
        ),
        optional(key::PLAN, Rule::Plan),
        required(key::UNITS, Rule::List),
        optional(key::FATES, Rule::List),
        required(key::EVENTS, Rule::List),
    ]
}

/// The keys of a unit.
pub fn unit_members() -> [Member; 4] {
    [
        required(key::ADDRESS, ADDRESS),
        optional(key::BANK, Rule::Digits),
        optional(
            key::FIXED,
            Rule::Wholes {
                least: 3,
                most: MOST_BANK as u64 - 1,
            },
        ),
        optional(key::DTR, Rule::Registers),
    ]
}

/// The keys of a fate.
pub fn fate_members() -> [Member; 4] {
    [
        optional(
            key::TIMES,
            Rule::Whole {
                least: 1,
                most: u64::from(MOST_EVENTS),
            },
        ),
        optional(
            key::LOST,
            Rule::Wholes {
                least: 0,
                most: MOST_ADDRESS as u64,
            },
        ),
        optional(key::ANSWER_LOST, Rule::Truth),
        optional(key::REFUSE, Rule::Truth),
    ]
}

/// The keys of events; each event has one of them, and a submission may have the moment beside it.
pub fn event_members() -> [Member; 5] {
    let most = u64::MAX;
    [
        optional(key::SUBMIT, Rule::Anything),
        optional(key::MOMENT, Rule::Whole { least: 0, most }),
        optional(
            key::STEPS,
            Rule::Whole {
                least: 1,
                most: u64::from(MOST_EVENTS),
            },
        ),
        optional(
            key::STOP,
            Rule::Whole {
                least: 0,
                most: u64::from(u16::MAX),
            },
        ),
        optional(key::POWER, ADDRESS),
    ]
}

// Whether the value is a whole number from the least to the most.
fn is_whole(json: &Json, least: u64, most: u64) -> bool {
    match json.as_u64() {
        Some(number) => least <= number && number <= most,
        None => false,
    }
}

// Whether the value is an array of whole numbers from the least to the most.
fn are_wholes(json: &Json, least: u64, most: u64) -> bool {
    let Some(items) = json.as_array() else {
        return false;
    };
    for item in items {
        if !is_whole(item, least, most) {
            return false;
        }
    }
    true
}

// How many values an array has.
fn count(json: &Json) -> usize {
    match json.as_array() {
        Some(items) => items.len(),
        None => 0,
    }
}

// Whether the value is a string of the hexadecimal digits of a bank.
fn are_digits(json: &Json) -> bool {
    match json.as_str() {
        Some(text)
            if LEAST_DIGITS <= text.len() && text.len() <= MOST_DIGITS && text.len() % 2 == 0 => {
            text.as_bytes().iter().all(|byte| byte.is_ascii_hexdigit())
        }
        _ => false,
    }
}

// Whether the value is the name of a plan.
fn is_plan(json: &Json) -> bool {
    json.as_str() == Some(key::CHECKED) || json.as_str() == Some(key::SHORT)
}
