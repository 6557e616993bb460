ghost use Rattle.std.specs.Prelude.{◌≡◌, ◌↔◌, ◌≤◌, ◌^◌, ◌-◌, [], ℕ, false, IfOk, IfErr, IfSome, IfNone, IsSome, IsTrue};
ghost use Rattle.std.specs.Prelude.{None, codes, map, min};
ghost use Rattle.std.specs.Int.{bit_at};
ghost use Rattle.std.specs.List.{AllByRecursion, Contains, sum_by};
ghost use Rattle.serde_json.specs.Find.{get};
ghost use Rattle.serde_json.specs.View.{view};
ghost use Rattle.dali_bank.specs.Blank.{blank_bank};
ghost use Rattle.dali_input.specs.Values.{IsWhole, IsArrayOf, IsRequired, IsOptional, IsNoReading, value_if_any};
ghost use Rattle.dali_input.specs.Scenario.{AreBytes, AreDtrs, AreLost, IsBankText, IsBoolean, IsEvent, IsFate, IsPlan};
ghost use Rattle.dali_input.specs.Scenario.{IsScenario, IsSmall, IsUnit, event_count, event_of, most_events};
ghost use Rattle.dali_input.specs.Scenario.{most_moment, planned_of, submit, unit_planned};

use crate::fault::InputFault;
use crate::scenario_key as key;
use crate::values::{has_only_keys, numbers_of, whole_within};
use dali_bank::BLANK;
use dali_gear::{Fate, MOST_ADDRESS};
use dali_write::Pace;
use hex::FromHexError;
use serde_json::Value as Json;
use std::alloc::Global;

/// The most events of a scenario, and the most fates, each counted as often as it stands for.
pub const MOST_EVENTS: u32 = 20_000;

// The most hexadecimal digits of a unit's bank.
const MOST_BANK_DIGITS: usize = 512;

/// A unit of a scenario, as its object says it (profile).
#[derive(Drop)]
pub struct UnitPlan {
    /// Its short address, 0 to 255: whether it is one is tested when the unit is made.
    pub address: u8,
    /// The bytes of its bank 1, at most 256.
    pub bank: Vec<u8>,
    /// The locations of bank 1 that can't be written.
    pub fixed: Vec<u8>,
    /// DTR0, DTR1 and DTR2.
    pub dtrs: (u8, u8, u8),
}

/// A fate, and how many frames in a row have it, 1 to 20000 (profile).
#[derive(Clone, Copy, PartialEq, Eq)]
pub struct FatePlan {
    /// How many frames in a row have it.
    pub times: u32,
    /// The fate of each.
    pub fate: Fate,
}

/// An event of a scenario (profile).
#[derive(Clone, Copy, Drop)]
pub enum EventPlan<'a> {
    /// An order is submitted, whatever it is, at a moment.
    Submit(&'a Json, u64),
    /// So many steps are made, 1 to 20000.
    Steps(u32),
    /// The program stops, and at most this many bytes of the record that was to be kept reach the journal.
    Stop(u16),
    /// The unit at this short address, 0 to 63, loses its power and gets it back.
    Power(u8),
}

impl EventPlan<'_> {
    // How many events it stands for.
    fn count(&self) -> u64
        ensures { result ≡ event_count (event_of self.now) }
    {
        match self {
            EventPlan::Submit(_order, _moment) => 1,
            EventPlan::Steps(count) => u64::from(*count),
            EventPlan::Stop(_bytes) => 1,
            EventPlan::Power(_address) => 1,
        }
    }
}

/// The contents of a scenario file (profile).
#[derive(Drop)]
pub struct Scenario<'a> {
    /// The most orders of the journal, any number.
    pub limit: u64,
    /// The plan of the sessions.
    pub pace: Pace,
    /// The units, in their order.
    pub units: Vec<UnitPlan>,
    /// The fates of the frames, in their order.
    pub fates: Vec<FatePlan>,
    /// The events, in their order.
    pub events: Vec<EventPlan<'a>>,
}

// The unit that an object describes.
fn unit_plan(alloc: Global, json: &Json) -> Result<UnitPlan, InputFault>
    ensures ok { IfOk result (λ plan. IsUnit (view json.now) (unit_planned plan)) }
    ensures err { IfErr result (IsNoReading (IsUnit (view json.now))) }
{
    if !has_only_keys(json, &[key::ADDRESS, key::BANK, key::FIXED, key::DTR]) {
        return Err(InputFault::Document);
    }
    Ok(UnitPlan {
        address: address_in(json.get(key::ADDRESS))?,
        bank: bank_in(alloc, json.get(key::BANK))?,
        fixed: fixed_in(alloc, json.get(key::FIXED))?,
        dtrs: dtrs_in(alloc, json.get(key::DTR))?,
    })
}

// The short address of a unit, which has to be there.
fn address_in(json: Option<&Json>) -> Result<u8, InputFault>
    ensures ok { IfOk result (IsRequired (IsWhole 0 255) (value_if_any json.entry)) }
    ensures err { IfErr result (IsNoReading (IsRequired (IsWhole 0 255) (value_if_any json.entry))) }
    ensures document { IfErr result (λ fault. fault ≡ InputFault.Document) }
{
    match json {
        Some(json) => Ok(whole_within(json, 0, 255)? as u8),
        None => Err(InputFault::Document),
    }
}

// The bytes of a unit's bank 1: a blank one if there are none.
fn bank_in(alloc: Global, json: Option<&Json>) -> Result<Vec<u8>, InputFault>
    ensures ok { IfOk result (λ bank. IsOptional IsBankText blank_bank (value_if_any json.entry) bank.items) }
    ensures err { IfErr result (IsNoReading (IsOptional IsBankText blank_bank (value_if_any json.entry))) }
{
    let Some(json) = json else {
        return Ok(BLANK.to_vec(alloc)?);
    };
    match json.as_str() {
        Some(text) if text.len() <= MOST_BANK_DIGITS => match hex::decode(alloc, text) {
            Ok(bank) => Ok(bank),
            Err(FromHexError::OutOfMemory) => Err(InputFault::Memory),
            Err(_) => Err(InputFault::Document),
        },
        _ => Err(InputFault::Document),
    }
}

// The fixed locations of a unit: none if there is no list.
fn fixed_in(alloc: Global, json: Option<&Json>) -> Result<Vec<u8>, InputFault>
    ensures ok { IfOk result (λ fixed. IsOptional AreBytes [] (value_if_any json.entry) fixed.items) }
    ensures err { IfErr result (IsNoReading (IsOptional AreBytes [] (value_if_any json.entry))) }
{
    match json {
        Some(json) => numbers_of(alloc, json, 255),
        None => Ok(Vec::new(alloc)),
    }
}

// DTR0, DTR1 and DTR2 of a unit: zeros if there is no list.
fn dtrs_in(alloc: Global, json: Option<&Json>) -> Result<(u8, u8, u8), InputFault>
    ensures ok { IfOk result (IsOptional AreDtrs (0, 0, 0) (value_if_any json.entry)) }
    ensures err { IfErr result (IsNoReading (IsOptional AreDtrs (0, 0, 0) (value_if_any json.entry))) }
{
    let Some(json) = json else {
        return Ok((0, 0, 0));
    };
    let numbers = numbers_of(alloc, json, 255)?;
    let dtrs = numbers.as_slice();
    if dtrs.len() != 3 {
        return Err(InputFault::Document);
    }
    Ok((dtrs[0], dtrs[1], dtrs[2]))
}

// The fate that an object describes.
fn fate_plan(alloc: Global, json: &Json) -> Result<FatePlan, InputFault>
    ensures ok { IfOk result (IsFate (view json.now)) }
    ensures err { IfErr result (IsNoReading (IsFate (view json.now))) }
{
    if !has_only_keys(
        json,
        &[key::TIMES, key::LOST, key::ANSWER_LOST, key::REFUSE],
    ) {
        return Err(InputFault::Document);
    }
    Ok(FatePlan {
        times: times_in(json.get(key::TIMES))?,
        fate: Fate {
            lost: lost_in(alloc, json.get(key::LOST))?,
            answer_lost: boolean_in(json.get(key::ANSWER_LOST))?,
            refuse: boolean_in(json.get(key::REFUSE))?,
        },
    })
}

// How many frames have a fate: one if nothing is given there.
fn times_in(json: Option<&Json>) -> Result<u32, InputFault>
    ensures ok { IfOk result (IsOptional (IsWhole 1 most_events) 1 (value_if_any json.entry)) }
    ensures err { IfErr result (IsNoReading (IsOptional (IsWhole 1 most_events) 1 (value_if_any json.entry))) }
    ensures document { IfErr result (λ fault. fault ≡ InputFault.Document) }
{
    match json {
        Some(json) => Ok(whole_within(json, 1, u64::from(MOST_EVENTS))? as u32),
        None => Ok(1),
    }
}

// The units that don't hear a frame: none if there is no list.
fn lost_in(alloc: Global, json: Option<&Json>) -> Result<u64, InputFault>
    ensures ok { IfOk result (IsOptional AreLost 0 (value_if_any json.entry)) }
    ensures err { IfErr result (IsNoReading (IsOptional AreLost 0 (value_if_any json.entry))) }
{
    match json {
        Some(json) => Ok(bits_of(numbers_of(alloc, json, MOST_ADDRESS)?.as_slice())),
        None => Ok(0),
    }
}

// The number with these bits.
#[tactic(auto, using(crate::proofs::ValueLemmas::bit_more))]
fn bits_of(addresses: &[u8]) -> u64
    requires { AllByRecursion (λ address. address ≤ 63) addresses.now }
    ensures { (address : ℕ) → (bit_at result address ≡ 1) ↔ Contains addresses.now address }
{
    let mut bits = 0;
    for &address in addresses {
        bits |= 1 << address;
    }
    bits
}

// Whether something is so: not so if nothing is given there.
fn boolean_in(json: Option<&Json>) -> Result<bool, InputFault>
    ensures ok { IfOk result (IsOptional IsBoolean false (value_if_any json.entry)) }
    ensures err { IfErr result (IsNoReading (IsOptional IsBoolean false (value_if_any json.entry))) }
    ensures document { IfErr result (λ fault. fault ≡ InputFault.Document) }
{
    match json {
        Some(json) => json.as_bool().ok_or(InputFault::Document),
        None => Ok(false),
    }
}

// The moment at which an order is submitted: 0 if nothing is given there.
fn moment_in(json: Option<&Json>) -> Result<u64, InputFault>
    ensures ok { IfOk result (IsOptional (IsWhole 0 most_moment) 0 (value_if_any json.entry)) }
    ensures err { IfErr result (IsNoReading (IsOptional (IsWhole 0 most_moment) 0 (value_if_any json.entry))) }
    ensures document { IfErr result (λ fault. fault ≡ InputFault.Document) }
{
    match json {
        Some(json) => whole_within(json, 0, u64::MAX),
        None => Ok(0),
    }
}

/// The order that an object with the key "submit" submits, whatever it is, and at which moment: 0 if it gives none
/// (profile). None of a value that hasn't that key.
///
/// InputFault 12 Document if the object has other keys than "submit" and "moment", or its moment is none.
pub fn submission_of(json: &Json) -> Option<Result<(&Json, u64), InputFault>>
    ensures none { IfNone result (get (codes "submit") (view json.now) ≡ None) }
    ensures some { IfSome result (λ reading. IsSome (get (codes "submit") (view json.now))) }
    ensures ok { IfSome result (λ reading. IfOk reading (λ submission.
        IsEvent (view json.now) (submit (view submission.0.now) submission.1))) }
    ensures err { IfSome result (λ reading. IfErr reading (IsNoReading (IsEvent (view json.now)))) }
    ensures document { IfSome result (λ reading. IfErr reading (λ fault. fault ≡ InputFault.Document)) }
{
    let Some(order) = json.get(key::SUBMIT) else {
        return None;
    };
    if !has_only_keys(json, &[key::SUBMIT, key::MOMENT]) {
        return Some(Err(InputFault::Document));
    }
    match moment_in(json.get(key::MOMENT)) {
        Ok(moment) => Some(Ok((order, moment))),
        Err(fault) => Some(Err(fault)),
    }
}

// The event that an object describes.
fn event_plan(json: &Json) -> Result<EventPlan<'_>, InputFault>
    ensures ok { IfOk result (λ plan. IsEvent (view json.now) (event_of plan)) }
    ensures err { IfErr result (IsNoReading (IsEvent (view json.now))) }
    ensures document { IfErr result (λ fault. fault ≡ InputFault.Document) }
{
    if let Some(submission) = submission_of(json) {
        let (order, moment) = submission?;
        return Ok(EventPlan::Submit(order, moment));
    }
    if has_only_keys(json, &[key::STEPS]) {
        if let Some(count) = json.get(key::STEPS) {
            let count = whole_within(count, 1, u64::from(MOST_EVENTS))?;
            return Ok(EventPlan::Steps(count as u32));
        }
    }
    if has_only_keys(json, &[key::STOP]) {
        if let Some(bytes) = json.get(key::STOP) {
            let bytes = whole_within(bytes, 0, u64::from(u16::MAX))?;
            return Ok(EventPlan::Stop(bytes as u16));
        }
    }
    if has_only_keys(json, &[key::POWER]) {
        if let Some(address) = json.get(key::POWER) {
            let address = whole_within(address, 0, MOST_ADDRESS as u64)?;
            return Ok(EventPlan::Power(address as u8));
        }
    }
    Err(InputFault::Document)
}

// The units that an array describes.
fn unit_plans(alloc: Global, json: Option<&Json>) -> Result<Vec<UnitPlan>, InputFault>
    ensures ok { IfOk result
        (λ plans. IsRequired (IsArrayOf IsUnit) (value_if_any json.entry) (map unit_planned plans.items)) }
    ensures err { IfErr result (IsNoReading (IsRequired (IsArrayOf IsUnit) (value_if_any json.entry))) }
{
    let Some(json) = json else {
        return Err(InputFault::Document);
    };
    let Some(items) = json.as_array() else {
        return Err(InputFault::Document);
    };
    let mut plans = Vec::new(alloc);
    for item in items {
        plans.push(unit_plan(alloc, item)?)?;
    }
    Ok(plans)
}

// The fates that an array describes: no fates if there is none.
fn fate_plans(alloc: Global, json: Option<&Json>) -> Result<Vec<FatePlan>, InputFault>
    ensures ok { IfOk result (λ plans. IsOptional (IsArrayOf IsFate) [] (value_if_any json.entry) plans.items) }
    ensures err { IfErr result (IsNoReading (IsOptional (IsArrayOf IsFate) [] (value_if_any json.entry))) }
{
    let Some(json) = json else {
        return Ok(Vec::new(alloc));
    };
    let Some(items) = json.as_array() else {
        return Err(InputFault::Document);
    };
    let mut plans = Vec::new(alloc);
    for item in items {
        plans.push(fate_plan(alloc, item)?)?;
    }
    Ok(plans)
}

// The events that an array describes.
fn event_plans<'a>(alloc: Global, json: Option<&'a Json>) -> Result<Vec<EventPlan<'a>>, InputFault>
    ensures ok { IfOk result
        (λ plans. IsRequired (IsArrayOf IsEvent) (value_if_any json.entry) (map event_of plans.items)) }
    ensures err { IfErr result (IsNoReading (IsRequired (IsArrayOf IsEvent) (value_if_any json.entry))) }
{
    let Some(json) = json else {
        return Err(InputFault::Document);
    };
    let Some(items) = json.as_array() else {
        return Err(InputFault::Document);
    };
    let mut plans = Vec::new(alloc);
    for item in items {
        plans.push(event_plan(item)?)?;
    }
    Ok(plans)
}

/// The contents of a scenario file.
///
/// InputFault 12 Document if it isn't of the form of a scenario, 20 Memory if there is no memory.
pub fn scenario_of(alloc: Global, json: &Json) -> Result<Scenario<'_>, InputFault>
    ensures ok { IfOk result (λ scenario. IsScenario (view json.now) (planned_of scenario)) }
    ensures err { IfErr result (IsNoReading (IsScenario (view json.now))) }
{
    if !has_only_keys(
        json,
        &[key::LIMIT, key::PLAN, key::UNITS, key::FATES, key::EVENTS],
    ) {
        return Err(InputFault::Document);
    }
    Ok(Scenario {
        limit: limit_in(json.get(key::LIMIT))?,
        pace: pace_in(json.get(key::PLAN))?,
        units: unit_plans(alloc, json.get(key::UNITS))?,
        fates: fate_plans(alloc, json.get(key::FATES))?,
        events: event_plans(alloc, json.get(key::EVENTS))?,
    })
}

// The most orders of the journal, which has to be there.
fn limit_in(json: Option<&Json>) -> Result<u64, InputFault>
    ensures ok { IfOk result (IsRequired (IsWhole 0 (2 ^ 64 - 1)) (value_if_any json.entry)) }
    ensures err { IfErr result (IsNoReading (IsRequired (IsWhole 0 (2 ^ 64 - 1)) (value_if_any json.entry))) }
    ensures document { IfErr result (λ fault. fault ≡ InputFault.Document) }
{
    match json {
        Some(json) => whole_within(json, 0, u64::MAX),
        None => Err(InputFault::Document),
    }
}

// The plan of the sessions: the checked one if nothing is given there.
fn pace_in(json: Option<&Json>) -> Result<Pace, InputFault>
    ensures ok { IfOk result (IsOptional IsPlan Pace.Checked (value_if_any json.entry)) }
    ensures err { IfErr result (IsNoReading (IsOptional IsPlan Pace.Checked (value_if_any json.entry))) }
    ensures document { IfErr result (λ fault. fault ≡ InputFault.Document) }
{
    let Some(json) = json else {
        return Ok(Pace::Checked);
    };
    match json.as_str() {
        Some(text) if text == key::CHECKED => Ok(Pace::Checked),
        Some(text) if text == key::SHORT => Ok(Pace::Short),
        _ => Err(InputFault::Document),
    }
}

impl Scenario<'_> {
    /// Whether there are no more events and fates than there may be, 20000 of either, each counted as
    /// often as it stands for (profile).
    pub fn is_small(&self) -> bool
        ensures { IsTrue result ↔ IsSmall (planned_of self.now) }
    {
        count_events(&self.events) <= u64::from(MOST_EVENTS)
            && count_fates(&self.fates) <= u64::from(MOST_EVENTS)
    }
}

// How many events these stand for, up to the most that a `u64` holds.
fn count_events(plans: &[EventPlan<'_>]) -> u64
    ensures { result ≡ min (sum_by (λ plan. event_count (event_of plan)) plans.now) (2 ^ 64 - 1) }
{
    let mut count: u64 = 0;
    for plan in plans {
        count = count.saturating_add(plan.count());
    }
    count
}

// How many fates these stand for, up to the most that a `u64` holds.
fn count_fates(plans: &[FatePlan]) -> u64
    ensures { result ≡ min (sum_by (λ plan. plan.times) plans.now) (2 ^ 64 - 1) }
{
    let mut count: u64 = 0;
    for plan in plans {
        count = count.saturating_add(u64::from(plan.times));
    }
    count
}
