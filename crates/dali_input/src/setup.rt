ghost use Rattle.std.specs.Prelude.{◌≡◌, ◌≢◌, ◌++◌, List, [], ◌∷◌, None, true, false, IfOk, IfErr, OnOk, map, replicate};
ghost use Rattle.dali_gear.specs.Faults.{IsUnitFault};
ghost use Rattle.dali_gear.specs.SimState.{world_of};
ghost use Rattle.dali_trace.specs.declared.happening.Event.TheVariants.{Step};
ghost use Rattle.dali_input.specs.Scenario.{PlannedUnit, event_of, planned_of, unit_planned};
ghost use Rattle.dali_input.specs.Setup.{AreEvents, AreUnits, IsFirstUnitFault, IsMakeable, IsOrderRefusal};
ghost use Rattle.dali_input.specs.Setup.{IsSetupRefused, IsSetUp, IsUnitRefusal, fates_of as expanded};
ghost use Rattle.dali_input.specs.Setup.{made_unit as made};

use crate::command_fault::Fault;
use crate::fault::InputFault;
use crate::item::order_of;
use crate::scenario::{EventPlan, FatePlan, Scenario, UnitPlan};
use dali_gear::{Fate, GearFault, SimBus, Unit, is_free};
use dali_trace::Event;
use std::alloc::{AllocError, Global};

/// The parts that a scenario sets up (profile).
#[derive(Drop)]
pub struct Setup {
    /// The units, and the fates of the frames.
    pub bus: SimBus,
    /// The events, in their order.
    pub events: Vec<Event>,
}

/// The units, the fates and the events of a scenario.
///
/// The first fault that applies: fault 13 TooBig if there are over 20000 events or fates; the fault of the first unit
/// that can't be made, 1 Address, 2 Size or 3 Fixed; 5 SameAddress if two units are at one address; the fault of the
/// first order that is refused. 20 Memory if there is no memory.
pub fn setup_of(alloc: Global, scenario: &Scenario<'_>) -> Result<Setup, Fault>
    ensures ok { IfOk result
        (λ setup. IsSetUp (planned_of scenario.now) setup.bus.units setup.bus.fates setup.events.items) }
    ensures err { IfErr result (IsSetupRefused (planned_of scenario.now)) }
{
    if !scenario.is_small() {
        return Err(Fault::Input(InputFault::TooBig));
    }
    let units = units_of(alloc, scenario.units.as_slice())?;
    let fates = fates_of(alloc, scenario.fates.as_slice())?;
    let Ok(bus) = SimBus::new(units, fates) else {
        return Err(Fault::SameAddress);
    };
    let events = events_of(alloc, scenario.events.as_slice())?;
    Ok(Setup { bus, events })
}

// The units, in their order. Once two are at one address each further one is made to test it, and let go, so that no
// more are held than a bus has addresses.
fn units_of(alloc: Global, plans: &[UnitPlan]) -> Result<Vec<Unit>, Fault>
    ensures ok { IfOk result (λ units. AreUnits (map unit_planned plans.now) units.items) }
    ensures err { IfErr result (IsUnitRefusal (map unit_planned plans.now)) }
{
    let mut units = Vec::new(alloc);
    let mut are_apart = true;
    let mut number: u64 = 0;
    for plan in plans {
        number += 1;
        match made_unit(alloc, plan) {
            Ok(unit) => are_apart = hold_apart(&mut units, are_apart, unit)?,
            Err(fault) => return Err(unit_fault(number, fault)),
        }
    }
    if !are_apart {
        return Err(Fault::SameAddress);
    }
    Ok(units)
}

// Holds a unit besides units that are apart, if it is apart from them; whether all are.
fn hold_apart(units: &mut Vec<Unit>, are_apart: bool, unit: Unit) -> Result<bool, AllocError>
    ensures apart { IfOk result (λ apart. apart ≡ true
        → (are_apart ≡ true) × (units.new.items ≡ units.old.items ++ unit ∷ [])) }
    ensures together { IfOk result (λ apart. apart ≡ false
        → are_apart ≡ true → world_of units.old.items unit.address ≢ None) }
{
    if !are_apart || !is_free(units.as_slice(), unit.address()) {
        return Ok(false);
    }
    units.push(unit)?;
    Ok(true)
}

// Why no scenario is set up at the fault of a unit.
fn unit_fault(number: u64, fault: GearFault) -> Fault
    ensures { (planned : List PlannedUnit) → (fault ≢ GearFault.NoMemory → IsFirstUnitFault planned number fault)
        → IsUnitRefusal planned result }
{
    match fault {
        GearFault::NoMemory => Fault::Input(InputFault::Memory),
        GearFault::Address | GearFault::Size | GearFault::Fixed | GearFault::SameAddress => {
            Fault::Unit(number, fault)
        }
    }
}

// A unit, with its registers.
fn made_unit(alloc: Global, plan: &UnitPlan) -> Result<Unit, GearFault>
    ensures ok { IfOk result (λ unit. IsMakeable (unit_planned plan.now) × (unit ≡ made (unit_planned plan.now))) }
    ensures err { IfErr result (IsUnitFault plan.now.address plan.now.bank.items plan.now.fixed.items) }
{
    let (bank, fixed) = (plan.bank.as_slice(), plan.fixed.as_slice());
    match Unit::with_bank1(alloc, plan.address, bank, fixed) {
        Ok(mut unit) => {
            let (dtr0, dtr1, dtr2) = plan.dtrs;
            unit.set_dtrs(dtr0, dtr1, dtr2);
            Ok(unit)
        }
        Err(fault) => Err(fault),
    }
}

// The fates of the frames, each as often as it stands for.
fn fates_of(alloc: Global, plans: &[FatePlan]) -> Result<Vec<Fate>, AllocError>
    ensures { IfOk result (λ fates. fates.items ≡ expanded plans.now) }
{
    let mut fates = Vec::new(alloc);
    for plan in plans {
        push_fates(&mut fates, plan.fate, plan.times)?;
    }
    Ok(fates)
}

// Appends a fate this many times.
fn push_fates(fates: &mut Vec<Fate>, fate: Fate, times: u32) -> Result<(), AllocError>
    ensures { OnOk result (fates.new.items ≡ fates.old.items ++ replicate times fate) }
{
    for _ in 0..times {
        fates.push(fate)?;
    }
    Ok(())
}

// The events.
fn events_of(alloc: Global, plans: &[EventPlan<'_>]) -> Result<Vec<Event>, Fault>
    ensures ok { IfOk result (λ events. AreEvents (map event_of plans.now) events.items) }
    ensures err { IfErr result (IsOrderRefusal (map event_of plans.now)) }
{
    let mut events = Vec::new(alloc);
    let mut number: u64 = 0;
    for plan in plans {
        number += 1;
        match plan {
            EventPlan::Submit(source, moment) => match order_of(source) {
                Ok(order) => events.push(Event::Submit(order, *moment))?,
                Err(fault) => return Err(Fault::Order(number, fault)),
            },
            EventPlan::Steps(count) => push_steps(&mut events, *count)?,
            EventPlan::Stop(bytes) => events.push(Event::Stop(*bytes))?,
            EventPlan::Power(address) => events.push(Event::Power(*address))?,
        }
    }
    Ok(events)
}

// Appends this many steps.
fn push_steps(events: &mut Vec<Event>, count: u32) -> Result<(), AllocError>
    ensures { OnOk result (events.new.items ≡ events.old.items ++ replicate count Step) }
{
    for _ in 0..count {
        events.push(Event::Step)?;
    }
    Ok(())
}
