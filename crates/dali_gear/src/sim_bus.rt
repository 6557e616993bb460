ghost use Rattle.std.specs.Prelude.{◌≡◌, ◌↔◌, map, length, if◌then◌else◌, IfOk, IsOk, IsTrue, IfErr};
ghost use Rattle.std.specs.List.{filter_map};
ghost use Rattle.std.specs.Vec.Iter.{into_iter_items};
ghost use Rattle.std.specs.Prelude.{drop};
ghost use Rattle.dali_gear.specs.Fate.{next_fate};
ghost use Rattle.dali_gear.specs.SimState.{unit_after, unit_answer, only_answer, unit_powered, AreApart, AreBanks};
ghost use Rattle.dali_gear.specs.SimState.{world_of};

use crate::fate::Fate;
use crate::fault::GearFault;
use crate::unit::Unit;
use dali_bus::Bus;
use dali_frame::Frame;
use std::alloc::Global;
use std::boxed::BoxedSlice;
use std::marker::Model;
use std::vec::IntoIter;

/// A bus of simulated units, on which frames and answers are lost and writes are refused as a list
/// of fates says (profile).
pub struct SimBus {
    units: BoxedSlice<Unit>,
    fates: IntoIter<Fate, Global>,
}

// Called wherever one goes: what is derived would be written out at each such place.
impl Drop for SimBus {
    fn drop(self) {
        let SimBus { units: _, fates: _ } = self;
    }
}

impl Model for SimBus {
    ghost use Rattle.std.specs.Prelude.{length};
    ghost use Rattle.std.specs.Box.{boxed_slice_items};
    ghost use Rattle.std.specs.Vec.Iter.{into_iter_items};
    ghost use Rattle.dali_gear.specs.SimState.{SimState, AreApart, AreBanks};

    ghost Value = { SimState };

    ghost view = { λ bus. record { units = boxed_slice_items bus.units; fates = into_iter_items bus.fates } };

    ghost invariant = { λ bus. AreApart (boxed_slice_items bus.units) × AreBanks (boxed_slice_items bus.units) };
}

impl SimBus {
    /// A bus of these units, and the fates of its next frames in turn. When all are used up, frames
    /// go through whole.
    ///
    /// Fault 5 SameAddress if two units are at one short address.
    pub fn new(units: Vec<Unit>, fates: Vec<Fate>) -> Result<SimBus, GearFault>
        ensures apart { IsOk result ↔ AreApart units.items }
        ensures ok { IfOk result (λ bus. bus ≡ record { units = units.items; fates = fates.items }) }
        ensures err { IfErr result (λ fault. fault ≡ GearFault.SameAddress) }
    {
        if !are_apart(&units) {
            return Err(GearFault::SameAddress);
        }
        Ok(SimBus {
            units: units.into_boxed_slice(),
            fates: fates.into_iter(),
        })
    }

    /// The units, in the order in which they were given.
    pub fn units(&self) -> &[Unit]
        ensures { result.now ≡ self.now.units }
    {
        &self.units
    }

    /// How many fates are left.
    pub fn fates_left(&self) -> usize
        ensures { result ≡ length self.now.fates }
    {
        self.fates.len()
    }
}

impl Bus for SimBus {
    ghost use Rattle.dali_gear.specs.SimState.{SimStep, world_of};
    ghost use Rattle.dali_gear.specs.SimSteps.{sim_step-allowed};

    ghost world = { λ bus. world_of bus.units };

    ghost step = { SimStep };

    ghost allowed = { sim_step-allowed };

    /// Lets each unit hear the frame under the next fate, unless it is lost to the unit. Answers the byte if exactly
    /// one unit answered and the answer isn't lost.
    fn carry(&mut self, frame: &Frame) -> Option<u8> {
        let fate = take_fate(&mut self.fates);
        let answer = carry_to(&mut self.units, &fate, frame);
        if fate.answer_lost { None } else { answer }
    }

    /// Powers up the unit at the address, if there is one. No fate is used.
    fn power(&mut self, address: u8) {
        power_at(&mut self.units, address);
    }
}

// Whether no two units are at one address.
fn are_apart(units: &[Unit]) -> bool
    ensures apart { IsTrue result ↔ AreApart units.now }
    ensures banks { IsTrue result → AreBanks units.now }
{
    match units {
        [] => true,
        [first, rest @ ..] => is_free(rest, first.address()) && are_apart(rest),
    }
}

/// Whether none of the units is at this short address, any number.
pub fn is_free(units: &[Unit], address: u8) -> bool
    ensures { IsTrue result ↔ (world_of units.now address ≡ None) }
{
    for unit in units {
        if unit.address() == address {
            return false;
        }
    }
    true
}

// The next frame's fate, which is then used up.
fn take_fate(fates: &mut IntoIter<Fate, Global>) -> Fate
    ensures fate { result ≡ next_fate (into_iter_items fates.old) }
    ensures after { into_iter_items fates.new ≡ drop 1 (into_iter_items fates.old) }
{
    fates.next().unwrap_or_default()
}

// Lets each unit hear the frame, and tells the answer if exactly one answered.
fn carry_to(units: &mut [Unit], fate: &Fate, frame: &Frame) -> Option<u8>
    ensures after { units.new ≡ map (unit_after fate.now frame.now) units.old }
    ensures answer { result ≡ only_answer (filter_map (unit_answer fate.now frame.now) units.old) }
{
    let mut first = None;
    let mut count: usize = 0;
    for unit in units.iter_mut() {
        let answer = hear_by(unit, fate, frame);
        if let Some(byte) = answer {
            if count == 0 {
                first = Some(byte);
            }
            count += 1;
        }
    }
    if count == 1 { first } else { None }
}

// Lets a unit hear the frame, unless it is lost to the unit.
fn hear_by(unit: &mut Unit, fate: &Fate, frame: &Frame) -> Option<u8>
    ensures after { unit.new ≡ unit_after fate.now frame.now unit.old }
    ensures answer { result ≡ unit_answer fate.now frame.now unit.old }
{
    if fate.is_lost(unit.address()) {
        return None;
    }
    if fate.refuse {
        unit.hear_refusing(frame)
    } else {
        unit.hear(frame)
    }
}

// Powers up the unit at an address, if there is one.
fn power_at(units: &mut [Unit], address: u8)
    ensures { units.new ≡ map (unit_powered address) units.old }
{
    for unit in units.iter_mut() {
        power_where(unit, address);
    }
}

// Powers up a unit that is at an address.
fn power_where(unit: &mut Unit, address: u8)
    ensures { unit.new ≡ unit_powered address unit.old }
{
    if unit.address() == address {
        unit.power_up();
    }
}
