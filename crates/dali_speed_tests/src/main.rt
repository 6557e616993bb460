//! How long the calls of a journal and of a writer over it take: it loads the file named first, looks orders up,
//! submits known ones again, and carries out new ones for a unit that isn't there, and prints the times. Without a file
//! it does nothing.
//!
//! A crate of its own: it is a program of the benchmarks, and not a test.
#![tactic(auto)]

use anyhow::Result;
use dali_bank::Order;
use dali_journal::{Journal, Kept, MOST_ORDERS};
use dali_writer::{Want, Writer};
use std::time::Instant;
use std::{env, fs};

const LOOK_UPS: u64 = 1000;

const NEW_ORDERS: u64 = 500;

// Does the next thing; no unit answers. Whether there was one.
fn work(writer: &mut Writer) -> bool {
    match writer.want() {
        Want::Idle => return false,
        Want::Keep(_) => writer.kept(),
        Want::Send(_) => writer.heard(None),
        Want::Say(_, _) => writer.said(),
    }
    true
}

fn carry_out(writer: &mut Writer, id: u64) {
    if let Some(order) = Order::from_pairs(id, 5, &[(3, 3), (4, 164), (5, 206)]) {
        if writer.submit(order, 0).is_ok() {
            for _ in 0..32 {
                if !work(writer) {
                    return;
                }
            }
        }
    }
}

fn main(rt: HostRuntime) -> Result<()> {
    let alloc = rt.alloc();
    let mut words = env::args(&rt)?;
    let _program = words.next();
    let Some(name) = words.next() else {
        return Ok(());
    };
    let bytes = fs::read(&rt, name.as_str())?;
    let start = Instant::now(&rt)?;
    let Ok((journal, _, _)) = Journal::load(alloc, MOST_ORDERS, &bytes) else {
        return Ok(());
    };
    let loaded = start.elapsed(&rt)?.as_micros();
    let known = journal.orders();
    let start = Instant::now(&rt)?;
    let mut found: u32 = 0;
    for id in 0..LOOK_UPS {
        if let Kept::Ended(_, _) = journal.kept(id) {
            found = found.saturating_add(1);
        }
    }
    let kept = start.elapsed(&rt)?.as_nanos();
    let mut writer = Writer::new(journal);
    let start = Instant::now(&rt)?;
    for id in 0..NEW_ORDERS {
        carry_out(&mut writer, id + 1_000_000_000);
    }
    let carried = start.elapsed(&rt)?.as_nanos();
    let begun = writer.journal().orders().saturating_sub(known);
    println!(rt; "{known} {loaded} {found} {kept} {begun} {carried}")?;
    Ok(())
}
