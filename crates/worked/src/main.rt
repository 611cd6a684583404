// Document 01's worked station, step by step, and runs from elsewhere. What it prints stands in the file `stdout`, beside the paper's numbers.
#![tactic(auto)]

use channel::{Cargo, Channel, Item};
use job::{Lent, Records};
use run::Run;
use std::io;
use tally::{Record, Totals};

// The paper's five tasks, five channels and five records.
const KINDS: [i32; 5] = [0, 0, 3, 2, 1];

const A: [i32; 5] = [0, 3, 1, -10, 0];

const B: [i32; 5] = [3, 2, 0, 10, 0];

const FROM: [i32; 5] = [0, 1, 2, 0, 3];

const TO: [i32; 5] = [2, 2, 3, 4, 4];

const CYLINDERS: [i32; 5] = [1, 2, 3, 1, 4];

const VALUES: [i32; 5] = [7, -5, 40, -3, 9];

// The paper's 24 steps.
const STEPS: [u16; 24] = [
    32, 64, 48, 32, 0, 0, 0, 33, 33, 49, 1, 1, 1, 0, 3, 3, 2, 2, 2, 2, 4, 4, 4, 4,
];

fn lent() -> Lent<'static> {
    let records = Records {
        cylinders: &CYLINDERS,
        values: &VALUES,
    };
    Lent {
        kinds: &KINDS,
        a: &A,
        b: &B,
        from: &FROM,
        to: &TO,
        records,
    }
}

// The totals of the station's five tasks.
fn five(rt: &impl Print, l: [Totals; 16]) -> io::Result<()> {
    for x in &l[..5] {
        println!(rt; " {} {} {} {}", x.count, x.sum, x.least, x.greatest)?;
    }
    Ok(())
}

fn drain_and_say(rt: &impl Print, run: Run, limit: u32) -> io::Result<()> {
    let d = station::drain(run, &lent(), limit);
    println!(rt; "drain {} {}", d.answer, d.steps)
}

// The answers of the steps one by one.
fn step_by_step(rt: &impl Print, numbers: &[u16]) -> io::Result<Run> {
    let mut run = station::fresh();
    for n in numbers {
        let s = station::step(run, &lent(), *n);
        run = s.run;
        println!(rt; "step {n} {}", s.answer)?;
    }
    Ok(run)
}

fn worked(rt: &impl Print) -> io::Result<()> {
    let run = step_by_step(rt, &STEPS)?;
    let l = station::steps(station::fresh(), &lent(), &STEPS);
    println!(rt; "list {} {} {}", l.answer, l.done, l.refused)?;
    println!(rt; "snapshot")?;
    five(rt, run.last)?;
    drain_and_say(rt, run, 67108864)?;
    let cut = station::step(run, &lent(), 65);
    drain_and_say(rt, cut.run, 67108864)?;
    drain_and_say(rt, station::fresh(), 67108864)?;
    drain_and_say(rt, station::fresh(), 21)?;
    let d = station::drain(run, &lent(), 67108864);
    println!(rt; "totals")?;
    five(rt, d.run.live)
}

// The answer of a step that no job has: 16 where the run does not fit, else 11.
fn fit_of(rt: &impl Print, name: &str, run: Run) -> io::Result<()> {
    let s = station::step(run, &lent(), 66);
    println!(rt; "{name} {}", s.answer)
}

fn with_item(cylinder: u8, value: i32) -> Channel {
    let item = Item {
        cargo: Cargo::Record(Record { cylinder, value }),
    };
    Channel::empty().added(item).channel
}

// A fresh run, and what is set in it.
fn fresh_but<F: FnOnce(&mut Run)>(set: F) -> Run
    requires { F.IsAlwaysCallable set }
{
    let mut run = station::fresh();
    set(&mut run);
    run
}

fn fit_with<F: FnOnce(&mut Run)>(rt: &impl Print, name: &str, set: F) -> io::Result<()>
    requires { F.IsAlwaysCallable set }
{
    fit_of(rt, name, fresh_but(set))
}

fn channels_from_elsewhere(rt: &impl Print) -> io::Result<()> {
    let fine = with_item(1, 7);
    let long = Channel {
        count: 9,
        ..Channel::empty()
    };
    fit_with(rt, "cylinder-21", |run| run.channels[0] = with_item(21, 0))?;
    fit_with(rt, "cylinder-0", |run| run.channels[0] = with_item(0, 0))?;
    fit_with(rt, "nine-items", |run| run.channels[0] = long)?;
    fit_with(rt, "channel-5", |run| run.channels[5] = fine)?;
    fit_with(rt, "mark-5", |run| run.marked[5] = true)?;
    let ready = fresh_but(|run| run.channels[4] = fine);
    fit_of(rt, "record-in-4", ready)?;
    drain_and_say(rt, ready, 67108864)?;
    let added = long.added(Item::barrier());
    let taken = long.taken();
    println!(rt; "claims-nine {} {}", added.answer, taken.answer)
}

fn tasks_from_elsewhere(rt: &impl Print) -> io::Result<()> {
    fit_with(rt, "waits-at-2", |run| run.waiting[2] = 1)?;
    fit_with(rt, "stored-5", |run| run.stored[5] = 1)?;
    fit_with(rt, "totals-5", |run| run.last[5].count = 1)?;
    fit_with(rt, "offset-4-of-3", |run| run.live[0].count = 4)?;
    fit_with(rt, "sum-of-none", |run| run.half[2].sum = 1)?;
    fit_with(rt, "least-of-none", |run| run.live[2].least = -1)
}

// One snapshot at most is under way: two under way, two barriers waiting at a source, or a task that stored two do not fit.
fn twos_from_elsewhere(rt: &impl Print) -> io::Result<()> {
    fit_with(rt, "two-under-way", |run| run.under_way = 2)?;
    fit_with(rt, "one-waits-at-0", |run| run.waiting[0] = 1)?;
    fit_with(rt, "two-wait-at-0", |run| run.waiting[0] = 2)?;
    fit_with(rt, "stored-once", |run| run.stored[2] = 1)?;
    fit_with(rt, "stored-twice", |run| run.stored[2] = 2)
}

// The greatest count fits, one more does not; nor does a greatest value of nothing.
fn totals_from_elsewhere(rt: &impl Print) -> io::Result<()> {
    fit_with(rt, "count-1048576", |run| run.live[2].count = 1048576)?;
    fit_with(rt, "count-1048577", |run| run.live[2].count = 1048577)?;
    fit_with(rt, "greatest-of-none", |run| run.live[2].greatest = 1)
}

// Runs that fit, though no list of steps leads to them: a stray barrier, and a snapshot that every task has stored already.
fn strays(rt: &impl Print) -> io::Result<()> {
    let stray = fresh_but(|run| run.channels[2] = Channel::empty().added(Item::barrier()).channel);
    fit_of(rt, "stray-barrier", stray)?;
    drain_and_say(rt, stray, 67108864)?;
    let stuck = fresh_but(|run| run.under_way = 1);
    fit_of(rt, "under-way-alone", stuck)?;
    drain_and_say(rt, stuck, 67108864)
}

fn main(rt: HostRuntime) -> io::Result<()> {
    worked(&rt)?;
    channels_from_elsewhere(&rt)?;
    tasks_from_elsewhere(&rt)?;
    twos_from_elsewhere(&rt)?;
    totals_from_elsewhere(&rt)?;
    strays(&rt)
}
