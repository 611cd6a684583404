// Rules 1 to 6 of the table of job answers, over the lent columns.
ghost use Rattle.std.specs.Prelude.{◌≡◌, ◌≤◌, length};
ghost use Rattle.job.specs.Columns.{outside, no_task, off_table, bad_task, bad_part, bad_record, bad_records};
ghost use Rattle.job.specs.Columns.{fault1, fault2, fault3, fault4, fault5, fault6};

use crate::{Lent, Records};
use kinds::{PASS, SCALE, SPREAD, is_within};

fn is_outside(low: i32, x: i32, high: i32) -> bool
    ensures { result ≡ outside low x high }
{
    !is_within(low, x, high)
}

#[tactic(auto, unfolding(crate::specs::Columns::fault1))]
pub fn has_fault_1(lent: &Lent) -> bool
    ensures { result ≡ fault1 lent.now.kinds.now lent.now.a.now lent.now.b.now }
{
    let tasks = lent.kinds.len();
    tasks == 0 || 16 < tasks || lent.a.len() != tasks || lent.b.len() != tasks
}

#[tactic(auto, unfolding(crate::specs::Columns::fault2))]
pub fn has_fault_2(lent: &Lent) -> bool
    ensures { result ≡ fault2 lent.now.from.now lent.now.to.now }
{
    32 < lent.from.len() || lent.to.len() != lent.from.len()
}

#[tactic(auto, unfolding(crate::specs::Columns::off_table))]
fn is_off_table(kind: u8, a: i32, b: i32) -> bool
    ensures { result ≡ off_table kind a b }
{
    match kind {
        PASS | SPREAD => is_outside(0, a, 0) || is_outside(0, b, 0),
        SCALE => is_outside(0, a, 30) || is_outside(0, b, 0),
        _ => false,
    }
}

#[tactic(auto, using(crate::proofs::Ints::within_non_neg, crate::proofs::Ints::within_nat_abs), unfolding(crate::specs::Columns::bad_task))]
fn is_bad_task(kind: i32, a: i32, b: i32) -> bool
    ensures { result ≡ bad_task kind a b }
{
    is_outside(0, kind, 5) || is_off_table(kind as u8, a, b)
}

pub fn has_fault_3(lent: &Lent) -> bool
    requires { (length lent.now.a.now ≡ length lent.now.kinds.now) × (length lent.now.b.now ≡ length lent.now.kinds.now) }
    ensures { result ≡ fault3 lent.now.kinds.now lent.now.a.now lent.now.b.now }
{
    (0..lent.kinds.len()).any(|t| is_bad_task(lent.kinds[t], lent.a[t], lent.b[t]))
}

#[tactic(auto, unfolding(crate::specs::Columns::bad_record))]
fn is_bad_record(cylinder: i32, value: i32) -> bool
    ensures { result ≡ bad_record cylinder value }
{
    is_outside(1, cylinder, 20) || is_outside(i32::MIN, value, i32::MAX)
}

// Every record is looked at, and the loop does not end at a bad one: so it looks at several at once, which `any` does not (each call on a
// job looks at all of its records).
#[tactic(auto, using(crate::proofs::Tests::some_more), unfolding(crate::specs::Tests::some, crate::specs::Columns::bad_records))]
fn has_bad_record(records: &Records) -> bool
    requires { length records.now.values.now ≡ length records.now.cylinders.now }
    ensures { result ≡ bad_records records.now.cylinders.now records.now.values.now }
{
    let mut found = false;
    for i in 0..records.cylinders.len() {
        found |= is_bad_record(records.cylinders[i], records.values[i]);
    }
    found
}

#[tactic(auto, using(crate::proofs::Bools::neither), unfolding(crate::specs::Columns::fault4))]
pub fn has_fault_4(records: &Records) -> bool
    ensures { result ≡ fault4 records.now.cylinders.now records.now.values.now }
{
    let n = records.cylinders.len();
    16384 < n || records.values.len() != n || has_bad_record(records)
}

// The sum is one of 64 bits, so that nothing wraps.
#[tactic(auto, using(crate::proofs::Ints::pair_fits), unfolding(crate::specs::Columns::bad_part))]
fn is_bad_part(kind: i32, a: i32, b: i32, records: usize) -> bool
    requires { records ≤ 16384 }
    ensures { result ≡ bad_part kind a b records }
{
    is_within(0, kind, 0)
        && (a < 0 || is_outside(0, b, 4096) || (records as i64) < i64::from(a) + i64::from(b))
}

pub fn has_fault_5(lent: &Lent) -> bool
    requires { (length lent.now.a.now ≡ length lent.now.kinds.now) × (length lent.now.b.now ≡ length lent.now.kinds.now)
        × (length lent.now.records.cylinders.now ≤ 16384) }
    ensures { result ≡ fault5 lent.now.kinds.now lent.now.a.now lent.now.b.now (length lent.now.records.cylinders.now) }
{
    let records = lent.records.cylinders.len();
    (0..lent.kinds.len()).any(|t| is_bad_part(lent.kinds[t], lent.a[t], lent.b[t], records))
}

fn is_no_task(x: i32, tasks: usize) -> bool
    requires { tasks ≤ 16 }
    ensures { result ≡ no_task x tasks }
{
    x < 0 || tasks as i32 <= x
}

pub fn has_fault_6(lent: &Lent) -> bool
    requires { (length lent.now.to.now ≡ length lent.now.from.now) × (length lent.now.kinds.now ≤ 16) }
    ensures { result ≡ fault6 lent.now.from.now lent.now.to.now (length lent.now.kinds.now) }
{
    let tasks = lent.kinds.len();
    (0..lent.from.len()).any(|c| is_no_task(lent.from[c], tasks) || is_no_task(lent.to[c], tasks))
}
