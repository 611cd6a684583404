// The rows of `trace`: each step with its answer, what stands after the steps, what stands after the drain.
ghost use Rattle.std.specs.Prelude.{◌≡◌, ◌++◌, ◌≤◌, ◌+◌, ◌*◌, length};
ghost use Rattle.job.specs.Columns.{columns_of};
ghost use Rattle.traced.specs.Lines.{Writes};
ghost use Rattle.traced.specs.Traces.{step_word, count_row, step_rows, shown_of, state_of, after_steps, after_drain};

use crate::lines::put_lines;
use drain::Drained;
use job::Lent;
use lists::Listed;
use rows::put_row;
use run::Run;

// A word, three numbers and two zeros.
#[tactic(auto, using(crate::proofs::Writing::five_room, crate::proofs::Writing::five_writes))]
fn put_counts(out: &mut [u8], at: usize, word: &[u8], x: u32, y: u32, z: u32) -> usize
    requires { (length word.now ≤ 5) × (at + 128 ≤ length out.old) }
    ensures { Writes 128 out.old at (count_row word.now x y z) out.new result }
{
    let numbers = [i64::from(x), i64::from(y), i64::from(z), 0, 0];
    put_row(out, at, word, &numbers)
}

fn put_step(out: &mut [u8], at: usize, number: u16, answer: u8) -> usize
    requires { at + 128 ≤ length out.old }
    ensures { Writes 128 out.old at (count_row step_word number answer 0) out.new result }
{
    put_counts(out, at, b"step", u32::from(number), u32::from(answer), 0)
}

// Each step of the list by itself, from a fresh run on.
#[tactic(auto, using(rows::proofs::Putting::put_none, crate::proofs::Writing::then, crate::proofs::Stepping::run_more, crate::proofs::Stepping::rows_more), unfolding(crate::specs::Traces::run_after, crate::specs::Traces::step_rows))]
pub fn put_steps(lent: &Lent, numbers: &[u16], out: &mut [u8], at: usize) -> usize
    requires { (length numbers.now ≤ 5461) × (at + 128 * 5461 ≤ length out.old) }
    ensures { Writes (128 * 5461) out.old at (step_rows (columns_of lent.now) numbers.now (length numbers.now)) out.new result }
{
    let mut run = station::fresh();
    let mut next = at;
    for n in numbers {
        let s = station::step(run, lent, *n);
        run = s.run;
        next = put_step(out, next, *n, s.answer);
    }
    next
}

// As many tasks as are shown.
fn shown(complete: bool, tasks: usize) -> usize
    ensures { result ≡ shown_of complete tasks }
{
    if complete { tasks } else { 0 }
}

// A row, then the last complete snapshot, if there is one, and the live totals.
#[tactic(auto, using(crate::proofs::Writing::then_room, crate::proofs::Writing::three_writes, crate::proofs::Writing::shown_few))]
fn put_after(
    out: &mut [u8],
    at: usize,
    word: &[u8],
    x: u32,
    y: u32,
    z: u32,
    first: &[u8],
    second: &[u8],
    tasks: usize,
    run: Run,
) -> usize
    requires { (length word.now ≤ 5) × (length first.now ≤ 9) × (length second.now ≤ 9) × (tasks ≤ 16)
        × (at + 4224 ≤ length out.old) }
    ensures { Writes 4224 out.old at
        (count_row word.now x y z ++ state_of first.now second.now tasks run) out.new result }
{
    let last = run.last;
    let live = run.live;
    let next = put_counts(out, at, word, x, y, z);
    let then = put_lines(out, next, first, shown(run.complete, tasks), last);
    put_lines(out, then, second, tasks, live)
}

// The list, the last complete snapshot and the live totals after it.
#[tactic(auto, unfolding(crate::specs::Traces::after_steps))]
pub fn put_list(out: &mut [u8], at: usize, tasks: usize, l: Listed) -> usize
    requires { (l.done ≤ 5461) × (l.refused ≤ 5461) × (tasks ≤ 16) × (at + 4224 ≤ length out.old) }
    ensures { Writes 4224 out.old at (after_steps tasks l) out.new result }
{
    let run = l.run;
    put_after(
        out,
        at,
        b"list",
        0,
        l.done as u32,
        l.refused as u32,
        b"snapshot,",
        b"live,",
        tasks,
        run,
    )
}

// The drain, the last complete snapshot and the totals after it.
#[tactic(auto, unfolding(crate::specs::Traces::after_drain))]
pub fn put_drain(out: &mut [u8], at: usize, tasks: usize, d: Drained) -> usize
    requires { (tasks ≤ 16) × (at + 4224 ≤ length out.old) }
    ensures { Writes 4224 out.old at (after_drain tasks d) out.new result }
{
    let run = d.run;
    put_after(
        out,
        at,
        b"drain",
        u32::from(d.answer),
        d.steps,
        0,
        b"last,",
        b"total,",
        tasks,
        run,
    )
}
