// The step rules, one function for each range of numbers; refusals in the order of document 01's text.
ghost use Rattle.std.specs.Prelude.{◌≡◌, ◌<◌, true, nat_abs, pos, length};
ghost use Rattle.std.specs.Int.Signed.{le_z};
ghost use Rattle.job.specs.Columns.{RecordsFit};
ghost use Rattle.job.specs.Jobs.{JobSized};
ghost use Rattle.job.specs.Fits.{Sends, JobFits};
ghost use Rattle.run.specs.Fit.{Fits};
ghost use Rattle.step.specs.Step.{is_no_source, delivered, next_record, source_read, barrier_sent, begun, last_or_none, cut_off};

use crate::{
    CHANNEL_BLOCKED, DONE, NO_SUCH_STEP, NOTHING_THERE, OUTPUT_FULL, Stepped, UNDER_WAY_ALREADY,
    algorithm,
};
use channel::{Cargo, TAKEN};
use job::{Job, Records};
use kinds::SOURCE;
use run::Run;
use tally::Totals;

// The step that delivers the head of channel `c`.
#[tactic(auto, using(crate::proofs::Sources::not_given), unfolding(crate::specs::Step::delivered))]
pub fn deliver(job: Job, run: Run, c: usize) -> Stepped
    requires { (c < 32) × Sends job × Fits job run }
    ensures { result ≡ delivered job run c }
{
    if job.channels <= c {
        return Stepped::refused(run, NO_SUCH_STEP);
    }
    if run.marked[c] {
        return Stepped::refused(run, CHANNEL_BLOCKED);
    }
    let got = run.channels[c].taken();
    if got.answer != TAKEN {
        return Stepped::refused(run, got.answer);
    }
    let t = usize::from(job.to[c]);
    match got.item.cargo {
        Cargo::Barrier => algorithm::receive_barrier(job, run, t, c, got.channel),
        Cargo::Record(r) => algorithm::receive_record(job, run, t, c, r, got.channel),
    }
}

#[tactic(auto, unfolding(crate::specs::Step::is_no_source))]
fn is_no_source(job: Job, t: usize) -> bool
    requires { t < 16 }
    ensures { result ≡ is_no_source job t }
{
    job.tasks <= t || job.kinds[t] != SOURCE
}

// Source `t` reads its next record.
#[tactic(auto, unfolding(crate::specs::Step::source_read, crate::specs::Step::next_record))]
pub fn read(job: Job, records: &Records, run: Run, t: usize) -> Stepped
    requires { (t < 16) × JobFits job (length records.now.cylinders.now) × Fits job run × RecordsFit records.now.cylinders.now records.now.values.now }
    ensures { result ≡ source_read job records.now.cylinders.now records.now.values.now run t }
{
    if is_no_source(job, t) {
        return Stepped::refused(run, NO_SUCH_STEP);
    }
    let offset = run.live[t].count;
    if job.b[t].unsigned_abs() <= offset {
        return Stepped::refused(run, NOTHING_THERE);
    }
    if outputs::some_full(job, &run.channels, t) {
        return Stepped::refused(run, OUTPUT_FULL);
    }
    let start = job.a[t].unsigned_abs();
    let got = records.at(start as usize + offset as usize);
    Stepped {
        run: algorithm::take_in(job, run, t, got),
        answer: DONE,
    }
}

// Source `t` sends its waiting barrier: it stores its totals, offset included, and a barrier goes on every output.
#[tactic(auto, unfolding(crate::specs::Step::barrier_sent))]
pub fn send_barrier(job: Job, mut run: Run, t: usize) -> Stepped
    requires { (t < 16) × Sends job }
    ensures { result ≡ barrier_sent job run t }
{
    if is_no_source(job, t) {
        return Stepped::refused(run, NO_SUCH_STEP);
    }
    if run.waiting[t] == 0 {
        return Stepped::refused(run, NOTHING_THERE);
    }
    if outputs::some_full(job, &run.channels, t) {
        return Stepped::refused(run, OUTPUT_FULL);
    }
    run.waiting[t] -= 1;
    algorithm::complete(job, algorithm::store(job, run, t))
}

// A snapshot begins.
#[tactic(auto, unfolding(crate::specs::Step::begun))]
pub fn begin(job: Job, mut run: Run) -> Stepped
    requires { JobSized job }
    ensures { result ≡ begun job run }
{
    if 1 <= run.under_way {
        return Stepped::refused(run, UNDER_WAY_ALREADY);
    }
    run.waiting = outputs::sources_wait(job, run.under_way, run.waiting);
    run.half = [Totals::none(); 16];
    run.stored = [0; 16];
    run.under_way = 1;
    Stepped { run, answer: DONE }
}

// The totals of the last complete snapshot, or all zero if there is none.
fn last_or_none(run: Run) -> [Totals; 16]
    ensures { result ≡ last_or_none run }
{
    if run.complete {
        run.last
    } else {
        [Totals::none(); 16]
    }
}

// All is emptied but the last complete snapshot, whose totals become the live ones.
#[tactic(auto, unfolding(crate::specs::Step::cut_off))]
pub fn cut(run: Run) -> Run
    ensures { result ≡ cut_off run }
{
    let live = last_or_none(run);
    let last = run.last;
    Run {
        live,
        last,
        complete: run.complete,
        ..Run::fresh()
    }
}
