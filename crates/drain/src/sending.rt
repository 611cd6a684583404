// A step that brings a record, done on a run laid flat: what it brings, what it takes away, and what goes on each output.
ghost use Rattle.std.specs.Prelude.{◌≡◌, true, false, ℕ, ◌<◌, ◌≤◌, ◌+◌, ltb, ℤ, pos, nat_abs, get_or, set, length};
ghost use Rattle.tally.specs.Totals.{Room};
ghost use Rattle.job.specs.Graph.{sent_by};
ghost use Rattle.job.specs.Jobs.{place_of, a_of};
ghost use Rattle.job.specs.Columns.{RecordsFit};
ghost use Rattle.job.specs.Fits.{Sends};
ghost use Rattle.run.specs.Runs.{with_channels};
ghost use Rattle.run.specs.Fit.{channel_at, totals_at};
ghost use Rattle.outputs.specs.Outputs.{put_all, put_sent};
ghost use Rattle.step.specs.Algorithm.{taken_in};
ghost use Rattle.flat.specs.Columns.{head_of};
ghost use Rattle.drain.specs.Ready.{channel_by};
ghost use Rattle.drain.specs.Sending.{brought_by, left_on};

use channel::Cargo;
use flat::Flat;
use job::sends::{names, place_of, sent_by};
use job::{Job, Records};
use tally::Record;

// The number of outputs of every task.
#[tactic(auto, using(flat::proofs::Tables::one_more))]
pub fn all_outputs(job: &Job) -> [u32; 16]
    requires { job.now.channels ≤ 32 }
    ensures { (t : ℕ) → t < 16 → get_or result t 0 ≡ place_of job.now t job.now.channels }
{
    let mut outs = [0; 16];
    for t in 0..16 {
        outs[t] = place_of(job, t, job.channels);
    }
    outs
}

// What step `n` brings to task `t`: the head of its channel, the source's next record, or a barrier.
#[tactic(auto, unfolding(crate::specs::Sending::brought_by))]
pub fn bring(job: &Job, records: &Records, flat: &Flat, n: u16, t: usize) -> Cargo
    requires records { (t < 16) × RecordsFit records.now.cylinders.now records.now.values.now }
    requires inside { ltb n 32 ≡ false → ltb n 48 ≡ true
        → nat_abs (a_of job.now t) + (totals_at flat.now.live t).count < length records.now.cylinders.now }
    ensures { result ≡ brought_by records.now.cylinders.now records.now.values.now n (head_of (channel_at flat.now (channel_by n)))
        (a_of job.now t) (totals_at flat.now.live t).count }
{
    if n < 32 {
        return flat.head(usize::from(n));
    }
    if n < 48 {
        return Cargo::Record(records.at(
            job.a[t].unsigned_abs() as usize + flat.received(t) as usize,
        ));
    }
    Cargo::Barrier
}

// What task `t` puts on its output `c` at `place` of `outputs` for a record that it received.
fn carry(job: &Job, flat: &mut Flat, c: usize, t: usize, place: u32, outputs: u32, got: Record)
    requires { (c < 32) × (t < 16) × Sends job.now × (1 ≤ got.cylinder) }
    ensures { flat.new ≡ with_channels (set flat.old.channels c
        (put_sent (channel_at flat.old c) (sent_by job.now t place outputs got))) flat.old }
{
    match sent_by(job, t, place, outputs, got) {
        None => {}
        Some(r) => flat.put(c, r),
    }
}

// What task `t` sends for a record that it received, on all its `outputs`.
#[tactic(auto, unfolding(outputs::specs::Outputs::each_place, job::specs::Jobs::place_of, outputs::specs::Outputs::put_all))]
fn send(job: &Job, flat: &mut Flat, t: usize, outputs: u32, got: Record)
    requires { (t < 16) × Sends job.now × (1 ≤ got.cylinder) × (outputs ≡ place_of job.now t job.now.channels) }
    ensures { flat.new ≡ with_channels (put_all job.now t (Cargo.Record got) flat.old.channels) flat.old }
{
    let mut place = 0;
    for c in 0..job.channels {
        if names(job.from[c], t) {
            carry(job, flat, c, t, place, outputs, got);
            place += 1;
        }
    }
}

// Task `t` takes a record in: it updates the totals, then is sent on.
#[tactic(auto, unfolding(step::specs::Algorithm::taken_in))]
fn take_in(job: &Job, flat: &mut Flat, t: usize, outputs: u32, got: Record)
    requires sends { (t < 16) × Sends job.now × (1 ≤ got.cylinder) × (outputs ≡ place_of job.now t job.now.channels) }
    requires room { Room (totals_at flat.old.live t) }
    ensures { flat.new ≡ taken_in job.now flat.old t got }
{
    flat.receive(t, got.value);
    send(job, flat, t, outputs, got);
}

// A delivery takes the head of its channel, a read leaves the channels as they are.
#[tactic(auto, using(crate::proofs::Asking::left_high, flat::proofs::Flats::same_run))]
fn take_for(flat: &mut Flat, n: u16)
    ensures { flat.new ≡ with_channels (set flat.old.channels (channel_by n) (left_on n (channel_at flat.old (channel_by n)))) flat.old }
{
    if n < 32 {
        flat.take(usize::from(n));
    }
}

// What step `n` takes is taken, and task `t` takes in the record that it brought.
pub fn forward(job: &Job, flat: &mut Flat, n: u16, t: usize, outputs: u32, got: Record)
    requires sends { (t < 16) × Sends job.now × (1 ≤ got.cylinder) × (outputs ≡ place_of job.now t job.now.channels) }
    requires room { Room (totals_at flat.old.live t) }
    ensures { flat.new ≡ taken_in job.now (with_channels (set flat.old.channels (channel_by n)
        (left_on n (channel_at flat.old (channel_by n)))) flat.old) t got }
{
    take_for(flat, n);
    take_in(job, flat, t, outputs, got);
}
