// What a task of the job sends on one of its outputs.
ghost use Rattle.std.specs.Prelude.{◌≡◌, ◌<◌, ◌≤◌, eqb};
ghost use Rattle.job.specs.Jobs.{place_of};
ghost use Rattle.job.specs.Graph.{sent_by, sent_over};
ghost use Rattle.job.specs.Fits.{Sends};

use crate::Job;
use tally::Record;

// Whether a channel's end, as it stands in its column, names the task.
pub fn names(end: u8, t: usize) -> bool
    ensures { result ≡ eqb end t }
{
    usize::from(end) == t
}

// How many of the channels below `n` are outputs of the task: the place of channel `n` among them.
#[tactic(auto, using(crate::proofs::Ints::byte_le), unfolding(crate::specs::Jobs::place_of))]
pub fn place_of(job: &Job, t: usize, n: usize) -> u32
    requires { n ≤ 32 }
    ensures { result ≡ place_of job.now t n }
{
    let mut place: u32 = 0;
    for i in 0..n {
        place += u32::from(names(job.from[i], t));
    }
    place
}

// What the task sends for a record that it received, on its output at `place` of `outputs`.
pub fn sent_by(job: &Job, t: usize, place: u32, outputs: u32, got: Record) -> Option<Record>
    requires { (t < 16) × Sends job.now × (1 ≤ got.cylinder) }
    ensures { result ≡ sent_by job.now t place outputs got }
{
    kinds::sent(job.kinds[t], job.a[t], job.b[t], place, outputs, got)
}

// What goes over channel `c` for a record that its from-task takes in.
#[tactic(auto, unfolding(crate::specs::Graph::sent_over))]
pub fn sent_over(job: &Job, c: usize, got: Record) -> Option<Record>
    requires { (c < job.now.channels) × Sends job.now × (1 ≤ got.cylinder) }
    ensures { result ≡ sent_over job.now c got }
{
    let t = usize::from(job.from[c]);
    let place = place_of(job, t, c);
    let outputs = place_of(job, t, job.channels);
    sent_by(job, t, place, outputs, got)
}
