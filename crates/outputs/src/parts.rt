// Parts of a step told by numbers, one cargo and one channel: what a task puts on an output; and the test of a task's marks, which the
// drain's test of a step asks too.
ghost use Rattle.std.specs.Prelude.{◌≡◌, true, ◌≤◌};
ghost use Rattle.kinds.specs.Kinds.{Scales, Sendable};
ghost use Rattle.run.specs.Fit.{cargo_fits};
ghost use Rattle.outputs.specs.Outputs.{put};
ghost use Rattle.outputs.specs.Parts.{all_marked_by, carried_by, put_by};

use channel::{Cargo, Channel, Item};
use job::Job;
use job::sends::names;
use tally::Record;

// Whether every channel that leads into the task is marked.
pub fn all_marked(job: &Job, marked: &[bool; 32], t: usize) -> bool
    requires { job.now.channels ≤ 32 }
    ensures { result ≡ all_marked_by job.now.to marked.now job.now.channels t }
{
    (0..job.channels).all(|c| !names(job.to[c], t) || marked[c])
}

// The channel with the cargo at its end, or as it came where it is full.
fn put(ch: Channel, cargo: Cargo) -> Channel
    ensures { result ≡ put ch cargo }
{
    ch.added(Item { cargo }).channel
}

// What a task of the kind puts on its output at `place` of `outputs` for a record that it received.
#[tactic(auto, unfolding(crate::specs::Parts::carried_by))]
pub fn carry(
    kind: u8,
    a: i32,
    b: i32,
    place: u32,
    outputs: u32,
    got: Record,
    ch: Channel,
) -> Channel
    requires { Sendable kind a got }
    ensures { result ≡ carried_by kind a b place outputs got ch }
{
    match kinds::sent(kind, a, b, place, outputs, got) {
        None => ch,
        Some(r) => put(ch, Cargo::Record(r)),
    }
}

// The same for a barrier, which goes on every output, or a record.
#[tactic(auto, using(crate::proofs::Cargos::cylinder_from_1))]
pub fn put_cargo(
    kind: u8,
    a: i32,
    b: i32,
    place: u32,
    outputs: u32,
    cargo: Cargo,
    ch: Channel,
) -> Channel
    requires { (kind ≡ 3 → Scales a) × (cargo_fits cargo ≡ true) }
    ensures { result ≡ put_by kind a b place outputs cargo ch }
{
    match cargo {
        Cargo::Barrier => put(ch, cargo),
        Cargo::Record(got) => carry(kind, a, b, place, outputs, got, ch),
    }
}
