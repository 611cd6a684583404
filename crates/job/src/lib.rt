// The check of a job that comes as seven lent columns: answers 1 to 9 in document 01's order, and the job by value.
#![tactic(auto)]

ghost use Rattle.std.specs.Prelude.{◌≡◌};
ghost use Rattle.job.specs.Columns.{columns_of};
ghost use Rattle.job.specs.Jobs.{job_of, Small, JobSized};
ghost use Rattle.job.specs.Rules.{column_faults, graph_faults, first_fault, checked_of};
ghost use Rattle.job.specs.Faults.{found};

mod columns;
mod fault;
mod graph;
mod lent;
pub mod sends;
mod value;

pub use fault::Fault;
pub use lent::{Lent, Records};

// A job by value: arrays with their lengths beside, since there is no heap. Places past the tasks and the channels hold 0.
#[derive(Clone, Copy)]
pub struct Job {
    pub kinds: [u8; 16],
    pub a: [i32; 16],
    pub b: [i32; 16],
    pub tasks: usize,
    pub from: [u8; 32],
    pub to: [u8; 32],
    pub channels: usize,
}

#[tactic(auto, using(crate::proofs::Fine::fine1, crate::proofs::Fine::fine2, crate::proofs::Fine::fine4), unfolding(crate::specs::Rules::first_fault))]
fn check_columns(lent: &Lent) -> Result<(), Fault>
    ensures { result ≡ found (first_fault (column_faults (columns_of lent.now)) 1) }
{
    if columns::has_fault_1(lent) {
        return Err(Fault::Tasks);
    }
    if columns::has_fault_2(lent) {
        return Err(Fault::Channels);
    }
    if columns::has_fault_3(lent) {
        return Err(Fault::Kinds);
    }
    if columns::has_fault_4(&lent.records) {
        return Err(Fault::Records);
    }
    if columns::has_fault_5(lent) {
        return Err(Fault::Parts);
    }
    if columns::has_fault_6(lent) {
        return Err(Fault::Ends);
    }
    Ok(())
}

#[tactic(auto, unfolding(crate::specs::Rules::first_fault))]
fn check_graph(job: &Job) -> Result<(), Fault>
    requires { JobSized job.now }
    ensures { result ≡ found (first_fault (graph_faults job.now) 7) }
{
    if graph::has_fault_7(job) {
        return Err(Fault::Inputs);
    }
    if graph::has_fault_8(job) {
        return Err(Fault::Returns);
    }
    if graph::has_fault_9(job) {
        return Err(Fault::WorstCount);
    }
    Ok(())
}

// The job by value; every number fits its place once lines 1 to 6 were found in order.
#[tactic(auto, unfolding(crate::specs::Jobs::job_of))]
fn job_of(lent: &Lent) -> Job
    requires { Small (columns_of lent.now) }
    ensures { result ≡ job_of (columns_of lent.now) }
{
    Job {
        kinds: value::bytes(lent.kinds),
        a: value::numbers(lent.a),
        b: value::numbers(lent.b),
        tasks: lent.kinds.len(),
        from: value::bytes(lent.from),
        to: value::bytes(lent.to),
        channels: lent.from.len(),
    }
}

// The job by value, or the first line of the table that holds.
#[tactic(auto, using(crate::proofs::Fine::fine, crate::proofs::Fine::small, crate::proofs::Fine::sized, crate::proofs::Checks::column_refused, crate::proofs::Checks::graph_refused, crate::proofs::Checks::accepted, crate::proofs::Checks::none_found))]
pub fn check(lent: &Lent) -> Result<Job, Fault>
    ensures { result ≡ checked_of (columns_of lent.now) }
{
    check_columns(lent)?;
    let job = job_of(lent);
    check_graph(&job)?;
    Ok(job)
}
