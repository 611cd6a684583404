// What a host lends: a job's five columns, and the two of its records.
ghost use Rattle.std.specs.Prelude.{◌≡◌, ◌<◌, length};
ghost use Rattle.job.specs.Columns.{record_at, RecordsFit};

use crate::value::byte_of;
use tally::Record;

// The lent records, column by column.
#[derive(Clone, Copy)]
pub struct Records<'a> {
    pub cylinders: &'a [i32],
    pub values: &'a [i32],
}

// A job as it comes: tasks' kinds and parameters, channels' ends, and the records.
#[derive(Clone, Copy)]
pub struct Lent<'a> {
    pub kinds: &'a [i32],
    pub a: &'a [i32],
    pub b: &'a [i32],
    pub from: &'a [i32],
    pub to: &'a [i32],
    pub records: Records<'a>,
}

impl<'a> Records<'a> {
    // The record at `i`.
    #[tactic(auto, using(crate::proofs::Ints::within_wider))]
    pub fn at(&self, i: usize) -> Record
        requires { (i < length self.now.cylinders.now) × RecordsFit self.now.cylinders.now self.now.values.now }
        ensures { result ≡ record_at self.now.cylinders.now self.now.values.now i }
    {
        Record {
            cylinder: byte_of(self.cylinders[i]),
            value: self.values[i],
        }
    }
}
