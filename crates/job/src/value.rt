// The arrays of a job by value, filled from its columns.
ghost use Rattle.std.specs.Prelude.{◌≡◌, ◌≤◌, nat_abs, pos, length, true};
ghost use Rattle.kinds.specs.Kinds.{within};
ghost use Rattle.job.specs.Jobs.{bytes_in, numbers_in};
ghost use Rattle.job.specs.Columns.{Bytes};

// A number of 0 to 255 as a byte.
#[tactic(auto, using(crate::proofs::Ints::within_non_neg, crate::proofs::Ints::within_nat_abs))]
pub fn byte_of(x: i32) -> u8
    requires { within (pos 0) x (pos 255) ≡ true }
    ensures { result ≡ nat_abs x }
{
    x as u8
}

#[tactic(auto, using(crate::proofs::Tests::filled_more), unfolding(crate::specs::Tests::filled))]
pub fn bytes<const N: usize>(column: &[i32]) -> [u8; N]
    requires { (length column.now ≤ N) × Bytes column.now }
    ensures { result ≡ bytes_in N column.now }
{
    let mut held = [0u8; N];
    for i in 0..column.len() {
        held[i] = byte_of(column[i]);
    }
    held
}

#[tactic(auto, using(crate::proofs::Tests::filled_whole))]
pub fn numbers<const N: usize>(column: &[i32]) -> [i32; N]
    requires { length column.now ≤ N }
    ensures { result ≡ numbers_in N column.now }
{
    let mut held = [0i32; N];
    held[..column.len()].copy_from_slice(column);
    held
}
