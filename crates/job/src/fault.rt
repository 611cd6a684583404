// Why a job is refused: document 01's table of job answers, a case for each of its lines.
ghost use Rattle.std.specs.Prelude.{◌≡◌};
ghost use Rattle.job.specs.Faults.{line_of};

#[derive(Clone, Copy, Debug, PartialEq, Eq)]
pub enum Fault {
    Tasks,
    Channels,
    Kinds,
    Records,
    Parts,
    Ends,
    Inputs,
    Returns,
    WorstCount,
}

// The number of the line.
impl From<Fault> for u8 {
    ghost from_gives = { λ fault r. r ≡ line_of fault };

    fn from(fault: Fault) -> u8 {
        match fault {
            Fault::Tasks => 1,
            Fault::Channels => 2,
            Fault::Kinds => 3,
            Fault::Records => 4,
            Fault::Parts => 5,
            Fault::Ends => 6,
            Fault::Inputs => 7,
            Fault::Returns => 8,
            Fault::WorstCount => 9,
        }
    }
}
