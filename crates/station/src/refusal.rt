// Why a call on a run is refused before anything is done: a line of the table of job answers, or a run that does not fit the job.
ghost use Rattle.std.specs.Prelude.{◌≡◌};
ghost use Rattle.station.specs.declared.refusal.Refusal.TheVariants.{Faulty};
ghost use Rattle.station.specs.Refusals.{number_of};

pub use channel::DOES_NOT_FIT;
use job::Fault;

#[derive(Clone, Copy, Debug, PartialEq, Eq)]
pub enum Refusal {
    Faulty(Fault),
    DoesNotFit,
}

impl From<Fault> for Refusal {
    ghost from_gives = { λ fault r. r ≡ Faulty fault };

    fn from(fault: Fault) -> Refusal {
        Refusal::Faulty(fault)
    }
}

// Document 01's number.
impl From<Refusal> for u8 {
    ghost from_gives = { λ refusal n. n ≡ number_of refusal };

    fn from(refusal: Refusal) -> u8 {
        match refusal {
            Refusal::Faulty(fault) => fault.into(),
            Refusal::DoesNotFit => DOES_NOT_FIT,
        }
    }
}
