// A run: what the channels hold, marks and waiting barriers, and the live, half-taken and last complete totals.
#![tactic(auto)]

ghost use Rattle.std.specs.Prelude.{◌≡◌};
ghost use Rattle.run.specs.Runs.{fresh_run};

pub mod fit;

use channel::Channel;
use tally::Totals;

#[derive(Clone, Copy)]
pub struct Run {
    pub channels: [Channel; 32],
    pub marked: [bool; 32],
    pub waiting: [u8; 16],
    pub live: [Totals; 16],
    pub half: [Totals; 16],
    pub stored: [u8; 16],
    // Beside `complete`, not in an Option: 16 is asked of these totals also where no snapshot is complete.
    pub last: [Totals; 16],
    pub under_way: u8,
    pub complete: bool,
}

impl Run {
    // All zero, nothing held, no snapshot. It needs no job.
    pub fn fresh() -> Run
        ensures { result ≡ fresh_run }
    {
        Run {
            channels: [Channel::empty(); 32],
            marked: [false; 32],
            waiting: [0; 16],
            live: [Totals::none(); 16],
            half: [Totals::none(); 16],
            stored: [0; 16],
            last: [Totals::none(); 16],
            under_way: 0,
            complete: false,
        }
    }
}
