// A run laid out in columns: every channel with its head at place 0, and how many records each task has received.
ghost use Rattle.std.specs.Prelude.{◌≡◌, ℕ, ◌*◌, ◌<◌, get_or, length};
ghost use Rattle.channel.specs.Channels.{barrier};
ghost use Rattle.flat.specs.Columns.{item_of, Laid, ReadAs, Tells};
ghost use Rattle.flat.specs.Lays.{code_of, value_of, cargo_at, fill_to};

use crate::store;
use channel::Channel;
use tally::Totals;

// The items of channel `c`.
#[tactic(auto, using(channel::proofs::Lists::counted, crate::proofs::LaidOut::fill_more), unfolding(crate::specs::Lays::fill_to))]
fn lay_items(codes: &mut [u16; 256], held: &mut [i32; 256], c: usize, ch: Channel)
    requires { c < 32 }
    ensures laid { (codes.new ≡ fill_to codes.old (c * 8) (λ k. code_of (cargo_at ch k)) 8) × (held.new
        ≡ fill_to held.old (c * 8) (λ k. value_of (cargo_at ch k)) 8) }
    ensures items { ((k : ℕ) → k < 8 → item_of (code_of (cargo_at ch k)) (value_of (cargo_at ch k)) ≡ get_or ch.items k barrier) ×
        (length ch.items ≡ 8) }
{
    let items = ch.items;
    for k in 0..8 {
        let item = items[k];
        let cargo = item.cargo;
        store(codes, held, c * 8 + k, cargo);
    }
}

// All channels.
#[tactic(auto, using(channel::proofs::Lists::counted, crate::proofs::Tables::length_table, crate::proofs::LaidOut::each_more, crate::proofs::LaidOut::each_list, crate::proofs::LaidOut::laid_channel), unfolding(outputs::specs::Outputs::each_place, crate::specs::Columns::channels_in))]
pub fn lay(
    codes: &mut [u16; 256],
    held: &mut [i32; 256],
    heads: &mut [usize; 32],
    counts: &mut [usize; 32],
    channels: [Channel; 32],
)
    ensures { Laid codes.old held.old heads.old counts.old → ReadAs channels codes.new held.new heads.new counts.new }
{
    for c in 0..32 {
        let ch = channels[c];
        lay_items(codes, held, c, ch);
        heads[c] = 0;
        counts[c] = ch.count;
    }
}

// How many records each task has received.
#[tactic(auto, using(channel::proofs::Lists::counted, crate::proofs::Tables::one_more))]
pub fn lay_received(received: &mut [u32; 16], live: [Totals; 16])
    ensures { length received.old ≡ 16 → Tells live received.new }
{
    for t in 0..16 {
        received[t] = live[t].count;
    }
}
