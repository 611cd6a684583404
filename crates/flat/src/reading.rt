// Channels read back from their columns. What `back` is given is written over, place by place.
ghost use Rattle.std.specs.Prelude.{◌≡◌, ◌<◌};
ghost use Rattle.flat.specs.Columns.{channel_in, channels_in};

use crate::item_at;
use channel::{Channel, Item};

// Channel `c`, its items counted from its head.
#[tactic(auto, using(crate::proofs::LaidOut::each_more), unfolding(outputs::specs::Outputs::each_place))]
fn channel_at(
    codes: &[u16; 256],
    held: &[i32; 256],
    heads: &[usize; 32],
    counts: &[usize; 32],
    c: usize,
) -> Channel
    requires { c < 32 }
    ensures { result ≡ channel_in codes.now held.now heads.now counts.now c }
{
    let mut items = [Item::barrier(); 8];
    for k in 0..8 {
        items[k] = item_at(codes, held, heads, c, k);
    }
    Channel {
        items,
        count: counts[c],
    }
}

// All channels.
#[tactic(auto, using(channel::proofs::Lists::counted, crate::proofs::LaidOut::each_more, crate::proofs::LaidOut::each_table), unfolding(outputs::specs::Outputs::each_place, crate::specs::Columns::channels_in))]
pub fn back(
    codes: &[u16; 256],
    held: &[i32; 256],
    heads: &[usize; 32],
    counts: &[usize; 32],
    mut channels: [Channel; 32],
) -> [Channel; 32]
    ensures { result ≡ channels_in codes.now held.now heads.now counts.now }
{
    for c in 0..32 {
        channels[c] = channel_at(codes, held, heads, counts, c);
    }
    channels
}
