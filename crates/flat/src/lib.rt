// A run laid flat: its channels as columns of numbers, which are lent and never copied, with how many records each task has received. A
// loop works on them in small functions, and a host in C can lend the same columns. Here stand the operations on one channel and on one
// task; `laying` lays a run out, `reading` reads its channels back. `Flat` holds such columns beside their run, and clauses see the run.
#![tactic(auto)]

ghost use Rattle.std.specs.Prelude.{◌≡◌, List, ◌<◌, ℤ, ltb, get_or, set};
ghost use Rattle.tally.specs.Totals.{Room, with_value};
ghost use Rattle.channel.specs.Channels.{with_item, without_head};
ghost use Rattle.run.specs.declared.Run.{Run};
ghost use Rattle.run.specs.Runs.{with_channels, with_live};
ghost use Rattle.run.specs.Fit.{channel_at, totals_at, flag_at, count_at};
ghost use Rattle.flat.specs.Columns.{head_of, is_barrier, item_of, item_in, barrier_in, head_in, channel_in, channels_in};
ghost use Rattle.flat.specs.Columns.{Laid, ReadAs, Sound};
ghost use Rattle.flat.specs.Lays.{code_of, value_of};

pub mod laying;
pub mod reading;

use channel::{Cargo, Item};
use laying::{lay, lay_received};
use reading::back;
use run::Run;
use std::marker::Model;
use tally::{Record, Totals};

// Whether a barrier stands at the head of channel `c`.
#[tactic(auto, using(crate::proofs::Rings::barrier_there), unfolding(crate::specs::Columns::barrier_in))]
pub fn is_barrier(codes: &[u16; 256], heads: &[usize; 32], c: usize) -> bool
    requires { c < 32 }
    ensures { result ≡ barrier_in codes.now heads.now c }
{
    codes[c * 8 + heads[c] % 8] == 0
}

// The cargo at the head of channel `c`.
#[tactic(auto, unfolding(crate::specs::Columns::head_in))]
pub fn head(codes: &[u16; 256], held: &[i32; 256], heads: &[usize; 32], c: usize) -> Cargo
    requires { c < 32 }
    ensures { result ≡ head_in codes.now held.now heads.now c }
{
    item_at(codes, held, heads, c, 0).cargo
}

// The item at place `k` of channel `c`, counted from its head.
#[tactic(auto, using(crate::proofs::LaidOut::boxed), unfolding(crate::specs::Columns::item_in))]
fn item_at(codes: &[u16; 256], held: &[i32; 256], heads: &[usize; 32], c: usize, k: usize) -> Item
    requires { (c < 32) × (k < 8) }
    ensures { result ≡ item_in codes.now held.now c (get_or heads.now c 0) k }
{
    let p = c * 8 + (heads[c] % 8 + k) % 8;
    item_of(codes[p], held[p])
}

// An item by its code and its value.
fn item_of(code: u16, value: i32) -> Item
    ensures { result ≡ item_of code value }
{
    if code == 0 {
        return Item::barrier();
    }
    Item {
        cargo: Cargo::Record(Record {
            cylinder: ((code - 1) % 256) as u8,
            value,
        }),
    }
}

// A cargo is stored at place `p` of the columns, and reads as itself.
#[tactic(auto, using(crate::proofs::Rings::again, crate::proofs::LaidOut::boxed))]
fn store(codes: &mut [u16; 256], held: &mut [i32; 256], p: usize, cargo: Cargo)
    requires { p < 256 }
    ensures stored { (codes.new ≡ set codes.old p (code_of cargo)) × (held.new ≡ set held.old p (value_of cargo)) }
    ensures item { item_of (code_of cargo) (value_of cargo) ≡ record { cargo = cargo } }
{
    match cargo {
        Cargo::Barrier => {
            codes[p] = 0;
            held[p] = 0;
        }
        Cargo::Record(r) => {
            let value = r.value;
            codes[p] = u16::from(r.cylinder) + 1;
            held[p] = value;
        }
    }
}

// The head of channel `c` is taken off: a barrier stands in its place, behind the last item. A channel that is empty or claims more than 8
// items stays as it is.
#[tactic(auto, using(crate::proofs::Rings::takes, crate::proofs::Rings::takes_none_of_many, crate::proofs::Rings::takes_none))]
pub fn take(codes: &mut [u16; 256], heads: &mut [usize; 32], counts: &mut [usize; 32], c: usize)
    requires { c < 32 }
    ensures { (held : List ℤ) → Laid codes.old held heads.old counts.old → ReadAs (set
        (channels_in codes.old held heads.old counts.old) c (without_head (channel_in codes.old held heads.old counts.old c)).channel) codes.new held heads.new counts.new }
{
    let n = counts[c];
    if 8 < n {
        return;
    }
    if n == 0 {
        return;
    }
    let h = heads[c] % 8;
    codes[c * 8 + h] = 0;
    heads[c] = (h + 1) % 8;
    counts[c] = n - 1;
}

// A record is put at the end of channel `c`; a channel of 8 items or more stays as it is.
#[tactic(auto, using(crate::proofs::Rings::puts, crate::proofs::Rings::puts_none))]
pub fn put(
    codes: &mut [u16; 256],
    held: &mut [i32; 256],
    heads: &[usize; 32],
    counts: &mut [usize; 32],
    c: usize,
    got: Record,
)
    requires { c < 32 }
    ensures { Laid codes.old held.old heads.now counts.old → ReadAs (set
        (channels_in codes.old held.old heads.now counts.old) c (with_item (channel_in codes.old held.old heads.now counts.old c) (record { cargo = Cargo.Record got })
        ).channel) codes.new held.new heads.now counts.new }
{
    let n = counts[c];
    if 8 <= n {
        return;
    }
    let p = c * 8 + (heads[c] % 8 + n) % 8;
    store(codes, held, p, Cargo::Record(got));
    counts[c] = n + 1;
}

// A value is counted: the totals with it, of task `t`, and its number of records received.
pub fn count(received: &mut [u32; 16], t: usize, x: Totals, value: i32) -> Totals
    requires { (t < 16) × Room x }
    ensures counted { result ≡ with_value x value }
    ensures told { received.new ≡ set received.old t (with_value x value).count }
{
    let y = x.with(value);
    received[t] = y.count;
    y
}

// The columns stand in the place of the run's channels, and `received` beside its live totals: each count once more, for the search.
// Columns of numbers, not items: the search reads one number of a channel.
#[derive(Drop)]
pub struct Flat {
    codes: [u16; 256],
    held: [i32; 256],
    heads: [usize; 32],
    counts: [usize; 32],
    received: [u32; 16],
    run: Run,
}

// Clauses see the run.
impl Model for Flat {
    ghost Value = { Run };

    ghost view = { λ f. with_channels (channels_in f.codes f.held f.heads f.counts) f.run };

    ghost invariant = { λ f. Sound f.codes f.held f.heads f.counts f.received f.run.live };
}

impl Flat {
    // The run laid out.
    pub fn of(run: Run) -> Flat
        ensures { result ≡ run }
    {
        let mut received = [0; 16];
        lay_received(&mut received, run.live);
        let mut flat = Flat {
            codes: [0; 256],
            held: [0; 256],
            heads: [0; 32],
            counts: [0; 32],
            received,
            run,
        };
        lay(
            &mut flat.codes,
            &mut flat.held,
            &mut flat.heads,
            &mut flat.counts,
            run.channels,
        );
        flat
    }

    // The run that it stands for.
    pub fn run(&self) -> Run
        ensures { result ≡ self.now }
    {
        let channels = back(
            &self.codes,
            &self.held,
            &self.heads,
            &self.counts,
            self.run.channels,
        );
        Run {
            channels,
            ..self.run
        }
    }

    // How many items channel `c` holds.
    #[tactic(auto, using(crate::proofs::Flats::count_seen))]
    pub fn count(&self, c: usize) -> usize
        requires { c < 32 }
        ensures { result ≡ (channel_at self.now c).count }
    {
        self.counts[c]
    }

    // Whether a barrier stands at the head of channel `c`.
    pub fn is_barrier(&self, c: usize) -> bool
        requires { c < 32 }
        ensures { result ≡ is_barrier (head_of (channel_at self.now c)) }
    {
        is_barrier(&self.codes, &self.heads, c)
    }

    // The cargo at the head of channel `c`.
    pub fn head(&self, c: usize) -> Cargo
        requires { c < 32 }
        ensures { result ≡ head_of (channel_at self.now c) }
    {
        head(&self.codes, &self.held, &self.heads, c)
    }

    // The marks of the channels.
    pub fn marked(&self) -> &[bool; 32]
        ensures { result.now ≡ self.now.marked }
    {
        &self.run.marked
    }

    // Whether channel `c` is marked.
    pub fn is_marked(&self, c: usize) -> bool
        requires { c < 32 }
        ensures { result ≡ flag_at self.now.marked c }
    {
        self.run.marked[c]
    }

    // Whether a barrier waits at task `t`.
    pub fn waits(&self, t: usize) -> bool
        requires { t < 16 }
        ensures { result ≡ ltb 0 (count_at self.now.waiting t) }
    {
        0 < self.run.waiting[t]
    }

    // How many records task `t` has received.
    pub fn received(&self, t: usize) -> u32
        requires { t < 16 }
        ensures { result ≡ (totals_at self.now.live t).count }
    {
        self.received[t]
    }

    // The head of channel `c` is taken off, as by `take`.
    pub fn take(&mut self, c: usize)
        requires { c < 32 }
        ensures { self.new ≡ with_channels (set self.old.channels c (without_head (channel_at self.old c)).channel) self.old }
    {
        take(&mut self.codes, &mut self.heads, &mut self.counts, c);
    }

    // A record is put at the end of channel `c`, as by `put`.
    pub fn put(&mut self, c: usize, got: Record)
        requires { c < 32 }
        ensures { self.new ≡ with_channels (set self.old.channels c
            (with_item (channel_at self.old c) (record { cargo = Cargo.Record got })).channel) self.old }
    {
        put(
            &mut self.codes,
            &mut self.held,
            &self.heads,
            &mut self.counts,
            c,
            got,
        );
    }

    // Task `t` receives a value: its live totals with it.
    pub fn receive(&mut self, t: usize, value: i32)
        requires { (t < 16) × Room (totals_at self.old.live t) }
        ensures { self.new ≡ with_live (set self.old.live t (with_value (totals_at self.old.live t) value)) self.old }
    {
        let totals = count(&mut self.received, t, self.run.live[t], value);
        self.run.live[t] = totals;
    }
}
