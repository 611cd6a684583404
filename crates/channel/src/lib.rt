// A channel: a bounded first-in first-out queue of items (document 01, "The job" and "The step rules").
#![tactic(auto)]

ghost use Rattle.std.specs.Prelude.{◌≡◌};
ghost use Rattle.channel.specs.Channels.{barrier, empty_channel, with_item, without_head};

use tally::Record;

pub const ADDED: u8 = 0;

pub const TAKEN: u8 = 0;

pub const NOTHING_THERE: u8 = 13;

pub const FULL: u8 = 14;

pub const DOES_NOT_FIT: u8 = 16;

// Not an Option: document 01 names this form, "enum whose record case carries a record struct".
#[derive(Clone, Copy)]
pub enum Cargo {
    Barrier,
    Record(Record),
}

#[derive(Clone, Copy)]
pub struct Item {
    pub cargo: Cargo,
}

// The first `count` places are held, the head at place 0. No heap; and a channel from elsewhere may claim more than it holds (16).
#[derive(Clone, Copy)]
pub struct Channel {
    pub items: [Item; 8],
    pub count: usize,
}

// The answer stands beside the channel: document 01, "each with the channel as it came".
#[derive(Clone, Copy)]
pub struct Added {
    pub channel: Channel,
    pub answer: u8,
}

// The same, "and, for taking, a barrier".
#[derive(Clone, Copy)]
pub struct Taken {
    pub channel: Channel,
    pub item: Item,
    pub answer: u8,
}

impl Item {
    pub fn barrier() -> Item
        ensures { result ≡ barrier }
    {
        Item {
            cargo: Cargo::Barrier,
        }
    }
}

impl Channel {
    // Nothing is held.
    pub fn empty() -> Channel
        ensures { result ≡ empty_channel }
    {
        Channel {
            items: [Item::barrier(); 8],
            count: 0,
        }
    }

    // The channel with an item more at its end; 16 and 14 hand it back as it came.
    #[tactic(auto, unfolding(crate::specs::Channels::with_item))]
    pub fn added(mut self, item: Item) -> Added
        ensures { result ≡ with_item self item }
    {
        let n = self.count;
        if 8 < n {
            return Added {
                channel: self,
                answer: DOES_NOT_FIT,
            };
        }
        if n == 8 {
            return Added {
                channel: self,
                answer: FULL,
            };
        }
        self.items[n] = item;
        self.count = n + 1;
        Added {
            channel: self,
            answer: ADDED,
        }
    }

    // The channel without its head, and the head beside it; 16 and 13 hand it back as it came, with a barrier.
    #[tactic(auto, using(crate::proofs::Lists::moved), unfolding(crate::specs::Channels::without_head))]
    pub fn taken(self) -> Taken
        ensures { result ≡ without_head self }
    {
        let none = Item::barrier();
        let n = self.count;
        if 8 < n {
            return Taken {
                channel: self,
                item: none,
                answer: DOES_NOT_FIT,
            };
        }
        if n == 0 {
            return Taken {
                channel: self,
                item: none,
                answer: NOTHING_THERE,
            };
        }
        let q = self.items;
        let items = [q[1], q[2], q[3], q[4], q[5], q[6], q[7], none];
        Taken {
            channel: Channel {
                items,
                count: n - 1,
            },
            item: q[0],
            answer: TAKEN,
        }
    }
}
