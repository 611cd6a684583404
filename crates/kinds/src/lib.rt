// What a task of each kind sends for one record on one of its outputs (document 01, the table of kinds).
#![tactic(auto)]

ghost use Rattle.std.specs.Prelude.{◌≡◌, ◌≤◌};
ghost use Rattle.kinds.specs.Kinds.{scaled, within, is_place, sent_on, Scales, Sendable};

use tally::Record;

// Numbers, not an enum: `sent` and the job of any columns answer for any number, so an enum would ask more.
pub const SOURCE: u8 = 0;

pub const PASS: u8 = 1;

pub const RANGE: u8 = 2;

pub const SCALE: u8 = 3;

pub const CYLINDER: u8 = 4;

pub const SPREAD: u8 = 5;

// Whether a <= value <= b.
pub fn is_within(a: i32, value: i32, b: i32) -> bool
    ensures { result ≡ within a value b }
{
    a <= value && value <= b
}

// The one place that rounds: toward zero, as signed division does.
fn scale(value: i32, a: i32) -> i32
    requires { Scales a }
    ensures { result ≡ scaled value a }
{
    value / (1i32 << a)
}

// Whether the output at `place` of `outputs` is the one that a Spread task sends a record of the cylinder to.
fn is_place(cylinder: u8, place: u32, outputs: u32) -> bool
    requires { 1 ≤ cylinder }
    ensures { result ≡ is_place cylinder place outputs }
{
    outputs != 0 && (u32::from(cylinder) - 1) % outputs == place
}

// What the task sends for `got` on its output at `place` of `outputs`.
#[tactic(auto, unfolding(crate::specs::Kinds::sent_on))]
pub fn sent(kind: u8, a: i32, b: i32, place: u32, outputs: u32, got: Record) -> Option<Record>
    requires { Sendable kind a got }
    ensures { result ≡ sent_on kind a b place outputs got }
{
    match kind {
        RANGE => is_within(a, got.value, b).then_some(got),
        SCALE => Some(Record {
            value: scale(got.value, a),
            ..got
        }),
        CYLINDER => is_within(a, i32::from(got.cylinder), b).then_some(got),
        SPREAD => is_place(got.cylinder, place, outputs).then_some(got),
        _ => Some(got),
    }
}
