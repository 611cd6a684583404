// Rows written into a lent buffer: each function writes at `at` and answers the place after what it wrote.
#![tactic(auto)]

ghost use Rattle.std.specs.Prelude.{◌≡◌, ◌++◌, ◌∷◌, ◌≤◌, ◌+◌, length};
ghost use Rattle.rows.specs.Buffers.{Puts};
ghost use Rattle.rows.specs.Decimals.{decimal};
ghost use Rattle.rows.specs.Rows.{fields_of, crlf, row_of, numbers_of, refusal_of};

use itoa::Buffer;

pub fn put_bytes(out: &mut [u8], at: usize, bytes: &[u8]) -> usize
    requires { at + length bytes.now ≤ length out.old }
    ensures { Puts out.old at bytes.now out.new result }
{
    let end = at + bytes.len();
    out[at..end].copy_from_slice(bytes);
    end
}

// The number's shortest decimal, printed into the buffer.
fn decimal_in(buffer: &mut Buffer, z: i64) -> &[u8]
    ensures { result.now ≡ decimal z }
{
    buffer.format(z).as_bytes()
}

// The number's shortest decimal.
pub fn put_number(out: &mut [u8], at: usize, z: i64) -> usize
    requires { at + length (decimal z) ≤ length out.old }
    ensures { Puts out.old at (decimal z) out.new result }
{
    put_bytes(out, at, decimal_in(&mut Buffer::new(), z))
}

#[tactic(auto, using(crate::proofs::Putting::put_cons))]
fn put_field(out: &mut [u8], at: usize, z: i64) -> usize
    requires { at + length (44 ∷ decimal z) ≤ length out.old }
    ensures { Puts out.old at (44 ∷ decimal z) out.new result }
{
    out[at] = b',';
    put_number(out, at + 1, z)
}

fn put_fields(out: &mut [u8], at: usize, zs: &[i64]) -> usize
    requires { at + length (fields_of zs.now) ≤ length out.old }
    ensures { Puts out.old at (fields_of zs.now) out.new result }
{
    let mut next = at;
    for z in zs {
        next = put_field(out, next, *z);
    }
    next
}

// The fields of a row, and its end.
fn put_rest(out: &mut [u8], at: usize, zs: &[i64]) -> usize
    requires { at + length (fields_of zs.now ++ crlf) ≤ length out.old }
    ensures { Puts out.old at (fields_of zs.now ++ crlf) out.new result }
{
    let end = put_fields(out, at, zs);
    put_bytes(out, end, b"\r\n")
}

// A row that begins with a word, or one that is a word alone, as a table's header.
pub fn put_row(out: &mut [u8], at: usize, word: &[u8], zs: &[i64]) -> usize
    requires { at + length (row_of word.now zs.now) ≤ length out.old }
    ensures { Puts out.old at (row_of word.now zs.now) out.new result }
{
    let next = put_bytes(out, at, word);
    put_rest(out, next, zs)
}

// A row that begins with a number; what it has in common with the one above is `put_rest`.
pub fn put_numbers(out: &mut [u8], at: usize, z: i64, zs: &[i64]) -> usize
    requires { at + length (numbers_of z zs.now) ≤ length out.old }
    ensures { Puts out.old at (numbers_of z zs.now) out.new result }
{
    let next = put_number(out, at, z);
    put_rest(out, next, zs)
}

// `refused` and the number, on two lines.
pub fn put_refusal(out: &mut [u8], at: usize, answer: i64) -> usize
    requires { at + length (refusal_of answer) ≤ length out.old }
    ensures { Puts out.old at (refusal_of answer) out.new result }
{
    let next = put_row(out, at, b"refused", &[]);
    put_numbers(out, next, answer, &[])
}
