// Reads a station's text from standard input and prints each step with its answer, and what stands after the steps and after the drain.
#![tactic(auto)]

use std::io;
use std::io::Print;

// One byte more than a text may have is read, so that a longer one is seen, and no more.
// The library says nothing of what the host's own input holds and its output takes, so `main` reads and writes.
fn main(rt: HostRuntime) -> io::Result<()> {
    let mut text = [0u8; 65537];
    let n = table::read_full(&mut rt.stdin(), &mut text)?;
    let mut out = table::buffer();
    let length = table::print(&text[..n], true, &mut out);
    rt.stdout().write_all(&out[..length])
}
