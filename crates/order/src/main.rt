// Reads an order from standard input and prints the lines that answer it.
#![tactic(auto)]

use orders::{MOST_BYTES, lines};
use std::io;
use std::io::{ErrorKind, Read};

fn main(rt: HostRuntime) -> anyhow::Result<()> {
    // A buffer of its own size: reading wants no memory.
    let mut bytes = [0; MOST_BYTES];
    let count = read_input(&mut rt.stdin(), &mut bytes)?;
    let text = lines(rt.alloc(), bytes.get(..count).unwrap_or(&bytes))?;
    print!(rt; "{text}")?;
    Ok(())
}

// Fills the buffer as far as the input goes, and answers how far. Each read asks for all that is left, so that none of a
// packet is lost; one that a signal interrupts is made again.
fn read_input(input: &mut impl Read, bytes: &mut [u8]) -> io::Result<usize> {
    let mut count = 0;
    for _ in 0..u64::MAX {
        let rest = &mut bytes[count..];
        if rest.is_empty() {
            break;
        }
        match input.read(rest) {
            Ok(0) => break,
            Ok(more) => count += more,
            Err(error) if error.kind() == ErrorKind::Interrupted => {}
            Err(error) => return Err(error),
        }
    }
    Ok(count)
}
