// Orders: a job sheet and calls to a board, as bytes, and the lines that answer them.
//
// `lines` makes the whole answer. A refused sheet, a byte of no request and a request that is cut short end it after their
// own line; a call that the board refuses is told and the next one is made.
#![tactic(auto)]

ghost use Rattle.std.specs.Prelude.{◌≡◌, take, string_bytes, MatchResult};
ghost use Rattle.faults.specs.declared.Fault.TheVariants.{OutOfMemory};
ghost use Rattle.orders.specs.Orders.{order_text, most_bytes};

mod answers;
mod replies;
mod requests;

use answers::answer_order;
use faults::Fault;
use std::alloc::Global;

// The bytes of an order that count.
pub const MOST_BYTES: usize = 2048;

#[tactic(auto, using(std::proofs::lemmas::List::take_min))]
fn first_bytes(bytes: &[u8]) -> &[u8]
    ensures { result.now ≡ take most_bytes bytes.now }
{
    &bytes[..MOST_BYTES.min(bytes.len())]
}

// The lines that answer an order; the only refusal is want of memory.
pub fn lines(alloc: Global, bytes: &[u8]) -> Result<String, Fault>
    ensures { MatchResult result (λ text. string_bytes text ≡ order_text (take most_bytes bytes.now)) (λ f. f ≡ OutOfMemory) }
{
    let mut out = String::new(alloc);
    match answer_order(alloc, first_bytes(bytes), &mut out) {
        Ok(()) => Ok(out),
        Err(Fault::OutOfMemory) => Err(Fault::OutOfMemory),
        Err(fault) => {
            out.writeln(fault)?;
            Ok(out)
        }
    }
}
