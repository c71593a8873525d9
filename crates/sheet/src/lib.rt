// Job sheets: the sequencing graph that a customer asks for, read from its bytes.
//
// `Job` is a graph that was read and found well-formed. `Job::read` makes one from any byte string or refuses it,
// and the questions `limit`, `inputs`, `operations` and `outputs` look at it.
#![tactic(auto)]

ghost use Rattle.std.specs.Prelude.{vec_items};
ghost use Rattle.graphs.specs.Graphs.{WellFormed};

pub use graphs::{Operand, Operation, Source};

mod commands;
mod questions;
mod reader;
mod values;

// A well-formed sequencing graph: the limit in steps, the widths of the inputs, the operations in their order,
// and for each output the number of its operation.
#[derive(Drop)]
pub struct Job {
    limit: u8,
    inputs: Vec<u8>,
    operations: Vec<Operation>,
    outputs: Vec<u8>,
    ghost formed: { WellFormed (record { limit = limit; inputs = vec_items inputs; operations = vec_items operations; outputs = vec_items outputs }) },
}
