// Sequencing graphs and the sheets that describe them: the definitions that the product's promises rest on.
//
// This file says what an operation and a command of a sheet are. `coded.rt` reads the commands of any format from their bytes, one after
// the other; `commands.rt` is the format of a sheet: the bytes of its commands, and what a source byte means.
// `specs/` says when a graph is well-formed, how its sheet is written and read, and what values its operations have; `proofs/`
// has the laws of reading and of values, for the calls that promise them.
#![tactic(auto)]

ghost use Rattle.std.specs.Prelude.{◌≡◌};
ghost use Rattle.widths.specs.Kinds.{code_of};
ghost use Rattle.graphs.specs.Graphs.{kind_of, width_of, operands_of};

use widths::{Sides, UnitKind};

mod coded;
mod commands;

pub use coded::{Coded, Commands};

// Where an operand comes from: an input, or an operation before this one, by number.
#[derive(Clone, Copy, PartialEq, Eq, Debug)]
pub enum Source {
    Input(u8),
    Earlier(u8),
}

// What a port reads: a source, and how many of its low bits are dropped.
#[derive(Clone, Copy, PartialEq, Eq, Debug)]
pub struct Operand {
    pub source: Source,
    pub drop: u8,
}

// An addition on two ports of p bits, or a multiplication on ports of p and q bits.
#[derive(Clone, Copy, PartialEq, Eq, Debug)]
pub enum Operation {
    Add(u8, Operand, Operand),
    Multiply(u8, u8, Operand, Operand),
}

impl Operation {
    // The kind of unit that it runs on.
    pub fn kind(self) -> UnitKind
        ensures { code_of result ≡ kind_of self }
    {
        match self {
            Operation::Add(..) => UnitKind::Adder,
            Operation::Multiply(..) => UnitKind::Multiplier,
        }
    }

    // Its own width.
    pub fn sides(self) -> Sides
        ensures { result ≡ width_of self }
    {
        match self {
            Operation::Add(p, ..) => p.into(),
            Operation::Multiply(p, q, ..) => (p, q).into(),
        }
    }

    // What its two ports read, in order.
    pub fn operands(self) -> [Operand; 2]
        ensures { result ≡ operands_of self }
    {
        match self {
            Operation::Add(_, a, b) | Operation::Multiply(_, _, a, b) => [a, b],
        }
    }
}

// An operand as it is written: the source's byte and the drop.
#[derive(Clone, Copy)]
pub struct Feed {
    pub source: u8,
    pub drop: u8,
}

// A command as it is written, before it is judged.
#[derive(Clone, Copy)]
pub enum Command {
    Steps(u8),
    Input(u8),
    Add(u8, Feed, Feed),
    Multiply(u8, u8, Feed, Feed),
    Output(u8),
    End,
}
