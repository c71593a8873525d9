// How operations, their operands and rows of numbers are written.
use sheet::{Operand, Operation, Source};
use std::fmt;

// An operation or an operand of a job, to be written.
#[derive(Drop)]
pub struct Shown<'a, T>(pub &'a T);

// Numbers in a row, each behind a space.
#[derive(Drop)]
pub struct Numbers<'a>(pub &'a [i64]);

impl fmt::Display for Shown<'_, Operation> {
    fn fmt<W: fmt::Write>(&self, f: &mut fmt::Formatter<W>) -> fmt::Result {
        match self.0 {
            Operation::Add(p, a, b) => write!(f, "ADD {p} of {} and {}", Shown(a), Shown(b)),
            Operation::Multiply(p, q, a, b) => write!(
                f,
                "MULTIPLY {p} x {q} of {} and {}",
                Shown(a),
                Shown(b)
            ),
        }
    }
}

impl fmt::Display for Shown<'_, Operand> {
    fn fmt<W: fmt::Write>(&self, f: &mut fmt::Formatter<W>) -> fmt::Result {
        let drop = self.0.drop;
        match self.0.source {
            Source::Input(i) => write!(f, "input {i} (drop {drop})"),
            Source::Earlier(o) => write!(f, "operation {o} (drop {drop})"),
        }
    }
}

impl fmt::Display for Numbers<'_> {
    fn fmt<W: fmt::Write>(&self, f: &mut fmt::Formatter<W>) -> fmt::Result {
        for number in self.0 {
            write!(f, " {number}")?;
        }
        Ok(())
    }
}
