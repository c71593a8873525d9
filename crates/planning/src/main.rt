// Makes a whole plan for a sheet: the calls that make it, with their answers, what it costs, and its schedule as a chart.
#![tactic(auto)]

use board::Board;
use faults::Fault;
use prices::{Formula, PriceList};
use sheet::Job;
use std::{fmt, fs};
use widths::UnitKind;

const KINDS: [UnitKind; 3] = [UnitKind::Adder, UnitKind::Multiplier, UnitKind::Register];

// A unit or a register, by its number among those of its kind.
#[derive(Clone, Copy)]
struct Unit {
    kind: UnitKind,
    number: u8,
}

// A call with its operands in the order in which the board takes them. Named fields would make six lines of a row below.
#[derive(Clone, Copy)]
enum Call {
    // a kind, a number, and the sides of the width: one for each port of a multiplier, else one and 0
    Hire(UnitKind, u8, u8, u8),
    // an operation, its unit, its first step, and the register of its value
    Place(u8, u8, u16, u8),
    // an operation
    Lift(u8),
}

const CALLS: [Call; 22] = [
    // the units, and registers that can be shared
    Call::Hire(UnitKind::Adder, 0, 25, 0),
    Call::Hire(UnitKind::Adder, 1, 19, 0),
    Call::Hire(UnitKind::Multiplier, 0, 19, 17),
    Call::Hire(UnitKind::Multiplier, 1, 33, 21),
    Call::Hire(UnitKind::Multiplier, 2, 40, 12),
    Call::Hire(UnitKind::Register, 0, 54, 0),
    Call::Hire(UnitKind::Register, 1, 38, 0),
    Call::Hire(UnitKind::Register, 2, 25, 0),
    // the longest chain first, which fills the 18 steps
    Call::Place(0, 0, 0, 1),
    Call::Place(2, 1, 2, 0),
    Call::Place(5, 2, 9, 0),
    Call::Place(7, 0, 16, 0),
    // sent back: its own width would take 5 steps, but the unit takes 7
    Call::Place(4, 1, 12, 1),
    Call::Place(4, 1, 9, 1),
    // sent back: operation 7 runs on the wide adder at the same steps
    Call::Place(8, 0, 16, 1),
    Call::Place(8, 1, 16, 1),
    Call::Place(1, 0, 1, 1),
    Call::Place(3, 0, 9, 1),
    // sent back: it reads operation 0, whose value would stay in register 1 over those of operations 1 and 3
    Call::Place(6, 0, 14, 2),
    Call::Lift(0),
    Call::Place(6, 0, 14, 2),
    Call::Place(0, 0, 0, 2),
];

impl Call {
    fn made<L: PriceList>(self, board: &mut Board<L>) -> Result<(), Fault> {
        match self {
            Call::Hire(kind, number, w, v) => board.hire(kind.into(), number, w, v),
            Call::Place(operation, unit, start, register) => {
                board.place(operation, unit, start, register)
            }
            Call::Lift(operation) => board.lift(operation),
        }
    }
}

impl fmt::Display for Call {
    fn fmt<W: fmt::Write>(&self, f: &mut fmt::Formatter<W>) -> fmt::Result {
        match *self {
            Call::Hire(UnitKind::Multiplier, number, p, q) => {
                write!(f, "hire multiplier {number} of width {p} x {q}")
            }
            Call::Hire(kind, number, w, _) => write!(f, "hire {kind} {number} of width {w}"),
            Call::Place(operation, unit, start, register) => write!(
                f,
                "place operation {operation} on unit {unit} at step {start} into register {register}"
            ),
            Call::Lift(operation) => write!(f, "lift operation {operation}"),
        }
    }
}

impl fmt::Display for Unit {
    fn fmt<W: fmt::Write>(&self, f: &mut fmt::Formatter<W>) -> fmt::Result {
        write!(f, "{} {}", self.kind, self.number)
    }
}

impl Unit {
    fn is_hired<L: PriceList>(self, board: &Board<L>) -> bool {
        board.unit(self.kind.into(), self.number).is_some()
    }

    // The operation that is there at a step.
    fn mark<L: PriceList>(self, board: &Board<L>, step: u32) -> char {
        (0..64)
            .find(|operation| self.has(board, *operation, step))
            .map_or('.', |operation| digit(u32::from(operation)))
    }

    // Whether an operation runs on the unit at a step, or its value is alive in the register.
    fn has<L: PriceList>(self, board: &Board<L>, operation: u8, step: u32) -> bool {
        match self.kind {
            UnitKind::Register => self.holds(board, operation, step),
            UnitKind::Adder | UnitKind::Multiplier => self.runs(board, operation, step),
        }
    }

    fn holds<L: PriceList>(self, board: &Board<L>, operation: u8, step: u32) -> bool {
        board.life(operation).is_some_and(|life| {
            life.register == self.number && (life.from..=life.through).contains(&step)
        })
    }

    fn runs<L: PriceList>(self, board: &Board<L>, operation: u8, step: u32) -> bool {
        self.serves(board.job(), operation)
            && board
                .placing(operation)
                .zip(board.finish(operation))
                .is_some_and(|(placing, finish)| {
                    placing.unit == self.number
                        && (u32::from(placing.start)..finish).contains(&step)
                })
    }

    // Whether an operation runs on units of this kind.
    fn serves(self, job: &Job, operation: u8) -> bool {
        job.operations()
            .get(usize::from(operation))
            .is_some_and(|operation| operation.kind() == self.kind)
    }
}

const SHEET: &str = "nine.sheet";

fn main(rt: HostRuntime) -> anyhow::Result<()> {
    println!(rt; "plan for {SHEET}")?;
    let bytes = fs::read(&rt, SHEET)?;
    let job = Job::read(rt.alloc(), &bytes)?;
    let mut board = Board::new(job, Formula::new(1, 1)?);
    for call in CALLS {
        match call.made(&mut board) {
            Ok(()) => println!(rt; "  {call}: ok")?,
            Err(fault) => println!(rt; "  {call}: {fault}")?,
        }
    }
    let (units, registers) = board.charge();
    println!(rt; "  charge {units} {registers}")?;
    let complete = if board.is_complete() { "yes" } else { "no" };
    println!(rt; "  complete: {complete}")?;
    show_chart(&rt, &board)
}

// A row for each unit and a character for each step: the operation that runs there, or whose value is alive.
fn show_chart<L: PriceList>(
    rt: &(impl Print + AllocGlobal),
    board: &Board<L>,
) -> anyhow::Result<()> {
    let limit = u32::from(board.job().limit());
    let steps: String = (0..=limit).map(digit).collect(rt.alloc())?;
    println!(rt; "  step         {steps}")?;
    for kind in KINDS {
        let units = (0..64).map(|number| Unit { kind, number });
        for unit in units.filter(|unit| unit.is_hired(board)) {
            let row: String = (0..=limit)
                .map(|step| unit.mark(board, step))
                .collect(rt.alloc())?;
            let label = format!(in rt.alloc(); "{unit}")?;
            println!(rt; "  {label:<13}{row}")?;
        }
    }
    Ok(())
}

// The last digit of a number.
fn digit(n: u32) -> char {
    char::from_digit(n % 10, 10).unwrap()
}
