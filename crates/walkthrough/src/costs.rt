// What a job's operations cost and how long they take, each on a unit of its own width, by price list.
use prices::{Formula, Grain, PriceList, Table, Wait};
use sheet::{Job, Operation};
use std::fmt;
use widths::{Adder, Kind, Multiplier, Register};

// Steps by the width of an adder, and by the first side of a multiplier.
const ADDER_STEPS: [u8; 40] = [
    1, 1, 1, 1, 1, 1, 1, 1, 1, 1, 1, 1, 1, 1, 1, 1, 2, 2, 2, 2, 2, 2, 2, 2, 2, 2, 2, 2, 2, 2, 2, 2,
    3, 3, 3, 3, 3, 3, 3, 3,
];

const MULTIPLIER_STEPS: [u8; 40] = [
    2, 2, 2, 2, 2, 2, 2, 2, 3, 3, 3, 3, 3, 3, 3, 3, 4, 4, 4, 4, 4, 4, 4, 4, 5, 5, 5, 5, 5, 5, 5, 5,
    6, 6, 6, 6, 6, 6, 6, 6,
];

pub fn show_costs(rt: &impl Print, job: &Job) -> anyhow::Result<()> {
    let formula = Formula::new(3, 1)?;
    println!(rt; "  on a formula list: 3 for an adder cell, 1 for a register cell")?;
    show_list(rt, job, &formula)?;
    let table = Table::new([7; 40], [96; 40], [5; 64], ADDER_STEPS, MULTIPLIER_STEPS)?;
    let adjusted = Wait::new(Grain::new(table, 4)?, 1)?;
    println!(rt; "  on a table list with grain 4 and wait 1")?;
    show_list(rt, job, &adjusted)
}

fn show_list<L: PriceList>(rt: &impl Print, job: &Job, list: &L) -> anyhow::Result<()> {
    for (o, operation) in job.operations().iter().enumerate() {
        println!(rt; "    operation {o}: {}", Cost::of(list, *operation))?;
    }
    Ok(())
}

// The charge and the steps of a unit, and the charge of a register for the value.
#[derive(Clone, Copy)]
struct Cost {
    unit: u64,
    steps: u8,
    register: u64,
}

impl Cost {
    // What an operation costs on a unit of its own width.
    fn of<L: PriceList>(list: &L, operation: Operation) -> Cost {
        match operation {
            Operation::Add(p, ..) => Cost::on::<Adder, L>(list, p, p),
            Operation::Multiply(p, q, ..) => {
                Cost::on::<Multiplier, L>(list, (p, q), p.saturating_add(q))
            }
        }
    }

    fn on<K: Kind, L: PriceList>(list: &L, unit: K::Width, register: u8) -> Cost {
        Cost {
            unit: list.charge::<K>(unit),
            steps: list.latency::<K>(unit),
            register: list.charge::<Register>(register),
        }
    }
}

impl fmt::Display for Cost {
    fn fmt<W: fmt::Write>(&self, f: &mut fmt::Formatter<W>) -> fmt::Result {
        write!(
            f,
            "unit {} in {} steps, register {}",
            self.unit, self.steps, self.register
        )
    }
}
