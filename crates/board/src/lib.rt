// The board: a job, a price list, and the plan that calls build on them.
//
// `Board::new` makes a board with nothing hired, and its contract holds the law of the board: whatever calls are made, the
// plan is lawful, and a complete lawful plan can be entered in any order. `hire`, `dismiss`, `place` and `lift` change the
// plan or are refused and change nothing; `charge` says what the hired units cost. Questions about the plan stand in
// `questions.rt`.
#![tactic(auto)]

ghost use Rattle.std.specs.Prelude.{◌≡◌, ◌<◌, T, OnErr, OnOk, Some, None, nat_lt};
ghost use Rattle.std.specs.Option.{option_map};
ghost use Rattle.std.specs.Result.{result_err};
ghost use Rattle.faults.specs.declared.Fault.TheVariants.{RegisterBusy};
ghost use Rattle.graphs.specs.Graphs.{count};
ghost use Rattle.prices.specs.Sums.{first_of, or_else, lowest};
ghost use Rattle.plans.specs.Plans.{empty, units};
ghost use Rattle.plans.specs.Calls.{hire as to_hire, dismiss as to_dismiss, place as to_place, lift as to_lift, place_causes, with_placing};
ghost use Rattle.plans.specs.Law.{BoardLaw};
ghost use Rattle.sheet.specs.Jobs.{graph_of};
ghost use Rattle.board.specs.Boards.{job_on, graph_on, list_on, plan_on, clash_on, Obeys};

mod lives;
mod questions;
mod rules;
mod tables;

use faults::Fault;
pub use plans::{Life, Placing};
use prices::PriceList;
use sheet::Job;
use tables::{Tables, Unit};
use widths::Sides;

// Calls take their operands as bytes, so that one of no kind or out of its range is refused with its place.
#[derive(Drop)]
pub struct Board<L> {
    job: Job,
    list: L,
    tables: Tables,
}

impl<L: PriceList> Board<L> {
    // A board with nothing hired. The law of the board holds for its job and its list.
    pub fn new(job: Job, list: L) -> Board<L>
        ensures kept { (job_on result ≡ job) × (list_on result ≡ list) }
        ensures plan { plan_on result ≡ empty }
        ensures law { BoardLaw (graph_of job) (L.prices list) }
    {
        Board {
            job,
            list,
            tables: Tables::new(),
        }
    }

    // Hires the unit of a kind with a number, of width w, or (w, v) for a multiplier; v is 0 for any other kind.
    pub fn hire(&mut self, kind: u8, number: u8, w: u8, v: u8) -> Result<(), Fault>
        ensures { Obeys L.prices (to_hire kind number w v) self.old self.new result }
    {
        let unit = Unit::named(kind, number)?;
        if !unit.kind.has_first_side(w) {
            return Err(Fault::CallOutOfRange(2));
        }
        let sides = Sides { p: w, q: v };
        if !unit.kind.has_width(sides) {
            return Err(Fault::CallOutOfRange(3));
        }
        if self.tables.unit(unit).is_some() {
            return Err(Fault::AlreadyThere(1));
        }
        self.tables.set_unit(unit, Some(sides));
        Ok(())
    }

    // Takes out a unit that serves no placed operation.
    pub fn dismiss(&mut self, kind: u8, number: u8) -> Result<(), Fault>
        ensures { Obeys L.prices (to_dismiss kind number) self.old self.new result }
    {
        let unit = Unit::named(kind, number)?;
        if self.tables.unit(unit).is_none() {
            return Err(Fault::NotThere(1));
        }
        if let Some(o) = self.serving(unit) {
            return Err(Fault::StillServing(o));
        }
        self.tables.set_unit(unit, None);
        Ok(())
    }

    // Places an operation on a unit of its kind, from a step on, and its value into a register. Whether two lives meet shows
    // only once it stands on the board; where they do, it is taken out again.
    pub fn place(&mut self, operation: u8, unit: u8, start: u16, register: u8) -> Result<(), Fault>
        ensures { Obeys L.prices (to_place operation unit start register) self.old self.new result }
    {
        let p = Placing {
            unit,
            start,
            register,
        };
        self.judge(operation, p)?;
        self.tables.set_placing(operation, Some(p));
        if let Some(q) = self.clashing() {
            self.tables.set_placing(operation, None); // the board is as it was
            return Err(Fault::RegisterBusy(q));
        }
        Ok(())
    }

    // Takes out the placing of an operation.
    pub fn lift(&mut self, operation: u8) -> Result<(), Fault>
        ensures { Obeys L.prices (to_lift operation) self.old self.new result }
    {
        if !self.has_operation(operation) {
            return Err(Fault::CallOutOfRange(0));
        }
        if self.placed(operation.into()).is_none() {
            return Err(Fault::NotThere(0));
        }
        self.tables.set_placing(operation, None);
        Ok(())
    }

    // Whether the sheet has an operation with this number.
    fn has_operation(&self, operation: u8) -> bool
        ensures value { result ≡ nat_lt operation (count (graph_on self.now)) }
        ensures low { T result → operation < 64 }
    {
        usize::from(operation) < self.count()
    }

    // Every cause but the last for which a placing can be refused, in the order of their numbers. The last is that two lives
    // meet once it stands on the board.
    fn judge(&self, operation: u8, p: Placing) -> Result<(), Fault>
        ensures answer { first_of (place_causes (graph_on self.now) (L.prices (list_on self.now)) (plan_on self.now) operation p) ≡ or_else (result_err result) (option_map RegisterBusy (lowest (clash_on L.prices self.now (with_placing (plan_on self.now) operation (Some p))) units)) }
        ensures there { OnOk result (operation < 64) }
        ensures free { OnOk result ((plan_on self.now).placed operation ≡ None) }
    {
        // by a cast: where `From` widens this number, the proof of the clause `answer` does not close
        let o = operation as usize;
        if !self.has_operation(operation) {
            return Err(Fault::CallOutOfRange(0));
        }
        if p.unit >= 64 {
            return Err(Fault::CallOutOfRange(1));
        }
        if p.register >= 64 {
            return Err(Fault::CallOutOfRange(3));
        }
        if self.placed(o).is_some() {
            return Err(Fault::AlreadyThere(0));
        }
        if self.unit_for(o, p.unit).is_none() {
            return Err(Fault::NotThere(1));
        }
        if self.tables.unit(Unit::register(p.register)).is_none() {
            return Err(Fault::NotThere(3));
        }
        if !self.unit_covers(o, p.unit) {
            return Err(Fault::TooNarrow(1));
        }
        if !self.register_covers(o, p.register) {
            return Err(Fault::TooNarrow(3));
        }
        let finish = self.finish_of(o, p);
        if finish > u32::from(self.job.limit()) {
            return Err(Fault::TooLate(finish as usize));
        }
        if let Some(e) = self.early(o, p) {
            return Err(Fault::NotReady(e));
        }
        if let Some(e) = self.crowded(o, p) {
            return Err(Fault::UnitBusy(e));
        }
        Ok(())
    }
}
