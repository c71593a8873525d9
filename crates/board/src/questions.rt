// What a board answers about its plan.
ghost use Rattle.std.specs.Prelude.{◌≡◌, ◌≤◌, ◌↔◌, IsTrue, length};
ghost use Rattle.std.specs.List.{sum_by};
ghost use Rattle.std.specs.Option.{option_map};
ghost use Rattle.plans.specs.Plans.{Complete};
ghost use Rattle.plans.specs.Charges.{unit_charge, plan_charge};
ghost use Rattle.board.specs.Boards.{job_on, graph_on, list_on, plan_on, finish_on, life_on};

use super::Board;
use super::tables::Unit;
use plans::{Life, Placing};
use prices::PriceList;
use sheet::Job;
use widths::{Adder, Kind, Multiplier, Register, Sides};

impl<L: PriceList> Board<L> {
    // The charge of a hired unit; 0 where none is hired.
    fn cost<K: Kind>(&self, unit: Option<K::Width>) -> u64
        ensures value { result ≡ unit_charge (L.prices (list_on self.now)) K.code (option_map K.shape unit) }
        ensures most { result ≤ 4194304 }
    {
        unit.map_or(0, |w| self.list.charge::<K>(w))
    }

    // What the hired units of one kind cost.
    fn charged<K: Kind>(&self, table: &[Option<K::Width>]) -> u64
        requires { length table.now ≡ 64 }
        ensures sum { result ≡ sum_by (λ unit. unit_charge (L.prices (list_on self.now)) K.code (option_map K.shape unit)) table.now }
        ensures most { result ≤ 268435456 }
    {
        table.iter().map(|unit| self.cost::<K>(*unit)).sum()
    }

    // What the hired adders and multipliers cost together, and what the registers cost.
    pub fn charge(&self) -> (u64, u64)
        ensures { result ≡ plan_charge (L.prices (list_on self.now)) (plan_on self.now) }
    {
        let adders = self.charged::<Adder>(&self.tables.adders);
        let multipliers = self.charged::<Multiplier>(&self.tables.multipliers);
        let registers = self.charged::<Register>(&self.tables.registers);
        (adders + multipliers, registers)
    }

    // The job that the board was made with.
    pub fn job(&self) -> &Job
        ensures { result.now ≡ job_on self.now }
    {
        &self.job
    }

    // The sides of the unit of a kind with a number, if it is hired.
    pub fn unit(&self, kind: u8, number: u8) -> Option<Sides>
        ensures { result ≡ (plan_on self.now).hired kind number }
    {
        let unit = Unit::named(kind, number).ok()?;
        self.tables.unit(unit)
    }

    // The placing of an operation, if it has one.
    pub fn placing(&self, operation: u8) -> Option<Placing>
        ensures { result ≡ (plan_on self.now).placed operation }
    {
        self.placed(operation.into())
    }

    // The step at which an operation finishes, if it is placed.
    pub fn finish(&self, operation: u8) -> Option<u32>
        ensures { result ≡ option_map (finish_on L.prices self.now operation) ((plan_on self.now).placed operation) }
    {
        let o = operation.into();
        self.placed(o).map(|p| self.finish_of(o, p))
    }

    // The register of an operation's value, and the first and the last step of its life, if it is placed.
    pub fn life(&self, operation: u8) -> Option<Life>
        ensures { result ≡ life_on L.prices self.now operation }
    {
        self.life_at(operation.into())
    }

    // Whether every operation is placed.
    pub fn is_complete(&self) -> bool
        ensures { IsTrue result ↔ Complete (graph_on self.now) (plan_on self.now) }
    {
        (0..self.count()).all(|o| self.placed(o).is_some())
    }
}
