// What the rules look at: who reads whom, when an operation finishes, and whether two operations are in each other's way.
ghost use Rattle.std.specs.Prelude.{◌≡◌};
ghost use Rattle.std.specs.Option.{option_map};
ghost use Rattle.widths.specs.Kinds.{code_of};
ghost use Rattle.graphs.specs.Graphs.{operation_at, count, value_width};
ghost use Rattle.prices.specs.Sums.{lowest};
ghost use Rattle.plans.specs.Plans.{names, reads, kind_at, own_at, value_at, register, steps_of, wide};
ghost use Rattle.board.specs.Boards.{graph_on, list_on, plan_on, serves_on, finish_on, disorder_on, crowding_on};

use super::Board;
use super::tables::{Unit, entry};
use plans::Placing;
use prices::PriceList;
use sheet::{Operand, Operation, Source};
use widths::{Adder, Kind, Multiplier, Register, Sides, UnitKind};

const NOTHING: Operand = Operand {
    source: Source::Input(0),
    drop: 0,
};

fn is_named(source: Source, e: usize) -> bool
    ensures { result ≡ names source e }
{
    matches!(source, Source::Earlier(x) if usize::from(x) == e)
}

impl<L> Board<L> {
    // How many operations there are.
    pub(super) fn count(&self) -> usize
        ensures { result ≡ count (graph_on self.now) }
    {
        self.job.operations().len()
    }

    // The operation with a number; past the last one an addition of no bits that reads no operation.
    fn operation(&self, o: usize) -> Operation
        ensures { result ≡ operation_at (graph_on self.now) o }
    {
        let nothing = Operation::Add(0, NOTHING, NOTHING);
        self.job.operations().get(o).copied().unwrap_or(nothing)
    }

    // Where an operation is placed, if it is.
    pub(super) fn placed(&self, o: usize) -> Option<Placing>
        ensures { result ≡ (plan_on self.now).placed o }
    {
        entry(&self.tables.placings, o)
    }

    // Whether operation r has operation e as a source.
    #[tactic(auto, unfolding(plans::specs::Plans::reads))]
    fn is_reader(&self, r: usize, e: usize) -> bool
        ensures { result ≡ reads (graph_on self.now) r e }
    {
        let [a, b] = self.operation(r).operands();
        is_named(a.source, e) || is_named(b.source, e)
    }

    // The kind of unit that an operation runs on.
    pub(super) fn kind_of(&self, o: usize) -> UnitKind
        ensures { code_of result ≡ kind_at (graph_on self.now) o }
    {
        self.operation(o).kind()
    }

    // The unit with a number of the kind that an operation runs on.
    fn unit_of(&self, o: usize, number: u8) -> Unit
        ensures kind { code_of result.kind ≡ kind_at (graph_on self.now) o }
        ensures number { result.number ≡ number }
    {
        Unit {
            kind: self.kind_of(o),
            number,
        }
    }

    // The sides of the unit with a number that an operation is put on, if it is hired.
    pub(super) fn unit_for(&self, o: usize, unit: u8) -> Option<Sides>
        ensures { result ≡ (plan_on self.now).hired (kind_at (graph_on self.now) o) unit }
    {
        self.tables.unit(self.unit_of(o, unit))
    }

    // Whether the unit covers the operation.
    pub(super) fn unit_covers(&self, o: usize, unit: u8) -> bool
        ensures { result ≡ wide ((plan_on self.now).hired (kind_at (graph_on self.now) o) unit) (own_at (graph_on self.now) o) }
    {
        let own = self.operation(o).sides();
        self.unit_for(o, unit).is_some_and(|w| w.covers(own))
    }

    // The width of an operation's value.
    fn value_bits(&self, o: usize) -> u8
        ensures { result ≡ value_width (operation_at (graph_on self.now) o) }
    {
        let s = self.operation(o).sides();
        s.p + s.q
    }

    // Whether the register covers the operation's value.
    #[tactic(auto, unfolding(plans::specs::Plans::value_at))]
    pub(super) fn register_covers(&self, o: usize, number: u8) -> bool
        ensures { result ≡ wide ((plan_on self.now).hired register number) (value_at (graph_on self.now) o) }
    {
        let value = self.value_bits(o).into();
        let register = self.tables.unit(Unit::register(number));
        register.is_some_and(|w| w.covers(value))
    }

    // Whether the unit serves the operation.
    fn is_served(&self, unit: Unit, o: usize) -> bool
        ensures { result ≡ serves_on self.now (code_of unit.kind) unit.number o }
    {
        self.placed(o).is_some_and(|p| {
            self.unit_of(o, p.unit) == unit || Unit::register(p.register) == unit
        })
    }

    // The lowest operation that the unit serves.
    pub(super) fn serving(&self, unit: Unit) -> Option<usize>
        ensures { result ≡ lowest (λ o. serves_on self.now (code_of unit.kind) unit.number o) (count (graph_on self.now)) }
    {
        (0..self.count()).find(|o| self.is_served(unit, *o))
    }
}

impl<L: PriceList> Board<L> {
    // The steps that a hired unit takes; 0 where none is hired.
    fn steps<K: Kind>(&self, unit: Option<K::Width>) -> u8
        ensures { result ≡ steps_of (L.prices (list_on self.now)) K.code (option_map K.shape unit) }
    {
        unit.map_or(0, |w| self.list.latency::<K>(w))
    }

    // The steps that the unit takes; 0 where it is not hired.
    fn unit_steps(&self, unit: Unit) -> u8
        ensures { result ≡ steps_of (L.prices (list_on self.now)) (code_of unit.kind) ((plan_on self.now).hired (code_of unit.kind) unit.number) }
    {
        let n = usize::from(unit.number);
        match unit.kind {
            UnitKind::Adder => self.steps::<Adder>(entry(&self.tables.adders, n)),
            UnitKind::Multiplier => self.steps::<Multiplier>(entry(&self.tables.multipliers, n)),
            UnitKind::Register => self.steps::<Register>(entry(&self.tables.registers, n)),
        }
    }

    // The step at which an operation that is placed so finishes.
    #[tactic(auto, unfolding(plans::specs::Plans::finish_with))]
    pub(super) fn finish_of(&self, o: usize, p: Placing) -> u32
        ensures { result ≡ finish_on L.prices self.now o p }
    {
        let unit = self.unit_of(o, p.unit);
        u32::from(p.start) + u32::from(self.unit_steps(unit))
    }

    // Whether one of o, placed at p, and e reads the other before it finishes.
    fn is_early(&self, o: usize, p: Placing, e: usize) -> bool
        ensures { result ≡ disorder_on L.prices self.now o p e }
    {
        self.placed(e).is_some_and(|q| {
            self.is_reader(o, e) && u32::from(p.start) < self.finish_of(e, q)
                || self.is_reader(e, o) && u32::from(q.start) < self.finish_of(o, p)
        })
    }

    // The lowest operation that o, placed at p, reads or is read by too early.
    pub(super) fn early(&self, o: usize, p: Placing) -> Option<usize>
        ensures { result ≡ lowest (λ e. disorder_on L.prices self.now o p e) (count (graph_on self.now)) }
    {
        (0..self.count()).find(|e| self.is_early(o, p, *e))
    }

    // Whether o, placed at p, and e run on one unit at one step.
    fn is_crowding(&self, o: usize, p: Placing, e: usize) -> bool
        ensures { result ≡ crowding_on L.prices self.now o p e }
    {
        self.placed(e).is_some_and(|q| {
            q.unit == p.unit
                && self.kind_of(e) == self.kind_of(o)
                && u32::from(p.start) < self.finish_of(e, q)
                && u32::from(q.start) < self.finish_of(o, p)
        })
    }

    // The lowest other operation whose run overlaps that of o, placed at p, on its unit.
    pub(super) fn crowded(&self, o: usize, p: Placing) -> Option<usize>
        ensures { result ≡ lowest (λ e. crowding_on L.prices self.now o p e) (count (graph_on self.now)) }
    {
        (0..self.count()).find(|e| self.is_crowding(o, p, *e))
    }
}
