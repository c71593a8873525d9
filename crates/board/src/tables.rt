// The board's plain tables: which units are hired with which widths, and where the operations are placed.
ghost use Rattle.std.specs.Prelude.{◌≡◌, ℕ, ◌<◌, true, length, if◌then◌else◌, IfOk, IfSome, None, OnOk, nat_eq, nat_le, nat_lt, slice_index_or, slice_set};
ghost use Rattle.std.specs.Result.{result_err};
ghost use Rattle.faults.specs.declared.Fault.TheVariants.{CallOutOfRange};
ghost use Rattle.widths.specs.Kinds.{code_of, second_side};
ghost use Rattle.prices.specs.Sums.{flag, or_else};
ghost use Rattle.plans.specs.Plans.{empty, register};
ghost use Rattle.plans.specs.Calls.{with_placing, with_unit};
ghost use Rattle.board.specs.Tables.{plan_of, hired_in, with_entry};

use faults::Fault;
use plans::Placing;
use widths::{Sides, UnitKind};

// By number of a unit of each kind, and by number of an operation; of a fixed size, so that no call to a board allocates.
#[derive(Drop)]
pub(super) struct Tables {
    pub(super) adders: [Option<u8>; 64],
    pub(super) multipliers: [Option<(u8, u8)>; 64],
    pub(super) registers: [Option<u8>; 64],
    pub(super) placings: [Option<Placing>; 64],
}

// A unit by its kind and its number, which may be one that no unit has: nothing is hired there.
#[derive(Clone, Copy, PartialEq, Eq)]
pub(super) struct Unit {
    pub(super) kind: UnitKind,
    pub(super) number: u8,
}

impl Unit {
    // The unit that two bytes of a call name, a kind and a number below 64.
    pub(super) fn named(kind: u8, number: u8) -> Result<Unit, Fault>
        ensures kind { IfOk result (λ unit. code_of unit.kind ≡ kind) }
        ensures number { IfOk result (λ unit. unit.number ≡ number) }
        ensures low { OnOk result (number < 64) }
        ensures cause { result_err result ≡ or_else (flag (nat_lt 2 kind) (CallOutOfRange 0)) (flag (nat_le 64 number) (CallOutOfRange 1)) }
    {
        let kind = UnitKind::try_from(kind).map_err(|_| Fault::CallOutOfRange(0))?;
        if number >= 64 {
            return Err(Fault::CallOutOfRange(1));
        }
        Ok(Unit { kind, number })
    }

    // The register with a number.
    pub(super) fn register(number: u8) -> Unit
        ensures kind { code_of result.kind ≡ register }
        ensures number { result.number ≡ number }
    {
        Unit {
            kind: UnitKind::Register,
            number,
        }
    }
}

// What stands at a number; nothing past the end.
pub(super) fn entry<T: Copy>(table: &[Option<T>], n: usize) -> Option<T>
    ensures { result ≡ slice_index_or table.now n None }
{
    table.get(n).copied().flatten()
}

impl Tables {
    // Nothing hired, nothing placed.
    pub(super) fn new() -> Tables
        ensures { plan_of result ≡ empty }
    {
        Tables {
            adders: [None; 64],
            multipliers: [None; 64],
            registers: [None; 64],
            placings: [None; 64],
        }
    }

    // The sides of a unit, if it is hired.
    pub(super) fn unit(&self, unit: Unit) -> Option<Sides>
        ensures { result ≡ hired_in self.now (code_of unit.kind) unit.number }
    {
        let n = usize::from(unit.number);
        match unit.kind {
            UnitKind::Adder => entry(&self.adders, n).map(Sides::from),
            UnitKind::Multiplier => entry(&self.multipliers, n).map(Sides::from),
            UnitKind::Register => entry(&self.registers, n).map(Sides::from),
        }
    }

    // Hires a unit with these sides, or takes it out.
    pub(super) fn set_unit(&mut self, unit: Unit, sides: Option<Sides>)
        requires number { unit.number < 64 }
        requires sides { IfSome sides (λ s. second_side (code_of unit.kind) s.p s.q ≡ true) }
        ensures { plan_of self.new ≡ with_unit (plan_of self.old) (code_of unit.kind) unit.number sides }
    {
        let n = usize::from(unit.number);
        match unit.kind {
            UnitKind::Adder => self.adders[n] = sides.map(|s| s.p),
            UnitKind::Multiplier => self.multipliers[n] = sides.map(|s| (s.p, s.q)),
            UnitKind::Register => self.registers[n] = sides.map(|s| s.p),
        }
    }

    // Places an operation, or takes its placing out.
    pub(super) fn set_placing(&mut self, operation: u8, p: Option<Placing>)
        requires { operation < 64 }
        ensures plan { plan_of self.new ≡ with_placing (plan_of self.old) operation p }
        ensures tables { self.new ≡ with_entry self.old operation p }
    {
        self.placings[usize::from(operation)] = p;
    }
}
