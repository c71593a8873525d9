// The formula list: a rate for each adder cell and each register cell, 1 for each multiplier cell.
ghost use Rattle.std.specs.Prelude.{◌≡◌, ◌*◌, max, true, IfOk};
ghost use Rattle.std.specs.Result.{result_err};
ghost use Rattle.widths.specs.Kinds.{code_of};
ghost use Rattle.prices.specs.Lists.{by_kind, formula};
ghost use Rattle.prices.specs.Refusals.{is_rate, formula_fault};
ghost use Rattle.prices.specs.FormulaLaw.{formula_sound};

use super::{PriceList, named};
use faults::{Fault, Maker};
use widths::{Kind, Sides, UnitKind};

const MOST_RATE: u8 = 64;

#[derive(Drop)]
pub struct Formula {
    adder: u8,
    register: u8,
    ghost adder_ok: { is_rate adder ≡ true },
    ghost register_ok: { is_rate register ≡ true },
}

impl Formula {
    // The list with these rates for an adder cell and a register cell, each from 1 to 64.
    pub fn new(adder: u8, register: u8) -> Result<Formula, Fault>
        ensures refusal { result_err result ≡ formula_fault adder register }
        ensures adder_rate { IfOk result (λ list. list.adder ≡ adder) }
        ensures register_rate { IfOk result (λ list. list.register ≡ register) }
    {
        if !is_rate(adder) {
            return Err(Fault::FaultyList(Maker::Formula.into(), 0));
        }
        if !is_rate(register) {
            return Err(Fault::FaultyList(Maker::Formula.into(), 1));
        }
        Ok(Formula { adder, register })
    }

    // The charge of each cell of this kind.
    fn rate_of(&self, kind: UnitKind) -> u64
        ensures { result ≡ by_kind (code_of kind) self.now.adder 1 self.now.register }
    {
        match kind {
            UnitKind::Adder => u64::from(self.adder),
            UnitKind::Multiplier => 1,
            UnitKind::Register => u64::from(self.register),
        }
    }
}

fn is_rate(rate: u8) -> bool
    ensures { result ≡ is_rate rate }
{
    (1..=MOST_RATE).contains(&rate)
}

// How many cells lie under a width; a kind with one side has one column.
fn cells_under(w: Sides) -> u64
    ensures { result ≡ w.p * max w.q 1 }
{
    u64::from(w.p) * u64::from(w.q.max(1))
}

impl PriceList for Formula {
    ghost prices = { λ x. formula x.adder x.register };

    ghost sound = { λ x. formula_sound x.adder x.register x.adder_ok x.register_ok };

    #[tactic(auto, unfolding(crate::specs::Prices::cell_charge))]
    fn cell_charge<K: Kind>(&self, c: K::Width) -> u64 {
        match named::<K>() {
            Some(kind) if K::is_cell(c) => self.rate_of(kind),
            _ => 0,
        }
    }

    #[tactic(auto, using(crate::specs::FormulaLaw::formula_charge, crate::specs::Under::charge_none))]
    fn charge<K: Kind>(&self, w: K::Width) -> u64 {
        match named::<K>() {
            Some(kind) if K::is_width(w) => cells_under(K::sides(w)) * self.rate_of(kind),
            _ => 0,
        }
    }

    #[tactic(auto, unfolding(crate::specs::Prices::latency))]
    fn latency<K: Kind>(&self, w: K::Width) -> u8 {
        if !K::is_width(w) {
            return 0;
        }
        let s = K::sides(w);
        match named::<K>() {
            Some(UnitKind::Adder) => 2,
            Some(UnitKind::Multiplier) => (s.p + s.q).div_ceil(8),
            Some(UnitKind::Register) | None => 0,
        }
    }
}
