// The table list: charges and latencies row by row, by the first side of a cell or a width.
ghost use Rattle.std.specs.Prelude.{◌≡◌, ◌+◌, ◌<◌, ◌≤◌, length, sum, MatchOption, IfOk, OnOk};
ghost use Rattle.std.specs.Result.{result_err};
ghost use Rattle.widths.specs.Kinds.{code_of, widest};
ghost use Rattle.prices.specs.Lists.{by_kind, table};
ghost use Rattle.prices.specs.Refusals.{falls, first_fall, row_fault, table_fault, Charges, Rising};
ghost use Rattle.prices.specs.TableLaw.{table_sound};

use super::{PriceList, named};
use faults::{Fault, Maker};
use widths::{Kind, UnitKind};

// The row of the first multiplier latency, behind those of the adders.
const MULTIPLIER_ROWS: u8 = 40;

// Columns, and no rows of structs: they come as columns, and a charge sums the front of one, so that rows would be made
// only to be taken apart again.
#[derive(Drop)]
pub struct Table {
    adders: [u16; 40],
    firsts: [u16; 40],
    registers: [u16; 64],
    adder_steps: [u8; 40],
    multiplier_steps: [u8; 40],
    ghost adders_fit: { Charges adders },
    ghost firsts_fit: { Charges firsts },
    ghost registers_fit: { Charges registers },
    ghost adder_steps_rise: { Rising adder_steps },
    ghost multiplier_steps_rise: { Rising multiplier_steps },
}

impl Table {
    // The list with charges for the adder cells, the multiplier cells (i, 1) and the register cells, and with latencies
    // for the adder widths and the first sides of multipliers, none of them 0 or below the one before.
    pub fn new(
        adders: [u16; 40],
        firsts: [u16; 40],
        registers: [u16; 64],
        adder_steps: [u8; 40],
        multiplier_steps: [u8; 40],
    ) -> Result<Table, Fault>
        ensures refusal { result_err result ≡ table_fault adder_steps multiplier_steps }
        ensures adders { IfOk result (λ list. list.adders ≡ adders) }
        ensures firsts { IfOk result (λ list. list.firsts ≡ firsts) }
        ensures registers { IfOk result (λ list. list.registers ≡ registers) }
        ensures adder_steps { IfOk result (λ list. list.adder_steps ≡ adder_steps) }
        ensures multiplier_steps { IfOk result (λ list. list.multiplier_steps ≡ multiplier_steps) }
    {
        judge_rows(0, &adder_steps)?;
        judge_rows(MULTIPLIER_ROWS, &multiplier_steps)?;
        all_fit(&adders);
        all_fit(&firsts);
        all_fit(&registers);
        Ok(Table {
            adders,
            firsts,
            registers,
            adder_steps,
            multiplier_steps,
        })
    }

    // The charges of this kind, by first side.
    fn charges(&self, kind: UnitKind) -> &[u16]
        ensures value { result.now ≡ by_kind (code_of kind) self.now.adders self.now.firsts self.now.registers }
        ensures sized { widest (code_of kind) ≤ length result.now }
    {
        match kind {
            UnitKind::Adder => &self.adders,
            UnitKind::Multiplier => &self.firsts,
            UnitKind::Register => &self.registers,
        }
    }
}

// The sum of charges of a table.
fn sum_of(charges: &[u16]) -> u64
    requires { length charges.now ≤ 64 }
    ensures { result ≡ sum charges.now }
{
    charges.iter().map(|charge| u64::from(*charge)).sum()
}

// Promises that charges, which their type keeps to 16 bits, are what the list's invariant asks of them. What a type says
// of the elements of a slice is known to a proof only where one of them is read.
fn all_fit(charges: &[u16])
    requires { 1 ≤ length charges.now }
    ensures { Charges charges.now }
{
    let _first = charges[0];
}

// Whether the latency in this row is 0, or below the one before.
fn falls_at(steps: &[u8; 40], row: u8) -> bool
    requires { row < 40 }
    ensures { result ≡ falls steps.now row }
{
    let row = usize::from(row);
    steps[row] == 0 || steps[row] < steps[row.saturating_sub(1)]
}

// The first row whose latency is 0 or below the one before.
fn fall_in(steps: &[u8; 40]) -> Option<u8>
    ensures value { result ≡ first_fall steps.now }
    ensures told { MatchOption result (Rising steps.now) (λ row. row < 40) }
{
    (0..40).find(|row| falls_at(steps, *row))
}

// Refuses latencies of which one is 0 or below the one before, with its row, counted from that of the first.
fn judge_rows(first: u8, steps: &[u8; 40]) -> Result<(), Fault>
    requires { first ≤ 40 }
    ensures refusal { result_err result ≡ row_fault first (first_fall steps.now) }
    ensures taken { OnOk result (Rising steps.now) }
{
    if let Some(row) = fall_in(steps) {
        return Err(Fault::FaultyList(Maker::Table.into(), first + row));
    }
    Ok(())
}

impl PriceList for Table {
    ghost prices = { λ x. table x.adders x.firsts x.registers x.adder_steps x.multiplier_steps };

    ghost sound = { λ x.
        table_sound x.adders x.firsts x.registers x.adder_steps x.multiplier_steps
        x.adders_fit x.firsts_fit x.registers_fit x.adder_steps_rise x.multiplier_steps_rise };

    #[tactic(auto, unfolding(crate::specs::Prices::cell_charge))]
    fn cell_charge<K: Kind>(&self, c: K::Width) -> u64 {
        let s = K::sides(c);
        match named::<K>() {
            Some(kind) if K::is_cell(c) && s.q <= 1 => {
                u64::from(self.charges(kind)[usize::from(s.p) - 1])
            },
            _ => 0,
        }
    }

    #[tactic(auto, using(crate::specs::Under::charge_none, crate::proofs::Front::charge_front))]
    fn charge<K: Kind>(&self, w: K::Width) -> u64 {
        match named::<K>() {
            Some(kind) if K::is_width(w) => {
                sum_of(&self.charges(kind)[..usize::from(K::sides(w).p)])
            },
            _ => 0,
        }
    }

    #[tactic(auto, unfolding(crate::specs::Prices::latency))]
    fn latency<K: Kind>(&self, w: K::Width) -> u8 {
        if !K::is_width(w) {
            return 0;
        }
        let row = usize::from(K::sides(w).p) - 1;
        match named::<K>() {
            Some(UnitKind::Adder) => self.adder_steps[row],
            Some(UnitKind::Multiplier) => self.multiplier_steps[row],
            Some(UnitKind::Register) | None => 0,
        }
    }
}
