// The grain: a width costs what the list below charges once each side is rounded up to a multiple of the grain.
ghost use Rattle.std.specs.Prelude.{◌≡◌, ◌+◌, ◌≤◌, true, ◌&&◌, IfOk};
ghost use Rattle.std.specs.Result.{result_err};
ghost use Rattle.widths.specs.Kinds.{sides_of};
ghost use Rattle.prices.specs.Sums.{total};
ghost use Rattle.prices.specs.Prices.{cell_charge};
ghost use Rattle.prices.specs.Lists.{is_grain, rounded, starts, breadth, block, grained};
ghost use Rattle.prices.specs.Refusals.{grain_fault};
ghost use Rattle.prices.specs.GrainLaw.{grain_sound};

use super::PriceList;
use faults::{Fault, Maker};
use widths::{Kind, Sides};

#[derive(Drop)]
pub struct Grain<L> {
    list: L,
    size: u8,
    ghost size_ok: { is_grain size ≡ true },
}

impl<L: Drop> Grain<L> {
    // The list with sides rounded up to multiples of this size, which is 1, 2, 4 or 8.
    pub fn new(list: L, size: u8) -> Result<Grain<L>, Fault>
        ensures refusal { result_err result ≡ grain_fault size }
        ensures below { IfOk result (λ grain. grain.list ≡ list) }
        ensures size { IfOk result (λ grain. grain.size ≡ size) }
    {
        if !is_grain(size) {
            return Err(Fault::FaultyList(Maker::Grain.into(), 0));
        }
        Ok(Grain { list, size })
    }
}

fn is_grain(size: u8) -> bool
    ensures { result ≡ is_grain size }
{
    matches!(size, 1 | 2 | 4 | 8)
}

impl<L: PriceList> Grain<L> {
    // Each side rounded up to a multiple of the grain.
    fn rounded(&self, w: Sides) -> Sides
        requires first_side { w.p ≤ 64 }
        requires second_side { w.q ≤ 64 }
        ensures { result ≡ rounded self.now.size w }
    {
        Sides {
            p: w.p.next_multiple_of(self.size),
            q: w.q.next_multiple_of(self.size),
        }
    }

    // Whether a block starts at this cell.
    fn starts_block(&self, c: Sides) -> bool
        ensures { result ≡ starts self.now.size c.p && starts self.now.size c.q }
    {
        let starts = |side: u8| side.saturating_sub(1) % self.size == 0;
        starts(c.p) && starts(c.q)
    }

    // How many cells of a block lie along a second side; one where there is no such side.
    fn breadth(&self, side: u8) -> u8
        ensures { result ≡ breadth self.now.size side }
    {
        if side == 0 { 1 } else { self.size }
    }

    // What the list below charges for the cell with these sides; 0 where there is none.
    fn cell_below<K: Kind>(&self, c: Sides) -> u64
        ensures value { result ≡ cell_charge (L.PriceList.prices self.now.list) K.Kind.code c }
        ensures bound { result ≤ 4194304 }
    {
        K::cell(c).map_or(0, |v| self.list.cell_charge::<K>(v))
    }

    // What the list below charges for the cells of a block along the second side, from this one on.
    fn row_below<K: Kind>(&self, c: Sides) -> u64
        requires { c.q ≤ 64 }
        ensures value { result ≡ total (λ j. cell_charge (L.PriceList.prices self.now.list) K.Kind.code (sides_of c.p (c.q + j))) (breadth self.now.size c.q) }
        ensures bound { result ≤ 33554432 }
    {
        (0..self.breadth(c.q))
            .map(|j| self.cell_below::<K>(Sides { q: c.q + j, ..c }))
            .sum()
    }

    // What the list below charges for the block of cells that starts at this one.
    fn block_below<K: Kind>(&self, c: Sides) -> u64
        requires first_side { c.p ≤ 64 }
        requires second_side { c.q ≤ 64 }
        ensures { result ≡ block self.now.size (cell_charge (L.PriceList.prices self.now.list) K.Kind.code) c }
    {
        (0..self.size)
            .map(|i| self.row_below::<K>(Sides { p: c.p + i, ..c }))
            .sum()
    }
}

impl<L: PriceList> PriceList for Grain<L> {
    ghost prices = { λ x. grained x.size (L.PriceList.prices x.list) };

    ghost sound = { λ x. grain_sound x.size x.size_ok (L.PriceList.prices x.list) (L.PriceList.sound x.list) };

    #[tactic(auto, using(crate::specs::GrainLaw::cell_unstarted))]
    fn cell_charge<K: Kind>(&self, c: K::Width) -> u64 {
        let s = K::sides(c);
        if K::is_cell(c) && self.starts_block(s) {
            self.block_below::<K>(s)
        } else {
            0
        }
    }

    #[tactic(auto, using(crate::specs::Under::charge_none, crate::specs::GrainLaw::charge_rounded))]
    fn charge<K: Kind>(&self, w: K::Width) -> u64 {
        if !K::is_width(w) {
            return 0;
        }
        K::width(self.rounded(K::sides(w))).map_or(0, |v| self.list.charge::<K>(v))
    }

    #[tactic(auto, unfolding(crate::specs::Prices::latency))]
    fn latency<K: Kind>(&self, w: K::Width) -> u8 {
        self.list.latency::<K>(w)
    }
}
