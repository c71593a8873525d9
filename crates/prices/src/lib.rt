// Price lists: what each cell and each width of each kind of unit costs, and how many steps a width takes.
//
// `PriceList` is what every list answers. `Formula` and `Table` are lists of their own; `Grain` and `Wait` lie over any
// list and are lists again, so they stack in any order and number. Outside the kinds, their widths and their cells every
// list answers 0. `adjustments_sound` promises what grain and wait keep of the list that they lie over.
#![tactic(auto)]

ghost use Rattle.std.specs.Prelude.{◌≡◌, ◌<◌, MatchOption};
ghost use Rattle.widths.specs.Kinds.{code_of};
ghost use Rattle.prices.specs.Prices.{Prices, Sound, cell_charge, charge, latency};
ghost use Rattle.prices.specs.Lists.{AdjustsSoundly};

mod formulas;
mod grains;
mod tables;
mod waits;

pub use formulas::Formula;
pub use grains::Grain;
pub use tables::Table;
pub use waits::Wait;
use widths::{Kind, UnitKind};

// A price list; what it means is `prices`, and every such meaning is sound.
pub trait PriceList {
    ghost prices: { Self → Prices };

    // The charge of a cell.
    fn cell_charge<K: Kind>(&self, c: K::Width) -> u64
        ensures { result ≡ cell_charge (prices self.now) K.Kind.code (K.Kind.shape c) };

    // The charge of a width: the sum over the cells that lie under it.
    fn charge<K: Kind>(&self, w: K::Width) -> u64
        ensures { result ≡ charge (prices self.now) K.Kind.code (K.Kind.shape w) };

    // The steps that a unit of this width takes.
    fn latency<K: Kind>(&self, w: K::Width) -> u8
        ensures { result ≡ latency (prices self.now) K.Kind.code (K.Kind.shape w) };

    ghost sound: { (x : Self) → Sound (prices x) };
}

// Promises that every grain and every wait over this list, in either order, is sound, and that a grain's cells add up.
pub fn adjustments_sound<L: PriceList>(list: &L)
    ensures { AdjustsSoundly (L.PriceList.prices list.now) }
{}

// The kind by name; none where it is none of those there are, and so has no widths and no cells.
fn named<K: Kind>() -> Option<UnitKind>
    ensures { MatchOption result (2 < K.Kind.code) (λ kind. code_of kind ≡ K.Kind.code) }
{
    UnitKind::try_from(K::number()).ok()
}
