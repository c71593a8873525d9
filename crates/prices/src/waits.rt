// The wait: every latency of the list below some steps longer, the same charges.
ghost use Rattle.std.specs.Prelude.{◌≡◌, ◌≤◌, IfOk};
ghost use Rattle.std.specs.Result.{result_err};
ghost use Rattle.prices.specs.Lists.{waiting};
ghost use Rattle.prices.specs.Refusals.{wait_fault};
ghost use Rattle.prices.specs.WaitLaw.{wait_sound};

use super::PriceList;
use faults::{Fault, Maker};
use widths::Kind;

const MOST_STEPS: u8 = 16;

#[derive(Drop)]
pub struct Wait<L> {
    list: L,
    steps: u8,
    ghost steps_ok: { steps ≤ 16 },
}

impl<L: Drop> Wait<L> {
    // The list with every latency this many steps longer, at most 16.
    pub fn new(list: L, steps: u8) -> Result<Wait<L>, Fault>
        ensures refusal { result_err result ≡ wait_fault steps }
        ensures below { IfOk result (λ wait. wait.list ≡ list) }
        ensures steps { IfOk result (λ wait. wait.steps ≡ steps) }
    {
        if steps > MOST_STEPS {
            return Err(Fault::FaultyList(Maker::Wait.into(), 0));
        }
        Ok(Wait { list, steps })
    }
}

impl<L: PriceList> PriceList for Wait<L> {
    ghost prices = { λ x. waiting x.steps (L.PriceList.prices x.list) };

    ghost sound = { λ x. wait_sound x.steps (L.PriceList.prices x.list) (L.PriceList.sound x.list) };

    #[tactic(auto, unfolding(crate::specs::Prices::cell_charge))]
    fn cell_charge<K: Kind>(&self, c: K::Width) -> u64 {
        self.list.cell_charge::<K>(c)
    }

    #[tactic(auto, unfolding(crate::specs::Prices::charge))]
    fn charge<K: Kind>(&self, w: K::Width) -> u64 {
        self.list.charge::<K>(w)
    }

    // A list answers 0 exactly where there is no latency, and so nothing to lengthen.
    #[tactic(auto, using(crate::specs::WaitLaw::wait_some))]
    fn latency<K: Kind>(&self, w: K::Width) -> u8 {
        match self.list.latency::<K>(w) {
            0 => 0,
            below => below.saturating_add(self.steps),
        }
    }
}
