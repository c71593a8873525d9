// The worked figures of the product, computed from the definitions that the contracts of the other crates cite;
// and the tests that run through several crates.
#![tactic(auto)]

ghost use Rattle.figures.specs.Figures.{Figures};

// Every worked figure holds.
pub fn figures()
    ensures { Figures }
{}

#[cfg(test)]
mod sheets;
#[cfg(test)]
mod units;
