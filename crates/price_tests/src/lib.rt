// Tests of the price lists, in a crate of their own so that `prices` is not proved twice.
#![tactic(auto)]

#[cfg(test)]
mod adjusted;
#[cfg(test)]
mod listed;
#[cfg(test)]
mod unnamed;
