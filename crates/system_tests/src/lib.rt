// Tests of the calls on sets and on systems: layers, experiments, and the comparison of two.
#![tactic(auto)]

#[cfg(test)]
mod comparisons;
#[cfg(test)]
mod experiments;
#[cfg(test)]
mod piles;
#[cfg(test)]
mod sets;
