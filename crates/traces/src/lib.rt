// Where a trace leads: finite graphs, compiled systems, macrostates and acceptance families.
#![tactic(auto)]

pub mod compile;
pub mod compiled;
mod derive;
pub mod family;
mod gathering;
pub mod graphs;
pub mod macrostate;
pub mod macrostates;
pub mod node_table;
pub mod tabulate;
pub mod tabulated;
pub mod transitions;
