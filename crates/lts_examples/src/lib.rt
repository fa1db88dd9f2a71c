// Examples of where a trace leads.
#![tactic(auto)]

#[cfg(test)]
mod tests;
