// Tests of words and of files of bytes: what is accepted, what is refused and what is written.
#![tactic(auto)]

#[cfg(test)]
mod accepted;
#[cfg(test)]
mod files;
#[cfg(test)]
mod refused;
