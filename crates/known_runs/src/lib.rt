//! Tests of the commands and of the loader over objects that they build, whose values come from outside: from the ABI, or
//! from examples worked by hand.
#![tactic(auto)]

#[cfg(test)]
mod checks;
#[cfg(test)]
mod commands;
#[cfg(test)]
mod files;
#[cfg(test)]
mod loads;
