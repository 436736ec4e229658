//! Tests of texts, instructions, memory and steps, and of jobs and reports, whose values come from outside: from the
//! architecture's manual, from other tools, or from examples worked by hand.
#![tactic(auto)]

#[cfg(test)]
mod checks;
#[cfg(test)]
mod instructions;
#[cfg(test)]
mod jobs;
#[cfg(test)]
mod lines;
#[cfg(test)]
mod memory;
#[cfg(test)]
mod services;
#[cfg(test)]
mod steps;
#[cfg(test)]
mod words;
