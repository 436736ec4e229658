//! Tests of texts that are assembled, whose values come from outside: words from GNU as, refusals and listings from the
//! description of texts in docs/ASSEMBLER.md, worked by hand. They stand apart from the assembler, since a crate with tests
//! is proved once more beside them.
#![tactic(auto)]

#[cfg(test)]
mod checks;
#[cfg(test)]
mod limits;
#[cfg(test)]
mod listed;
#[cfg(test)]
mod refused;
#[cfg(test)]
mod words;
