//! Tests of relocatable files whose values come from outside: from the standards' tables, worked by hand. They stand apart
//! from the reader, since a crate with tests is proved once more beside them.
#![tactic(auto)]

#[cfg(test)]
mod checks;
#[cfg(test)]
mod files;
#[cfg(test)]
mod refused;
#[cfg(test)]
mod shown;
