//! Tests of what is read, placed and linked, whose values come from outside: from the standards' tables, from other tools,
//! or from examples worked by hand. They stand here, and not in their crates, since a crate with tests is proved once more
//! beside them.
#![tactic(auto)]

#[cfg(test)]
mod checks;
#[cfg(test)]
mod descriptors;
#[cfg(test)]
mod entries;
#[cfg(test)]
mod fixups;
#[cfg(test)]
mod foo;
#[cfg(test)]
mod maps;
#[cfg(test)]
mod placing;
#[cfg(test)]
mod readers;
#[cfg(test)]
mod relocations;
#[cfg(test)]
mod scopes;
#[cfg(test)]
mod sites;
