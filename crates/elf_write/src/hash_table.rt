//! The hash table of symbols.

ghost use Rattle.std.specs.Prelude.{◌≡◌, ◌++◌, ◌≤◌, ◌<◌, OnOk, IfOk, length};
ghost use Rattle.fd_base.specs.Words.{word_bytes};
ghost use Rattle.elf_model.specs.declared.constants.TheConstants.{MAX_ENTRIES};
ghost use Rattle.elf_write.specs.HashTable as spec;

use elf_model::{Symbol, hash};
use fd_base::{Bytes, Memory, Words};
use std::alloc::Global;

/// The first symbols of the buckets, and those with which chains go on.
#[derive(Drop)]
struct HashTable {
    /// The last symbol of each bucket.
    heads: Vec<u32>,
    /// The symbol before each in its bucket.
    chains: Vec<u32>,
}

/// How many buckets there are.
pub fn bucket_count(symbols: &[Symbol]) -> u32
    requires { length symbols.now ≤ MAX_ENTRIES }
    ensures count { result ≡ spec.bucket_count symbols.now }
    ensures some { 0 < result }
    ensures few { result ≤ MAX_ENTRIES }
{
    (symbols.len() as u32).max(1)
}

/// The bucket of a symbol, of so many.
#[tactic(auto, using(crate::proofs::TableSizes::no_name_bucket))]
fn bucket_of(count: u32, symbol: &Symbol) -> u32
    requires { 0 < count }
    ensures bucket { result ≡ spec.bucket_of count symbol.now }
    ensures below { result < count }
{
    match &symbol.name {
        Some(name) => hash(name) % count,
        None => 0,
    }
}

/// The heads and chains of the symbols' buckets.
fn hash_table(alloc: Global, symbols: &[Symbol]) -> Result<HashTable, Memory>
    requires { length symbols.now ≤ MAX_ENTRIES }
    ensures heads { IfOk result (λ table. table.heads.items ≡ spec.heads symbols.now) }
    ensures chains { IfOk result (λ table. table.chains.items ≡ spec.chains symbols.now) }
{
    let count = bucket_count(symbols);
    let mut heads = Vec::from_elem(alloc, 0, count as usize)?;
    let mut chains = Vec::new(alloc);
    for (k, symbol) in symbols.iter().enumerate() {
        let bucket = bucket_of(count, symbol) as usize;
        chains.push(heads[bucket])?;
        heads[bucket] = k as u32;
    }
    Ok(HashTable { heads, chains })
}

/// Puts the hash table of symbols.
pub fn put_hash(alloc: Global, out: &mut Bytes, symbols: &[Symbol]) -> Result<(), Memory>
    requires { length symbols.now ≤ MAX_ENTRIES }
    ensures { OnOk result (out.new ≡ out.old ++ word_bytes (spec.hash_words symbols.now)) }
{
    let table = hash_table(alloc, symbols)?;
    out.push_words(&[bucket_count(symbols), symbols.len() as u32])?;
    out.push_words(table.heads.as_slice())?;
    out.push_words(table.chains.as_slice())
}
