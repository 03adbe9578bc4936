// The folder of a made conference.
ghost use Rattle.std.specs.Prelude.{◌≡◌, ◌≤◌, [], IfOk};
ghost use Rattle.made_conference.specs.Tables.{made_files, settings_text};

use crate::pairs::{BLOCK_PAPERS, BLOCK_REVIEWERS, MOST_BLOCKS, made_pairs};
use crate::tables::{bids_text, papers_text, reviewers_text, values_text};
use edge_io::{MemoryFile, MemoryFolder};
use std::alloc::{AllocError, Global};

/// The settings of each made conference.
const SETTINGS: &[u8] = br#"limit = 2
cap = "0.5"
demand = 3
least = 0
greatest = 6
[[source]]
name = "affinity"
kind = "values"
weight = 70
[[source]]
name = "bid"
kind = "bids"
weight = 30
"#;

#[tactic(auto, unfolding(crate::specs::Tables::settings_text, text_lines::specs::Texts::lines_of, text_lines::specs::Texts::line_of))]
fn settings_text(alloc: Global) -> Result<Vec<u8>, AllocError>
    ensures { IfOk result (λ text. text.items ≡ settings_text) }
{
    Vec::from_slice(alloc, SETTINGS)
}

fn file(alloc: Global, name: &str, bytes: Vec<u8>) -> Result<MemoryFile, AllocError>
    ensures { IfOk result (λ file. file ≡ record { name = name.now; bytes = bytes.items }) }
{
    Ok(MemoryFile {
        name: String::from_str(alloc, name)?,
        bytes,
    })
}

#[tactic(auto, unfolding(crate::specs::Tables::made_files))]
fn made_files(alloc: Global, seed: u64, size: u32) -> Result<Vec<MemoryFile>, AllocError>
    requires { size ≤ MOST_BLOCKS }
    ensures { IfOk result (λ files. files.items ≡ made_files seed size) }
{
    let pairs = made_pairs(alloc, seed, size)?;
    let papers = papers_text(alloc, BLOCK_PAPERS * size)?;
    let reviewers = reviewers_text(alloc, BLOCK_REVIEWERS * size)?;
    let values = values_text(alloc, pairs.as_slice())?;
    let bids = bids_text(alloc, pairs.as_slice())?;
    let mut files = Vec::with_capacity(alloc, 5)?;
    files.push(file(alloc, "settings.toml", settings_text(alloc)?)?)?;
    files.push(file(alloc, "papers.csv", papers)?)?;
    files.push(file(alloc, "reviewers.csv", reviewers)?)?;
    files.push(file(alloc, "values-affinity.csv", values)?)?;
    files.push(file(alloc, "bids.csv", bids)?)?;
    Ok(files)
}

/// The folder of a made conference of `size` blocks, in memory, with no call made. A seed and a size determine every byte.
/// A block has 60 papers and 45 reviewers, and each paper has a value with each reviewer of its block and with no other.
pub fn made_folder(alloc: Global, seed: u64, size: u32) -> Result<MemoryFolder, AllocError>
    requires { size ≤ MOST_BLOCKS }
    ensures { IfOk result (λ folder. folder ≡ record {
      files = made_files seed size;
      calls = record { made = 0; faults = 0; fails = [] };
    }) }
{
    let files = made_files(alloc, seed, size)?;
    MemoryFolder::new(files, Vec::new(alloc))
}
