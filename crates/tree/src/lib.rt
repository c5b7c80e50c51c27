// Entries walked by levels: gimli's read/unit.rs, EntriesTree. Level 1 has the root's children.

#![tactic(auto)]

pub mod tree; // EntriesTree
