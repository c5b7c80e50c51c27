// Types by their signatures, out of .debug_types (DWARF 4, 7.5.1.2).

#![tactic(auto)]

pub mod types; // the unit that carries a signature, and its type entry
