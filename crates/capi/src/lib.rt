// The library's calls on numbers and slices alone, for `capi_c`, which exports them, and for programs.
// Each answers 0 or the number of a refusal, and puts the words of its answer into a lent slice.
// Kept (1, 5): the C interface: what capi_c exports answers 0 or the number of a refusal and takes parameters one by
// one (include/tehkumir.h); the private functions that end such a call answer its status too.

#![tactic(auto)]

pub mod cursor; // the cursor's calls
pub mod levels; // the tree's calls
pub mod lines; // the lines of a listing
pub mod numbers; // LEB128 numbers and words
mod out; // words stored
pub mod pages; // a page of the shelf sheet
pub mod raw; // the raw reader's calls
pub mod tables; // abbreviation tables
pub mod units; // headers, entries by offset, types by signature
pub mod values; // single values
