// The library for programs in other languages: the functions of `capi`, exported under their names.
// `./staticlib` writes it to target/staticlib/libcapi.a.
// Kept (1, 2, 7): the C interface: statuses, names and parameters are those of include/tehkumir.h.

#![tactic(auto)]

mod cursor; // the cursor's calls
mod levels; // the tree's calls
mod lines; // the listing of two sections
mod numbers; // LEB128 numbers and words
mod pages; // a page of the shelf sheet
mod raw; // the raw reader's calls
mod tables; // abbreviation tables
mod units; // headers, entries by offset, types by signature
mod values; // single values
