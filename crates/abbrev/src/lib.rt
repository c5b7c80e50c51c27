// Abbreviation tables read into two lent slices of words, and codes looked up in them: gimli's
// read/abbrev.rs. An abbreviation is a row of five words (code, tag, children, first specification
// row, count), a specification one of three (name, form, constant in two's complement).

#![tactic(auto)]

pub mod abbreviations; // both slices of a table as one
mod builder; // a table that is being read
pub mod lent; // both slices as they are lent
pub mod lookup; // what rows say, and gimli's accessors
mod rows; // words stored
pub mod table; // what a table is made of
