// The lines of `shelflist`, as bytes in a lent buffer.

#![tactic(auto)]

pub mod input; // the two sections out of an input
pub mod list; // the listing of two sections
mod lines; // lines held in a lent buffer
pub mod numeral; // the digits of a number
pub mod place; // where a listing can go on
mod text; // numbers and words written
