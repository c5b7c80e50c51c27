// The shelf sheet: a unit's flat reading laid out on pages of 60 lines of 32 characters and a line
// feed, one page in each call.

#![tactic(auto)]

mod field; // texts and numbers stored in their columns
mod line; // the line of an item
pub mod page; // a page of a unit
