// Unit headers, the unit list and parts of a unit: the first part of gimli's read/unit.rs.

#![tactic(auto)]

pub mod header; // UnitHeader and its questions
pub mod parse; // a header read
pub mod range; // parts of a unit
pub mod table; // the table that a header points to
pub mod units; // the units of .debug_info, one after the other
