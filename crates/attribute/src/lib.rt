// Values of attributes, read by their specifications, passed, skipped and handed back: gimli's
// read/unit.rs, parse_attribute, skip_attributes and their neighbours. Bytes are a part of a unit
// that starts at the offset `source.start`; a position counts from the part's first byte.

#![tactic(auto)]

pub mod ask; // gimli's questions to a value
pub mod form; // forms
pub mod parse; // values read
mod part; // parts and specifications that keep the sizes
pub mod pass; // values passed, nothing stored
pub mod raw; // what stands in the bytes
pub mod size; // sizes by form
pub mod skip; // values skipped
pub mod source; // the part that the bytes are
pub mod value; // AttributeValue, Attribute
