// The raw reader lent: gimli's EntriesRaw, whose calls take `&mut self`. The by-value calls of
// `entries` do the work.

#![tactic(auto)]

pub mod call; // one call by its number
pub mod held; // a state held by value, lent for one call
pub mod raw; // the lent calls
