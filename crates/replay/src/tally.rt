// Cases and differences counted, and what is written of them. A write that fails is passed over.

use crate::kind::{KINDS, Kind};

#[derive(Clone, Copy, Debug)]
pub struct Tally {
    cases: u64,
    differences: u64,
    kinds: [u64; KINDS],
}

impl Tally {
    pub fn new() -> Tally {
        Tally {
            cases: 0,
            differences: 0,
            kinds: [0; KINDS],
        }
    }

    // One case more, with its kind if it has one; a difference is told at once.
    pub fn count(&mut self, rt: &impl Print, kind: Option<Kind>, is_same: bool) {
        if let Some(kind) = kind {
            let cases = &mut self.kinds[kind as usize];
            *cases = cases.wrapping_add(1);
        }
        if !is_same {
            let _ = println!(rt; "case {} differs", self.cases);
            self.differences = self.differences.wrapping_add(1);
        }
        self.cases = self.cases.wrapping_add(1);
    }

    // A line for each kind, and the summary.
    pub fn say(&self, rt: &impl Print) {
        for (kind, cases) in Kind::ALL.iter().zip(&self.kinds) {
            let _ = println!(rt; "{kind} {cases}");
        }
        let _ = println!(rt; "{} cases, {} differences", self.cases, self.differences);
    }
}
