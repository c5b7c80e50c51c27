// Entries by value, and gimli's questions to one.

ghost use Rattle.std.specs.Prelude.{◌≡◌, pos};
ghost use Rattle.abbrev.specs.Table.{entry_limit};
ghost use Rattle.attribute.specs.Views.{view_number};
ghost use Rattle.entries.specs.Entry.{null_entry, is_null, attr_of, sibling_of, jump_of};
ghost use Rattle.entries.specs.Views.{view_entry, view_named, view_named_value, is_some, value_in};

use attribute::value::{Attribute, AttributeValue};

// gimli's `DebuggingInformationEntry`. Places past `count` hold one fixed attribute.
// Kept (6): 01's form for an entry, an array of 64 attributes and a count, by value (no heap).
#[derive(Clone, Copy)]
pub struct Entry {
    pub tag: u16,
    pub has_children: bool,
    pub offset: usize,
    pub depth: i64,
    pub count: usize,
    pub attrs: [Attribute; 64],
}

// DW_AT_sibling.
pub(crate) const SIBLING: u16 = 1;

impl Entry {
    // A null at offset and depth 0.
    pub fn null() -> Entry
        ensures { view_entry result ≡ null_entry entry_limit.most 0 (pos 0) }
    {
        null_at(0, 0)
    }

    pub fn is_null(self) -> bool
        ensures { result ≡ is_null (view_entry self) }
    {
        self.tag == 0
    }

    // gimli's `attr`.
    pub fn attr(self, name: u16) -> Option<Attribute>
        ensures { view_named result ≡ attr_of name (view_entry self) }
    {
        self.attrs
            .iter()
            .take(self.count)
            .find(|attribute| attribute.name == name)
            .copied()
    }

    pub fn has_attr(self, name: u16) -> bool
        ensures { result ≡ is_some (attr_of name (view_entry self)) }
    {
        self.attr(name).is_some()
    }

    // gimli's `attr_value_raw`.
    pub fn attr_value_raw(self, name: u16) -> Option<AttributeValue>
        ensures { view_named_value result ≡ value_in (attr_of name (view_entry self)) }
    {
        self.attr(name).map(|attribute| attribute.value)
    }

    // gimli's `sibling`.
    #[tactic(auto, unfolding(crate::specs::Entry::sibling_of))]
    pub fn sibling(self) -> Option<u64>
        ensures { view_number result ≡ sibling_of (view_entry self) }
    {
        match self.attr_value_raw(SIBLING) {
            Some(AttributeValue::UnitRef(target)) if (self.offset as u64) < target => Some(target),
            _ => None,
        }
    }

    // The jump that an entry with children offers, not before `next` and not past `end`.
    #[tactic(auto, unfolding(crate::specs::Entry::jump_of))]
    pub fn jump(self, next: usize, end: usize) -> Option<u64>
        ensures { view_number result ≡ jump_of (view_entry self) next end }
    {
        if !self.has_children {
            return None;
        }
        match self.sibling() {
            Some(target) if (next as u64..=end as u64).contains(&target) => Some(target),
            _ => None,
        }
    }
}

// A null where it stands.
// Kept (5): the other two functions are C's `tehkumir_list`, where offset and depth are parts of a place; here they
// are mostly a state's own place and depth.
pub fn null_at(offset: usize, depth: i64) -> Entry
    ensures { view_entry result ≡ null_entry entry_limit.most offset depth }
{
    Entry {
        tag: 0,
        has_children: false,
        offset,
        depth,
        count: 0,
        attrs: [Attribute::none(); 64],
    }
}
