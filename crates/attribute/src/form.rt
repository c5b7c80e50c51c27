// Forms: how a form's values stand in the bytes, and which case of `AttributeValue` they are.

ghost use Rattle.std.specs.Prelude.{◌≡◌};
ghost use Rattle.attribute.specs.Forms.{row, case_of};

// How a value stands in the bytes.
#[derive(Clone, Copy, Debug, PartialEq, Eq)]
pub enum Layout {
    U8,
    U16,
    U24,
    U32,
    U64,
    U128,
    // 4 bytes, 8 in the 64-bit format
    Offset,
    Address,
    // an address in version 2, else an offset
    RefAddr,
    Uleb128,
    Sleb128,
    // a count of 1, 2 or 4 bytes or a LEB128 number, then as many bytes
    Block1,
    Block2,
    Block4,
    Block,
    // up to a zero byte
    NullTerminated,
    // no bytes: true
    Present,
    // no bytes: the specification's own constant
    ImplicitConst,
    Unknown,
}

// The cases of `AttributeValue` without their values.
#[derive(Clone, Copy, Debug, PartialEq, Eq)]
pub enum Kind {
    Addr,
    Block,
    Data1,
    Data2,
    Data4,
    Data8,
    Data16,
    Sdata,
    Udata,
    Exprloc,
    Flag,
    SecOffset,
    DebugAddrIndex,
    UnitRef,
    DebugInfoRef,
    DebugInfoRefSup,
    DebugLocListsIndex,
    DebugRngListsIndex,
    DebugTypesRef,
    DebugStrRef,
    DebugStrRefSup,
    DebugStrOffsetsIndex,
    DebugLineStrRef,
    String,
}

// What the numbers of a value are.
#[derive(Clone, Copy, Debug, PartialEq, Eq)]
pub enum Sort {
    // a constant of so many bytes
    Constant(u8),
    Unsigned,
    // in two's complement of 64 bits
    Signed,
    // 1 or 0
    Flag,
    // the low and the high 64 bits
    Halves,
    // the place and the length of a block or an expression
    Span,
    // the same of a string
    String,
    // an offset into a section
    Offset,
    Other,
}

// A case of `AttributeValue`: its number, in gimli's order from 1 on, what its numbers are, and
// whether it points out of the unit.
#[derive(Clone, Copy, Debug, PartialEq, Eq)]
pub struct Case {
    pub number: u8,
    pub sort: Sort,
    pub outward: bool,
}

#[derive(Clone, Copy, Debug, PartialEq, Eq)]
pub struct Row {
    pub layout: Layout,
    pub kind: Kind,
}

// The row of a form, one to a line.
// Kept (1): a form is DWARF's own number, and the bytes can hold any: an enum of forms would be made by a match
// of these 43 numbers, and matched here once more.
#[tactic(auto, unfolding(crate::specs::Forms::row, crate::specs::Forms::row_in, crate::specs::Forms::forms))]
pub(crate) fn row_of(form: u64) -> Row
    ensures { result ≡ row form }
{
    let (layout, kind) = match form {
        0x01 => (Layout::Address, Kind::Addr), // addr
        0x03 => (Layout::Block2, Kind::Block), // block2
        0x04 => (Layout::Block4, Kind::Block), // block4
        0x05 => (Layout::U16, Kind::Data2), // data2
        0x06 => (Layout::U32, Kind::Data4), // data4
        0x07 => (Layout::U64, Kind::Data8), // data8
        0x08 => (Layout::NullTerminated, Kind::String), // string
        0x09 => (Layout::Block, Kind::Block), // block
        0x0a => (Layout::Block1, Kind::Block), // block1
        0x0b => (Layout::U8, Kind::Data1), // data1
        0x0c => (Layout::U8, Kind::Flag), // flag
        0x0d => (Layout::Sleb128, Kind::Sdata), // sdata
        0x0e => (Layout::Offset, Kind::DebugStrRef), // strp
        0x0f => (Layout::Uleb128, Kind::Udata), // udata
        0x10 => (Layout::RefAddr, Kind::DebugInfoRef), // ref_addr
        0x11 => (Layout::U8, Kind::UnitRef), // ref1
        0x12 => (Layout::U16, Kind::UnitRef), // ref2
        0x13 => (Layout::U32, Kind::UnitRef), // ref4
        0x14 => (Layout::U64, Kind::UnitRef), // ref8
        0x15 => (Layout::Uleb128, Kind::UnitRef), // ref_udata
        0x17 => (Layout::Offset, Kind::SecOffset), // sec_offset
        0x18 => (Layout::Block, Kind::Exprloc), // exprloc
        0x19 => (Layout::Present, Kind::Flag), // flag_present
        0x1a | 0x1f02 => (Layout::Uleb128, Kind::DebugStrOffsetsIndex), // strx, GNU_str_index
        0x1b | 0x1f01 => (Layout::Uleb128, Kind::DebugAddrIndex), // addrx, GNU_addr_index
        0x1c => (Layout::U32, Kind::DebugInfoRefSup), // ref_sup4
        0x1d | 0x1f21 => (Layout::Offset, Kind::DebugStrRefSup), // strp_sup, GNU_strp_alt
        0x1e => (Layout::U128, Kind::Data16), // data16
        0x1f => (Layout::Offset, Kind::DebugLineStrRef), // line_strp
        0x20 => (Layout::U64, Kind::DebugTypesRef), // ref_sig8
        0x21 => (Layout::ImplicitConst, Kind::Sdata), // implicit_const
        0x22 => (Layout::Uleb128, Kind::DebugLocListsIndex), // loclistx
        0x23 => (Layout::Uleb128, Kind::DebugRngListsIndex), // rnglistx
        0x24 => (Layout::U64, Kind::DebugInfoRefSup), // ref_sup8
        0x25 => (Layout::U8, Kind::DebugStrOffsetsIndex), // strx1
        0x26 => (Layout::U16, Kind::DebugStrOffsetsIndex), // strx2
        0x27 => (Layout::U24, Kind::DebugStrOffsetsIndex), // strx3
        0x28 => (Layout::U32, Kind::DebugStrOffsetsIndex), // strx4
        0x29 => (Layout::U8, Kind::DebugAddrIndex), // addrx1
        0x2a => (Layout::U16, Kind::DebugAddrIndex), // addrx2
        0x2b => (Layout::U24, Kind::DebugAddrIndex), // addrx3
        0x2c => (Layout::U32, Kind::DebugAddrIndex), // addrx4
        0x1f20 => (Layout::Offset, Kind::DebugInfoRefSup), // GNU_ref_alt
        _ => (Layout::Unknown, Kind::Udata),
    };
    Row { layout, kind }
}

impl Kind {
    pub fn case(self) -> Case
        ensures { result ≡ case_of self }
    {
        Case {
            number: self as u8 + 1,
            sort: self.sort(),
            outward: self.is_outward(),
        }
    }

    // Kept (4): a kind is no sort, but has one, as twelve have `Other`; a `From` would be this match behind
    // `Sort::from(self)`.
    fn sort(self) -> Sort
        ensures { result ≡ (case_of self).sort }
    {
        match self {
            Kind::Data1 => Sort::Constant(1),
            Kind::Data2 => Sort::Constant(2),
            Kind::Data4 => Sort::Constant(4),
            Kind::Data8 => Sort::Constant(8),
            Kind::Udata => Sort::Unsigned,
            Kind::Sdata => Sort::Signed,
            Kind::Flag => Sort::Flag,
            Kind::Data16 => Sort::Halves,
            Kind::Block | Kind::Exprloc => Sort::Span,
            Kind::String => Sort::String,
            Kind::SecOffset => Sort::Offset,
            _ => Sort::Other,
        }
    }

    // Whether it points out of its unit.
    fn is_outward(self) -> bool
        ensures { result ≡ (case_of self).outward }
    {
        matches!(
            self,
            Kind::SecOffset
                | Kind::DebugInfoRef
                | Kind::DebugInfoRefSup
                | Kind::DebugTypesRef
                | Kind::DebugStrRef
                | Kind::DebugStrRefSup
                | Kind::DebugLineStrRef
        )
    }
}
