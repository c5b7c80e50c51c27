// Sizes by form.

ghost use Rattle.std.specs.Prelude.{◌≡◌};
ghost use Rattle.attribute.specs.Read.{ref_addr_size};
ghost use Rattle.attribute.specs.Skip.{attribute_size};
ghost use Rattle.attribute.specs.Views.{view_number};

use reader::common::Encoding;

// The sizes of the forms from 0 to 0x2c that have the same in every unit. As a constant the table
// would be put together on the stack for each value.
static SIZES: [Option<u8>; 45] = [
    None, // no form
    None, // 0x01 addr
    None, // no form
    None, // 0x03 block2
    None, // 0x04 block4
    Some(2), // 0x05 data2
    Some(4), // 0x06 data4
    Some(8), // 0x07 data8
    None, // 0x08 string
    None, // 0x09 block
    None, // 0x0a block1
    Some(1), // 0x0b data1
    Some(1), // 0x0c flag
    None, // 0x0d sdata
    None, // 0x0e strp
    None, // 0x0f udata
    None, // 0x10 ref_addr
    Some(1), // 0x11 ref1
    Some(2), // 0x12 ref2
    Some(4), // 0x13 ref4
    Some(8), // 0x14 ref8
    None, // 0x15 ref_udata
    None, // 0x16 indirect
    None, // 0x17 sec_offset
    None, // 0x18 exprloc
    Some(0), // 0x19 flag_present
    None, // 0x1a strx
    None, // 0x1b addrx
    Some(4), // 0x1c ref_sup4
    None, // 0x1d strp_sup
    Some(16), // 0x1e data16
    None, // 0x1f line_strp
    Some(8), // 0x20 ref_sig8
    Some(0), // 0x21 implicit_const
    None, // 0x22 loclistx
    None, // 0x23 rnglistx
    Some(8), // 0x24 ref_sup8
    Some(1), // 0x25 strx1
    Some(2), // 0x26 strx2
    Some(3), // 0x27 strx3
    Some(4), // 0x28 strx4
    Some(1), // 0x29 addrx1
    Some(2), // 0x2a addrx2
    Some(3), // 0x2b addrx3
    Some(4), // 0x2c addrx4
];

// The size of DW_FORM_ref_addr.
// Kept (4): one size that an encoding gives of three; `u8::from(encoding)` would not say which.
pub(crate) fn ref_addr_size(encoding: Encoding) -> u8
    ensures { result ≡ ref_addr_size encoding }
{
    if encoding.version == 2 {
        encoding.address_size
    } else {
        encoding.format.word_size()
    }
}

// None where the bytes decide, or the form is not known.
// Kept (1): forms are DWARF's own numbers. By the layout of `row_of`, with no table of sizes, seven values of a
// known size were skipped in 38 ns for 22 (tried).
#[tactic(auto, unfolding(crate::specs::Skip::attribute_size, crate::specs::Skip::ending_of, crate::specs::Forms::row, crate::specs::Forms::row_in, crate::specs::Forms::forms))]
pub fn get_attribute_size(form: u64, encoding: Encoding) -> Option<u8>
    ensures { view_number result ≡ attribute_size form encoding }
{
    if form < 0x2d
        && let Some(size) = SIZES[form as usize]
    {
        return Some(size);
    }
    match form {
        0x01 => Some(encoding.address_size), // addr
        0x10 => Some(ref_addr_size(encoding)), // ref_addr
        // strp, sec_offset, strp_sup, line_strp
        0x0e | 0x17 | 0x1d | 0x1f => Some(encoding.format.word_size()),
        // GNU_ref_alt, GNU_strp_alt
        0x1f20 | 0x1f21 => Some(encoding.format.word_size()),
        _ => None,
    }
}
