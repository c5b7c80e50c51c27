// The format and the encoding of a unit.

ghost use Rattle.std.specs.Prelude.{◌≡◌};
ghost use Rattle.reader.specs.Fields.{word_size, initial_length_size};

// The bytes that a section has at most.
pub const MAX_SECTION: usize = 0x7fff_ffff;

#[derive(Clone, Copy, Debug, PartialEq, Eq)]
pub enum Format {
    Dwarf64,
    Dwarf32,
}

// Kept (4): two sizes of one format; `From<Format> for u8` could be only one of them, and would not say which.
impl Format {
    // The bytes of an initial length.
    pub fn initial_length_size(self) -> u8
        ensures { result ≡ initial_length_size self }
    {
        match self {
            Format::Dwarf32 => 4,
            Format::Dwarf64 => 12,
        }
    }

    // The bytes of an offset or a length.
    pub fn word_size(self) -> u8
        ensures { result ≡ word_size self }
    {
        match self {
            Format::Dwarf32 => 4,
            Format::Dwarf64 => 8,
        }
    }
}

// What the header of a unit says of the values in it.
#[derive(Clone, Copy, Debug, PartialEq, Eq)]
pub struct Encoding {
    pub address_size: u8,
    pub format: Format,
    pub version: u16,
}
