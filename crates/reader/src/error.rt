// Refusals: one for each of document 01's questions 1 to 21, then those that requests add.

ghost use Rattle.std.specs.Prelude.{◌≡◌};
ghost use Rattle.reader.specs.Errors.{number_of};

#[derive(Clone, Copy, Debug, PartialEq, Eq)]
pub enum Error {
    // a size that document 01 sets is not kept
    SizeLimit = 1,
    // hit the end of input before it was expected
    UnexpectedEof = 2,
    BadUnsignedLeb128 = 3,
    BadSignedLeb128 = 4,
    // the first length word is reserved
    UnknownReservedLength = 5,
    // the version is not 2 to 5
    UnknownVersion = 6,
    // the width of an address, or of an offset of version 2, is not 1, 2, 4 or 8
    UnsupportedAddressSize = 7,
    UnknownUnitType = 8,
    AbbreviationTagZero = 9,
    InvalidAbbreviationChildren = 10,
    AttributeNameZero = 11,
    AttributeFormZero = 12,
    // an abbreviation has more attribute specifications than an entry has values
    TooManyAttributes = 13,
    DuplicateAbbreviationCode = 14,
    // the lent rows are full
    AbbreviationsFull = 15,
    // an entry's code is not in the table
    InvalidAbbreviationCode = 16,
    UnknownForm = 17,
    // an indirect form named DW_FORM_implicit_const
    InvalidImplicitConst = 18,
    OffsetOutOfBounds = 19,
    NoEntryAtGivenOffset = 20,
    // the tree has no root, or the level is not 1 to its entry's depth plus 1
    InvalidTreeLevel = 21,
    // no unit of .debug_types has the signature
    MissingTypeUnit = 22,
    // a lent page is shorter than a page of the sheet
    PageTooShort = 23,
}

impl From<Error> for u64 {
    ghost from_gives = { λ e n. n ≡ number_of e };

    fn from(error: Error) -> u64 {
        // Kept (4): the number of a case is had by `as` alone.
        error as u64
    }
}

impl Error {
    // The number of the question.
    pub fn number(self) -> u64
        ensures { result ≡ number_of self }
    {
        u64::from(self)
    }
}
