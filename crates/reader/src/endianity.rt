// The order of the bytes of a word.

ghost use Rattle.std.specs.Prelude.{◌≡◌, not};
ghost use Rattle.reader.specs.Words.{is_big};

#[derive(Clone, Copy, Debug, PartialEq, Eq)]
pub enum RunTimeEndian {
    Little,
    Big,
}

impl RunTimeEndian {
    pub fn is_big_endian(self) -> bool
        ensures { result ≡ is_big self }
    {
        self == RunTimeEndian::Big
    }

    pub fn is_little_endian(self) -> bool
        ensures { result ≡ not (is_big self) }
    {
        !self.is_big_endian()
    }
}
