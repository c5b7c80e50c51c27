// Words out of bytes.

// The little-endian words of 8 bytes in `bytes`; none where one does not fit a `T`, or `into` has too little room.
pub fn load<'a, T: Copy + TryFrom<u64, Error: Drop>>(
    bytes: &[u8],
    into: &'a mut [T],
) -> Option<&'a [T]> {
    let (chunks, _) = bytes.as_chunks();
    for (word, chunk) in into.iter_mut().zip(chunks) {
        *word = T::try_from(u64::from_le_bytes(*chunk)).ok()?;
    }
    into.get(..chunks.len())
}
