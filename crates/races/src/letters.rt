//! Values that tell the number of their set, so that one that is torn would be seen.

ghost use Rattle.std.specs.Prelude.{◌≤◌};

/// The value of the set with this number: from 1 to 91 letters, which go on from one that depends on the number.
pub fn value_at(number: u64) -> ([u8; 91], usize)
    ensures len { result.1 ≤ 91 }
{
    let first = (number % 26) as usize;
    let mut bytes = [0; 91];
    for i in 0..91 {
        bytes[i] = b'a' + ((first + i) % 26) as u8;
    }
    (bytes, (number % 91) as usize + 1)
}

/// Whether this is the value of the set with this number.
pub fn is_whole(len: u16, number: u64, out: &[u8]) -> bool {
    let (bytes, size) = value_at(number);
    len as usize == size && out.starts_with(&bytes[..size])
}
