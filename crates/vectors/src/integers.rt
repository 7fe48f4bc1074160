// Bytes and integers at a place, the highest byte first. Where there are too few bytes they are none, or zeros.

// The bytes from a place on.
pub fn from(s: &[u8], at: usize) -> &[u8] {
    s.get(at..).unwrap_or(&[])
}

// The n bytes at a place.
pub fn part(s: &[u8], at: usize, n: usize) -> &[u8] {
    from(s, at).get(..n).unwrap_or(&[])
}

// The bytes of an array at a place.
pub fn bytes_at<const N: usize>(s: &[u8], at: usize) -> [u8; N] {
    let mut out = [0; N];
    texts::add(part(s, at, N), 0, &mut out);
    out
}

// The number of two bytes at a place.
pub fn u16_at(s: &[u8], at: usize) -> u16 {
    u16::from_be_bytes(bytes_at(s, at))
}
