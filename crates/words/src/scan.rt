// A byte looked for in a slice.
ghost use Rattle.std.specs.Prelude.{◌≡◌, ◌≤◌, length};
ghost use Rattle.words.specs.Bytes.{index_of};

// The place of the first b in s; the length of s where it has none.
pub fn find(s: &[u8], b: u8) -> usize
    ensures { (result ≡ index_of b s.now) × (result ≤ length s.now) }
{
    s.iter().position(|&x| x == b).unwrap_or(s.len())
}
