// A line of input, of which no more is kept than it takes to read it as a rule.
ghost use Rattle.std.specs.Prelude.{◌≡◌, ◌≤◌, length};

mod methods;

// One byte more than a rule may have: what is longer is refused for its length all the same.
const MAX_KEPT: usize = 513;

// The first bytes of a line, at most 513: the first `count` of the array. An array, and no growing vector, since
// taking a byte in must not fail for want of memory. With a model for the bytes alone, a copy would have to give back
// the unused places too, and each `clear` to fill them, so the count stands beside the array.
#[derive(Clone, Copy)]
pub struct LineBuffer {
    bytes: [u8; MAX_KEPT],
    count: usize,
    ghost long: { length bytes ≡ 513 },
    ghost within: { count ≤ 513 },
}
