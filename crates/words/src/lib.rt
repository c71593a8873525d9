// Words: numbers cut to a width, as units compute them and registers hold them.
// To cut a number is to divide it by a power of two, rounded toward minus infinity, and to read the low bits of that as two's complement.
// Exported: `cut`, for every number, drop and width, and `cut_laws`, whose contract states the laws of cut numbers.
#![tactic(auto)]

ghost use Rattle.std.specs.Prelude.{◌≡◌, ℕ, ◌^◌, ◌≤◌, ℤ};
ghost use Rattle.words.specs.Cut.{cut_to, floor_div, floor_mod, signed_of};
ghost use Rattle.words.specs.Laws.{CutLaws};

// v divided by 2^drop, rounded toward minus infinity; a shift by 63 or more leaves the sign alone.
fn shifted(v: i64, drop: u8) -> i64
    ensures { result ≡ floor_div v (2 ^ drop) }
{
    v.unbounded_shr(drop.into())
}

// The low `width` bits of z as two's complement: the others are shifted out at the top.
fn low_bits(z: i64, width: u8) -> i64
    requires least { 1 ≤ width }
    requires most { width ≤ 64 }
    ensures { result ≡ signed_of width (floor_mod z (2 ^ width)) }
{
    let free = 64 - width;
    (z << free) >> free
}

// The quotient z cut to `width` bits: the only number of 0 bits is 0, and 64 bits or more hold every z.
fn narrowed(z: i64, width: u8) -> i64
    ensures { (v : ℤ) (drop : ℕ) → z ≡ floor_div v (2 ^ drop) → result ≡ cut_to v drop width }
{
    match width {
        0 => 0,
        1..=63 => low_bits(z, width),
        _ => z,
    }
}

// v divided by 2^drop, rounded toward minus infinity, and of that the number of `width` bits that differs from it by a multiple of 2^width.
pub fn cut(v: i64, drop: u8, width: u8) -> i64
    ensures { result ≡ cut_to v drop width }
{
    narrowed(shifted(v, drop), width)
}

// The laws of cut numbers, proved.
pub fn cut_laws()
    ensures { CutLaws }
{}

#[cfg(test)]
mod tests {
    use super::*;

    // A number, what is dropped, the width, and the cut number.
    #[test]
    fn cuts(rt: HostRuntime) {
        let rows = [
            (-5i64, 1u8, 3u8, -3i64),
            (6, 0, 3, -2),
            (4611686018427387904, 63, 8, 0),
            (5, 0, 1, -1),
            (4, 0, 1, 0),
            (549755813888, 0, 40, -549755813888),
            (1649267441671, 2, 40, 412316860417),
            (9223372036854775807, 0, 63, -1),
            (9223372036854775807, 0, 64, 9223372036854775807),
            (-9223372036854775808, 0, 64, -9223372036854775808),
            (-1, 63, 8, -1),
            (-1, 64, 8, -1),
            (-1, 255, 8, -1),
            (9223372036854775807, 64, 8, 0),
            (-1, 0, 0, 0),
            (7, 0, 0, 0),
            (-9223372036854775808, 0, 65, -9223372036854775808),
            (-7, 1, 255, -4),
        ];
        for (v, drop, width, expected) in rows {
            assert_eq!(rt; cut(v, drop, width), expected);
        }
    }
}
