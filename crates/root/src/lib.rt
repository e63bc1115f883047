// The square root of an f64 as IEEE 754 has it, to nearest with ties to even, worked out from the bits.
#![tactic(auto)]

ghost use Rattle.std.specs.Prelude.{◌≡◌, ◌+◌, ◌*◌, ◌^◌, ◌<◌, not, ◌&&◌, T, from_bits, nat_le, nat_lt};
ghost use Rattle.std.specs.Float.{binary64};
ghost use Rattle.std.specs.Float.Ieee.{nan_bits};
ghost use Rattle.root.specs.Root.{root_of, sqrt_of};
ghost use Rattle.root.specs.Code.{Leading, Nearest, Scales, Whole};

mod seed;

use seed::seed;

// The square root of x, correctly rounded; NaN for a negative number other than -0.
pub fn sqrt(x: f64) -> f64
    ensures { result ≡ sqrt_of binary64 x }
{
    if x.is_nan() {
        x
    } else {
        root_of_bits(x.to_bits())
    }
}

// The pattern of 1, the squared norm of unit vectors: axes, and normals that are unit already, take no root.
const ONE: u64 = 0x3ff0_0000_0000_0000;

const INFINITY: u64 = 0x7ff0_0000_0000_0000;

const MINUS_ZERO: u64 = 0x8000_0000_0000_0000;

// The pattern of the smallest normal number: the exponents of patterns count in it.
const NORMAL: u64 = 0x10_0000_0000_0000;

// The root of what a pattern stands for, which is no NaN.
fn root_of_bits(b: u64) -> f64
    requires { T (not (nan_bits binary64 b)) }
    ensures { result ≡ sqrt_of binary64 (from_bits binary64 b) }
{
    match b {
        0 => 0.0,
        ONE => 1.0,
        INFINITY => f64::INFINITY,
        MINUS_ZERO => -0.0,
        MINUS_ZERO.. => f64::NAN,
        ..NORMAL => root_of(b, 0),
        _ => root_of(b % NORMAL + NORMAL, b / NORMAL - 1),
    }
}

// The root of d * 2^j units of 2^-1074.
fn root_of(d: u64, j: u64) -> f64
    requires { (0 < d) × (d < 2 ^ 53) × (j < 2046) }
    ensures { result ≡ root_of binary64 (d * 2 ^ j) }
{
    let s = scaled(d, j);
    f64::from_bits(s.k * NORMAL + s.m.nearest())
}

// m * 2^52 * 4^k units of 2^-1074.
#[derive(Clone, Copy)]
struct Parts {
    m: Radicand,
    k: u64,
}

// d * 2^j units with d's leading digit moved to place 52 or 53, whichever leaves an even exponent.
fn scaled(d: u64, j: u64) -> Parts
    requires { (0 < d) × (d < 2 ^ 53) × (j < 2046) }
    ensures { Scales d j result.m.m result.k }
{
    let top = u64::from(d.leading_zeros()) - 10;
    let s = top - (j + top) % 2;
    Parts {
        m: Radicand { m: d << s },
        k: (j + 1022 - s) / 2,
    }
}

// A number whose leading digit has the place 52 or 53.
#[derive(Clone, Copy)]
struct Radicand {
    m: u64,
    ghost leading: { Leading m },
}

impl Radicand {
    // The whole number nearest to the root of m * 2^52. The estimate is tested, so its error costs time
    // only; where neither it nor the next number passes, the root is taken digit by digit.
    fn nearest(self) -> u64
        ensures { Nearest self.m result }
    {
        let q = self.estimate();
        if self.is_nearest(q) {
            return q;
        }
        if self.is_nearest(q + 1) {
            return q + 1;
        }
        (root54(self.m) + 1) / 2
    }

    // The root of m * 2^52, or one less, but for one m in a thousand. Of x = m / 2^54, y is 2^30 / root(x)
    // to 26 digits and s the root to 32, a little below; what is left of x then gives the other digits.
    fn estimate(self) -> u64
        ensures { result + 1 < 2 ^ 54 }
    {
        let x = (self.m / 0x40_0000) as u32;
        let y = newton(x, newton(x, seed(self)));
        let (x, y) = (u64::from(x), u64::from(y));
        let s = (x * y / 0x4000_0000 + 0xffff_fffa) % 0x1_0000_0000;
        let rest = (self.m * 1024).wrapping_sub(s * s) / 64 % 0x8000_0000;
        s * 0x20_0000 + (rest * y + 0x8_0000_0000) / 0x10_0000_0000
    }

    // Whether q is the whole number nearest to the root of m * 2^52.
    fn is_nearest(self, q: u64) -> bool
        ensures { result ≡ nat_lt (q * q) (self.m * 2 ^ 52 + q) && nat_le (self.m * 2 ^ 52) (q * q + q) }
    {
        let n = u128::from(self.m) << 52;
        let q = u128::from(q);
        q * q < n + q && n <= q * q + q
    }
}

// A step of Newton's from y towards 2^30 / root(x / 2^32): y * (3 - x * y * y) / 2 in these units.
fn newton(x: u32, y: u32) -> u32 {
    let (x, y) = (u64::from(x), u64::from(y));
    let square = y * y / 0x8000_0000 % 0x1_0000_0000;
    let gap = (0x2_c000_0000 - x * square / 0x8000_0000) % 0x1_0000_0000;
    (y * gap / 0x8000_0000 % 0x1_0000_0000) as u32
}

// The whole part of the root of m * 2^54, digit by digit, from the top: the remainder r takes two
// digits of m, and q one digit of the root.
fn root54(m: u64) -> u64
    requires { m < 2 ^ 54 }
    ensures { Whole (m * 2 ^ 54) result }
{
    let mut rest = m;
    let mut q: u64 = 0;
    let mut r: u64 = 0;
    for _ in 0..54u64 {
        let next = 4 * r + rest / 0x10_0000_0000_0000;
        let odd = 4 * q + 1;
        rest = rest % 0x10_0000_0000_0000 * 4;
        if odd <= next {
            r = next - odd;
            q = 2 * q + 1;
        } else {
            r = next;
            q = 2 * q;
        }
    }
    q
}
