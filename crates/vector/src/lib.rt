// Numbers, points and vectors in the plane and in space, the cutting plane, rows of a flat slice, and the tolerance.
#![tactic(auto)]

ghost use Rattle.std.specs.Prelude.{◌≡◌, true, ◌+◌, ◌*◌, ◌<◌, ◌≤◌, length, map};
ghost use Rattle.std.specs.Float.{binary64, float_is_finite};
ghost use Rattle.std.specs.Float.Ieee.{div, lt};
ghost use Rattle.rows.specs.Refusals.{outcome_of};
ghost use Rattle.vector.specs.Number.{abs, f0};
ghost use Rattle.vector.specs.Vector.{IsEach, cross, deproject, diff, dist2, distance, dot, least_aligned_axis};
ghost use Rattle.vector.specs.Vector.{line_of, normal_along, plane_basis, plane_of, plus, project, scale, unit};
ghost use Rattle.vector.specs.Rows.{put, row};
ghost use Rattle.vector.specs.Scaled.{finite, power_below, scaled_normal, units_in};
ghost use Rattle.vector.specs.Tolerance.{column, extent, greater, lesser, magnitude, spread, tolerance, tolerance_of};

use rows::Refusal;
use std::ops::{Add, Div, Mul, Sub};

// A cutting plane: its origin, its unit normal and the two in-plane vectors.
#[derive(Clone, Copy)]
pub struct Plane {
    pub origin: [f64; 3],
    pub normal: [f64; 3],
    pub u: [f64; 3],
    pub v: [f64; 3],
}

impl Plane {
    // The plane through origin with this normal; none where a vector has no unit.
    pub fn new(origin: [f64; 3], normal: [f64; 3]) -> Option<Plane>
        ensures { result ≡ plane_of origin normal }
    {
        let normal = unit(normal)?;
        let (u, v) = plane_basis(normal)?;
        Some(Plane {
            origin,
            normal,
            u,
            v,
        })
    }

    // A plane that contains the line through origin with this direction. Its basis is (direction, e2), so
    // that the line is y = 0 there.
    pub fn of_line(origin: [f64; 3], direction: [f64; 3]) -> Option<Plane>
        ensures { result ≡ line_of origin direction }
    {
        let d = unit(direction)?;
        let seed = least_aligned_axis(d);
        let e2 = unit(cross(d, seed))?;
        let normal = cross(d, e2);
        Some(Plane {
            origin,
            normal,
            u: d,
            v: e2,
        })
    }

    // The coordinates of p in the plane.
    pub fn project(self, p: [f64; 3]) -> [f64; 2]
        ensures { result ≡ project self p }
    {
        let d = minus(p, self.origin);
        [dot(d, self.u), dot(d, self.v)]
    }

    // The point of space with the coordinates p in the plane.
    pub fn deproject(self, p: [f64; 2]) -> [f64; 3]
        ensures { result ≡ deproject self p }
    {
        let along_u = plus(self.origin, scale(self.u, p[0]));
        plus(along_u, scale(self.v, p[1]))
    }
}

// In-plane basis (u, v) with u x v = normal.
fn plane_basis(normal: [f64; 3]) -> Option<([f64; 3], [f64; 3])>
    ensures { result ≡ plane_basis normal }
{
    let seed = least_aligned_axis(normal);
    let d = dot(seed, normal);
    let u = unit(minus(seed, scale(normal, d)))?;
    let v = cross(normal, u);
    Some((u, v))
}

// Each coordinate divided by the norm; none where the norm is not greater than 0.
pub fn unit<const D: usize>(v: [f64; D]) -> Option<[f64; D]>
    ensures { result ≡ unit v.entry }
{
    let n = root::sqrt(dot(v, v));
    if n > 0.0 {
        return Some(divided(v, n));
    }
    None
}

// A normal times the power of two that brings its greatest absolute component to at least 1 and under 2, each product rounded once; none
// where a component is not finite. A zero vector is not scaled.
pub fn scaled_normal<const D: usize>(v: [f64; D]) -> Option<[f64; D]>
    ensures { result ≡ scaled_normal v.entry }
{
    if !is_finite(v) {
        return None;
    }
    let greatest = magnitude(&v);
    if greatest > 0.0 {
        return Some(divided(v, power_below(greatest)));
    }
    Some(v)
}

// Whether no component is NaN or infinite.
fn is_finite<const D: usize>(v: [f64; D]) -> bool
    ensures { result ≡ finite v.entry }
{
    for k in 0..D {
        if !v[k].is_finite() {
            return false;
        }
    }
    true
}

// The pattern of the least normal number, `f64::MIN_POSITIVE`. A pattern is its exponent times this, and digits.
const LEAST_NORMAL: u64 = 0x10_0000_0000_0000;

// The greatest power of two that is not above x. It is an f64 for every x, while 2^1074, which brings 2^-1074 to 1, is none. So a vector is
// divided by the one, and a quotient is rounded once.
fn power_below(x: f64) -> f64
    requires { (lt f0 x ≡ true) × (float_is_finite x ≡ true) }
    ensures { result ≡ power_below (units_in x) }
{
    let b = x.to_bits();
    if b < LEAST_NORMAL {
        return f64::from_bits(1 << b.ilog2());
    }
    f64::from_bits(b - b % LEAST_NORMAL)
}

// Each coordinate divided by n.
fn divided<const D: usize>(v: [f64; D], n: f64) -> [f64; D]
    ensures { result ≡ map (λ x. div binary64 x n) v.entry }
{
    each(Div::div, v, [n; D])
}

// The dot product, summed from plus zero.
pub fn dot<const D: usize>(a: [f64; D], b: [f64; D]) -> f64
    ensures { result ≡ dot a.entry b.entry }
{
    let mut s = 0.0;
    for k in 0..D {
        s += a[k] * b[k];
    }
    s
}

// The squared distance.
pub fn dist2<const D: usize>(a: [f64; D], b: [f64; D]) -> f64
    ensures { result ≡ dist2 a.entry b.entry }
{
    let d = minus(a, b);
    dot(d, d)
}

// The signed distance of p from the plane or line through origin with this normal.
pub fn distance<const D: usize>(p: [f64; D], origin: [f64; D], normal: [f64; D]) -> f64
    ensures { result ≡ distance origin.entry normal.entry p.entry }
{
    dot(minus(p, origin), normal)
}

// a - b.
pub fn minus<const D: usize>(a: [f64; D], b: [f64; D]) -> [f64; D]
    ensures { result ≡ diff a.entry b.entry }
{
    each(Sub::sub, a, b)
}

// a + b.
pub fn plus<const D: usize>(a: [f64; D], b: [f64; D]) -> [f64; D]
    ensures { result ≡ plus a.entry b.entry }
{
    each(Add::add, a, b)
}

// t times a.
pub fn scale<const D: usize>(a: [f64; D], t: f64) -> [f64; D]
    ensures { result ≡ scale t a.entry }
{
    each(Mul::mul, [t; D], a)
}

// An operation at each pair of coordinates.
fn each<const D: usize, F: Fn(f64, f64) -> f64>(f: F, a: [f64; D], b: [f64; D]) -> [f64; D]
    requires { F.IsAlwaysCallable f }
    ensures { IsEach (F.post f) a.entry b.entry result }
{
    let mut d = a;
    for k in 0..D {
        d[k] = f(a[k], b[k]);
    }
    d
}

// The cross product.
pub fn cross(a: [f64; 3], b: [f64; 3]) -> [f64; 3]
    ensures { result ≡ cross a b }
{
    [
        a[1] * b[2] - a[2] * b[1],
        a[2] * b[0] - a[0] * b[2],
        a[0] * b[1] - a[1] * b[0],
    ]
}

// Coordinate axis least aligned with a vector, used to build a well-conditioned basis.
pub fn least_aligned_axis(vector: [f64; 3]) -> [f64; 3]
    ensures { result ≡ least_aligned_axis vector }
{
    let a = absolute(vector[0]);
    let b = absolute(vector[1]);
    let c = absolute(vector[2]);
    if a <= b && a <= c {
        [1.0, 0.0, 0.0]
    } else if b <= c {
        [0.0, 1.0, 0.0]
    } else {
        [0.0, 0.0, 1.0]
    }
}

// The unit normal of a line in the plane with this direction. A normal given for the line is made unit by `unit`.
pub fn normal_along(direction: [f64; 2]) -> Option<[f64; 2]>
    ensures { result ≡ normal_along direction }
{
    let d = unit(direction)?;
    unit([-d[1], d[0]])
}

// Row i of points of D coordinates. Copied number by number: `copy_from_slice` of two or three calls `memcpy`. 20 million distances
// of points read so took 284 to 381 ms, and take 55 to 108 ms.
pub fn coord<const D: usize>(xs: &[f64], i: usize) -> [f64; D]
    requires { D * i + D ≤ length xs.now }
    ensures { result ≡ row D xs.now i }
{
    let mut p = [0.0; D];
    for k in 0..D {
        p[k] = xs[D * i + k];
    }
    p
}

// Writes p as row i of points of D coordinates, number by number as `coord` reads them.
pub fn put<const D: usize>(xs: &mut [f64], i: usize, p: [f64; D])
    requires { D * i + D ≤ length xs.old }
    ensures { xs.new ≡ put D xs.old i p.entry }
{
    for k in 0..D {
        xs[D * i + k] = p[k];
    }
}

// The tolerance of a mesh by its coordinates, D a row. That D is not 0 is asked here and in clip: a ghost field of `Cut` would hold it for
// six of ten functions there, and no value holds it for the others.
pub fn tolerance<const D: usize>(xs: &[f64]) -> Result<f64, Refusal>
    requires { 0 < D }
    ensures { outcome_of result ≡ tolerance_of D xs.now }
{
    if xs.len() % D != 0 {
        return Err(Refusal::PartialRow);
    }
    Ok(slice_tolerance::<D>(xs))
}

// Tolerance of the geometric predicates, scaled to the extent and the coordinates, D a row.
pub fn slice_tolerance<const D: usize>(xs: &[f64]) -> f64
    requires { 0 < D }
    ensures { result ≡ tolerance D xs.now }
{
    if xs.is_empty() {
        return 1e-12;
    }
    1e-12 * extent::<D>(xs) + 64.0 * f64::EPSILON * magnitude(xs)
}

// The greatest hi - lo over the axes, at least 0.
fn extent<const D: usize>(xs: &[f64]) -> f64
    requires { 0 < D }
    ensures { result ≡ extent D xs.now D }
{
    let mut e = 0.0;
    for k in 0..D {
        e = greater(e, spread::<D>(xs, k));
    }
    e
}

// hi - lo along axis k.
fn spread<const D: usize>(xs: &[f64], k: usize) -> f64
    requires { k < D }
    ensures { result ≡ spread (column D k xs.now) }
{
    let mut lo = f64::INFINITY;
    let mut hi = f64::NEG_INFINITY;
    for row in xs.chunks(D) {
        if let Some(&x) = row.get(k) {
            lo = lesser(lo, x);
            hi = greater(hi, x);
        }
    }
    hi - lo
}

// The greatest absolute coordinate, at least 0.
fn magnitude(xs: &[f64]) -> f64
    ensures { result ≡ magnitude xs.now }
{
    let mut m = 0.0;
    for &x in xs {
        m = greater(m, absolute(x));
    }
    m
}

// The lesser of a and b. A NaN b is passed over, and of zeros a stays. The library's `min` passes over a NaN a too.
fn lesser(a: f64, b: f64) -> f64
    ensures { result ≡ lesser a b }
{
    if b < a {
        return b;
    }
    a
}

// The greater of a and b. A NaN b is passed over, and of zeros a stays. The library's `max` passes over a NaN a too.
fn greater(a: f64, b: f64) -> f64
    ensures { result ≡ greater a b }
{
    if a < b {
        return b;
    }
    a
}

// The absolute value of x. Unlike the library's `abs` it leaves minus zero and NaN as they are (docs/RULES.md).
pub fn absolute(x: f64) -> f64
    ensures { result ≡ abs x }
{
    if x < 0.0 {
        return -x;
    }
    x
}
