// Sines and cosines by one formula. The definition says what each function is; here each operation stands once.
ghost use Rattle.std.specs.Prelude.{◌≡◌, ◌≤◌};
ghost use Rattle.std.specs.Float.{NotNan};
ghost use Rattle.awk_numbers.specs.Angles.{bounded, by_octant, by_quarters, cosine, cosine_terms, sine, sine_terms};
ghost use Rattle.awk_numbers.specs.Angles.{small_cosine, small_sine, turned};

use crate::quarters::{angle, in_double, octant, to_quarter};

#[tactic(auto, unfolding(crate::specs::Angles::sine_terms))]
fn sine_terms(z: f64) -> f64
    ensures { result ≡ sine_terms z }
{
    let last = 2.7557313707070068e-06 - z * (2.5050760253406863e-08 - z * 1.58969099521155e-10);
    0.00833333333332249 - z * (0.0001984126982985795 - z * last)
}

#[tactic(auto, unfolding(crate::specs::Angles::small_sine))]
/// The sine of a sum from 0 to pi / 4.
fn small_sine(x: f64, y: f64) -> f64
    ensures { result ≡ small_sine x y }
{
    let z = x * x;
    let v = z * x;
    let beside = z * (0.5 * y - v * sine_terms(z)) - y;
    x - (beside + v * 0.16666666666666632)
}

#[tactic(auto, unfolding(crate::specs::Angles::cosine_terms))]
fn cosine_terms(z: f64) -> f64
    ensures { result ≡ cosine_terms z }
{
    let last = 2.7557314351390663e-07 - z * (2.087572321298175e-09 - z * 1.1359647557788195e-11);
    let rest = 0.001388888888887411 - z * (2.480158728947673e-05 - z * last);
    z * (0.0416666666666666 - z * rest)
}

#[tactic(auto, unfolding(crate::specs::Angles::small_cosine))]
/// The cosine of a sum from 0 to pi / 4.
fn small_cosine(x: f64, y: f64) -> f64
    ensures { result ≡ small_cosine x y }
{
    let z = x * x;
    let h = 0.5 * z;
    let w = 1.0 - h;
    let beside = (1.0 - w) - h;
    w + (beside + (z * cosine_terms(z) - x * y))
}

#[tactic(auto, unfolding(crate::specs::Angles::bounded))]
/// From 0 to a bound: that there is a result is then plain, whatever rounding does.
pub(crate) fn bounded(most: f64, x: f64) -> f64
    ensures { result ≡ bounded most x }
{
    if x <= most {
        if 0.0 <= x { x } else { 0.0 }
    } else {
        most
    }
}

#[tactic(auto, unfolding(crate::specs::Angles::by_octant))]
fn by_octant(o: u32, x: f64, y: f64) -> f64
    requires { o ≤ 7 }
    ensures { result ≡ by_octant o x y }
{
    let size = if 1 < (o + 1) % 4 {
        small_cosine(x, y)
    } else {
        small_sine(x, y)
    };
    let size = bounded(1.0, size);
    if 3 < o { -size } else { size }
}

#[tactic(auto, unfolding(crate::specs::Angles::by_quarters))]
fn by_quarters(start: u32, q: u128) -> f64
    requires { start ≤ 7 }
    ensures { result ≡ by_quarters start q }
{
    let (x, y) = angle(to_quarter(q));
    by_octant((octant(q) + start) % 8, x, y)
}

#[tactic(auto, unfolding(crate::specs::Angles::turned))]
/// The sine of so many eighths of a turn and an angle that is not below 0.
fn turned(start: u32, x: f64) -> f64
    requires eighths { start ≤ 7 }
    requires angle { NotNan x }
    ensures { result ≡ turned start x }
{
    if x <= 0.7853981633974483 {
        by_octant(start, x, 0.0)
    } else {
        by_quarters(start, in_double(x))
    }
}

#[tactic(auto, unfolding(crate::specs::Angles::sine))]
pub(crate) fn sine(x: f64) -> f64
    ensures { result ≡ sine x }
{
    if !x.is_finite() {
        return x;
    }
    turned(if x < 0.0 { 4 } else { 0 }, x.abs())
}

#[tactic(auto, unfolding(crate::specs::Angles::cosine))]
pub(crate) fn cosine(x: f64) -> f64
    ensures { result ≡ cosine x }
{
    if x.is_finite() { turned(2, x.abs()) } else { x }
}
