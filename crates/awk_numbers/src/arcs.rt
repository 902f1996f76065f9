// The angle of a point by one formula. The definition says what each function is; here each operation stands once.
ghost use Rattle.std.specs.Prelude.{◌≡◌};
ghost use Rattle.awk_numbers.specs.Arcs.{added, angle_of, arc, arc_terms, beside_known, by_ratio, even_terms};
ghost use Rattle.awk_numbers.specs.Arcs.{from_half, from_nothing, from_one, negative, odd_terms, of_sizes, scale};
ghost use Rattle.awk_numbers.specs.Arcs.{to_half_turn, to_quarter_turn};

use crate::angles::bounded;
use crate::formula::high;

#[tactic(auto, unfolding(crate::specs::Arcs::even_terms))]
fn even_terms(w: f64) -> f64
    ensures { result ≡ even_terms w }
{
    let last = 0.049768779946159324 + w * 0.016285820115365782;
    let rest = 0.09090887133436507 + w * (0.06661073137387531 + w * last);
    0.3333333333333293 + w * (0.14285714272503466 + w * rest)
}

#[tactic(auto, unfolding(crate::specs::Arcs::odd_terms))]
fn odd_terms(w: f64) -> f64
    ensures { result ≡ odd_terms w }
{
    let last = 0.058335701337905735 + w * 0.036531572744216916;
    let rest = 0.11111110405462356 + w * (0.0769187620504483 + w * last);
    0.19999999999876483 + w * rest
}

#[tactic(auto, unfolding(crate::specs::Arcs::arc_terms))]
/// What the arc of `t` is less than `t`.
fn arc_terms(t: f64) -> f64
    ensures { result ≡ arc_terms t }
{
    let z = t * t;
    let w = z * z;
    t * (z * even_terms(w) - w * odd_terms(w))
}

#[tactic(auto, unfolding(crate::specs::Arcs::from_nothing))]
fn from_nothing(y: f64, x: f64, t: f64) -> (f64, f64)
    ensures { result ≡ from_nothing y x t }
{
    let h = high(t);
    let k = high(x);
    (h, ((y - h * k) - h * (x - k)) / x - arc_terms(t))
}

#[tactic(auto, unfolding(crate::specs::Arcs::beside_known))]
fn beside_known(t: f64, l: f64) -> f64
    ensures { result ≡ beside_known t l }
{
    t - (arc_terms(t) - l)
}

#[tactic(auto, unfolding(crate::specs::Arcs::from_half))]
fn from_half(y: f64, x: f64) -> (f64, f64)
    ensures { result ≡ from_half y x }
{
    let t = (2.0 * y - x) / (2.0 * x + y);
    (0.4636476090008061, beside_known(t, 2.2698777452961687e-17))
}

#[tactic(auto, unfolding(crate::specs::Arcs::from_one))]
fn from_one(y: f64, x: f64) -> (f64, f64)
    ensures { result ≡ from_one y x }
{
    let t = (y - x) / (y + x);
    (0.7853981633974483, beside_known(t, 3.061616997868383e-17))
}

#[tactic(auto, unfolding(crate::specs::Arcs::by_ratio))]
fn by_ratio(y: f64, x: f64, t: f64) -> (f64, f64)
    ensures { result ≡ by_ratio y x t }
{
    if t < 0.4375 {
        from_nothing(y, x, t)
    } else if t < 0.6875 {
        from_half(y, x)
    } else {
        from_one(y, x)
    }
}

#[tactic(auto, unfolding(crate::specs::Arcs::scale))]
/// A power of two by which `x` is neither too large nor too small for the products.
fn scale(x: f64) -> f64
    ensures { result ≡ scale x }
{
    if 4.149515568880993e180 < x {
        2.409919865102884e-181
    } else if x < 2.409919865102884e-181 {
        4.149515568880993e180
    } else {
        1.0
    }
}

#[tactic(auto, unfolding(crate::specs::Arcs::arc))]
/// The arc of `y / x`, which is from 0 to 1, as two doubles.
fn arc(y: f64, x: f64) -> (f64, f64)
    ensures { result ≡ arc y x }
{
    let t = y / x;
    if t < 7.450580596923828e-09 {
        return (t, 0.0);
    }
    let unit = scale(x);
    by_ratio(y * unit, x * unit, t)
}

#[tactic(auto, unfolding(crate::specs::Arcs::added))]
fn added(b: f64, c: f64, z: (f64, f64)) -> f64
    ensures { result ≡ added b c z }
{
    let s = b + z.0;
    s + (((b - s) + z.0) + (c + z.1))
}

fn negative(z: (f64, f64)) -> (f64, f64)
    ensures { result ≡ negative z }
{
    (-z.0, -z.1)
}

#[tactic(auto, unfolding(crate::specs::Arcs::to_half_turn))]
fn to_half_turn(z: (f64, f64)) -> f64
    ensures { result ≡ to_half_turn z }
{
    added(3.141592653589793, 1.2246467991473532e-16, z)
}

#[tactic(auto, unfolding(crate::specs::Arcs::to_quarter_turn))]
fn to_quarter_turn(z: (f64, f64)) -> f64
    ensures { result ≡ to_quarter_turn z }
{
    added(1.5707963267948966, 6.123233995736766e-17, z)
}

#[tactic(auto, unfolding(crate::specs::Arcs::of_sizes))]
/// The angle of a point whose coordinates have these sizes: the second one is not below 0.
fn of_sizes(y: f64, x: f64, is_below: bool) -> f64
    ensures { result ≡ of_sizes y x is_below }
{
    if y <= x {
        let z = arc(y, x);
        if is_below {
            to_half_turn(negative(z))
        } else {
            z.0 + z.1
        }
    } else {
        let z = arc(x, y);
        to_quarter_turn(if is_below { z } else { negative(z) })
    }
}

#[tactic(auto, unfolding(crate::specs::Arcs::angle_of))]
/// The angle of the point (x, y), from -pi to pi.
pub(crate) fn angle_of(y: f64, x: f64) -> f64
    ensures { result ≡ angle_of y x }
{
    if y == 0.0 && x == 0.0 {
        return 0.0;
    }
    let size = bounded(3.141592653589793, of_sizes(y.abs(), x.abs(), x < 0.0));
    if y < 0.0 { -size } else { size }
}
