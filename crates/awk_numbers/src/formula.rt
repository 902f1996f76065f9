// A power of doubles by one formula: the logarithm to the base 2 in two doubles, times the power, and 2 to that. The
// definition says what each function is; here each operation stands once.
ghost use Rattle.std.specs.Prelude.{◌≡◌};
ghost use Rattle.awk_numbers.specs.Formula.{beside, beyond_line, by_interval, by_logarithm, exponent, fitted};
ghost use Rattle.awk_numbers.specs.Formula.{from_ratio, gathered, grown, high, logarithm, near, power, product_high};
ghost use Rattle.awk_numbers.specs.Formula.{natural_logarithm, natural_power, product_low, scaled_low, series};
ghost use Rattle.awk_numbers.specs.Formula.{shifted, significand, small_power, sum_high, sum_low, terms, times_power};
ghost use Rattle.awk_numbers.specs.Formula.{two_power, unscaled, whole_high, whole_low, within};

/// The weight of a double's exponent in its bits: 2^52.
pub(crate) const HIDDEN: u64 = 0x10_0000_0000_0000;

/// 2^27 + 1: a double times this has the first half of its digits.
const SPLITTER: f64 = 134217729.0;

/// 1.5 * 2^52: more than this by a number is a double without a fraction.
const ROUNDER: f64 = 6755399441055744.0;

/// 1.5 * 2^32: more than this by a number has no digits beyond 2^-20.
const FEW_DIGITS: f64 = 6442450944.0;

/// 2 to this power is 0.
const NOTHING: f64 = -1100.0;

/// 2^64.
const MOST: f64 = 18446744073709551616.0;

const LEAST: f64 = -18446744073709551616.0;

#[tactic(auto, unfolding(crate::specs::Formula::high))]
/// The first half of the digits.
pub(crate) fn high(x: f64) -> f64
    ensures { result ≡ high x }
{
    let product = x * SPLITTER;
    product - (product - x)
}

#[tactic(auto, unfolding(crate::specs::Formula::significand))]
/// The number from 1 to below 2 that `x` is times a power of two.
fn significand(x: f64) -> f64
    ensures { result ≡ significand x }
{
    if x.is_nan() {
        return x;
    }
    f64::from_bits(0x3ff0_0000_0000_0000 + x.to_bits() % HIDDEN)
}

#[tactic(auto, unfolding(crate::specs::Formula::exponent))]
/// The power of two.
fn exponent(x: f64) -> f64
    ensures { result ≡ exponent x }
{
    if x.is_nan() {
        return x;
    }
    f64::from_bits(0x4330_0000_0000_0000 + x.to_bits() / HIDDEN % 2048) - 4503599627371519.0
}

#[tactic(auto, unfolding(crate::specs::Formula::series))]
fn series(z: f64) -> f64
    ensures { result ≡ series z }
{
    let last = 0.23066074577556175 + z * 0.20697501780033842;
    let rest = 0.33333332981837743 + z * (0.272728123808534 + z * last);
    z * z * (0.5999999999999946 + z * (0.4285714285785502 + z * rest))
}

#[tactic(auto, unfolding(crate::specs::Formula::beside))]
/// What (m - b) / (m + b) is beside `h`.
fn beside(m: f64, b: f64, v: f64, h: f64) -> f64
    ensures { result ≡ beside m b v h }
{
    let t = high(m + b);
    v * (((m - b) - h * t) - h * (m - (t - b)))
}

#[tactic(auto, unfolding(crate::specs::Formula::terms))]
fn terms(s: f64, h: f64, l: f64) -> f64
    ensures { result ≡ terms s h l }
{
    series(s * s) + l * (h + s)
}

#[tactic(auto, unfolding(crate::specs::Formula::sum_high))]
fn sum_high(h: f64, r: f64) -> f64
    ensures { result ≡ sum_high h r }
{
    high(3.0 + h * h + r)
}

#[tactic(auto, unfolding(crate::specs::Formula::sum_low))]
fn sum_low(h: f64, r: f64, t: f64) -> f64
    ensures { result ≡ sum_low h r t }
{
    r - ((t - 3.0) - h * h)
}

#[tactic(auto, unfolding(crate::specs::Formula::product_low))]
fn product_low(s: f64, l: f64, t: f64, u: f64) -> f64
    ensures { result ≡ product_low s l t u }
{
    l * t + u * s
}

#[tactic(auto, unfolding(crate::specs::Formula::product_high))]
fn product_high(h: f64, t: f64, v: f64) -> f64
    ensures { result ≡ product_high h t v }
{
    high(h * t + v)
}

#[tactic(auto, unfolding(crate::specs::Formula::scaled_low))]
fn scaled_low(p: f64, q: f64, e: f64) -> f64
    ensures { result ≡ scaled_low p q e }
{
    q * 0.9617966939259756 - 7.028461650952758e-09 * p + e
}

#[tactic(auto, unfolding(crate::specs::Formula::whole_high))]
fn whole_high(y: f64, z: f64, d: f64, k: f64) -> f64
    ensures { result ≡ whole_high y z d k }
{
    high(y + z + d + k)
}

#[tactic(auto, unfolding(crate::specs::Formula::whole_low))]
fn whole_low(y: f64, z: f64, d: f64, k: f64, t: f64) -> f64
    ensures { result ≡ whole_low y z d k t }
{
    z - (((t - k) - d) - y)
}

#[tactic(auto, unfolding(crate::specs::Formula::gathered))]
fn gathered(p: f64, q: f64, d: f64, e: f64, k: f64) -> (f64, f64)
    ensures { result ≡ gathered p q d e k }
{
    let y = 0.9617967009544373 * p;
    let z = scaled_low(p, q, e);
    let t = whole_high(y, z, d, k);
    (t, whole_low(y, z, d, k, t))
}

#[tactic(auto, unfolding(crate::specs::Formula::from_ratio))]
fn from_ratio(s: f64, h: f64, l: f64, d: f64, e: f64, k: f64) -> (f64, f64)
    ensures { result ≡ from_ratio s h l d e k }
{
    let r = terms(s, h, l);
    let t = sum_high(h, r);
    let v = product_low(s, l, t, sum_low(h, r, t));
    let p = product_high(h, t, v);
    gathered(p, v - (p - h * t), d, e, k)
}

#[tactic(auto, unfolding(crate::specs::Formula::near))]
/// The logarithm of `m` times 2 to the power `k`, that of `b` being `d + e`.
fn near(m: f64, b: f64, d: f64, e: f64, k: f64) -> (f64, f64)
    ensures { result ≡ near m b d e k }
{
    let v = 1.0 / (m + b);
    let s = (m - b) * v;
    let h = high(s);
    from_ratio(s, h, beside(m, b, v, h), d, e, k)
}

#[tactic(auto, unfolding(crate::specs::Formula::by_interval))]
fn by_interval(m: f64, k: f64) -> (f64, f64)
    ensures { result ≡ by_interval m k }
{
    if m < 1.224744871391589 {
        near(m, 1.0, 0.0, 0.0, k)
    } else if m < 1.7320508075688772 {
        near(m, 1.5, 0.5849624872207642, 1.350039202129749e-08, k)
    } else {
        near(m * 0.5, 1.0, 0.0, 0.0, k + 1.0)
    }
}

#[tactic(auto, unfolding(crate::specs::Formula::logarithm))]
/// The logarithm to the base 2.
fn logarithm(x: f64) -> (f64, f64)
    ensures { result ≡ logarithm x }
{
    if x < 2.2250738585072014e-308 {
        let y = x * 18014398509481984.0;
        by_interval(significand(y), exponent(y) - 54.0)
    } else {
        by_interval(significand(x), exponent(x))
    }
}

#[tactic(auto, unfolding(crate::specs::Formula::fitted))]
fn fitted(z: f64) -> f64
    ensures { result ≡ fitted z }
{
    let q = z * z;
    let last = 6.613756321437934e-05 - q * (1.6533902205465252e-06 - q * 4.1381367970572385e-08);
    z - q * (0.16666666666666602 - q * (0.0027777777777015593 - q * last))
}

#[tactic(auto, unfolding(crate::specs::Formula::beyond_line))]
/// What e to the power `z` is beyond 1 + z.
fn beyond_line(z: f64) -> f64
    ensures { result ≡ beyond_line z }
{
    let t = fitted(z);
    (z * t) / (2.0 - t)
}

#[tactic(auto, unfolding(crate::specs::Formula::grown))]
/// e to the power of a sum.
fn grown(u: f64, v: f64) -> f64
    ensures { result ≡ grown u v }
{
    let z = u + v;
    let h = (z + FEW_DIGITS) - FEW_DIGITS;
    let r = beyond_line(z) + z * (v - (z - u));
    (1.0 + h) + (((u - h) + v) + r)
}

#[tactic(auto, unfolding(crate::specs::Formula::small_power))]
fn small_power(p: f64, q: f64) -> f64
    ensures { result ≡ small_power p q }
{
    let t = high(q + p);
    grown(
        t * 0.6931471824645996,
        (q - (t - p)) * 0.6931471805599453 - t * 1.904654299957768e-09,
    )
}

#[tactic(auto, unfolding(crate::specs::Formula::shifted))]
fn shifted(x: f64, n: u64) -> f64
    ensures { result ≡ shifted x n }
{
    if n < 4 {
        0.0
    } else if 4092 < n {
        f64::from_bits(0x7ff0_0000_0000_0000)
    } else {
        let half = n / 2;
        x * f64::from_bits((half - 1) * HIDDEN) * f64::from_bits((n - half - 1) * HIDDEN)
    }
}

#[tactic(auto, unfolding(crate::specs::Formula::two_power, crate::specs::Formula::unscaled))]
/// 2 to the power of a sum.
fn two_power(p: f64, q: f64) -> f64
    ensures { result ≡ two_power p q }
{
    let z = q + p;
    let t = z + ROUNDER;
    if t.is_nan() {
        return t;
    }
    if z < NOTHING {
        return 0.0;
    }
    let n = t.to_bits().saturating_sub(0x4337_ffff_ffff_f800);
    shifted(small_power(p - (t - ROUNDER), q), n)
}

#[tactic(auto, unfolding(crate::specs::Formula::within))]
fn within(y: f64) -> f64
    ensures { result ≡ within y }
{
    if MOST < y {
        MOST
    } else if y < LEAST {
        LEAST
    } else {
        y
    }
}

#[tactic(auto, unfolding(crate::specs::Formula::times_power))]
fn times_power(y: f64, t: f64, u: f64) -> f64
    ensures { result ≡ times_power y t u }
{
    let first = high(y);
    two_power(first * t, (y - first) * t + y * u)
}

#[tactic(auto, unfolding(crate::specs::Formula::by_logarithm))]
fn by_logarithm(x: f64, y: f64) -> f64
    ensures { result ≡ by_logarithm x y }
{
    let (t, u) = logarithm(x);
    times_power(within(y), t, u)
}

#[tactic(auto, unfolding(crate::specs::Formula::power))]
/// A double of more than 0 to the power of another, in tests within one unit in the last place.
pub(crate) fn power(x: f64, y: f64) -> f64
    ensures { result ≡ power x y }
{
    if y == 2.0 {
        x * x
    } else if y == 0.5 {
        x.sqrt()
    } else {
        by_logarithm(x, y)
    }
}

#[tactic(auto, unfolding(crate::specs::Formula::natural_power))]
/// e to a power.
pub(crate) fn natural_power(x: f64) -> f64
    ensures { result ≡ natural_power x }
{
    times_power(within(x), 1.4426950216293335, 1.9259629911266175e-08)
}

#[tactic(auto, unfolding(crate::specs::Formula::natural_logarithm))]
/// The logarithm to the base e of what is more than 0.
pub(crate) fn natural_logarithm(x: f64) -> f64
    ensures { result ≡ natural_logarithm x }
{
    let (t, u) = logarithm(x);
    t * 0.6931471824645996 + (u * 0.6931471805599453 - t * 1.904654299957768e-09)
}
