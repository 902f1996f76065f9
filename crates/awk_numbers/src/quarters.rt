// An angle in quarters of a turn, and what is left of it beside the nearest one. The definition says what each function
// is; here each operation stands once.
ghost use Rattle.std.specs.Prelude.{◌≡◌, ◌*◌, ◌/◌, ◌%◌, ◌^◌, ◌≤◌};
ghost use Rattle.std.specs.Float.{NotNan};
ghost use Rattle.awk_numbers.specs.Quarters.{angle, as_angle, as_doubles, beside_product, in_double, octant, quarters};
ghost use Rattle.awk_numbers.specs.Quarters.{sum_of_three, to_quarter, two_over_pi};

use crate::formula::{HIDDEN, high};

/// The digits of 2 / pi behind the point, to the base 2^64, the last one first.
const WORDS: [u64; 19] = [
    0x5603_3046_fc7b_6bab,
    0x6bfb_5fb1_1f8d_5d08,
    0x3d07_39f7_8a52_92ea,
    0x7527_bac7_ebe5_f17b,
    0x4f46_3f66_9e5f_ea2d,
    0x6d36_7ecf_27cb_09b7,
    0xef2f_118b_5a0a_6d1f,
    0x1ff8_97ff_de05_980f,
    0x9c84_5f8b_bdf9_283b,
    0x3991_d639_8353_39f4,
    0xe99c_7026_b45f_7e41,
    0xe882_35f5_2ebb_4484,
    0xfe1d_eb1c_b129_a73e,
    0x0649_2eea_09d1_921c,
    0xb724_6e3a_424d_d2e0,
    0xfe51_63ab_debb_c561,
    0xdb62_9599_3c43_9041,
    0xfc27_57d1_f534_ddc0,
    0xa2f9_836e_4e44_1529,
];

/// The base of the digits: 2^64.
const BASE: u128 = 0x1_0000_0000_0000_0000;

/// An eighth of a turn: 2^125.
const EIGHTH: u128 = 0x2000_0000_0000_0000_0000_0000_0000_0000;

/// 2^42.
const THIRD: u128 = 0x400_0000_0000;

/// The digit at a place, counted from the last one: 0 before the first.
fn digit(place: u32) -> u64
    ensures { result ≡ two_over_pi / 2 ^ (64 * place) % 2 ^ 64 }
{
    let place = place as usize;
    if place < WORDS.len() { WORDS[place] } else { 0 }
}

/// The 64 bits that stand before the last `k` ones.
fn word(k: u32) -> u64
    requires { k ≤ 4096 }
    ensures { result ≡ two_over_pi / 2 ^ k % 2 ^ 64 }
{
    let pair = u128::from(digit(k / 64 + 1)) * BASE + u128::from(digit(k / 64));
    ((pair >> (k % 64)) % BASE) as u64
}

fn quarters(m: u64, k: u32) -> u128
    requires { k ≤ 2101 }
    ensures { result ≡ quarters m k }
{
    let m = u128::from(m);
    let first = m * u128::from(word(k + 128));
    let second = m * u128::from(word(k + 64));
    let third = m * u128::from(word(k));
    first
        .wrapping_mul(BASE)
        .wrapping_add(second)
        .wrapping_add(third / BASE)
}

/// The quarters of a turn in an angle from 1/2 on.
pub(crate) fn in_double(x: f64) -> u128
    requires { NotNan x }
    ensures { result ≡ in_double x }
{
    let bits = x.to_bits();
    quarters(HIDDEN + bits % HIDDEN, (2101 - bits / HIDDEN % 2048) as u32)
}

/// How many eighths of a turn are full.
pub(crate) fn octant(q: u128) -> u32
    ensures { result ≡ octant q }
{
    (q >> 125) as u32
}

/// How far it is to the nearest quarter.
pub(crate) fn to_quarter(q: u128) -> u128
    ensures value { result ≡ to_quarter q }
    ensures most { result ≤ 2 ^ 125 }
{
    if octant(q) % 2 == 0 {
        q % EIGHTH
    } else {
        EIGHTH - q % EIGHTH
    }
}

#[tactic(auto, unfolding(crate::specs::Quarters::sum_of_three))]
fn sum_of_three(a: f64, b: f64, c: f64) -> (f64, f64)
    ensures { result ≡ sum_of_three a b c }
{
    let t = b + c;
    let s = a + t;
    (s, (t - (s - a)) + (c - (t - b)))
}

#[tactic(auto, unfolding(crate::specs::Quarters::as_doubles))]
/// The number times 2^-126.
fn as_doubles(n: u128) -> (f64, f64)
    requires { n ≤ 2 ^ 125 }
    ensures { result ≡ as_doubles n }
{
    sum_of_three(
        (n >> 84) as u64 as f64 * 2.2737367544323206e-13,
        ((n >> 42) % THIRD) as u64 as f64 * 5.169878828456423e-26,
        (n % THIRD) as u64 as f64 * 1.1754943508222875e-38,
    )
}

#[tactic(auto, unfolding(crate::specs::Quarters::beside_product))]
fn beside_product(x: f64, p: f64) -> f64
    ensures { result ≡ beside_product x p }
{
    let h = high(x);
    let first = h * 1.5707963407039642 - p - h * 1.3909067675399456e-08;
    first + (x - h) * 1.5707963407039642 - (x - h) * 1.3909067675399456e-08
}

#[tactic(auto, unfolding(crate::specs::Quarters::as_angle))]
/// A sum times pi / 2.
fn as_angle(x: f64, y: f64) -> (f64, f64)
    ensures { result ≡ as_angle x y }
{
    let p = x * 1.5707963267948966;
    (
        p,
        beside_product(x, p) + (x * 6.123233995736766e-17 + y * 1.5707963267948966),
    )
}

#[tactic(auto, unfolding(crate::specs::Quarters::angle))]
/// The angle of so many quarters times 2^-126, and what the double leaves of it.
pub(crate) fn angle(n: u128) -> (f64, f64)
    requires { n ≤ 2 ^ 125 }
    ensures { result ≡ angle n }
{
    let (x, y) = as_doubles(n);
    as_angle(x, y)
}
