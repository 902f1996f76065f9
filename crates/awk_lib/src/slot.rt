// Keys that are whole numbers.
ghost use Rattle.std.specs.Prelude.{◌≡◌, ◌<◌, ◌≤◌, length, IfSome};
ghost use Rattle.std.specs.Fmt.{decimal};
ghost use Rattle.std.specs.Str.Parse.{AllDigits, digits_value};
ghost use Rattle.awk_lib.specs.Dense.{most_places, IsOutside};

/// The number whose digits the key is, where it has at most seven digits. Takes no memory.
pub(crate) fn slot_of(key: &[u8]) -> Option<usize>
    ensures some { IfSome result (λ k. (key.now ≡ decimal k) × (k < most_places)) }
    ensures none { result ≡ None → IsOutside most_places key.now }
{
    if key.is_empty() {
        return None;
    }
    if key.len() > 7 {
        return None;
    }
    if key[0] != b'0' {
        return number_of(key);
    }
    if key.len() == 1 { Some(0) } else { None }
}

/// The number that digits write, where there is nothing else.
fn number_of(digits: &[u8]) -> Option<usize>
    requires { length digits.now ≤ 7 }
    ensures some { IfSome result (λ k. AllDigits 10 digits.now × (k ≡ digits_value 10 digits.now)) }
    ensures none { result ≡ None → AllDigits 10 digits.now → ⊥ }
{
    let mut number: usize = 0;
    for digit in digits {
        if !digit.is_ascii_digit() {
            return None;
        }
        number = number * 10 + (*digit - b'0') as usize;
    }
    Some(number)
}
