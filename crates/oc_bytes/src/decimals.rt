//! Decimal numbers as commands and scripts write them.

ghost use Rattle.std.specs.Prelude.{◌≡◌, ◌≤◌, ◌<◌, ◌^◌, true, IfSome, SomeIff};
ghost use Rattle.std.specs.List.{list_all};
ghost use Rattle.oc_bytes.specs.Decimals as decimals;

/// The number, `least` to `greatest`, that a word spells: digits without sign and leading zero. It
/// takes no memory.
pub fn decimal(word: &[u8], least: u32, greatest: u32) -> Option<u32>
    ensures value { result ≡ decimals.decimal_in least greatest word.now }
    ensures least { IfSome result (λ n. least ≤ n) }
    ensures greatest { IfSome result (λ n. n ≤ greatest) }
{
    if !is_decimal(word) {
        return None;
    }
    let Some(number) = value_of(word) else {
        return None;
    };
    if number < least {
        return None;
    }
    if number <= greatest {
        Some(number)
    } else {
        None
    }
}

fn value_of(digits: &[u8]) -> Option<u32>
    requires { decimals.is_decimal digits.now ≡ true }
    ensures { SomeIff result (decimals.decimal_value digits.now < 2 ^ 32)
        (decimals.decimal_value digits.now) }
{
    match std::str::from_utf8(digits) {
        Ok(text) => text.parse::<u32>().ok(),
        Err(_) => None,
    }
}

/// Whether it is digits without a leading zero, or `0`.
fn is_decimal(text: &[u8]) -> bool
    ensures { result ≡ decimals.is_decimal text.now }
{
    match text {
        [] => false,
        [only] => only.is_ascii_digit(),
        [first, ..] => *first != b'0' && are_digits(text),
    }
}

fn are_digits(text: &[u8]) -> bool
    ensures { result ≡ list_all decimals.is_digit text.now }
{
    text.iter().all(|c| c.is_ascii_digit())
}
