//! Numbers as an argument writes them.
ghost use Rattle.std.specs.Prelude.{◌≡◌, ◌≤◌, ◌<◌, ◌^◌, IfSome};
ghost use Rattle.s360_text.specs.Digits.{number_of_digits};

/// A number of 1 to `most` digits in a radix. Digits above 9 are letters of either case.
pub fn number_in(radix: u32, word: &[u8], most: usize) -> Option<u64>
    requires low { 2 ≤ radix }
    requires high { radix ≤ 16 }
    requires few { most ≤ 16 }
    ensures value { result ≡ number_of_digits radix most word.now }
    ensures below { IfSome result (λ number. number < radix ^ most) }
{
    if word.is_empty() || word.len() > most {
        return None;
    }
    let mut number = 0u64;
    for byte in word {
        let digit = char::from(*byte).to_digit(radix)?;
        number = number * u64::from(radix) + u64::from(digit);
    }
    Some(number)
}
