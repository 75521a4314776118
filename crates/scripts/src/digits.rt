ghost use Rattle.std.specs.Prelude.{◌≡◌, ◌≤◌, ◌+◌, ◌*◌, Ok, Err, IfOk, nat_lt, if◌then◌else◌};
ghost use Rattle.scripts.specs.Mistakes.{Gives};
ghost use Rattle.scripts.specs.Numbers.{value, numeral, number};
ghost use Rattle.scripts.specs.declared.mistake.Mistake.TheVariants.{NotANumber, TooLarge};

use crate::mistake::Mistake;

// A number with one more digit, if that is not above a greatest.
fn with_digit(before: u64, base: u32, digit: u32, most: u64) -> Result<u64, Mistake>
    ensures { result ≡ (if nat_lt most (before * base + digit) then Err TooLarge else Ok (before * base + digit)) }
{
    before
        .checked_mul(u64::from(base))
        .and_then(|shifted| shifted.checked_add(u64::from(digit)))
        .filter(|n| *n <= most)
        .ok_or(Mistake::TooLarge)
}

fn value_of(base: u32, most: u64, digits: &[u8]) -> Result<u64, Mistake>
    requires { (2 ≤ base) × (base ≤ 36) }
    ensures value { result ≡ value base most 0 digits.now }
    ensures small { IfOk result (λ n. n ≤ most) }
{
    let mut value = 0;
    for letter in digits {
        let digit = char::from(*letter)
            .to_digit(base)
            .ok_or(Mistake::NotANumber)?;
        value = with_digit(value, base, digit, most)?;
    }
    Ok(value)
}

fn numeral_of(base: u32, most: u64, digits: &[u8]) -> Result<u64, Mistake>
    requires { (2 ≤ base) × (base ≤ 36) }
    ensures value { result ≡ numeral base most digits.now }
    ensures small { IfOk result (λ n. n ≤ most) }
{
    if digits.is_empty() {
        return Err(Mistake::NotANumber);
    }
    value_of(base, most, digits)
}

#[tactic(auto, unfolding(crate::specs::Numbers::number))]
// The number that a word writes, decimal or behind 0x, if it is not above a greatest.
pub(crate) fn number_of(word: &[u8], most: u64) -> Result<u64, Mistake>
    ensures value { result ≡ number most word.now }
    ensures small { IfOk result (λ n. n ≤ most) }
{
    match word.strip_prefix(b"0x".as_slice()) {
        Some(digits) => numeral_of(16, most, digits),
        None => numeral_of(10, most, word),
    }
}
