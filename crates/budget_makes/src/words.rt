//! The words of `make`.
ghost use Rattle.std.specs.Prelude.{◌≡◌, ◌≤◌, ◌<◌, pos, ◌≤ℤ◌, IfSome};
ghost use Rattle.std.specs.Option.{option_map};
ghost use Rattle.line_text.specs.Clipped.{clipped};
ghost use Rattle.budget_makes.specs.Words.{begins_with_minus, digits_of, gates_of, in_whole_range, number_in, number_of};

use line_text::whole_number;

/// How many digits a number may have.
const DIGITS: usize = 10;

/// How many gates a word asks for: 1 to 20,000, in one to ten digits.
pub fn gates_of(word: &str) -> Option<u32>
    ensures number { result ≡ gates_of word.now }
    ensures low { IfSome result (λ gates. 1 ≤ gates) }
    ensures high { IfSome result (λ gates. gates ≤ 20000) }
{
    number_in(word.as_bytes(), 1, 20000)
}

/// The number of a design: less than 2^31, in one to ten digits.
pub fn number_of(word: &str) -> Option<u32>
    ensures number { result ≡ number_of word.now }
    ensures high { IfSome result (λ number. number < 2147483648) }
{
    number_in(word.as_bytes(), 0, 2147483647)
}

/// A number from `least` to `most`, in one to ten digits.
fn number_in(word: &[u8], least: u32, most: u32) -> Option<u32>
    ensures number { result ≡ number_in least most word.now }
    ensures low { IfSome result (λ number. least ≤ number) }
    ensures high { IfSome result (λ number. number ≤ most) }
{
    let number = digits_of(word)?;
    in_range(number, least, most)
}

/// What one to ten digits stand for.
fn digits_of(word: &[u8]) -> Option<i64>
    ensures number { result ≡ option_map (λ n. clipped (pos n)) (digits_of word.now) }
    ensures range { IfSome result (λ z. (pos 0 ≤ℤ z) × (z ≤ℤ pos 4611686018427387905)) }
{
    if word.len() > DIGITS || begins_with_minus(word) {
        return None;
    }
    whole_number(word)
}

fn begins_with_minus(word: &[u8]) -> bool
    ensures { result ≡ begins_with_minus word.now }
{
    match word.first() {
        Some(byte) => *byte == b'-',
        None => false,
    }
}

/// A number that is from `least` to `most`.
fn in_range(number: i64, least: u32, most: u32) -> Option<u32>
    ensures number { result ≡ in_whole_range least most number }
    ensures low { IfSome result (λ number. least ≤ number) }
    ensures high { IfSome result (λ number. number ≤ most) }
{
    if i64::from(least) <= number && number <= i64::from(most) {
        Some(number as u32)
    } else {
        None
    }
}
