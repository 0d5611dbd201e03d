ghost use Rattle.std.specs.Prelude.{◌≡◌, ◌≤◌, count_by};
ghost use Rattle.std.specs.List.{list_all, list_any};
ghost use Rattle.std.specs.Char.{is_ascii_digit};
ghost use Rattle.sdc_reader.specs.Answers.{Gives};
ghost use Rattle.sdc_reader.specs.Numbers.{is_decimal, is_decimal_byte, is_point, time, count, half};
ghost use Rattle.text_scan.specs.Scans.{behind_sign};

use crate::faults::SdcFault;
use line_text::whole_number;
use text_scan::{Cursor, Round, ScanFault};

fn behind_sign(text: &[u8]) -> &[u8]
    ensures { result.now ≡ behind_sign text.now }
{
    match text.split_first() {
        Some((b'-' | b'+', rest)) => rest,
        _ => text,
    }
}

fn are_decimal_bytes(text: &[u8]) -> bool
    ensures { result ≡ list_all is_decimal_byte text.now }
{
    text.iter()
        .all(|byte| byte.is_ascii_digit() || *byte == b'.')
}

fn has_digit(text: &[u8]) -> bool
    ensures { result ≡ list_any is_ascii_digit text.now }
{
    text.iter().any(|byte| byte.is_ascii_digit())
}

fn point_count(text: &[u8]) -> usize
    ensures { result ≡ count_by is_point text.now }
{
    text.iter().filter(|byte| **byte == b'.').count()
}

/// Whether the text is a number: an optional sign, and digits with at most one point among them, at least one digit.
fn is_decimal(text: &[u8]) -> bool
    ensures { result ≡ is_decimal text.now }
{
    let digits = behind_sign(text);
    are_decimal_bytes(digits) && has_digit(digits) && point_count(digits) <= 1
}

/// The number as a time in ps, where the unit has this many; the word that it stands in begins at `at`.
#[tactic(auto, unfolding(crate::specs::Numbers::time))]
pub fn time(unit: u64, round: Round, at: usize, text: &[u8]) -> Result<i64, SdcFault>
    requires some { 1 ≤ unit }
    requires most { unit ≤ 100000000 }
    ensures { Gives (λ n. n) result (time unit round at text.now) }
{
    if !is_decimal(text) {
        return Err(SdcFault::Syntax(at));
    }
    let mut cursor = Cursor::new(text);
    match cursor.decimal(unit, round) {
        Ok(amount) => Ok(amount),
        Err(ScanFault::OutOfRange) => Err(SdcFault::Value(at)),
        Err(ScanFault::NotNumber) => Err(SdcFault::Syntax(at)),
    }
}

/// A count from 1 to 1,000.
#[tactic(auto, unfolding(crate::specs::Numbers::count))]
pub fn count(at: usize, text: &[u8]) -> Result<u32, SdcFault>
    ensures { Gives (λ n. n) result (count at text.now) }
{
    match whole_number(text) {
        None => Err(SdcFault::Syntax(at)),
        Some(number) => {
            if 1 <= number && number <= 1000 {
                Ok(number as u32)
            } else {
                Err(SdcFault::Value(at))
            }
        }
    }
}

/// Half of it, rounded down.
pub fn half(number: i64) -> i64
    ensures { result ≡ half number }
{
    number >> 1
}
