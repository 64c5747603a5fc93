//! Numbers in decimal digits.
ghost use Rattle.std.specs.Prelude.{◌≡◌, ℕ, ◌-◌, ◌^◌, ◌≤◌, true, ◌++◌, Ok, decimal, MatchOption, OnOk};
ghost use Rattle.std.specs.Str.{all_ascii_digits};
ghost use Rattle.std.specs.Str.Parse.{digits_value};
ghost use Rattle.journal.specs.Numbers.{tenths_above_zero, tenths_below_zero, Narrows, magnitude_of, number_of, tenths_of};

use crate::fault::Fault;
use itoa::{Buffer, Integer};
use std::alloc::AllocError;

fn all_digits(word: &[u8]) -> bool
    ensures { result ≡ all_ascii_digits word.now }
{
    word.iter().all(|b| b.is_ascii_digit())
}

// The number that digits write, where 64 bits hold it. The library's `parse` wants text and is
// slower.
fn value_of(digits: &[u8]) -> Option<u64>
    requires { all_ascii_digits digits.now ≡ true }
    ensures { MatchOption result
        (2 ^ 64 ≤ digits_value 10 digits.now)
        (λ n. n ≡ digits_value 10 digits.now) }
{
    let mut n: u64 = 0;
    for b in digits {
        n = n.checked_mul(10)?.checked_add(u64::from(*b - b'0'))?;
    }
    Some(n)
}

/// A number that keeps within a limit. What `put_number` writes is read as the same number. Faults:
/// `NotNumber`, and `TooLarge` for one above the limit.
pub fn number(word: &[u8], limit: u64) -> Result<u64, Fault>
    ensures value { result ≡ number_of limit word.now }
    ensures back { (n : ℕ) → n ≤ limit → word.now ≡ decimal n → result ≡ Ok n }
{
    read_number(word, limit)
}

fn read_number(word: &[u8], limit: u64) -> Result<u64, Fault>
    ensures { result ≡ number_of limit word.now }
{
    if word.is_empty() || !all_digits(word) {
        return Err(Fault::NotNumber);
    }
    match value_of(word) {
        Some(n) if n <= limit => Ok(n),
        _ => Err(Fault::TooLarge),
    }
}

// A number of the type that its place has: `TooLarge` where the type does not have it.
pub(crate) fn read<N: TryFrom<u64>>(word: &[u8]) -> Result<N, Fault>
where
    N::Error: Drop,
    ensures { Narrows N.try_from_gives (number_of (2 ^ 64 - 1) word.now) result }
{
    N::try_from(number(word, u64::MAX)?).map_err(|_| Fault::TooLarge)
}

// Degrees with at most one decimal, in tenths and without a sign.
fn magnitude(word: &[u8]) -> Result<u64, Fault>
    ensures { result ≡ magnitude_of word.now }
{
    match word {
        [whole @ .., b'.', last] => Ok(number(whole, 3276)? * 10 + number(&[*last], 9)?),
        _ => Ok(number(word, 3276)? * 10),
    }
}

// A temperature that is 0 or above, in tenths of a degree.
fn above_zero(tenths: u64) -> Result<i16, Fault>
    ensures { result ≡ tenths_above_zero tenths }
{
    i16::try_from(tenths).map_err(|_| Fault::TooLarge)
}

// A temperature that is written with a sign, in tenths of a degree.
fn below_zero(tenths: u64) -> Result<i16, Fault>
    ensures { result ≡ tenths_below_zero tenths }
{
    let tenths = u16::try_from(tenths).map_err(|_| Fault::TooLarge)?;
    0i16.checked_sub_unsigned(tenths).ok_or(Fault::TooLarge)
}

// A temperature, in tenths of a degree: -32768 to 32767.
pub(crate) fn tenths(word: &[u8]) -> Result<i16, Fault>
    ensures { result ≡ tenths_of word.now }
{
    match word {
        [b'-', rest @ ..] => below_zero(magnitude(rest)?),
        _ => above_zero(magnitude(word)?),
    }
}

/// Writes a number in decimal digits behind what is there.
pub fn put_number<N: Integer>(out: &mut Vec<u8>, n: N) -> Result<(), AllocError>
    ensures { OnOk result (out.new.items ≡ out.old.items ++ N.text n) }
{
    out.extend_from_slice(Buffer::new().format(n).as_bytes())
}
