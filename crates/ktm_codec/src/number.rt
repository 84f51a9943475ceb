// Numbers in decimal digits, without leading zeros.
ghost use Rattle.std.specs.Prelude.{◌≡◌, ◌<◌, ◌≤◌, ◌^◌, ◌++◌, ℕ, List, IfSome, OnOk, Some, false, decimal, option_map};
ghost use Rattle.ktm_codec.specs.Number.{digits_at, last_number_at, number_at, starts_with_digit, with_digit};

use itoa::Buffer;
use ktm_base::NoMemory;

// The number with one digit more, if it is not too great.
fn with_digit(most: u64, value: u64, digit: u8) -> Option<u64>
    ensures { result ≡ with_digit most value digit }
{
    let digit = u64::from(digit);
    if digit <= most && value <= (most - digit) / 10 {
        Some(value * 10 + digit)
    } else {
        None
    }
}

// The number whose digits go on in the text, and what follows them.
#[tactic(auto, unfolding(crate::specs::Number::digits_at))]
fn digits(most: u64, text: &[u8]) -> Option<(u64, &[u8])>
    ensures value { option_map (λ read. (read.0, read.1.now)) result ≡ digits_at most 0 text.now }
    ensures within { IfSome result (λ read. read.0 ≤ most) }
{
    let mut value = 0;
    for (index, byte) in text.iter().enumerate() {
        if !byte.is_ascii_digit() {
            return Some((value, &text[index..]));
        }
        value = with_digit(most, value, *byte - b'0')?;
    }
    Some((value, &[]))
}

/// Writes a number at the end.
pub fn put_number(out: &mut Vec<u8>, number: u64) -> Result<(), NoMemory>
    ensures { OnOk result (out.new.items ≡ out.old.items ++ decimal number) }
{
    Ok(out.extend_from_slice(Buffer::new().format(number).as_bytes())?)
}

/// The number at the front of the text, and what follows its digits. There is none where it would be greater than the
/// most. It has no leading zeros, so nothing is read past a zero.
#[tactic(auto, unfolding(crate::specs::Number::number_at))]
pub fn read_number(most: u64, text: &[u8]) -> Option<(u64, &[u8])>
    ensures value { option_map (λ read. (read.0, read.1.now)) result ≡ number_at most text.now }
    ensures within { IfSome result (λ read. read.0 ≤ most) }
{
    match text {
        [b'0', rest @ ..] => Some((0, rest)),
        [b'1'..=b'9', ..] => digits(most, text),
        _ => None,
    }
}

/// The number that the whole text is.
#[tactic(auto, unfolding(crate::specs::Number::last_number_at))]
pub fn read_last_number(most: u64, text: &[u8]) -> Option<u64>
    ensures value { result ≡ last_number_at most text.now }
    ensures within { IfSome result (λ number. number ≤ most) }
{
    let (number, rest) = read_number(most, text)?;
    if rest.is_empty() { Some(number) } else { None }
}

/// What is read as a number is its digits, and the digits of a number are read as it, unless more digits follow them. A whole
/// text is read as a number exactly where it is the digits of one that is not too great.
pub fn law_of_numbers()
    ensures found { (most : ℕ) (text : List ℕ) (n : ℕ) (rest : List ℕ) → most < 2 ^ 64 → number_at most text ≡ Some (n, rest)
        → (n ≤ most) × (text ≡ decimal n ++ rest) }
    ensures every { (most n : ℕ) (rest : List ℕ) → most < 2 ^ 64 → n ≤ most → starts_with_digit rest ≡ false
        → number_at most (decimal n ++ rest) ≡ Some (n, rest) }
    ensures last_found { (most : ℕ) (text : List ℕ) (n : ℕ) → most < 2 ^ 64 → last_number_at most text ≡ Some n → (n ≤ most) × (text ≡ decimal n) }
    ensures last_every { (most n : ℕ) → most < 2 ^ 64 → n ≤ most → last_number_at most (decimal n) ≡ Some n }
{}
