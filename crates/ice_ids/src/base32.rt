//! Numbers as bytes and as letters of base 32, the most significant first.

ghost use Rattle.std.specs.Prelude.{◌≡◌, ◌<◌, ◌≤◌, ◌^◌, ◌*◌, ◌/◌, ◌%◌, ◌==◌, length, map, All, is_none, position, codes, Option};
ghost use Rattle.std.specs.Int.Digits.{number_from_digits};
ghost use Rattle.ice_ids.specs.Digits.{digits_in};
ghost use Rattle.ice_ids.specs.Text.{letter_of, digit_of, number_of_letters, number_of_text};

use crate::IdFault;

/// Crockford's base 32, without its aliases.
const ALPHABET: &[u8; 32] = b"0123456789ABCDEFGHJKMNPQRSTVWXYZ";

/// The number that the bytes stand for.
pub fn number_of_bytes(bytes: &[u8]) -> u128
    requires { length bytes.now ≤ 12 }
    ensures value { result ≡ number_from_digits 256 bytes.now }
    ensures bound { result < 2 ^ 96 }
    ensures bytes { All (λ byte. byte < 256) bytes.now }
{
    let mut number: u128 = 0;
    for byte in bytes {
        number = number * 256 + u128::from(*byte);
    }
    number
}

/// Writes the number as so many bytes as there is room for.
#[tactic(auto, unfolding(crate::specs::Digits::digits_in))]
pub fn write_bytes(number: u128, bytes: &mut [u8])
    ensures { bytes.new ≡ digits_in 256 (length bytes.old) number }
{
    let mut rest = number;
    for at in (0..bytes.len()).rev() {
        bytes[at] = (rest % 256) as u8;
        rest /= 256;
    }
}

/// Writes the number as so many letters as there is room for.
#[tactic(auto, unfolding(crate::specs::Digits::digits_in))]
pub fn write_letters(number: u128, text: &mut [u8])
    ensures { text.new ≡ map letter_of (digits_in 32 (length text.old) number) }
{
    let mut rest = number;
    for at in (0..text.len()).rev() {
        text[at] = ALPHABET[(rest % 32) as usize];
        rest /= 32;
    }
}

/// The digit that a letter stands for.
#[tactic(auto, unfolding(crate::specs::Text::digit_of, crate::specs::Text::alphabet))]
fn digit_of(letter: u8) -> Option<usize>
    ensures { result ≡ digit_of letter }
{
    ALPHABET.iter().position(|a| *a == letter)
}

/// The number that the letters write.
fn number_of_letters(text: &[u8]) -> Result<u128, IdFault>
    requires { length text.now ≤ 20 }
    ensures { result ≡ number_of_letters text.now }
{
    let mut number: u128 = 0;
    for (at, letter) in text.iter().enumerate() {
        let Some(digit) = digit_of(*letter) else {
            return Err(IdFault::Digit(at));
        };
        number = number * 32 + digit as u128;
    }
    Ok(number)
}

/// The number of a text of so many letters, without the bits that were added to it.
#[tactic(auto, unfolding(crate::specs::Text::number_of_text, crate::specs::Text::without_added), using(std::proofs::lemmas::Nat::pow_below))]
pub fn number_of_text(text: &[u8], characters: usize, added: u32) -> Result<u128, IdFault>
    requires letters { characters ≤ 20 }
    requires bits { added < 128 }
    ensures { result ≡ number_of_text characters added text.now }
{
    if text.len() != characters {
        return Err(IdFault::Length(text.len()));
    }
    let number = number_of_letters(text)?;
    let unit = 2u128.pow(added);
    if number % unit != 0 {
        return Err(IdFault::Added);
    }
    Ok(number / unit)
}
