// Numbers as they stand in text.
#![tactic(auto)]

ghost use Rattle.std.specs.Prelude.{◌≡◌, ◌^◌, ◌<◌, ◌≤◌, IfSome};
ghost use Rattle.texts.specs.Numerals.{digit_below, numeral};

// How many digits a hexadecimal word has at most: it then fits 64 bits.
const MOST_HEX: usize = 16;

// How many digits a decimal number has at most: it then fits 64 bits.
const MOST_DECIMAL: usize = 19;

// What a byte is worth as a digit of a base up to 16.
fn digit(byte: u8, base: u64) -> Option<u64>
    ensures value { result ≡ digit_below base byte }
    ensures below { IfSome result (λ d. d < base) }
{
    let value = match byte {
        b'0'..=b'9' => byte - b'0',
        b'A'..=b'F' => byte - b'A' + 10,
        b'a'..=b'f' => byte - b'a' + 10,
        _ => return None,
    };
    let value = u64::from(value);
    if value < base { Some(value) } else { None }
}

// The number that some digits say, the highest first.
#[tactic(auto, using(crate::proofs::Growth::room))]
fn number(text: &[u8], base: u64, most: usize) -> Option<u64>
    requires { base ^ most ≤ 2 ^ 64 }
    ensures { result ≡ numeral base most text.now }
{
    if text.is_empty() || text.len() > most {
        return None;
    }
    // Kept: the new form is no plainer: `try_fold` would carry the same value.
    let mut value = 0;
    for &byte in text {
        value = value * base + digit(byte, base)?;
    }
    Some(value)
}

/// The word of 64 bits that 1 to 16 hexadecimal digits say, in either case; `None` for any other text. The
/// formats are in `docs/FORMATS.md`.
pub fn hex_word(text: &[u8]) -> Option<u64>
    ensures { result ≡ numeral 16 16 text.now }
{
    number(text, 16, MOST_HEX)
}

/// The number that 1 to 19 decimal digits say, 0 to 10^19 - 1; `None` for any other text. The formats are in
/// `docs/FORMATS.md`.
pub fn decimal(text: &[u8]) -> Option<usize>
    ensures { result ≡ numeral 10 19 text.now }
{
    number(text, 10, MOST_DECIMAL).map(|value| value as usize)
}
