//! The words of a sheet.
ghost use Rattle.std.specs.Prelude.{◌≡◌, ◌+◌, ◌^◌, ◌<◌, ◌≤◌, ◌≢◌, length, drop, slice_index, slice_index_or, MatchOption, ◌↔◌, IsTrue, decimal};
ghost use Rattle.std.specs.Char.{IsAsciiDigit};
ghost use Rattle.lots.specs.Texts.{space};
ghost use Rattle.lots.specs.Private.Reading.{Reads};
ghost use Rattle.sheet.specs.Lines.{Printable, max_budget};
ghost use Rattle.sheet.specs.Private.Words.{Stretch, CommandAt, NumberAt, NameAt, end_of, Letter, Numeral, Called, BeginsNumeral};

use std::str::from_utf8;

// The most bytes of a name.
const MAX_NAME: usize = 24;

// The bytes that a name may have.
const FIRST_PRINTABLE: u8 = 32;

const LAST_PRINTABLE: u8 = 126;

/// A part of the sheet, which it borrows, and its place there.
#[derive(Clone, Copy)]
pub(crate) enum Token<'a> {
    Name(&'a [u8], usize),
    Number(&'a [u8], usize),
    Command(&'a u8, usize),
}

impl<'a> Token<'a> {
    /// The command at a place.
    pub fn command(sheet: &'a [u8], at: usize) -> Option<Token<'a>>
        ensures answer { MatchOption result (length sheet.now ≤ at) (CommandAt sheet.now at) }
    {
        sheet.get(at).map(|letter| Token::Command(letter, at))
    }

    /// The number word after the space at a place: as many digits as stand there.
    pub fn number(sheet: &'a [u8], at: usize) -> Option<Token<'a>>
        ensures answer { MatchOption result (slice_index_or sheet.now at 0 ≢ space)
            (NumberAt sheet.now at) }
    {
        let rest = after_space(sheet, at)?;
        Some(Token::Number(&rest[..digits(rest)], at + 1))
    }

    /// The name after the space at a place: as many printable bytes as stand there.
    pub fn name(sheet: &'a [u8], at: usize) -> Option<Token<'a>>
        ensures answer { MatchOption result (slice_index_or sheet.now at 0 ≢ space)
            (NameAt sheet.now at) }
    {
        let rest = after_space(sheet, at)?;
        Some(Token::Name(&rest[..printable(rest)], at + 1))
    }

    /// The place after it.
    pub fn end(&self) -> usize
        requires fits { end_of self.now < 2 ^ 64 }
        ensures answer { result ≡ end_of self.now }
    {
        match self {
            Token::Name(bytes, at) | Token::Number(bytes, at) => *at + bytes.len(),
            Token::Command(_, at) => *at + 1,
        }
    }

    /// The letter of a command.
    pub fn letter(&self) -> Option<char>
        ensures answer { Reads (Letter self.now) result }
    {
        match self {
            Token::Command(letter, _) => Some(**letter as char),
            _ => None,
        }
    }

    /// The number that a number word writes in decimal without leading zeros, where it fits.
    pub fn value(&self) -> Option<u32>
        ensures answer { Reads (Numeral self.now) result }
    {
        match self {
            Token::Number(digits, _) => numeral(digits),
            _ => None,
        }
    }

    /// The bytes of a name, where they are neither too few nor too many.
    pub fn called(&self) -> Option<&'a [u8]>
        ensures answer { Reads (Called self.now) result }
    {
        match self {
            Token::Name(name, _) if (1..=MAX_NAME).contains(&name.len()) => Some(*name),
            _ => None,
        }
    }
}

// What follows the space at a place.
fn after_space(sheet: &[u8], at: usize) -> Option<&[u8]>
    ensures answer { MatchOption result (slice_index_or sheet.now at 0 ≢ space)
        (λ rest. (at < length sheet.now) × (slice_index sheet.now at ≡ space)
        × (rest.now ≡ drop (at + 1) sheet.now)) }
{
    match sheet.get(at) {
        Some(b' ') => Some(&sheet[at + 1..]),
        _ => None,
    }
}

// The number that the bytes write in decimal without leading zeros, where it fits.
fn numeral(bytes: &[u8]) -> Option<u32>
    ensures answer { Reads (λ n. (bytes.now ≡ decimal n) × (n ≤ max_budget)) result }
{
    // `parse` would take a plus sign and leading zeros.
    if !begins_numeral(bytes) {
        return None;
    }
    from_utf8(bytes).ok()?.parse().ok()
}

// The bytes are the digit 0 alone, or begin with another digit.
fn begins_numeral(bytes: &[u8]) -> bool
    ensures answer { IsTrue result ↔ BeginsNumeral bytes.now }
{
    matches!(bytes, [b'0'] | [b'1'..=b'9', ..])
}

// How many digits the bytes begin with.
fn digits(bytes: &[u8]) -> usize
    ensures answer { Stretch IsAsciiDigit bytes.now result }
{
    bytes
        .iter()
        .position(|byte| !byte.is_ascii_digit())
        .unwrap_or(bytes.len())
}

// How many printable bytes the bytes begin with.
fn printable(bytes: &[u8]) -> usize
    ensures answer { Stretch Printable bytes.now result }
{
    bytes
        .iter()
        .position(|byte| !(FIRST_PRINTABLE..=LAST_PRINTABLE).contains(byte))
        .unwrap_or(bytes.len())
}
