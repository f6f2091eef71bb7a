//! Reads a sheet line by line.
ghost use Rattle.std.specs.Prelude.{◌≡◌, ℕ, ◌≤◌, ◌↔◌, IsTrue, List, [], ◌∷◌, length, IfNone, MatchOption};
ghost use Rattle.sheet.specs.Lines.{BeginsWithLine, newline};
ghost use Rattle.sheet.specs.Private.Said.{said_line};
ghost use Rattle.sheet.specs.Private.Words.{BeginsWithNumber, BeginsWithNumbers, BeginsWithName, Takes};

use crate::line::Line;
use crate::token::Token;
use std::marker::Model;

/// What is still to be read of a sheet.
#[derive(Drop)]
pub(crate) struct Reader<'a> {
    sheet: &'a [u8],
    at: usize,
}

impl<'a> Model for Reader<'a> {
    ghost use Rattle.std.specs.Prelude.{ℕ, ◌≤◌, List, length, drop};

    ghost Value = { List ℕ };

    ghost view = { λ r. drop r.at r.sheet.now };

    ghost invariant = { λ r. r.at ≤ length r.sheet.now };
}

impl<'a> Reader<'a> {
    /// All of the sheet, still to be read.
    pub fn new(sheet: &'a [u8]) -> Reader<'a>
        ensures answer { result ≡ sheet.now }
    {
        Reader { sheet, at: 0 }
    }

    /// Whether nothing is left to be read.
    pub fn is_at_end(&self) -> bool
        ensures answer { IsTrue result ↔ (self.now ≡ []) }
    {
        self.at == self.sheet.len()
    }

    /// The next line. Where no line comes next, nothing is read.
    pub fn line(&mut self) -> Option<Line<'a>>
        ensures answer { Takes said_line (BeginsWithLine self.old) result self.new }
        ensures unchanged { IfNone result (self.new ≡ self.old) }
    {
        let mut ahead = Reader {
            sheet: self.sheet,
            at: self.at,
        };
        let letter = ahead.letter()?;
        let line = Line::read(letter, &mut ahead)?;
        ahead.end_line()?;
        *self = ahead;
        Some(line)
    }

    fn letter(&mut self) -> Option<char>
        ensures answer { MatchOption result (self.old ≡ []) (λ c. self.old ≡ c ∷ self.new) }
    {
        let token = Token::command(self.sheet, self.at)?;
        self.at = token.end();
        token.letter()
    }

    fn end_line(&mut self) -> Option<()>
        ensures answer { MatchOption result ((rest : List ℕ) → self.old ≡ newline ∷ rest → ⊥)
            (λ _. self.old ≡ newline ∷ self.new) }
    {
        if *self.sheet.get(self.at)? != b'\n' {
            return None;
        }
        self.at += 1;
        Some(())
    }

    /// A number after a space.
    pub fn number(&mut self) -> Option<u32>
        ensures answer { Takes (λ n. n) (BeginsWithNumber self.old) result self.new }
    {
        let token = Token::number(self.sheet, self.at)?;
        self.at = token.end();
        token.value()
    }

    /// Numbers of 16 bits, each after a space.
    pub fn numbers<const N: usize>(&mut self) -> Option<[u16; N]>
        ensures answer { Takes (λ ns. ns) (BeginsWithNumbers N self.old) result self.new }
    {
        let mut numbers = [0; N];
        for slot in numbers.iter_mut() {
            *slot = u16::try_from(self.number()?).ok()?;
        }
        Some(numbers)
    }

    /// A name after a space.
    pub fn name(&mut self) -> Option<&'a [u8]>
        ensures answer { Takes (λ w. w.now) (BeginsWithName self.old) result self.new }
    {
        let token = Token::name(self.sheet, self.at)?;
        self.at = token.end();
        token.called()
    }
}

#[cfg(test)]
mod tests {
    use super::*;
    use lots::Lot;

    // The line that a text begins with.
    fn first(text: &str) -> Option<Line<'_>> {
        Reader::new(text.as_bytes()).line()
    }

    #[test]
    fn each_kind_of_line(rt: HostRuntime) {
        assert_eq!(rt;
            first("C 65535 64\n"),
            Some(Line::Machine {
                capacity: 65_535,
                lots: 64
            })
        );
        assert_eq!(rt;
            first("N Ginger & lime\n"),
            Some(Line::Name(b"Ginger & lime"))
        );
        assert_eq!(rt;
            first("B 10 0 65535 9 1\n"),
            Some(Line::Lot {
                number: 10,
                lot: Lot::new(0, 65_535, 9, 1)
            })
        );
        assert_eq!(rt;
            first("H 0 10 65535\n"),
            Some(Line::Narrow {
                lot: 0,
                from: 10,
                to: 65_535
            })
        );
        assert_eq!(rt; first("T\n"), Some(Line::Tighten));
        assert_eq!(rt;
            first("S 4294967295\n"),
            Some(Line::Solve {
                budget: 4_294_967_295
            })
        );
    }

    #[test]
    fn names_of_every_length(rt: HostRuntime) {
        assert_eq!(rt; first("N  \n"), Some(Line::Name(b" ")));
        assert_eq!(rt; first("N 1~\n"), Some(Line::Name(b"1~")));
        assert_eq!(rt;
            first("N 123456789012345678901234\n"),
            Some(Line::Name(b"123456789012345678901234"))
        );
    }

    #[test]
    fn names_not_in_form(rt: HostRuntime) {
        for text in [
            "N \n",
            "N 1234567890123456789012345\n",
            "N Clove\x1f\n",
            "N Clove\x7f\n",
            "N Clov\u{e9}\n",
            "N Clove\r\n",
        ] {
            assert_eq!(rt; first(text), None);
        }
    }

    #[test]
    fn numbers_not_in_form(rt: HostRuntime) {
        for text in [
            "H 0 010 20\n",
            "H 00 10 20\n",
            "H +0 10 20\n",
            "H 0 10 65536\n",
            "C 2 65\n",
            "S 4294967296\n",
            "S 0100\n",
            "S 99999999999999999999999999\n",
        ] {
            assert_eq!(rt; first(text), None);
        }
    }

    #[test]
    fn words_not_in_form(rt: HostRuntime) {
        for text in [
            "H 0 10\n",
            "H 0 10 20 30\n",
            "H 0  10 20\n",
            "H 0 10 20 \n",
            "H 0\t10 20\n",
            "H 0 10 20\r\n",
            "T \n",
            "S\n",
        ] {
            assert_eq!(rt; first(text), None);
        }
    }

    #[test]
    fn letters_not_in_form(rt: HostRuntime) {
        for text in ["", "\n", " T\n", "t\n", "X 1\n"] {
            assert_eq!(rt; first(text), None);
        }
    }

    #[test]
    fn line_not_ended(rt: HostRuntime) {
        for text in ["T", "S 100", "N Clove"] {
            assert_eq!(rt; first(text), None);
        }
    }

    #[test]
    fn lines_in_order(rt: HostRuntime) {
        let mut reader = Reader::new(b"T\nS 7\nT");
        assert_eq!(rt; reader.line(), Some(Line::Tighten));
        assert_eq!(rt; reader.line(), Some(Line::Solve { budget: 7 }));
        assert!(rt; !reader.is_at_end());
        assert_eq!(rt; reader.line(), None);
        assert_eq!(rt; reader.line(), None);
        let mut short = Reader::new(b"T\n");
        assert_eq!(rt; short.line(), Some(Line::Tighten));
        assert!(rt; short.is_at_end());
        assert_eq!(rt; short.line(), None);
    }
}
