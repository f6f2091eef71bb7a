//! A text that is cut at a mark, and read part by part: the words of a line, or the numbers of a
//! cell.
ghost use Rattle.std.specs.Prelude.{◌≡◌, IsTrue};
ghost use Rattle.std.specs.Char.{is_ascii};
ghost use Rattle.std.specs.Iterator.{YieldsFirstRef, item_count};
ghost use Rattle.console.specs.Syntax.{pieces};

use std::marker::Model;
use std::str::Split;

/// The parts that are still to be read.
#[derive(Drop)]
pub struct Parts<'a> {
    left: Split<'a, char>,
}

impl<'a> Model for Parts<'a> {
    ghost use Rattle.std.specs.Prelude.{ℕ, List, IsTrue};
    ghost use Rattle.std.specs.Char.{is_ascii};
    ghost use Rattle.std.specs.Str.Iter.{split_pattern};
    ghost use Rattle.console.specs.Private.Parts.{pieces_to_come};

    ghost Value = { List (List ℕ) };

    ghost view = { λ s. pieces_to_come s.left };

    ghost invariant = { λ s. IsTrue (is_ascii (split_pattern s.left)) };
}

impl<'a> Parts<'a> {
    /// The parts between the marks of a text. A mark is an ASCII character, which is one byte.
    pub fn cut(text: &'a str, mark: char) -> Parts<'a>
        requires ascii { IsTrue (is_ascii mark) }
        ensures answer { result ≡ pieces mark text.now }
    {
        Parts {
            left: text.split(mark),
        }
    }
}

impl<'a> Iterator for Parts<'a> {
    type Item = &'a str;

    ghost next_gives = { YieldsFirstRef (λ parts. parts) };

    ghost remaining = { item_count (λ parts. parts) };

    fn next(&mut self) -> Option<&'a str> {
        self.left.next()
    }
}
