//! The lines of a sheet.
ghost use Rattle.sheet.specs.Private.Said.{said_line};
ghost use Rattle.sheet.specs.Private.Words.{Takes, BeginsBy};

use crate::reader::Reader;
use lots::{Lot, MAX_LOTS};

/// What a line says.
#[derive(Clone, Copy, PartialEq, Eq, Debug)]
pub(crate) enum Line<'a> {
    Machine { capacity: u16, lots: u16 },
    Name(&'a [u8]),
    Lot { number: u16, lot: Lot },
    Narrow { lot: u16, from: u16, to: u16 },
    Tighten,
    Solve { budget: u32 },
}

impl<'a> Line<'a> {
    /// The line that begins with the letter and goes on with the words.
    pub fn read(letter: char, words: &mut Reader<'a>) -> Option<Line<'a>>
        ensures answer { Takes said_line (BeginsBy letter words.old) result words.new }
    {
        match letter {
            'C' => {
                let [capacity, lots] = words.numbers::<2>()?;
                if usize::from(lots) > MAX_LOTS {
                    return None;
                }
                Some(Line::Machine { capacity, lots })
            }
            'N' => Some(Line::Name(words.name()?)),
            'B' => {
                let [number, est, lct, p, c] = words.numbers::<5>()?;
                Some(Line::Lot {
                    number,
                    lot: Lot { est, lct, p, c },
                })
            }
            'H' => {
                let [lot, from, to] = words.numbers::<3>()?;
                Some(Line::Narrow { lot, from, to })
            }
            'T' => Some(Line::Tighten),
            'S' => Some(Line::Solve {
                budget: words.number()?,
            }),
            _ => None,
        }
    }
}
