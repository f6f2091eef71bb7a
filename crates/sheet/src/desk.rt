//! The desk at which the lines of a sheet are carried out: what is known of it so far.
ghost use Rattle.std.specs.Prelude.{◌≡◌, ℕ, ◌<◌, ◌↔◌, IsTrue, length};
ghost use Rattle.lots.specs.Limits.{max_lots};
ghost use Rattle.rule.specs.Meanings.{Meaning};
ghost use Rattle.sheet.specs.Private.Desks.{HasLine};
ghost use Rattle.sheet.specs.Lines.{machine as machine_line, name as name_line, lot as lot_line, narrow as narrow_line, tighten as tighten_line, solve as solve_line};
ghost use Rattle.sheet.specs.Private.Pages.{HasRoom};
ghost use Rattle.sheet.specs.PrintLines.{narrow_print};
ghost use Rattle.sheet.specs.Sheets.{new_desk, head, Due, MayEnd, Full};
ghost use Rattle.sheet.specs.Private.Said.{said_line};
ghost use Rattle.sheet.specs.Private.Steps.{Ready, CarriedOut};
ghost use Rattle.sheet.specs.declared.page.Page.{Page};

use crate::line::Line;
use crate::page::Page;
use crate::print::{print_narrow, print_solve, print_tighten};
use arrayvec::ArrayVec;
use lots::{Lot, MAX_LOTS, Refusal};
use plan::Plan;
use rule::Rule;
use std::marker::Model;
use tree::MAX_TRAIL;

// The most commands of a sheet.
const MAX_COMMANDS: u32 = 8;

#[derive(Drop)]
pub(crate) struct Desk<'a> {
    // The number of the line that is due.
    line: u32,
    // How many lots the first line has said.
    lots: u16,
    names: ArrayVec<&'a [u8], MAX_LOTS>,
    plan: Plan,
}

// Clauses see the desk of the definitions.
impl<'a> Model for Desk<'a> {
    ghost use Rattle.sheet.specs.Sheets.{Desk as AnyDesk};
    ghost use Rattle.sheet.specs.Private.Pages.{bytes_of};

    ghost Value = { AnyDesk };

    ghost view = { λ d. record {
      line = d.line;
      lots = d.lots;
      names = bytes_of d.names.items;
      plan = d.plan;
    } };
}

impl<'a> Desk<'a> {
    /// The desk at which the first line is due, with a new plan.
    pub fn new() -> Desk<'a>
        ensures answer { result ≡ new_desk }
    {
        Desk {
            line: 1,
            lots: 0,
            names: ArrayVec::new(),
            plan: Plan::new(),
        }
    }

    /// The number of the line that is due.
    pub fn line(&self) -> u32
        ensures answer { result ≡ self.now.line }
    {
        self.line
    }

    /// Whether the sheet may end here.
    pub fn may_end(&self) -> bool
        ensures answer { IsTrue result ↔ MayEnd self.now }
    {
        self.line > self.head()
    }

    /// Whether all commands that a sheet may have were carried out.
    pub fn is_full(&self) -> bool
        ensures answer { IsTrue result ↔ Full self.now }
    {
        self.line.saturating_sub(self.head()) > MAX_COMMANDS
    }

    /// Whether the line is of the form that is due.
    pub fn is_due(&self, line: &Line<'_>) -> bool
        ensures answer { IsTrue result ↔ Due self.now (said_line line.now) }
    {
        let lots = u32::from(self.lots);
        match *line {
            Line::Machine { .. } => self.line == 1,
            Line::Name(_) => 1 < self.line && self.line <= 1 + lots,
            Line::Lot { number, .. } => {
                1 + lots < self.line
                    && self.line <= self.head()
                    && u32::from(number) == self.line - (2 + lots)
            }
            Line::Narrow { .. } | Line::Tighten | Line::Solve { .. } => self.may_end(),
        }
    }

    // The lines before the first command: the machine, a name for each lot, and the lots.
    fn head(&self) -> u32
        ensures answer { result ≡ head self.now.lots }
    {
        1 + 2 * u32::from(self.lots)
    }

    /// Carries out a line that is due, and prints what it answers.
    pub fn run<R: Rule>(
        &mut self,
        rule: &R,
        line: Line<'a>,
        page: &mut Page<'_>,
    ) -> Result<(), Refusal>
        requires ready { Ready self.old (said_line line) page.old }
        ensures same_buffer { page.new.buffer.ghost_name ≡ page.old.buffer.ghost_name }
        ensures ran { CarriedOut (R.meaning rule.now) self.old (said_line line.entry) self.new
            page.old page.new result }
    {
        match line {
            Line::Machine { capacity, lots } => self.open(capacity, lots),
            Line::Name(name) => self.name(name),
            Line::Lot { lot, .. } => self.admit(lot),
            Line::Narrow { lot, from, to } => self.narrow(lot, from, to, page),
            Line::Tighten => self.tighten(rule, page),
            Line::Solve { budget } => self.solve(rule, budget, page),
        }
    }

    fn open(&mut self, capacity: u16, lots: u16) -> Result<(), Refusal>
        requires has_line { HasLine self.old }
        ensures answer { (m : Meaning) (p : Page)
            → CarriedOut m self.old (machine_line capacity lots) self.new p p result }
    {
        self.plan.open(capacity)?;
        self.lots = lots;
        self.names.clear();
        self.line += 1;
        Ok(())
    }

    fn name(&mut self, name: &'a [u8]) -> Result<(), Refusal>
        requires has_line { HasLine self.old }
        requires few { length self.old.names < max_lots }
        ensures answer { (m : Meaning) (p : Page)
            → CarriedOut m self.old (name_line name.now) self.new p p result }
    {
        self.names.push(name);
        self.line += 1;
        Ok(())
    }

    fn admit(&mut self, lot: Lot) -> Result<(), Refusal>
        requires has_line { HasLine self.old }
        ensures answer { (m : Meaning) (i : ℕ) (p : Page)
            → CarriedOut m self.old (lot_line i lot) self.new p p result }
    {
        self.plan.admit(lot)?;
        self.line += 1;
        Ok(())
    }

    fn narrow(&mut self, lot: u16, from: u16, to: u16, page: &mut Page<'_>) -> Result<(), Refusal>
        requires has_line { HasLine self.old }
        requires room { HasRoom page.old narrow_print }
        ensures same_buffer { page.new.buffer.ghost_name ≡ page.old.buffer.ghost_name }
        ensures ran { (m : Meaning)
            → CarriedOut m self.old (narrow_line lot from to) self.new page.old page.new result }
    {
        self.plan.narrow(lot.into(), from, to)?;
        print_narrow(page);
        self.line += 1;
        Ok(())
    }

    fn tighten<R: Rule>(&mut self, rule: &R, page: &mut Page<'_>) -> Result<(), Refusal>
        requires ready { Ready self.old tighten_line page.old }
        ensures same_buffer { page.new.buffer.ghost_name ≡ page.old.buffer.ghost_name }
        ensures ran { CarriedOut (R.meaning rule.now) self.old tighten_line self.new
            page.old page.new result }
    {
        let (verdict, applications) = self.plan.tighten(rule);
        print_tighten(page, verdict, applications, &self.names, self.plan.lots());
        self.line += 1;
        Ok(())
    }

    fn solve<R: Rule>(&mut self, rule: &R, budget: u32, page: &mut Page<'_>) -> Result<(), Refusal>
        requires ready { Ready self.old (solve_line budget) page.old }
        ensures same_buffer { page.new.buffer.ghost_name ≡ page.old.buffer.ghost_name }
        ensures ran { CarriedOut (R.meaning rule.now) self.old (solve_line budget) self.new
            page.old page.new result }
    {
        let mut trail = [Lot::default(); MAX_TRAIL];
        let mut starts = [0; MAX_LOTS];
        let answer = self.plan.solve(rule, budget, &mut trail, &mut starts)?;
        print_solve(page, answer, &self.names, &starts);
        self.line += 1;
        Ok(())
    }
}
