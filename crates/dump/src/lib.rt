// What a session leaves, line by line: in letters, for programs, or in words, for people. A new table takes a method of `Left` and two texts in `phrases`.
#![tactic(auto)]

pub use crate::left::Left;
use phrases::letters::Letters;
use phrases::line::{Line, OfBlock, Style};
use phrases::out::Out;
use phrases::words::Words;
use std::fmt;
use std::fmt::Write;

mod left;

// What is printed goes to this output, in this style.
#[derive(Drop)]
struct Printer<'p, 'o, R> {
    out: &'p mut Out<'o, R>,
    style: Style,
}

impl<R: Print + Eprint> Printer<'_, '_, R> {
    fn line(&mut self, line: Line<'_>) -> fmt::Result {
        match self.style {
            Style::Letters => write!(self.out, "{}", Letters(line)),
            Style::Words => write!(self.out, "{}", Words(line)),
        }
    }

    fn of_block(&mut self, block: u32, tells: OfBlock<'_>) -> fmt::Result {
        self.line(Line::OfBlock { block, tells })
    }

    // A line for each call.
    fn answers(&mut self, left: &Left<'_>) -> fmt::Result {
        for place in 0..left.call_count() {
            self.line(left.answer(place))?;
        }
        Ok(())
    }

    fn values(&mut self, left: &Left<'_>) -> fmt::Result {
        for value in 0..left.value_count() {
            self.line(left.value(value))?;
        }
        Ok(())
    }

    // The bits that each zero holds.
    fn bits(&mut self, left: &Left<'_>) -> fmt::Result {
        for value in 0..left.value_count() {
            if let Some(line) = left.bits(value) {
                self.line(line)?;
            }
        }
        Ok(())
    }

    fn destinations(&mut self, left: &Left<'_>, block: u32) -> fmt::Result {
        for (place, to) in left.dests(block).iter().enumerate() {
            self.of_block(block, left.dest(block, place, *to))?;
        }
        Ok(())
    }

    fn definitions(&mut self, left: &Left<'_>, block: u32) -> fmt::Result {
        for variable in 0..left.variable_count() {
            if let Some(tells) = left.definition(block, variable) {
                self.of_block(block, tells)?;
            }
        }
        Ok(())
    }

    fn block(&mut self, left: &Left<'_>, block: u32) -> fmt::Result {
        self.of_block(block, left.params(block))?;
        if let Some(branch) = left.branch(block) {
            self.of_block(block, branch)?;
            self.destinations(left, block)?;
        }
        self.of_block(block, left.preds(block))?;
        self.of_block(block, left.pending(block))?;
        self.of_block(block, left.sealed(block))?;
        self.definitions(left, block)
    }

    fn blocks(&mut self, left: &Left<'_>) -> fmt::Result {
        for block in 0..left.block_count() {
            self.block(left, block)?;
        }
        Ok(())
    }

    // The zero log: the calls and the blocks of its rows stand in two lists.
    fn zeros(&mut self, left: &Left<'_>) -> fmt::Result {
        let rows = left.zero_calls().iter().zip(left.zero_blocks());
        for (row, (call, block)) in rows.enumerate() {
            self.line(Line::Zero {
                row,
                call: *call,
                block: *block,
            })?;
        }
        Ok(())
    }

    fn session(&mut self, left: &Left<'_>) -> fmt::Result {
        self.line(Line::Run {
            calls: left.call_count(),
        })?;
        self.line(left.counts())?;
        self.answers(left)?;
        self.values(left)?;
        self.bits(left)?;
        self.blocks(left)?;
        self.zeros(left)?;
        self.line(left.marks())?;
        self.line(left.records())?;
        self.line(left.placed())?;
        self.line(Line::End)
    }
}

// A list that was not run: its answer is all there is to tell.
pub fn refused<R: Print + Eprint>(out: &mut Out<'_, R>, style: Style) -> fmt::Result {
    let mut printer = Printer { out, style };
    printer.line(Line::Refused {
        limit: entity::CALLS,
    })?;
    printer.line(Line::End)
}

// A session that was run.
pub fn dump<R: Print + Eprint>(out: &mut Out<'_, R>, style: Style, left: &Left<'_>) -> fmt::Result {
    Printer { out, style }.session(left)
}
