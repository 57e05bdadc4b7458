//! A walk by orders.
use crate::orders::{HELP, Order, TurnSort};
use crate::settling::settle;
use core_base::ListQueues;
use lot_explore::{Walk, explore_from};
use lot_findings::{
    GrainName, Headline, Scope, Source, Start, instruction_of, line_of, sort_words, waitings,
    write_schedule, write_waitings,
};
use lot_story::Telling;
use state_search::{Limits, NoRoom, Observer, Verdict};
use std::alloc::Global;
use std::io;
use std::io::{ErrorKind, Write};

/// A walk by orders: the turns that it has taken, and how far its searches go.
#[derive(Drop)]
pub struct Prompt<'a> {
    pub source: Source<'a>,
    pub grain: GrainName,
    pub limits: Limits,
    pub moves: Vec<usize>,
}

impl<'a> Prompt<'a> {
    /// Obeys an order, and tells what came of it.
    ///
    /// # Errors
    ///
    /// The errors of the writer, and `OutOfMemory`. The walk is as before.
    pub fn obey<W: Write, O: Observer>(
        &mut self,
        alloc: Global,
        out: &mut W,
        order: Order,
        observer: &mut O,
    ) -> io::Result<()> {
        match order {
            Order::Turn { thread, sort } => self.take(alloc, out, thread, sort),
            Order::Back { turns } => {
                self.moves.truncate(self.moves.len().saturating_sub(turns));
                Ok(())
            }
            Order::Show => self.show(alloc, out),
            Order::Waits => self.tell_waits(alloc, out),
            Order::Search => self.search(alloc, out, observer),
            Order::Settle => self.settle(alloc, out),
            Order::Schedule => write_schedule(out, self.source, self.telling(alloc)?.steps()),
            Order::Help => write!(out, "{HELP}"),
            Order::Quit | Order::Nothing => Ok(()),
        }
    }

    /// Writes what is wrong where the walk has come to, and each order that takes a turn from there.
    ///
    /// # Errors
    ///
    /// The errors of the writer, and `OutOfMemory`.
    pub fn write_choices<W: Write>(&self, alloc: Global, out: &mut W) -> io::Result<()> {
        let mut telling = self.telling(alloc)?;
        let walk = telling.walk_mut();
        if let Some(wrong) = walk.wrong().map_err(out_of_memory)? {
            let word = self.source.word(Some(wrong));
            writeln!(out, "{word} after {} turns", self.moves.len())?;
        }
        let threads = walk.program().threads();
        if walk.scene().are_through(walk.program(), threads) {
            writeln!(out, "all threads are through")?;
        }
        for by in 0..threads.saturating_mul(3) {
            if walk.is_possible(by).map_err(out_of_memory)? {
                write_turn(out, self.source, walk, by)?;
            }
        }
        Ok(())
    }

    // Returns the walk with its world.
    fn telling(&self, alloc: Global) -> io::Result<Telling<'a>> {
        Telling::after(alloc, self.source, self.moves.as_slice()).map_err(out_of_memory)
    }

    // Takes a turn, or tells that it is impossible.
    fn take<W: Write>(
        &mut self,
        alloc: Global,
        out: &mut W,
        thread: usize,
        sort: TurnSort,
    ) -> io::Result<()> {
        let mut telling = self.telling(alloc)?;
        let by = sort.number(thread);
        let is_so = TurnSort::of_move(telling.walk(), by) == sort;
        if !is_so || !telling.walk_mut().is_possible(by).map_err(out_of_memory)? {
            return writeln!(out, "this turn is not possible here");
        }
        telling.turn(alloc, out, by)?;
        self.moves.push(by).map_err(|_| out_of_memory(NoRoom))
    }

    // Shows the locks and the variables.
    fn show<W: Write>(&self, alloc: Global, out: &mut W) -> io::Result<()> {
        let telling = self.telling(alloc)?;
        write!(out, "{}", telling.shown())?;
        for (variable, number) in telling.walk().scene().variables().iter().enumerate() {
            write!(out, "{}", self.source.variable_name(variable))?;
            if let Some(thread) = self.source.owner(variable) {
                write!(out, " of {}", self.source.thread_name(thread))?;
            }
            writeln!(out, " = {number}")?;
        }
        Ok(())
    }

    fn tell_waits<W: Write>(&self, alloc: Global, out: &mut W) -> io::Result<()> {
        let telling = self.telling(alloc)?;
        match waitings(alloc, telling.walk(), telling.world()) {
            Ok(waitings) => {
                let numbers = telling.walk().scene().variables();
                write_waitings(out, self.source, numbers, waitings.as_slice())
            }
            Err(_) => Err(out_of_memory(NoRoom)),
        }
    }

    fn settle<W: Write>(&mut self, alloc: Global, out: &mut W) -> io::Result<()> {
        let mut telling = self.telling(alloc)?;
        settle(alloc, out, &mut telling)?;
        match Vec::from_slice(alloc, telling.walk().moves()) {
            Ok(moves) => self.moves = moves,
            Err(_) => return Err(out_of_memory(NoRoom)),
        }
        let headline = Headline::Rests {
            turns: self.moves.len(),
            grain: self.grain,
        };
        writeln!(out, "{headline}")
    }

    // Searches all schedules from here on, and tells the turns of the one that goes wrong.
    fn search<W: Write, O: Observer>(
        &self,
        alloc: Global,
        out: &mut W,
        observer: &mut O,
    ) -> io::Result<()> {
        let mut telling = self.telling(alloc)?;
        let verdict = explore_from(alloc, telling.walk(), self.limits, observer);
        let scope = Scope {
            grain: self.grain,
            start: Start::of_moves(self.moves.as_slice()),
            calls: None,
        };
        match Headline::of_verdict(&verdict, scope, "the search was stopped") {
            Ok(headline) => writeln!(out, "{headline}"),
            Err(moves) => self.tell_turns(alloc, out, &mut telling, moves),
        }
    }

    // Tells the turns of a schedule that goes wrong, and how.
    fn tell_turns<W: Write>(
        &self,
        alloc: Global,
        out: &mut W,
        telling: &mut Telling<'_>,
        moves: &[usize],
    ) -> io::Result<()> {
        for by in moves {
            telling.turn(alloc, out, *by)?;
        }
        let wrong = telling.walk_mut().wrong().map_err(out_of_memory)?;
        let headline = Headline::Wrong {
            word: self.source.word(wrong),
            turns: telling.walk().moves().len(),
            grain: self.grain,
            seed: None,
        };
        writeln!(out, "{headline}")
    }
}

fn out_of_memory(_refused: NoRoom) -> io::Error {
    io::Error::from(ErrorKind::OutOfMemory)
}

// Writes the order of a turn, and the line of the program at which its thread is.
fn write_turn<W: Write>(
    out: &mut W,
    source: Source<'_>,
    walk: &Walk<'_, ListQueues>,
    by: usize,
) -> io::Result<()> {
    let thread = by / 3;
    let line = line_of(walk, thread);
    let order = TurnSort::of_move(walk, by).word();
    write!(out, "{order}{thread}: line {line}: {}", source.line(line))?;
    match walk.program().branch(thread, instruction_of(walk, thread)) {
        Some(_) => writeln!(out, ": {}", sort_words(walk, by)),
        None => writeln!(out),
    }
}
