// A run over the bytes of an input.
ghost use Rattle.std.specs.Prelude.{◌≡◌, IfOk, take};
ghost use Rattle.std.specs.Str.Lines.{strip_carriage_return};
ghost use Rattle.card_lines.specs.Lines.{IsDatedLine};
ghost use Rattle.card_commands.specs.Input.{ended_line};

use crate::handle::Run;
use crate::item::item_of;
use crate::stop::Stop;
use card_desk::Desk;
use card_events::NoMemory;
use card_lines::{Line, read_line};
use card_ports::{Keeper, Sink};
use memchr::memchr;
use std::alloc::Global;
use std::marker::Model;

const LONGEST: usize = 512;

/// How far a run over bytes is: the run over the items of its lines, how many they were, and the front of the next line.
#[derive(Drop)]
pub struct Progress {
    run: Run,
    number: u64,
    line: Vec<u8>,
}

impl Model for Progress {
    ghost use Rattle.card_commands.specs.Feed as spec;

    ghost Value = { spec.Progress };

    ghost view = { λ p. record { ledger = p.run.ledger; number = p.number; refused = p.run.refused; line = p.line.items } };
}

// What a line says that a line feed ends.
#[tactic(auto, unfolding(crate::specs::Input::ended_line))]
fn read_ended(raw: &[u8]) -> Line
    ensures line { result ≡ ended_line raw.now }
    ensures dated { IsDatedLine result }
{
    if raw.len() > LONGEST {
        return Line::Bad(0);
    }
    read_line(without_return(raw))
}

fn without_return(raw: &[u8]) -> &[u8]
    ensures { result.now ≡ strip_carriage_return raw.now }
{
    if raw.len() > 0 && raw[raw.len() - 1] == b'\r' {
        &raw[..raw.len() - 1]
    } else {
        raw
    }
}

// The first bytes, at most so many.
fn front_of(bytes: &[u8], count: usize) -> &[u8]
    ensures { result.now ≡ take count bytes.now }
{
    if count < bytes.len() {
        &bytes[..count]
    } else {
        bytes
    }
}

impl Progress {
    ghost use Rattle.std.specs.Prelude.{◌≡◌, ◌<◌, ◌≤◌, ◌+◌, ◌^◌, [], ◌∷◌, ◌++◌, length, take, IfOk, OnOk, IfErr};
    ghost use Rattle.card_desk.specs.Kept.{Fits};
    ghost use Rattle.card_commands.specs.Feed.{HasNoLineFeed, kept_of, end_text, end_rows, new_run};
    ghost use Rattle.card_commands.specs.Ran.{Fed, FellAt, Finished};
    ghost use Rattle.card_commands.specs.Written.{sides, FellIn};

    /// The start of a run.
    pub fn new(alloc: Global, desk: Desk) -> Progress
        ensures { result ≡ new_run desk.state }
    {
        Progress {
            run: Run::new(desk),
            number: 0,
            line: Vec::new(alloc),
        }
    }

    /// The desk of the run, which ends.
    pub fn give_back(self) -> Desk
        ensures { result.state ≡ self.ledger }
    {
        let Progress {
            run,
            number: _,
            line,
        } = self;
        drop(line);
        run.give_back()
    }

    // Keeps a run behind the line that is there, as much of it as shows that the line is too long.
    fn keep(&mut self, run: &[u8]) -> Result<(), NoMemory>
        ensures { OnOk result (self.new ≡ record self.old { line = self.old.line ++ kept_of self.old.line run.now }) }
    {
        let room = (LONGEST + 1).saturating_sub(self.line.len());
        self.line.extend_from_slice(front_of(run, room))?;
        Ok(())
    }

    // Takes the line that is there away, with a run behind it that a line feed ends, and says what it says. A line that
    // lies whole in the run isn't copied.
    fn take_line(&mut self, run: &[u8]) -> Result<Line, NoMemory>
        ensures line { IfOk result (λ l. l ≡ ended_line (self.old.line ++ run.now)) }
        ensures dated { IfOk result IsDatedLine }
        ensures taken { OnOk result (self.new ≡ record self.old { line = [] }) }
    {
        if self.line.is_empty() {
            return Ok(read_ended(run));
        }
        self.keep(run)?;
        let line = read_ended(&self.line);
        self.line.clear();
        Ok(line)
    }

    // Takes a run and the line feed behind it, and handles the line that ends there.
    fn end_line<O: Sink, K: Keeper>(
        &mut self,
        alloc: Global,
        run: &[u8],
        output: &mut O,
        keeper: &mut K,
    ) -> Result<(), Stop>
        requires run { HasNoLineFeed run.now }
        requires number { self.old.number < 2 ^ 63 }
        requires fits { Fits (K.rows keeper.old) self.old.ledger }
        ensures ok { let at = sides O.taken O.faults K.rows K.faults in
            OnOk result (Fed (at output.old keeper.old) (at output.new keeper.new) self.old (run.now ++ 10 ∷ []) self.new) }
        ensures err { let at = sides O.taken O.faults K.rows K.faults in
            IfErr result (FellAt (at output.old keeper.old) (at output.new keeper.new) self.old (run.now ++ 10 ∷ [])) }
    {
        let line = match self.take_line(run) {
            Ok(line) => line,
            Err(NoMemory) => return Err(Stop::Memory),
        };
        let item = item_of(self.number + 1, line);
        match self.run.handle(alloc, &item, output, keeper) {
            Ok(()) => {
                self.number += 1;
                Ok(())
            }
            Err(stop) => Err(stop),
        }
    }

    // Takes the bytes up to the first line feed and it, or all where there is none, and says how many they were.
    fn feed_line<O: Sink, K: Keeper>(
        &mut self,
        alloc: Global,
        bytes: &[u8],
        output: &mut O,
        keeper: &mut K,
    ) -> Result<usize, Stop>
        requires some { 0 < length bytes.now }
        requires number { self.old.number < 2 ^ 63 }
        requires fits { Fits (K.rows keeper.old) self.old.ledger }
        ensures some { IfOk result (λ n. 0 < n) }
        ensures within { IfOk result (λ n. n ≤ length bytes.now) }
        ensures ok { let at = sides O.taken O.faults K.rows K.faults in
            IfOk result (λ n. Fed (at output.old keeper.old) (at output.new keeper.new) self.old (take n bytes.now) self.new) }
        ensures err { let at = sides O.taken O.faults K.rows K.faults in
            IfErr result (FellAt (at output.old keeper.old) (at output.new keeper.new) self.old bytes.now) }
    {
        match memchr(b'\n', bytes) {
            Some(n) => match self.end_line(alloc, &bytes[..n], output, keeper) {
                Ok(()) => Ok(n + 1),
                Err(stop) => Err(stop),
            },
            None => match self.keep(bytes) {
                Ok(()) => Ok(bytes.len()),
                Err(NoMemory) => Err(Stop::Memory),
            },
        }
    }

    /// Takes the bytes, one after the other, and handles each line that ends in them. After a fault, the bytes before some
    /// place were handled.
    pub fn feed_bytes<O: Sink, K: Keeper>(
        &mut self,
        alloc: Global,
        bytes: &[u8],
        output: &mut O,
        keeper: &mut K,
    ) -> Result<(), Stop>
        requires number { self.old.number + length bytes.now < 2 ^ 63 }
        requires fits { Fits (K.rows keeper.old) self.old.ledger }
        ensures ok { let at = sides O.taken O.faults K.rows K.faults in
            OnOk result (Fed (at output.old keeper.old) (at output.new keeper.new) self.old bytes.now self.new) }
        ensures err { let at = sides O.taken O.faults K.rows K.faults in
            IfErr result (FellAt (at output.old keeper.old) (at output.new keeper.new) self.old bytes.now) }
    {
        let mut fed = 0;
        while fed < bytes.len() {
            match self.feed_line(alloc, &bytes[fed..], output, keeper) {
                Ok(n) => fed += n,
                Err(stop) => return Err(stop),
            }
        }
        Ok(())
    }

    /// Handles a last line that no line feed ends, and says whether a line of the run was refused.
    #[tactic(auto, unfolding(crate::specs::Feed::end_text, crate::specs::Feed::end_rows, crate::specs::Feed::end_refused, crate::specs::Feed::end_ledger))]
    pub fn finish<O: Sink, K: Keeper>(
        &mut self,
        alloc: Global,
        output: &mut O,
        keeper: &mut K,
    ) -> Result<bool, Stop>
        requires number { self.old.number < 2 ^ 63 }
        requires fits { Fits (K.rows keeper.old) self.old.ledger }
        ensures ok { let at = sides O.taken O.faults K.rows K.faults in
            IfOk result (Finished (at output.old keeper.old) (at output.new keeper.new) self.old self.new.ledger) }
        ensures err { let at = sides O.taken O.faults K.rows K.faults in
            IfErr result (FellIn (at output.old keeper.old) (at output.new keeper.new) (end_text self.old) (end_rows self.old)) }
    {
        if self.line.is_empty() {
            return Ok(self.run.is_refused());
        }
        let item = item_of(self.number + 1, read_line(&self.line));
        match self.run.handle(alloc, &item, output, keeper) {
            Ok(()) => Ok(self.run.is_refused()),
            Err(stop) => Err(stop),
        }
    }
}
