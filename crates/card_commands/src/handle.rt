// A run over items.
ghost use Rattle.std.specs.Prelude.{◌≡◌, ◌||◌};

use crate::answer::{accepted_number, answer, carry_out};
use crate::stop::Stop;
use card_desk::{Desk, Fault};
use card_events::NoMemory;
use card_lines::accepted_line;
use card_ports::{Keeper, Sink, SinkFault, write_all};
use card_text::Item;
use std::alloc::Global;
use std::marker::Model;

/// The desk, and whether an item was refused.
#[derive(Drop)]
pub struct Run {
    desk: Desk,
    refused: bool,
}

impl Model for Run {
    ghost use Rattle.card_commands.specs.Feed as spec;

    ghost Value = { spec.Run };

    ghost view = { λ r. record { ledger = r.desk.state; refused = r.refused } };
}

impl Run {
    ghost use Rattle.std.specs.Prelude.{◌≡◌, false, OnOk, IfErr};
    ghost use Rattle.card_desk.specs.Kept.{Fits};
    ghost use Rattle.card_text.specs.Items.{IsDatedItem};
    ghost use Rattle.card_commands.specs.Ran.{FellOn, Handled};
    ghost use Rattle.card_ports.specs.Written.{sink_side, TookAll, TookPart};
    ghost use Rattle.card_commands.specs.Written.{sides};

    /// The start of a run.
    pub fn new(desk: Desk) -> Run
        ensures { result ≡ record { ledger = desk.state; refused = false } }
    {
        Run {
            desk,
            refused: false,
        }
    }

    /// The desk of the run, which ends.
    pub fn give_back(self) -> Desk
        ensures { result.state ≡ self.ledger }
    {
        let Run { desk, refused: _ } = self;
        desk
    }

    /// Whether an item was refused.
    pub fn is_refused(&self) -> bool
        ensures { result ≡ self.now.refused }
    {
        self.refused
    }

    // Writes the reply to an item, and notes whether it is a refusal.
    fn tell<O: Sink>(&mut self, text: &str, refused: bool, output: &mut O) -> Result<(), SinkFault>
        ensures run { OnOk result (self.new ≡ record { ledger = self.old.ledger; refused = self.old.refused || refused }) }
        ensures ok { let at = sink_side O.taken O.faults in OnOk result (TookAll (at output.old) (at output.new) text.now) }
        ensures err { let at = sink_side O.taken O.faults in IfErr result (TookPart (at output.old) (at output.new) text.now) }
    {
        match write_all(output, text.as_bytes()) {
            Ok(()) => {
                self.refused = is_either(self.refused, refused);
                Ok(())
            }
            Err(fault) => Err(fault),
        }
    }

    /// Handles an item: carries out its request, and writes the reply to it.
    ///
    /// `Keeper`: the keeper failed, and nothing was done. `Sink`: the sink failed; the row is kept, and a front of the reply
    /// was written. `Memory`: memory ran out; either is so.
    pub fn handle<O: Sink, K: Keeper>(
        &mut self,
        alloc: Global,
        item: &Item,
        output: &mut O,
        keeper: &mut K,
    ) -> Result<(), Stop>
        requires dated { IsDatedItem item.now }
        requires fits { Fits (K.rows keeper.old) self.old.ledger }
        ensures ok { let at = sides O.taken O.faults K.rows K.faults in
            OnOk result (Handled (at output.old keeper.old) (at output.new keeper.new) self.old item.now self.new) }
        ensures err { let at = sides O.taken O.faults K.rows K.faults in
            IfErr result (FellOn (at output.old keeper.old) (at output.new keeper.new) self.old item.now) }
    {
        // Carried out first, then spelled: where memory ends in between, all replies but the last are whole.
        let reply = match carry_out(alloc, &mut self.desk, keeper, item) {
            Ok(reply) => reply,
            Err(Fault::Keeper) => return Err(Stop::Keeper),
            Err(Fault::Memory) => return Err(Stop::Memory),
        };
        let told = match accepted_number(item, &reply) {
            Some(number) => self.tell(accepted_line(number).as_str(), false, output),
            None => match answer(alloc, &mut self.desk, item, &reply) {
                Ok((text, refused)) => self.tell(&text, refused, output),
                Err(NoMemory) => return Err(Stop::Memory),
            },
        };
        match told {
            Ok(()) => Ok(()),
            Err(SinkFault::Failed) => Err(Stop::Sink),
            Err(SinkFault::Memory) => Err(Stop::Memory),
        }
    }
}

fn is_either(first: bool, second: bool) -> bool
    ensures { result ≡ (first || second) }
{
    first || second
}
