// Texts of the ledger.
ghost use Rattle.std.specs.Prelude.{Some, option_map};
ghost use Rattle.std.specs.String.{string_bytes};
ghost use Rattle.card_http.specs.Told.{repaid, told};
ghost use Rattle.card_commands.specs.Views.{Told, Viewed};
ghost use Rattle.card_ports.specs.Written.{sink_side};
ghost use Rattle.card_commands.specs.Written.{sides};

use crate::ended::{Ended, ended_by_sink};
use crate::load::load;
use card_desk::Ask;
use card_events::NoMemory;
use card_http::{repaid_text, told_text};
use card_ports::{Keeper, Sink, write_all};
use card_text::none_line;
use std::alloc::Global;

/// Writes a text.
pub fn write_told<O: Sink>(output: &mut O, text: &str) -> Ended
    ensures { let at = sink_side O.taken O.faults in Told (at output.old) (at output.new) (Some text.now) result }
{
    match write_all(output, text.as_bytes()) {
        Ok(()) => Ended::Done,
        Err(fault) => ended_by_sink(fault),
    }
}

// Writes a text, or the line for none.
fn write_text<O: Sink>(output: &mut O, text: &Option<String>) -> Ended
    ensures { let at = sink_side O.taken O.faults in Told (at output.old) (at output.new) (option_map string_bytes text.now) result }
{
    match text {
        Some(text) => write_told(output, text.as_str()),
        None => match write_all(output, none_line().as_bytes()) {
            Ok(()) => Ended::Refused,
            Err(fault) => ended_by_sink(fault),
        },
    }
}

/// Writes the text of what is asked of the ledger that the kept rows give, or the line `none` where it isn't there. Nothing is
/// kept.
pub fn tell<O: Sink, K: Keeper>(alloc: Global, ask: &Ask, output: &mut O, keeper: &mut K) -> Ended
    ensures { let at = sides O.taken O.faults K.rows K.faults in
        Viewed (at output.old keeper.old) (at output.new keeper.new) (λ s. told s ask.now) result }
{
    let mut desk = match load(alloc, output, keeper) {
        Ok(desk) => desk,
        Err(ended) => return ended,
    };
    match told_text(alloc, &mut desk, ask) {
        Ok(text) => write_text(output, &text),
        Err(NoMemory) => Ended::Memory,
    }
}

/// Writes what it takes to repay the balances of a statement (12 CFR 1026.7(b)(12)), or the line `none` where what is
/// asked of the ledger that the kept rows give is no statement that is there. Nothing is kept.
pub fn tell_repayment<O: Sink, K: Keeper>(
    alloc: Global,
    ask: &Ask,
    output: &mut O,
    keeper: &mut K,
) -> Ended
    ensures { let at = sides O.taken O.faults K.rows K.faults in
        Viewed (at output.old keeper.old) (at output.new keeper.new) (λ s. repaid s ask.now) result }
{
    let mut desk = match load(alloc, output, keeper) {
        Ok(desk) => desk,
        Err(ended) => return ended,
    };
    match repaid_text(alloc, &mut desk, ask) {
        Ok(text) => write_text(output, &text),
        Err(NoMemory) => Ended::Memory,
    }
}
