// What is recorded of an account up to the day last reached.
ghost use Rattle.std.specs.Prelude.{◌≡◌, ◌-◌, ◌≤◌, IfOk, nat_le, length, slice_index_or};
ghost use Rattle.std.specs.List.{filter};
ghost use Rattle.card_model.specs.Cycles.{Cycle};
ghost use Rattle.card_past.specs.Pasts.{AreEnds, AreFirst, AreSame, IsEmpty, IsFront};

use card_book::{Accruing, Cycle, Track, fees_up_to};
use card_events::{Day, NoMemory};
use std::alloc::Global;

/// The entries, the closed cycles and the penalty fees of an account, each in order; of each closed cycle the first day of the run
/// of days with a credit balance at its closing; and what deferred plans had accrued at the closings.
#[derive(Drop)]
pub struct Past {
    pub track: Track,
    pub since: Vec<Option<Day>>,
    pub accrued: Vec<Accruing>,
}

/// How long the lists of a past are, up to some closing: its `since` is as long as its cycles.
#[derive(Clone, Copy)]
pub struct Ends {
    pub entries: usize,
    pub cycles: usize,
    pub fees: usize,
    pub accrued: usize,
}

/// Nothing recorded. It doesn't allocate.
pub fn nothing(alloc: Global) -> Past
    ensures { IsEmpty result }
{
    Past {
        track: Track {
            entries: Vec::new(alloc),
            cycles: Vec::new(alloc),
            fees: Vec::new(alloc),
        },
        since: Vec::new(alloc),
        accrued: Vec::new(alloc),
    }
}

fn copy_cycles(cycles: &[Cycle], alloc: Global) -> Result<Vec<Cycle>, NoMemory>
    ensures { IfOk result (λ copy. copy.items ≡ cycles.now) }
{
    let mut copy = Vec::new(alloc);
    for cycle in cycles {
        copy.push(cycle.copy(alloc)?)?;
    }
    Ok(copy)
}

/// The same in memory of its own.
pub fn copy_past(past: &Past, alloc: Global) -> Result<Past, NoMemory>
    ensures { IfOk result (λ copy. AreSame past.now copy) }
{
    Ok(Past {
        track: Track {
            entries: Vec::from_slice(alloc, &past.track.entries)?,
            cycles: copy_cycles(&past.track.cycles, alloc)?,
            fees: Vec::from_slice(alloc, &past.track.fees)?,
        },
        since: Vec::from_slice(alloc, &past.since)?,
        accrued: Vec::from_slice(alloc, &past.accrued)?,
    })
}

/// Before the first of each list.
pub fn first_ends() -> Ends
    ensures { AreFirst result }
{
    Ends {
        entries: 0,
        cycles: 0,
        fees: 0,
        accrued: 0,
    }
}

/// Where its lists end.
pub fn ends_of(past: &Past) -> Ends
    requires { length past.now.since.items ≡ length past.now.track.cycles.items }
    ensures { AreEnds result past.now }
{
    Ends {
        entries: past.track.entries.len(),
        cycles: past.track.cycles.len(),
        fees: past.track.fees.len(),
        accrued: past.accrued.len(),
    }
}

// How many accruals are of cycles up to one.
fn accrued_up_to(accrued: &[Accruing], cycle: u32) -> usize
    ensures { result ≡ length (filter (λ a. nat_le a.cycle cycle) accrued.now) }
{
    let mut count = 0;
    for accruing in accrued {
        if accruing.cycle <= cycle {
            count += 1;
        }
    }
    count
}

/// How many entries there were at the closing of a cycle, 0 before the first.
pub fn entries_up_to(past: &Past, cycle: u32) -> usize
    requires { cycle ≤ length past.now.track.cycles.items }
    ensures none { cycle ≡ 0 → result ≡ 0 }
    ensures some { (d : Cycle) → 1 ≤ cycle → result ≡ (slice_index_or past.now.track.cycles.items (cycle - 1) d).entries }
{
    if cycle == 0 {
        0
    } else {
        past.track.cycles[cycle as usize - 1].entries
    }
}

/// Where its lists ended at the closing of a cycle that is closed, or, for 0, before the opening.
pub fn ends_at(past: &Past, cycle: u32) -> Ends
    requires { cycle ≤ length past.now.track.cycles.items }
    ensures cycles { result.cycles ≡ cycle }
    ensures none { cycle ≡ 0 → result.entries ≡ 0 }
    ensures some { (d : Cycle) → 1 ≤ cycle → result.entries ≡ (slice_index_or past.now.track.cycles.items (cycle - 1) d).entries }
    ensures fees { result.fees ≡ length (filter (λ f. nat_le f.cycle cycle) past.now.track.fees.items) }
    ensures accrued { result.accrued ≡ length (filter (λ a. nat_le a.cycle cycle) past.now.accrued.items) }
{
    Ends {
        entries: entries_up_to(past, cycle),
        cycles: cycle as usize,
        fees: fees_up_to(&past.track.fees, cycle),
        accrued: accrued_up_to(&past.accrued, cycle),
    }
}

/// Drops what lies behind these ends. It doesn't allocate.
pub fn cut(past: &mut Past, ends: &Ends)
    ensures { IsFront ends.now past.old past.new }
{
    past.track.entries.truncate(ends.entries);
    past.track.cycles.truncate(ends.cycles);
    past.track.fees.truncate(ends.fees);
    past.since.truncate(ends.cycles);
    past.accrued.truncate(ends.accrued);
}
