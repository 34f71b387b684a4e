// A state in memory of its own.
ghost use Rattle.std.specs.Prelude.{◌≡◌, IfOk};

use card_closing::CycleRows;
use card_daily::State;
use card_events::NoMemory;
use std::alloc::Global;

fn copy_rows(rows: &[CycleRows], alloc: Global) -> Result<Vec<CycleRows>, NoMemory>
    ensures { IfOk result (λ copy. copy.items ≡ rows.now) }
{
    let mut copy = Vec::new(alloc);
    for row in rows {
        copy.push(row.copy(alloc)?)?;
    }
    Ok(copy)
}

/// The same segments, rates, rows and accruals in memory of their own.
pub fn copy_state(state: &State, alloc: Global) -> Result<State, NoMemory>
    ensures segments { IfOk result (λ s. s.segments ≡ state.now.segments) }
    ensures rates { IfOk result (λ s. s.rates ≡ state.now.rates) }
    ensures rows { IfOk result (λ s. s.rows.items ≡ state.now.rows.items) }
    ensures accruals { IfOk result (λ s. s.accruals.items ≡ state.now.accruals.items) }
{
    Ok(State {
        segments: state.segments.copy(alloc)?,
        rates: state.rates.copy(alloc)?,
        rows: copy_rows(&state.rows, alloc)?,
        accruals: Vec::from_slice(alloc, &state.accruals)?,
    })
}
