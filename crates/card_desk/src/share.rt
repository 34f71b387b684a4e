// The requests that all accounts share: the reason against one, and what it brings.
ghost use Rattle.std.specs.Prelude.{◌≡◌, IfOk, nat_lt, unwrap_or};
ghost use Rattle.card_model.specs.Machine.{rolled, shared_reason};
ghost use Rattle.card_desk.specs.Shares.{IsLoadable, loaded};

use card_events::{Day, NoMemory, Refusal, Shared};
use card_fees::{SharedRows, fees_reason, holiday_reason, index_reason, roll_reason};
use std::alloc::Global;

/// Why a shared request isn't accepted today, where so many accounts exist.
pub fn shared_reason(today: Day, accounts: usize, shared: &Shared) -> Option<Refusal>
    ensures { result ≡ shared_reason today (nat_lt 0 accounts) shared.now }
{
    match shared {
        Shared::Roll(day) => roll_reason(today, accounts, *day),
        Shared::Holiday(day) => holiday_reason(today, *day),
        Shared::FeeRow { day, first, repeat } => fees_reason(today, *day, *first, *repeat),
        Shared::Index { day, rate } => index_reason(today, *day, *rate),
    }
}

/// Today after a shared request.
pub fn rolled(today: Day, shared: &Shared) -> Day
    ensures { result ≡ rolled today shared.now }
{
    match shared {
        Shared::Roll(day) => *day,
        Shared::Holiday(_) => today,
        Shared::FeeRow { .. } => today,
        Shared::Index { .. } => today,
    }
}

/// What all accounts share after a shared request, in memory of its own, None where it brings nothing. A holiday is at most
/// 2099-12-31, fees at most 100,000 cents, a rate at most 9,999 basis points.
pub fn loaded(
    alloc: Global,
    common: &SharedRows,
    shared: &Shared,
) -> Result<Option<SharedRows>, NoMemory>
    requires { IsLoadable shared.now }
    ensures { IfOk result (λ more. unwrap_or more common.now ≡ loaded shared.now common.now) }
{
    match shared {
        Shared::Roll(_) => Ok(None),
        Shared::Holiday(day) => Ok(Some(common.with_holiday(alloc, *day)?)),
        Shared::FeeRow { day, first, repeat } => {
            Ok(Some(common.with_fees(alloc, *day, *first, *repeat)?))
        }
        Shared::Index { day, rate } => Ok(Some(common.with_index(alloc, *day, *rate)?)),
    }
}

/// Takes what a request brings.
pub fn load(common: &mut SharedRows, more: Option<SharedRows>)
    ensures { common.new ≡ unwrap_or more common.old }
{
    if let Some(more) = more {
        *common = more;
    }
}
