use card_closing::{Accrual, CycleRows};
use card_rates::RateBook;
use card_segments::Segments;

/// What is kept of an account from day to day: its segments with their balances, its rates with the penalties begun so far, and
/// the rows of the open cycle and what was accrued, of each segment but Credit and Held in order of number.
#[derive(Drop)]
pub struct State {
    pub segments: Segments,
    pub rates: RateBook,
    pub rows: Vec<CycleRows>,
    pub accruals: Vec<Accrual>,
}
