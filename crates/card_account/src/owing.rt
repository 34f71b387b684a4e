use card_events::Cents;

/// What is owed on an account, in cents: in all, below 0 where a credit balance is left; the credit balance, at least 0 (12
/// CFR 1026.11(a)); and what is held in dispute, at least 0 (12 CFR 1026.13).
#[derive(Clone, Copy)]
pub struct Owing {
    pub owed: Cents,
    pub credit: Cents,
    pub held: Cents,
}
