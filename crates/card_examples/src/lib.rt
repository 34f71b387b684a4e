//! Worked values of the ledger's definitions, computed by the checker. Each function's contract is a record of equations
//! between a definition and a value that was worked out apart from it; `docs/RULES.md` names them beside the rules.
#![tactic(auto)]

ghost use Rattle.card_examples.specs.Allocation.{AllocationIsWorked};
ghost use Rattle.card_examples.specs.Caps.{CapsAreWorked};
ghost use Rattle.card_examples.specs.Deadlines.{DeadlinesAreWorked};
ghost use Rattle.card_examples.specs.Deferred.{DeferredIsWorked};
ghost use Rattle.card_examples.specs.Disputes.{DisputesAreWorked};
ghost use Rattle.card_examples.specs.Fees.{FeesAreWorked};
ghost use Rattle.card_examples.specs.Grace.{GraceIsWorked};
ghost use Rattle.card_examples.specs.Interest.{InterestIsWorked};
ghost use Rattle.card_examples.specs.Machine.{MachineIsWorked};
ghost use Rattle.card_examples.specs.Payments.{PaymentsAreWorked};
ghost use Rattle.card_examples.specs.Rates.{RatesAreWorked};
ghost use Rattle.card_examples.specs.Refusals.{RefusalsAreWorked};
ghost use Rattle.card_examples.specs.Sheets.{SheetsAreWorked};
ghost use Rattle.card_examples.specs.Statements.{StatementsAreWorked};
ghost use Rattle.card_examples.specs.Variable.{IndexRefusalsAreWorked, VariableRatesAreWorked};

/// Daily rates and interest (12 CFR 1026.14(b)).
pub fn interest()
    ensures { InterestIsWorked }
{}

/// The allocation of payments (12 CFR 1026.53).
pub fn allocation()
    ensures { AllocationIsWorked }
{}

/// What payments, merchants' credits and returns do (12 CFR 1026.10, .52(b), .53, .54).
pub fn payments()
    ensures { PaymentsAreWorked }
{}

/// The grace period (12 CFR 1026.54).
pub fn grace()
    ensures { GraceIsWorked }
{}

/// Minimum payments and penalty fees (12 CFR 1026.52(b)).
pub fn fees()
    ensures { FeesAreWorked }
{}

/// Rates: notices, lowered rates, plans and penalties (12 CFR 1026.9(c)(2), .9(g), .55(b)).
pub fn rates()
    ensures { RatesAreWorked }
{}

/// Deferred interest (12 CFR 1026.54; comment 55(b)(1)-3).
pub fn deferred()
    ensures { DeferredIsWorked }
{}

/// Disputed charges (12 CFR 1026.13).
pub fn disputes()
    ensures { DisputesAreWorked }
{}

/// Corrections after a statement was issued.
pub fn caps()
    ensures { CapsAreWorked }
{}

/// Refusals, each with its value.
pub fn refusals()
    ensures { RefusalsAreWorked }
{}

/// Deadlines and open tasks (12 CFR 1026.11(a), .13, .59).
pub fn deadlines()
    ensures { DeadlinesAreWorked }
{}

/// The machine: replies, keys and repeats.
pub fn machine()
    ensures { MachineIsWorked }
{}

/// Statements, the limit of interest, break days and steps (12 CFR 1026.5(b)(2)(ii), .7(b)).
pub fn statements()
    ensures { StatementsAreWorked }
{}

/// What statements show beside their cycles (12 CFR 1026.7(b)).
pub fn sheets()
    ensures { SheetsAreWorked }
{}

/// Rates that follow the index, and what isn't accepted of it (12 CFR 1026.55(b)(2)).
pub fn variable()
    ensures rates { VariableRatesAreWorked }
    ensures refusals { IndexRefusalsAreWorked }
{}
