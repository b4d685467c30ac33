// How each answer is laid out for C, field by field. C has no enums with values: so a refusal and an outcome are numbers here.
ghost use Rattle.std.specs.Prelude.{◌≡◌};
ghost use Rattle.scope.specs.Page.{flatten_fields, outcome_number, full_register, run_fields, quote_fields};
ghost use Rattle.book.specs.Told.{number_told};
ghost use Rattle.unit.specs.Told.{outcome_told, ran_told};
ghost use Rattle.page.specs.Told.{flatten_told, run_told, quote_told};

use book::refusals::{Refusal, number};
use unit::machine::{Answer, Outcome};

// The refusal's number is 0 where the call is accepted. Where it is refused, the fields of its values are 0.
#[repr(C)]
#[derive(Clone, Copy, Debug, PartialEq, Eq)]
pub struct FlattenAnswer {
    pub refusal: u16,
    pub place: u16,
    pub lines: usize,
}

#[repr(C)]
#[derive(Clone, Copy, Debug, PartialEq, Eq)]
pub struct RunAnswer {
    pub refusal: u16,
    pub place: u16,
    pub outcome: u16,
    pub register: u16,
    pub steps: u64,
    pub line: usize,
}

#[repr(C)]
#[derive(Clone, Copy, Debug, PartialEq, Eq)]
pub struct QuoteAnswer {
    pub refusal: u16,
    pub place: u16,
    pub quote: u64,
}

// Flattening's answer.
impl From<Result<usize, Refusal>> for FlattenAnswer {
    ghost from_gives = { λ flattened fields. flatten_told fields ≡ flatten_fields (number_told flattened) };

    #[tactic(auto, unfolding(crate::specs::Told::flatten_told, scope::specs::Page::flatten_fields, book::specs::Told::result_told, book::specs::Told::refusal_told))]
    fn from(flattened: Result<usize, Refusal>) -> FlattenAnswer {
        match flattened {
            Err(x) => FlattenAnswer {
                refusal: number(x.name),
                place: x.place,
                lines: 0,
            },
            Ok(lines) => FlattenAnswer {
                refusal: 0,
                place: 0,
                lines,
            },
        }
    }
}

// The outcome's number for C; 0 is left for a refused call.
#[tactic(auto, unfolding(scope::specs::Page::outcome_number, unit::specs::Told::outcome_told))]
fn outcome_number(o: Outcome) -> u16
    ensures { result ≡ outcome_number (outcome_told o) }
{
    match o {
        Outcome::Finished => 1,
        Outcome::OutOfSteps => 2,
        Outcome::Full(_) => 3,
    }
}

// The full register where the outcome is FULL, else 0.
#[tactic(auto, unfolding(scope::specs::Page::full_register, unit::specs::Told::outcome_told))]
fn full_register(o: Outcome) -> u16
    ensures { result ≡ full_register (outcome_told o) }
{
    match o {
        Outcome::Finished | Outcome::OutOfSteps => 0,
        Outcome::Full(r) => u16::from(r.0),
    }
}

// A run's answer.
impl From<Result<Answer, Refusal>> for RunAnswer {
    ghost from_gives = { λ ran fields. run_told fields ≡ run_fields (ran_told ran) };

    #[tactic(auto, unfolding(crate::specs::Told::run_told, scope::specs::Page::run_fields, unit::specs::Told::answer_told, book::specs::Told::result_told, book::specs::Told::refusal_told))]
    fn from(ran: Result<Answer, Refusal>) -> RunAnswer {
        match ran {
            Err(x) => RunAnswer {
                refusal: number(x.name),
                place: x.place,
                outcome: 0,
                register: 0,
                steps: 0,
                line: 0,
            },
            Ok(a) => RunAnswer {
                refusal: 0,
                place: 0,
                outcome: outcome_number(a.outcome),
                register: full_register(a.outcome),
                steps: a.steps,
                line: a.line.0,
            },
        }
    }
}

// The quote's answer.
impl From<Result<u64, Refusal>> for QuoteAnswer {
    ghost from_gives = { λ quoted fields. quote_told fields ≡ quote_fields (number_told quoted) };

    #[tactic(auto, unfolding(crate::specs::Told::quote_told, scope::specs::Page::quote_fields, book::specs::Told::result_told, book::specs::Told::refusal_told))]
    fn from(quoted: Result<u64, Refusal>) -> QuoteAnswer {
        match quoted {
            Err(x) => QuoteAnswer {
                refusal: number(x.name),
                place: x.place,
                quote: 0,
            },
            Ok(quote) => QuoteAnswer {
                refusal: 0,
                place: 0,
                quote,
            },
        }
    }
}
