// How lines are printed: fields are parted by one space, every line ends in byte 10. Each function prints a text behind what is printed, and
// asks for room for just that text. (That is another text in each, so the type of what is printed can't say it.)
// `write!` promises what it wrote only where it succeeds, and never that it does: so lines are put together here.
ghost use Rattle.std.specs.Prelude.{◌≡◌, ◌++◌};
ghost use Rattle.scope.specs.Shop.{outcome_line, register_line, register_lines, print_refusal};
ghost use Rattle.book.specs.Told.{refusal_told};
ghost use Rattle.unit.specs.Told.{outcome_told, ran_told};
ghost use Rattle.counter.specs.Printed.{Room, number_and, two_numbers, word_and_two, print_answer};

use crate::LONGEST_ANSWER;
use arrayvec::ArrayVec;
use book::refusals::{Refusal, number};
use itoa::Buffer;
use unit::machine::{Answer, Outcome};

// What is printed so far. It lies in the value itself: nothing is allocated.
pub(crate) type Printed = ArrayVec<u8, LONGEST_ANSWER>;

const SPACE: u8 = 32;

const LINE_END: u8 = 10;

// A register that holds this has no line.
const NOT_PRINTED: u16 = 0;

// There is room for it, so it is never refused.
fn put_text(out: &mut Printed, text: &[u8])
    requires { Room text.now out.old.items }
    ensures { out.new.items ≡ out.old.items ++ text.now }
{
    let _always_fits = out.try_extend_from_slice(text);
}

// A number, and the byte that stands behind it.
#[tactic(auto, using(crate::proofs::Texts::texts, crate::proofs::Decimal::printed_decimal), unfolding(crate::specs::Printed::number_and))]
fn put_number(out: &mut Printed, n: u64, behind: u8)
    requires { Room (number_and n behind) out.old.items }
    ensures { out.new.items ≡ out.old.items ++ number_and n behind }
{
    let mut digits = Buffer::new();
    put_text(out, digits.format(n).as_bytes());
    out.push(behind);
}

// Two numbers, parted by a space.
#[tactic(auto, using(crate::proofs::Texts::texts), unfolding(crate::specs::Printed::two_numbers))]
fn put_two(out: &mut Printed, n: u64, m: u64, behind: u8)
    requires { Room (two_numbers n m behind) out.old.items }
    ensures { out.new.items ≡ out.old.items ++ two_numbers n m behind }
{
    put_number(out, n, SPACE);
    put_number(out, m, behind);
}

// A word and two numbers: every line begins so.
#[tactic(auto, using(crate::proofs::Texts::texts), unfolding(crate::specs::Printed::word_and_two))]
fn put_word_and_two(out: &mut Printed, word: &[u8], n: u64, m: u64, behind: u8)
    requires { Room (word_and_two word.now n m behind) out.old.items }
    ensures { out.new.items ≡ out.old.items ++ word_and_two word.now n m behind }
{
    put_text(out, word);
    put_two(out, n, m, behind);
}

// A refusal prints REFUSED, number, place.
#[tactic(auto, using(crate::proofs::Lines::refusal_line), unfolding(scope::specs::Shop::ascii))]
pub(crate) fn put_refusal(out: &mut Printed, x: Refusal)
    requires { Room (print_refusal (refusal_told x)) out.old.items }
    ensures { out.new.items ≡ out.old.items ++ print_refusal (refusal_told x) }
{
    let which = u64::from(number(x.name));
    put_word_and_two(out, b"REFUSED ", which, u64::from(x.place), LINE_END);
}

// Outcomes print under their names. A FULL line has the register as its last number.
#[tactic(auto, using(crate::proofs::Lines::outcomes), unfolding(scope::specs::Shop::ascii))]
fn put_outcome(out: &mut Printed, outcome: Outcome, steps: u64, line: u64)
    requires { Room (outcome_line (outcome_told outcome) steps line) out.old.items }
    ensures { out.new.items ≡ out.old.items ++ outcome_line (outcome_told outcome) steps line }
{
    match outcome {
        Outcome::Finished => put_word_and_two(out, b"FINISHED ", steps, line, LINE_END),
        Outcome::OutOfSteps => put_word_and_two(out, b"OUT OF STEPS ", steps, line, LINE_END),
        Outcome::Full(r) => {
            put_word_and_two(out, b"FULL ", steps, line, SPACE);
            put_number(out, u64::from(r.0), LINE_END);
        }
    }
}

// R with its number, then its value; nothing for a register that is 0.
#[tactic(auto, using(crate::proofs::Lines::one_register), unfolding(scope::specs::Shop::ascii))]
fn put_register(out: &mut Printed, j: usize, v: u16)
    requires { Room (register_line j v) out.old.items }
    ensures { out.new.items ≡ out.old.items ++ register_line j v }
{
    if v == NOT_PRINTED {
        return;
    }
    put_word_and_two(out, b"R", j as u64, u64::from(v), LINE_END);
}

// One line for each register that isn't 0, in order.
#[tactic(auto, using(crate::proofs::Lines::listed))]
fn put_registers(out: &mut Printed, regs: &[u16])
    requires { Room (register_lines 0 regs.now) out.old.items }
    ensures { out.new.items ≡ out.old.items ++ register_lines 0 regs.now }
{
    for (j, v) in regs.iter().enumerate() {
        put_register(out, j, *v);
    }
}

// What a run answers, and what it left in the registers.
#[tactic(auto, using(crate::proofs::Lines::ran))]
pub(crate) fn put_ran(out: &mut Printed, ran: Result<Answer, Refusal>, regs: &[u16])
    requires { Room (print_answer (ran_told ran) regs.now) out.old.items }
    ensures { out.new.items ≡ out.old.items ++ print_answer (ran_told ran) regs.now }
{
    match ran {
        Err(x) => put_refusal(out, x),
        Ok(a) => {
            put_outcome(out, a.outcome, a.steps, a.line.0 as u64);
            put_registers(out, regs);
        }
    }
}
