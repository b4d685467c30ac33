// At the counter: from the bytes of standard input to the bytes that the shop's program prints.
#![tactic(auto)]

mod printing; // printing.rt: lines and what they are made of
mod trailer; // trailer.rt: the routine, the registers and the budget behind the book

ghost use Rattle.std.specs.Prelude.{◌≡◌, ◌≤◌, ◌++◌, length};
ghost use Rattle.scope.specs.Shop.{trailer_length, most_input, shop_prints};
ghost use Rattle.io.specs.Counts.{IsPrefixLen};
ghost use Rattle.counter.specs.Printed.{counter_answers, Room, print_run_of};

use book::flat::FLAT_HEADER_BYTES;
use book::header::LINE_BYTES;
use book::refusals::{Name, Refusal};
use flatten::flatten;
use flatten::lengths::MOST_FLAT_LINES;
use printing::{Printed, put_ran, put_refusal};
use trailer::{TRAILER_BYTES, budget_read, registers_read, routine_read};
use unit::run;

// the longest book and the trailer
const MOST_INPUT: usize = 16598;

// So much a program has to read: one byte more than the longest input tells that there is more.
pub const READ_AT_MOST: usize = MOST_INPUT + 1;

// OUT OF STEPS with 20 digits of steps and 4 of the line, 39 bytes; then 32 registers of 5 digits, 310 bytes.
pub const LONGEST_ANSWER: usize = 349;

// With so much room no flattening is refused with 14.
const LONGEST_FLAT_BOOK: usize = FLAT_HEADER_BYTES + LINE_BYTES * MOST_FLAT_LINES;

// Runs a flat book from line 0 and prints.
#[tactic(auto, using(crate::proofs::Served::run_is_printed))]
fn run_and_print(flat: &[u8], trailer: &[u8; TRAILER_BYTES], out: &mut Printed)
    requires { Room (print_run_of flat.now trailer.now) out.old.items }
    ensures { out.new.items ≡ out.old.items ++ print_run_of flat.now trailer.now }
{
    let mut regs = registers_read(trailer);
    let ran = run(flat, 0, &mut regs, budget_read(trailer));
    put_ran(out, ran, &regs);
}

// It flattens, runs from line 0 and prints.
fn flatten_and_run(book: &[u8], trailer: &[u8; TRAILER_BYTES], out: &mut Printed)
    requires not_too_long { length (book.now ++ trailer.now) ≤ most_input }
    requires room { Room (shop_prints (book.now ++ trailer.now)) out.old.items }
    ensures { out.new.items ≡ out.old.items ++ shop_prints (book.now ++ trailer.now) }
{
    let mut flat = [0u8; LONGEST_FLAT_BOOK];
    let flattened = flatten(book, usize::from(routine_read(trailer)), &mut flat);
    match flattened {
        Err(x) => put_refusal(out, x),
        Ok(n) => {
            let end = FLAT_HEADER_BYTES + LINE_BYTES * n;
            run_and_print(&flat[..end], trailer, out)
        }
    }
}

// Under 74 bytes prints "REFUSED 1 0"; over 16,598 prints "REFUSED 5 0"; both before any other check.
#[tactic(auto, using(crate::proofs::Served::by_size), unfolding(book::specs::Told::name_told))]
fn print_answer(input: &[u8], out: &mut Printed)
    requires { Room (shop_prints input.now) out.old.items }
    ensures { out.new.items ≡ out.old.items ++ shop_prints input.now }
{
    let Some((book, trailer)) = input.split_last_chunk::<TRAILER_BYTES>() else {
        return put_refusal(out, Refusal::of(Name::Short));
    };
    if MOST_INPUT < input.len() {
        return put_refusal(out, Refusal::of(Name::Length));
    }
    flatten_and_run(book, trailer, out)
}

// Puts what the program prints at the front of the output, and answers how many bytes that is. No answer is longer than the output.
#[tactic(auto, using(crate::proofs::Served::answered))]
pub fn answer(input: &[u8], out: &mut [u8; LONGEST_ANSWER]) -> usize
    ensures out_after { record { count = result; left = out.new } ≡ counter_answers input.now out.old }
    ensures prefix_len { IsPrefixLen result out.new }
{
    let mut printed = Printed::new();
    print_answer(input, &mut printed);
    let n = printed.len();
    out[..n].copy_from_slice(&printed);
    n
}
