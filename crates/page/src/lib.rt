// What the page in C calls, with byte slices and numbers; `page_c` exports it. docs/C-INTERFACE.md says how each answer is laid out.
#![tactic(auto)]

pub mod answers; // answers.rt: the answers, field by field

ghost use Rattle.std.specs.Prelude.{◌≡◌, []};
ghost use Rattle.scope.specs.Running.{run_call};
ghost use Rattle.scope.specs.Page.{run_fields, page_flatten, page_run, page_quote};
ghost use Rattle.page.specs.Told.{flatten_told, run_told, quote_told};

use answers::{FlattenAnswer, QuoteAnswer, RunAnswer};
use flatten::flatten;
use quote::quote;
use unit::registers::{REGISTERS_BYTES, put_registers, registers_of};
use unit::run;

// Flattens one routine of a book. Accepted, the flat book stands at the front of the output.
pub fn zn_flatten(book: &[u8], routine: usize, out: &mut [u8]) -> FlattenAnswer
    ensures { record { fields = flatten_told result; left = out.new } ≡ page_flatten book.now routine out.old }
{
    FlattenAnswer::from(flatten(book, routine, out))
}

// Any other length than 64 is 16, in its place in the order: so a run that is lent no registers answers it.
fn run_without(flat: &[u8], start: usize, budget: u64) -> RunAnswer
    ensures { run_told result ≡ run_fields (run_call flat.now start [] budget).answer }
{
    let mut none = [0u16; 0];
    RunAnswer::from(run(flat, start, &mut none, budget))
}

// Runs a flat book from a start line. The registers are 64 bytes, two for each, low byte first.
pub fn zn_run(flat: &[u8], start: usize, regs: &mut [u8], budget: u64) -> RunAnswer
    ensures { record { fields = run_told result; left = regs.new } ≡ page_run flat.now start regs.old budget }
{
    if regs.len() != REGISTERS_BYTES {
        return run_without(flat, start, budget);
    }
    let mut own = registers_of(regs);
    let ran = run(flat, start, &mut own, budget);
    let answer = RunAnswer::from(ran);
    if let Err(_) = ran {
        return answer;
    }
    put_registers(&own, regs);
    answer
}

// Quotes one routine of a book.
pub fn zn_quote(book: &[u8], routine: usize) -> QuoteAnswer
    ensures { quote_told result ≡ page_quote book.now routine }
{
    QuoteAnswer::from(quote(book, routine))
}
