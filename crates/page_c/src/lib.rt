// The three calls of the page in C, under their names in C. Each is the call of `page`, with its promise.
// (They stand here again, since the toolchain builds a library or an archive for C of a crate, and not both.)
#![tactic(auto)]

ghost use Rattle.std.specs.Prelude.{◌≡◌};
ghost use Rattle.scope.specs.Page.{page_flatten, page_run, page_quote};
ghost use Rattle.page.specs.Told.{flatten_told, run_told, quote_told};

use page::answers::{FlattenAnswer, QuoteAnswer, RunAnswer};

// Flattens one routine of a book. Accepted, the flat book stands at the front of the output.
#[unsafe(no_mangle)]
pub extern "C" fn zn_flatten(book: &[u8], routine: usize, out: &mut [u8]) -> FlattenAnswer
    ensures { record { fields = flatten_told result; left = out.new } ≡ page_flatten book.now routine out.old }
{
    page::zn_flatten(book, routine, out)
}

// Runs a flat book from a start line. The registers are 64 bytes, two for each, low byte first.
#[unsafe(no_mangle)]
pub extern "C" fn zn_run(flat: &[u8], start: usize, regs: &mut [u8], budget: u64) -> RunAnswer
    ensures { record { fields = run_told result; left = regs.new } ≡ page_run flat.now start regs.old budget }
{
    page::zn_run(flat, start, regs, budget)
}

// Quotes one routine of a book.
#[unsafe(no_mangle)]
pub extern "C" fn zn_quote(book: &[u8], routine: usize) -> QuoteAnswer
    ensures { quote_told result ≡ page_quote book.now routine }
{
    page::zn_quote(book, routine)
}
