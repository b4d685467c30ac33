// The unit: a flat book is run with a budget, or one step of it is made on the bench.
#![tactic(auto)]

pub mod machine; // machine.rt: one step, and the run with its three reasons to stop
pub mod registers; // registers.rt: 32 registers as 64 bytes

ghost use Rattle.std.specs.Prelude.{◌≡◌};
ghost use Rattle.scope.specs.Running.{run_call, bench_call};
ghost use Rattle.unit.specs.Told.{ran_told, state_told};

use book::flat::FlatLine;
use book::reader::Book;
use book::refusals::{Name, Refusal};
use machine::{Answer, REGISTERS, run_on};

// The unit's state, line and registers.
#[derive(Clone, Copy, Debug, PartialEq, Eq)]
pub struct State {
    pub line: FlatLine,
    pub regs: [u16; REGISTERS],
}

// What a bench step answers, and the new state.
#[derive(Clone, Copy, Debug, PartialEq, Eq)]
pub struct Stepped {
    pub ran: Result<Answer, Refusal>,
    pub state: State,
}

// Then: running 15, 16, 17. 15 NOT FLAT: more than one routine. 16 REGISTERS: lent registers are not 32. 17 LINE: start line above n.
fn run_taken(flat: &Book, start: usize, regs: &mut [u16], budget: u64) -> Result<Answer, Refusal>
    ensures { record { answer = ran_told result; left = regs.new } ≡ run_call flat.now.bytes.now start regs.old budget }
{
    if 1 < flat.counts.routines {
        return Err(Refusal::of(Name::NotFlat));
    }
    if regs.len() != REGISTERS {
        return Err(Refusal::of(Name::Registers));
    }
    if (flat.counts.lines as usize) < start {
        return Err(Refusal::of(Name::Line));
    }
    Ok(run_on(flat, FlatLine(start), regs, budget))
}

// Runs a flat book from a start line. Registers hold what the steps left; refused, they are as they were. The start line comes in wide.
pub fn run(flat: &[u8], start: usize, regs: &mut [u16], budget: u64) -> Result<Answer, Refusal>
    ensures { record { answer = ran_told result; left = regs.new } ≡ run_call flat.now start regs.old budget }
{
    run_taken(&Book::open(flat)?, start, regs, budget)
}

// It answers as a run with a budget of 1 from that state does. Refused, the state comes back as it was.
pub fn step(flat: &[u8], state: State) -> Stepped
    ensures { record { answer = ran_told result.ran; left = state_told result.state } ≡ bench_call flat.now (state_told state) }
{
    let mut regs = state.regs;
    let ran = run(flat, state.line.0, &mut regs, 1);
    match ran {
        Err(_) => Stepped { ran, state },
        Ok(answer) => Stepped {
            ran,
            state: State {
                line: answer.line,
                regs,
            },
        },
    }
}
