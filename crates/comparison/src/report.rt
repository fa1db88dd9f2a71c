// The call that carries the main theorem: a comparison opened, called, and asked in the end.
ghost use Rattle.std.specs.Prelude.{◌≡◌, IfOk, IfErr, OnErr};
ghost use Rattle.testing.specs.declared.ground.Split.{Split};
ghost use Rattle.comparison.specs.Calls.{History, history, history_from, state_after};
ghost use Rattle.comparison.specs.Comparing.{Pair, pairs};
ghost use Rattle.comparison.specs.Compared.{pairs_of, state_of, SameSystems};
ghost use Rattle.comparison.specs.Report.{report as report_by, PromiseKept, RowsTold};
ghost use Rattle.comparison.specs.Reporting.{call_of, calls_of, report_of};

use crate::calls::{Call, Report};
use crate::comparison::{Comparison, Unopened};
use crate::rows::MOST_ROWS;
use lts::system::Lts;
use std::alloc::Global;

impl Comparison {
    // Makes one call. What it returns is let go: it follows from the calls, as what is told in the end does.
    fn send(&mut self, call: Call)
        ensures same { SameSystems self.old self.new }
        ensures after { state_of self.new ≡ state_after (pairs_of self.old) (call_of call) (state_of self.old) }
    {
        match call {
            Call::Begin(limit) => {
                let _ = self.begin(limit);
            }
            Call::Advance(count) => {
                let _ = self.advance(count);
            }
            Call::Ask => {
                let _ = self.ask();
            }
            // A trace has at most 2,048 actions, so where there is room for more the call returns the same.
            Call::Copy(room) => {
                let mut buffer = [0; MOST_ROWS];
                let _ = self.copy(&mut buffer[..room.min(MOST_ROWS)]);
            }
        }
    }

    // Makes the calls one after another.
    fn send_all(&mut self, calls: &[Call])
        ensures same { SameSystems self.old self.new }
        ensures after { (h : History Pair Split) → h.state ≡ state_of self.old → state_of self.new ≡ (history_from (pairs_of self.old) h (calls_of calls.now)).state }
    {
        for call in calls {
            self.send(*call);
        }
    }
}

// Opens a comparison of any two systems, makes the calls, and then asks, and copies into the buffer. What is told, and what the buffer then holds, is
// what the calls come to (value); and it is right (promise), whatever calls are made.
pub fn report<L: Lts + Drop, R: Lts + Drop>(
    heap: Global,
    left: L,
    right: R,
    calls: &[Call],
    buffer: &mut [u8],
) -> Result<Report, Unopened<L, R>>
    ensures value { IfOk result (λ x. report_of x buffer.new ≡ report_by (L.meaning left) (R.meaning right) (calls_of calls.now) buffer.old) }
    ensures promise { let h = history (pairs (L.meaning left) (R.meaning right)) (calls_of calls.now) in IfOk result (λ x. PromiseKept (L.meaning left) (R.meaning right) h.limit h.total buffer.old (report_of x buffer.new)) }
    ensures rows { let h = history (pairs (L.meaning left) (R.meaning right)) (calls_of calls.now) in IfOk result (λ x. RowsTold (L.meaning left) (R.meaning right) h.limit (report_of x buffer.new)) }
    ensures back { IfErr result (λ unopened. (unopened.left ≡ left) × (unopened.right ≡ right)) }
    ensures untouched { OnErr result (buffer.new ≡ buffer.old) }
{
    let mut comparison = Comparison::open(heap, left, right)?;
    comparison.send_all(calls);
    let asked = comparison.ask();
    let copied = comparison.copy(buffer);
    Ok(Report { asked, copied })
}
