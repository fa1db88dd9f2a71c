// Every question of a system asked once, and the answers kept in a table.
ghost use Rattle.std.specs.Prelude.{◌≡◌, ℕ, IfOk};
ghost use Rattle.traces.specs.Tables.{row_of, rows_of};
ghost use Rattle.traces.specs.Transitions.{table_of};

use crate::transitions::{TransitionRow, Transitions};
use lts::system::Lts;
use std::alloc::{AllocError, Global};
use std::array;

// What the system answers of a state.
fn row<S: Lts>(system: &S, state: usize) -> TransitionRow
    ensures { result ≡ row_of (S.meaning system.now) state }
{
    TransitionRow {
        visible: array::from_fn(|action| system.visible(state, action)),
        hidden: system.hidden(state),
    }
}

// What the system answers of each state.
fn rows<S: Lts>(system: &S, heap: Global) -> Result<Vec<TransitionRow>, AllocError>
    ensures { IfOk result (λ v. v.items ≡ rows_of (S.meaning system.now)) }
{
    (0..system.count())
        .map(|state| row(system, state))
        .collect(heap)
}

// The system's transitions as a table.
pub fn tabulate<S: Lts>(system: &S, heap: Global) -> Result<Transitions, AllocError>
    ensures { IfOk result (λ t. table_of t ≡ S.meaning system.now) }
{
    let start = system.start();
    let rows = rows(system, heap)?;
    Ok(Transitions { start, rows })
}
