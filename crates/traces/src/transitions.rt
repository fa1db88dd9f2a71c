// The transitions of a system as a table.
ghost use Rattle.std.specs.Prelude.{◌≡◌, ℕ, ◌^◌, ◌<◌, ◌≤◌, vec_len};
ghost use Rattle.traces.specs.Tables.{visible_at, hidden_at};

use lts::sets::StateSet;

// Where the transitions of one state lead: by each action, and silently.
#[derive(Clone, Copy)]
pub(crate) struct TransitionRow {
    pub(crate) visible: [StateSet; 32],
    pub(crate) hidden: StateSet,
}

// One row for each state. Clauses say `table_of` of it. Tried: a model, so that they say the value itself; but a model's value is data, and a system holds
// functions.
#[derive(Drop)]
pub struct Transitions {
    pub(crate) start: usize,
    pub(crate) rows: Vec<TransitionRow>,
    ghost few: { vec_len rows ≤ 64 },
    ghost starts: { start < vec_len rows },
    ghost visible_below: { (p a : ℕ) → visible_at rows.items p a < 2 ^ vec_len rows },
    ghost hidden_below: { (p : ℕ) → hidden_at rows.items p < 2 ^ vec_len rows },
}
