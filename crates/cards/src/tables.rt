// The table of a written card.
ghost use Rattle.std.specs.Prelude.{◌≡◌, ℕ, ◌+◌, ◌*◌, ◌<◌, ◌≤◌, true, [], IfOk, vec_len};
ghost use Rattle.cards.specs.Lines.{column as column_of, lines_fit, set_at, Tabled};

use crate::lines::*;
use lts::sets::StateSet;
use std::alloc::{AllocError, Global};

impl Label {
    // Its column in a row of 33: the actions, and last what is silent.
    // A number, since a field of its own for what is silent would be no plainer: filling a row and looking into one would each need this match.
    fn column(self) -> usize
        ensures { result ≡ column_of self }
    {
        match self {
            Label::Action(action) => usize::from(action),
            Label::Silent => 32,
        }
    }
}

// The sets of states that lines lead to: a row for each state, and in it a column for each label.
#[derive(Drop)]
pub(crate) struct Table {
    rows: Vec<[StateSet; 33]>,
    ghost wide: { vec_len rows ≡ 64 },
}

impl Table {
    // The table of no lines. All its memory is set aside here.
    pub(crate) fn new(heap: Global) -> Result<Table, AllocError>
        ensures { IfOk result (λ t. Tabled t.rows.items []) }
    {
        let rows = vec![in heap; [StateSet::empty(); 33]; 64]?;
        Ok(Table { rows })
    }

    // Makes it the table of these lines.
    #[tactic(auto, using(crate::proofs::Tabled::fits_at))]
    pub(crate) fn fill(&mut self, lines: &[Line])
        requires { lines_fit 64 lines.now ≡ true }
        ensures { Tabled self.new.rows.items lines.now }
    {
        self.rows.fill([StateSet::empty(); 33]);
        for line in lines {
            let row = &mut self.rows[usize::from(line.from)];
            row[line.label.column()].insert(usize::from(line.to));
        }
    }

    // The set of a state and a column: none for what is no state.
    pub(crate) fn targets(&self, state: usize, column: usize) -> StateSet
        requires { column < 33 }
        ensures { result.bits ≡ set_at self.now.rows.items state column }
    {
        match self.rows.get(state) {
            Some(row) => row[column],
            None => StateSet::empty(),
        }
    }
}
