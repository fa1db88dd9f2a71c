// A card that is written down.
ghost use Rattle.std.specs.Prelude.{◌≡◌, ◌<◌, ◌≤◌, true, map, vec_len, vec_capacity};
ghost use Rattle.cards.specs.Lines.{lines_fit, rising, Tabled};
ghost use Rattle.cards.specs.Words.{line_word};

use crate::lines::*;
use crate::tables::Table;

// A system given by at most 256 lines, in the order of their words. There is room for the most lines from the start, so that reading never wants memory.
// `table` has the sets of states that the lines lead to, so that a question is answered at once. Clauses say `contents` of it. No model: the laws of `Lts`
// are asked of each value, and a model's value has lost what the fields keep.
#[derive(Drop)]
pub struct WrittenCard {
    pub(crate) states: usize,
    pub(crate) start: usize,
    pub(crate) lines: Vec<Line>,
    pub(crate) table: Table,
    ghost sized: { (1 ≤ states) × (states ≤ 64) × (start < states) },
    ghost sound: { lines_fit states lines.items ≡ true },
    ghost ordered: { rising 0 (map line_word lines.items) ≡ true },
    ghost few: { (vec_len lines ≤ 256) × (256 ≤ vec_capacity lines) },
    ghost tabled: { Tabled table.rows.items lines.items },
}
