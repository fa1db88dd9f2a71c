// What checked words hold.
ghost use Rattle.std.specs.Prelude.{◌≡◌, ℕ, ◌≤◌, [], ◌++◌, length, Some, vec_len, vec_capacity};
ghost use Rattle.cards.specs.Contents.{with_all};
ghost use Rattle.cards.specs.Reading.{as_line, as_passing, lines_in, passing_in};

use crate::lines::*;
use crate::words::decode;
use lts::sets::StateSet;

// Puts the lines that the words name in place of those before, and returns the passing states that they name. The card's own lines are filled: their
// room is set aside when the card is made, so that reading wants no memory.
pub(crate) fn collect(lines: &mut Vec<Line>, words: &[u32]) -> StateSet
    requires { length (lines_in words.now) ≤ vec_capacity lines.old }
    ensures lines { lines.new.items ≡ lines_in words.now }
    ensures room { vec_capacity lines.new ≡ vec_capacity lines.old }
    ensures passing { result.bits ≡ with_all 0 (passing_in words.now) }
{
    lines.clear();
    let mut passing = StateSet::empty();
    for word in words {
        match decode(Role::Test, *word) {
            Some(Word::Line(line)) => lines.push_reserved(line),
            Some(Word::Passing(state)) => {
                passing.insert(usize::from(state));
            }
            Some(Word::End) => {}
            None => {}
        }
    }
    passing
}
