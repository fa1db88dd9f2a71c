// Writing words into a caller's buffer.
ghost use Rattle.std.specs.Prelude.{◌≡◌, ℕ, ◌+◌, ◌≤◌, map, length};
ghost use Rattle.lts.specs.Sets.{members};
ghost use Rattle.cards.specs.Cards.{contents_with};
ghost use Rattle.cards.specs.Contents.{laid, wrote, buffer, written};
ghost use Rattle.cards.specs.Words.{line_word, passing_word};

use crate::faults::ShortBuffer;
use crate::lines::*;
use crate::written_card::WrittenCard;
use lts::sets::StateSet;

// The most words that there can be: a head, 256 lines, 64 passing states and an end.
pub(crate) const MOST_WORDS: usize = 322;

// The words go into the caller's buffer one after another. The place beside each loop stays: gathering them first in a buffer of its own, to copy them from
// there, takes three to thirty times as long.
fn write_lines(lines: &[Line], out: &mut [u32], at: usize)
    requires { at + length lines.now ≤ length out.old }
    ensures { out.new ≡ laid at (map line_word lines.now) out.old }
{
    let mut place = at;
    for line in lines {
        out[place] = u32::from(*line);
        place += 1;
    }
}

fn write_passing(passing: StateSet, out: &mut [u32], at: usize)
    requires { at + length (members passing.bits) ≤ length out.old }
    ensures { out.new ≡ laid at (map passing_word (members passing.bits)) out.old }
{
    let mut place = at;
    for state in passing.members() {
        let word = u32::from(Word::Passing(state as u8));
        out[place] = word;
        place += 1;
    }
}

impl WrittenCard {
    // Writes the words of the card with these passing states, and returns how many they are; a buffer that is too short is seen at once, and stays as it is.
    // A caller's buffer, here and in the public calls: writing wants no heap.
    pub(crate) fn write_as(&self, passing: StateSet, out: &mut [u32]) -> Result<usize, ShortBuffer>
        ensures told { result ≡ wrote (written (contents_with passing.bits self.now)) out.old }
        ensures after { out.new ≡ buffer (written (contents_with passing.bits self.now)) out.old }
    {
        let lines = self.lines.len();
        let end = 1 + lines + passing.len();
        if out.len() <= end {
            return Err(ShortBuffer);
        }
        let head = Head {
            lines,
            start: self.start,
            states: self.states,
        };
        // Its numbers are in range, as the card keeps them.
        let first = u32::try_from(head).unwrap();
        out[0] = first;
        write_lines(&self.lines, out, 1);
        write_passing(passing, out, 1 + lines);
        out[end] = u32::from(Word::End);
        Ok(end + 1)
    }
}
