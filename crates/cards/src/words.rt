// One word of the card format.
ghost use Rattle.std.specs.Prelude.{◌≡◌, ℕ, ◌+◌, ◌*◌, ◌^◌, ◌<◌, ◌≤◌};
ghost use Rattle.cards.specs.Words.{bits as bits_of, line_word, encode as encoded, by_kind, decode as decoded};

use crate::lines::*;

// The `width` bits of a word from bit `low` up.
pub(crate) fn bits(word: u32, low: u32, width: u32) -> u32
    requires { low + width ≤ 28 }
    ensures { result ≡ bits_of word low width }
{
    word >> low & ((1 << width) - 1)
}

impl From<Line> for u32 {
    ghost from_gives = { λ line word. word ≡ line_word line };

    fn from(line: Line) -> u32 {
        let ends = u32::from(line.from) * 0x800 + u32::from(line.to);
        match line.label {
            Label::Action(action) => 0x2000_0000 + u32::from(action) * 0x40 + ends,
            Label::Silent => 0x3000_0000 + ends,
        }
    }
}

impl From<Word> for u32 {
    ghost from_gives = { λ part word. word ≡ encoded part };

    fn from(part: Word) -> u32 {
        match part {
            Word::Line(line) => u32::from(line),
            Word::Passing(state) => 0x4000_0000 + u32::from(state),
            Word::End => 0x5000_0000,
        }
    }
}

// What a word would be by its kind.
// The kinds stay numbers: an enum of them would be no plainer, since it would need this match and one more from number to kind.
fn by_kind(role: Role, word: u32) -> Option<Word>
    ensures { result ≡ by_kind role word }
{
    let from = bits(word, 11, 6) as u8;
    let to = bits(word, 0, 6) as u8;
    match (word >> 28, role) {
        (2, _) => Some(Word::Line(Line {
            from,
            label: Label::Action(bits(word, 6, 5) as u8),
            to,
        })),
        (3, _) => Some(Word::Line(Line {
            from,
            label: Label::Silent,
            to,
        })),
        (4, Role::Test) => Some(Word::Passing(to)),
        (5, _) => Some(Word::End),
        _ => None,
    }
}

// A word after the head, where its kind may stand there and no unused bit is set.
#[tactic(auto, unfolding(crate::specs::Words::decode))]
pub(crate) fn decode(role: Role, word: u32) -> Option<Word>
    ensures { result ≡ decoded role word }
{
    by_kind(role, word).filter(|part| u32::from(*part) == word)
}
