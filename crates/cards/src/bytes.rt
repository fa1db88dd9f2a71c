// Cards and tests as files of bytes, words with their low byte first.
ghost use Rattle.std.specs.Prelude.{◌≡◌, ℕ, ◌≤◌, [], map, length, Err, MatchResult, OnOk};
ghost use Rattle.std.specs.Int.{w32, from_le_bytes};
ghost use Rattle.cards.specs.Bytes.{file_words as words_in, in_card, read_bytes};
ghost use Rattle.cards.specs.Cards.{contents, system, told, after};
ghost use Rattle.cards.specs.Tests.{test_contents, test_system};
ghost use Rattle.cards.specs.Meaning.{Says, SaysPassing};
ghost use Rattle.cards.specs.declared.lines.Role.TheVariants.{Card, Test as TestRole};
ghost use Rattle.cards.specs.Contents.{read_words, written};

use crate::faults::*;
use crate::lines::Role;
use crate::reading::check;
use crate::writing::MOST_WORDS;
use crate::written_card::WrittenCard;
use crate::written_test::WrittenTest;
use arrayvec::ArrayVec;

// The most words of a file that are looked at: one more than there can be.
const LOOKED_AT: usize = MOST_WORDS + 1;

// Puts words with their low byte first into a buffer.
fn put_words(chunks: &[[u8; 4]], words: &mut ArrayVec<u32, LOOKED_AT>)
    requires few { length chunks.now ≤ 323 }
    requires empty { words.old.items ≡ [] }
    ensures { words.new.items ≡ map (λ c. from_le_bytes w32 c) chunks.now }
{
    for chunk in chunks {
        words.push(u32::from_le_bytes(*chunk));
    }
}

// Puts the words of a file into a buffer; where bytes are left over, the first fault is told. The buffer is lent, as handing it back would copy it.
fn file_words(
    role: Role,
    bytes: &[u8],
    words: &mut ArrayVec<u32, LOOKED_AT>,
) -> Result<(), CardFault>
    requires { words.old.items ≡ [] }
    ensures { MatchResult result (λ _. (words.new.items ≡ words_in bytes.now) × (read_bytes role bytes.now ≡ in_card (read_words role (words_in bytes.now)))) (λ f. read_bytes role bytes.now ≡ Err f) }
{
    let looked = &bytes[..bytes.len().min(4 * LOOKED_AT)];
    let (chunks, left) = looked.as_chunks::<4>();
    put_words(chunks, words);
    if left.is_empty() {
        return Ok(());
    }
    check(role, words.as_slice())?;
    Err(CardFault {
        word: WordFault {
            reason: Reason::Trailing,
            place: words.len(),
        },
    })
}

// The first fault of a file, if there is one.
pub(crate) fn check_bytes(role: Role, bytes: &[u8]) -> Result<(), CardFault>
    ensures { result ≡ told (read_bytes role bytes.now) }
{
    let mut words = ArrayVec::<u32, LOOKED_AT>::new();
    file_words(role, bytes, &mut words)?;
    check(role, words.as_slice())?;
    Ok(())
}

impl WrittenCard {
    // Reads a file of a card. A refusal leaves the card as it stood.
    pub fn read_bytes(&mut self, bytes: &[u8]) -> Result<(), CardFault>
        ensures told { result ≡ told (read_bytes Card bytes.now) }
        ensures after { contents self.new ≡ after (contents self.old) (read_bytes Card bytes.now) }
        ensures written { OnOk result (written (contents self.new) ≡ words_in bytes.now) }
        ensures says { OnOk result (Says (words_in bytes.now) (system self.new)) }
    {
        let mut words = ArrayVec::<u32, LOOKED_AT>::new();
        file_words(Role::Card, bytes, &mut words)?;
        self.read(words.as_slice())?;
        Ok(())
    }
}

// As for a card, over the same `file_words`. Two public calls of two types: one body by a trait would be no plainer, as the trait would repeat these
// clauses.
impl WrittenTest {
    // Reads a file of a test. A refusal leaves the test as it stood.
    pub fn read_bytes(&mut self, bytes: &[u8]) -> Result<(), CardFault>
        ensures told { result ≡ told (read_bytes TestRole bytes.now) }
        ensures after { test_contents self.new ≡ after (test_contents self.old) (read_bytes TestRole bytes.now) }
        ensures written { OnOk result (written (test_contents self.new) ≡ words_in bytes.now) }
        ensures says { OnOk result (Says (words_in bytes.now) (test_system self.new)) }
        ensures passing { OnOk result (SaysPassing (words_in bytes.now) self.new.passing.bits) }
    {
        let mut words = ArrayVec::<u32, LOOKED_AT>::new();
        file_words(Role::Test, bytes, &mut words)?;
        self.read(words.as_slice())?;
        Ok(())
    }
}
