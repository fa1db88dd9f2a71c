// What reading a card replies, as words.
ghost use Rattle.std.specs.Prelude.{◌≡◌, IfOk, Ok};
ghost use Rattle.cards.specs.Cards.{contents};
ghost use Rattle.alike_c.specs.CardReplies.{word as word_of, card_words, words_read};

use cards::written_card::WrittenCard;
use std::alloc::{AllocError, Global};

// A number as a word.
pub(crate) fn word(number: usize) -> u32
    ensures { result ≡ word_of number }
{
    u32::try_from(number).unwrap_or(u32::MAX)
}

// The words of a card that was read.
fn card_words(heap: Global, card: &WrittenCard) -> Result<Vec<u32>, AllocError>
    ensures { IfOk result (λ ws. ws.items ≡ card_words (Ok (contents card.now))) }
{
    // The room that the most words take: the public call writes to a buffer of its caller's.
    let mut buffer = [0; 258];
    let count = card.write(&mut buffer).unwrap();
    let mut words = vec![in heap; 0, word(count)]?;
    words.extend_from_slice(&buffer[..count])?;
    Ok(words)
}

// The words that a card read from these words is written as, or its first fault.
pub(crate) fn read_words(heap: Global, words: &[u32]) -> Result<Vec<u32>, AllocError>
    ensures { IfOk result (λ ws. ws.items ≡ words_read words.now) }
{
    let mut card = WrittenCard::new(heap)?;
    match card.read(words) {
        Ok(()) => card_words(heap, &card),
        Err(fault) => {
            let number = u32::from(fault.reason.number());
            Ok(vec![in heap; 3, number, word(fault.place)]?)
        }
    }
}
