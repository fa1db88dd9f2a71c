// A card file as text.
ghost use Rattle.std.specs.Prelude.{◌≡◌, IfOk, Some, string_bytes};
ghost use Rattle.cards.specs.Cards.{contents};
ghost use Rattle.printing.specs.Shown.{card_text, fault_text, file_text};

use cards::faults::CardFault;
use cards::written_card::WrittenCard;
use lts::system::Lts;
use std::alloc::{AllocError, Global};
use std::fmt;

// What a card is: its states, start and lines, and the words that it is written as.
#[derive(Drop)]
struct CardShown<'a>(&'a WrittenCard);

impl fmt::Display for CardShown<'_> {
    ghost output = { λ s. Some (card_text (contents s.0.now)) };

    fn fmt<W: fmt::Write>(&self, f: &mut fmt::Formatter<W>) -> fmt::Result {
        let card = self.0;
        let states = card.count();
        let start = card.start();
        let lines = card.lines();
        let count = lines.len();
        writeln!(f, "states {states} start {start} lines {count}")?;
        for line in lines {
            writeln!(f, "{line}")?;
        }
        write!(f, "words")?;
        // The room that the most words take: the public call writes to a buffer of its caller's.
        let mut buffer = [0; 258];
        let written = card.write(&mut buffer).unwrap();
        for &word in &buffer[..written] {
            write!(f, " {word:08X}")?;
        }
        writeln!(f)
    }
}

// What is wrong with a file: the number of its first fault and the word's place.
pub fn fault_text(heap: Global, fault: CardFault) -> Result<String, AllocError>
    ensures { IfOk result (λ s. string_bytes s ≡ fault_text fault.word) }
{
    format!(in heap; "{fault}\n")
}

// What a card is: its states, start and lines, and the words that it is written as.
pub fn card_text(heap: Global, card: &WrittenCard) -> Result<String, AllocError>
    ensures { IfOk result (λ s. string_bytes s ≡ card_text (contents card.now)) }
{
    CardShown(card).to_string(heap)
}

// What a card file is, or what is wrong with it.
pub fn file_text(heap: Global, bytes: &[u8]) -> Result<String, AllocError>
    ensures { IfOk result (λ s. string_bytes s ≡ file_text bytes.now) }
{
    let mut card = WrittenCard::new(heap)?;
    match card.read_bytes(bytes) {
        Ok(()) => card_text(heap, &card),
        Err(fault) => fault_text(heap, fault),
    }
}
