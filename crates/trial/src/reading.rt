// Piles of layers that are read from text: a layer stands before what it stands on.
use anyhow::{Context, Result, bail};
use cards::lines::Word;
use cards::written_card::WrittenCard;
use layers::counter::Counter;
use layers::hide::Hide;
use layers::parallel::Parallel;
use lts::sets::ActionSet;
use lts::system::Lts;
use piles::lowest::Lowest;
use piles::pile::Pile;
use std::alloc::Global;
use std::str::SplitWhitespace;

// A pile of at most three layers.
type Three = Pile<Pile<Pile<Lowest>>>;

// A pile of at most four layers, the topmost of which hides; one that hides nothing stands for none.
pub(crate) type Deep = Hide<Three>;

// A layer of a pile without what it stands on.
#[derive(Drop)]
enum Layer {
    Lowest(Lowest),
    Hide(ActionSet),
    Compose(ActionSet),
}

fn word(text: &str) -> Result<u32> {
    Ok(u32::from_str_radix(text, 16)?)
}

// A card of the words up to the first end word.
fn card(heap: Global, words: &mut SplitWhitespace<'_>) -> Result<WrittenCard> {
    let end = u32::from(Word::End);
    let mut own = Vec::new(heap);
    for text in words {
        let next = word(text)?;
        own.push(next)?;
        if next == end {
            break;
        }
    }
    let mut card = WrittenCard::new(heap)?;
    card.read(own.as_slice())?;
    Ok(card)
}

// The word that comes next.
fn next<'a>(words: &mut SplitWhitespace<'a>) -> Result<&'a str> {
    words.next().context("the pile ends too early")
}

fn next_layer(heap: Global, words: &mut SplitWhitespace<'_>) -> Result<Layer> {
    match next(words)? {
        "counter" => {
            let capacity = next(words)?.parse()?;
            let input = next(words)?.parse()?;
            let output = next(words)?.parse()?;
            let counter = Counter::new(capacity, input, output)?;
            Ok(Layer::Lowest(Lowest::Counter(counter)))
        }
        "card" => Ok(Layer::Lowest(Lowest::Card(card(heap, words)?))),
        "hide" => Ok(Layer::Hide(ActionSet::from_bits(word(next(words)?)?))),
        "compose" => Ok(Layer::Compose(ActionSet::from_bits(word(next(words)?)?))),
        _ => bail!("no such layer"),
    }
}

// What can be read of words, from its first layer on.
trait Read: Lts + Drop + Sized {
    fn read_below(heap: Global, layer: Layer, words: &mut SplitWhitespace<'_>) -> Result<Self>;

    fn read(heap: Global, words: &mut SplitWhitespace<'_>) -> Result<Self> {
        let layer = next_layer(heap, words)?;
        Self::read_below(heap, layer, words)
    }
}

impl Read for Lowest {
    fn read_below(_heap: Global, layer: Layer, _words: &mut SplitWhitespace<'_>) -> Result<Lowest> {
        match layer {
            Layer::Lowest(lowest) => Ok(lowest),
            Layer::Hide(_) | Layer::Compose(_) => bail!("too many layers"),
        }
    }
}

impl<P: Read> Read for Pile<P> {
    fn read_below(heap: Global, layer: Layer, words: &mut SplitWhitespace<'_>) -> Result<Pile<P>> {
        match layer {
            Layer::Lowest(_) => Ok(Pile::Below(P::read_below(heap, layer, words)?)),
            Layer::Hide(actions) => {
                let below = P::read(heap, words)?;
                Ok(Pile::Hidden(Hide::new(below, actions)))
            }
            Layer::Compose(shared) => {
                let left = P::read(heap, words)?;
                let right = P::read(heap, words)?;
                Ok(Pile::Composed(Parallel::new(left, right, shared)))
            }
        }
    }
}

// The pile of a text that holds nothing else.
pub(crate) fn pile(heap: Global, text: &str) -> Result<Deep> {
    let mut words = text.split_whitespace();
    let (below, hidden) = match next_layer(heap, &mut words)? {
        Layer::Hide(actions) => (Three::read(heap, &mut words)?, actions),
        layer => (
            Three::read_below(heap, layer, &mut words)?,
            ActionSet::empty(),
        ),
    };
    match words.next() {
        None => Ok(Hide::new(below, hidden)),
        Some(_) => bail!("words after the end of a pile"),
    }
}
