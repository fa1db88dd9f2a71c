// A test that is written down.
ghost use Rattle.std.specs.Prelude.{◌^◌, ◌<◌};

use crate::written_card::WrittenCard;
use lts::sets::StateSet;

// A written card some of whose states pass. Planners call it a written examiner.
#[derive(Drop)]
pub struct WrittenTest {
    pub(crate) card: WrittenCard,
    pub(crate) passing: StateSet,
    ghost within: { passing.bits < 2 ^ card.states },
}
