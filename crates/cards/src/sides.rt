// Two files of cards, a left and a right one.
ghost use Rattle.std.specs.Prelude.{◌≡◌};
ghost use Rattle.cards.specs.declared.lines.Role.TheVariants.{Card};
ghost use Rattle.cards.specs.Bytes.{read_sides, left_after, right_after};
ghost use Rattle.cards.specs.Cards.{contents, told};

use crate::bytes::check_bytes;
use crate::faults::*;
use crate::lines::Role;
use crate::written_card::WrittenCard;

// Reads a left and a right file; the first fault, the left file's before the right one's, leaves both cards as they stood.
#[tactic(auto, using(std::proofs::lemmas::Result::err_from_is_err_and), unfolding(crate::specs::Bytes::read_sides))]
pub fn read_sides(
    left: &mut WrittenCard,
    right: &mut WrittenCard,
    left_bytes: &[u8],
    right_bytes: &[u8],
) -> Result<(), SideFault>
    ensures told { result ≡ told (read_sides left_bytes.now right_bytes.now) }
    ensures left { contents left.new ≡ left_after (contents left.old) (read_sides left_bytes.now right_bytes.now) }
    ensures right { contents right.new ≡ right_after (contents right.old) (read_sides left_bytes.now right_bytes.now) }
{
    check_bytes(Role::Card, left_bytes).map_err(LeftFault::from)?;
    check_bytes(Role::Card, right_bytes).map_err(RightFault::from)?;
    left.read_bytes(left_bytes).map_err(LeftFault::from)?;
    right.read_bytes(right_bytes).map_err(RightFault::from)?;
    Ok(())
}
