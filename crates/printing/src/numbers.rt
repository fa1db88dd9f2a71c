// Lists of numbers as text.
ghost use Rattle.std.specs.Prelude.{◌≡◌, ℕ, List, IsOk};
ghost use Rattle.std.specs.Fmt.{HasWritten, IsPlainFormatter};
ghost use Rattle.std.specs.Iterator.{Drains, IsFinite};
ghost use Rattle.printing.specs.Trails.{numbers_text};

use std::fmt;

// Numbers, each after a blank, or a dash where there are none.
pub(crate) fn write_numbers<W: fmt::Write, I: Iterator<Item = usize> + Drop>(
    f: &mut fmt::Formatter<W>,
    numbers: I,
) -> fmt::Result
    requires can { I.can_next numbers }
    requires ends { IsFinite (I.remaining numbers) }
    ensures { IsOk result → (ns : List ℕ) × Drains I.next_gives numbers ns × (IsPlainFormatter f.old → HasWritten W.write_str_gives f.old (numbers_text ns) f.new) }
{
    let mut rest = numbers;
    let Some(first) = rest.next() else {
        return write!(f, " -");
    };
    write!(f, " {first}")?;
    for number in rest {
        write!(f, " {number}")?;
    }
    Ok(())
}
