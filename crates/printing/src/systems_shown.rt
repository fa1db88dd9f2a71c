// Any system as text, by its transitions.
ghost use Rattle.std.specs.Prelude.{◌≡◌, ℕ, ◌<◌, IfOk, Some, string_bytes};
ghost use Rattle.std.specs.Fmt.{WritesOnOk};
ghost use Rattle.lts.specs.Sets.{members as members_of};
ghost use Rattle.printing.specs.Systems.{targets_text, system_text};

use cards::lines::{Label, Line};
use lts::members::Members;
use lts::system::Lts;
use std::alloc::{AllocError, Global};
use std::fmt;

// A line for each state that the label leads to.
fn write_targets<W: fmt::Write>(
    f: &mut fmt::Formatter<W>,
    from: u8,
    label: Label,
    targets: Members,
) -> fmt::Result
    ensures { WritesOnOk W.write_str_gives f.old result (targets_text from label (members_of targets.rest)) f.new }
{
    for to in targets {
        let to = to as u8;
        writeln!(f, "{}", Line { from, label, to })?;
    }
    Ok(())
}

// What any kind of system is: its states and start, then each state's transitions by their actions, then the silent ones.
#[derive(Drop)]
struct SystemShown<'a, S>(&'a S);

impl<S: Lts> fmt::Display for SystemShown<'_, S> {
    ghost output = { λ s. Some (system_text (S.meaning s.0.now)) };

    fn fmt<W: fmt::Write>(&self, f: &mut fmt::Formatter<W>) -> fmt::Result {
        let system = self.0;
        let states = system.count();
        let start = system.start();
        writeln!(f, "states {states} start {start}")?;
        for state in 0..states {
            for action in 0..32u8 {
                let targets = system.visible(state, usize::from(action)).members();
                write_targets(f, state as u8, Label::Action(action), targets)?;
            }
        }
        for from in 0..states {
            write_targets(f, from as u8, Label::Silent, system.hidden(from).members())?;
        }
        Ok(())
    }
}

// What any kind of system is: its states and start, then each state's transitions by their actions, then the silent ones.
pub fn system_text<S: Lts>(heap: Global, system: &S) -> Result<String, AllocError>
    ensures { IfOk result (λ s. string_bytes s ≡ system_text (S.meaning system.now)) }
{
    SystemShown(system).to_string(heap)
}
