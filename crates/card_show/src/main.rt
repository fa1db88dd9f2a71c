// Shows what a card file is, `card_show FILE`, where a trace leads, `card_show FILE ACTION...`, or what joint runs beside a test file say,
// `card_show FILE --beside TESTFILE`; `card_show --two-counters` shows a built-in composition.
#![tactic(auto)]

use anyhow::{Context, bail};
use input::read_start;
use layers::counter::Counter;
use layers::hide::Hide;
use layers::parallel::Parallel;
use lts::sets::ActionSet;
use printing::cards_shown::file_text;
use printing::experiments_shown::experiment_text;
use printing::systems_shown::system_text;
use printing::traces_shown::trace_text;
use std::alloc::{AllocError, Global};
use std::env;

// Two counters of capacity 1, the second fed by the first: action 1, which hands over, is hidden.
fn two_counters(heap: Global) -> anyhow::Result<String> {
    let first = Counter::new(1, 0, 1)?;
    let second = Counter::new(1, 1, 2)?;
    let between = ActionSet::from_bits(2);
    let both = Parallel::new(first, second, between);
    Ok(system_text(heap, &Hide::new(both, between))?)
}

// How many bytes of a file are looked at. It is read into fixed memory: the public call fills a caller's buffer.
const LOOKED_AT: usize = 1292;

// What a file is or, with a trace, where that leads.
fn shown(rt: &HostRuntime, path: &str, trace: &[u8]) -> Result<String, AllocError> {
    let mut buffer = [0; LOOKED_AT];
    let count = read_start(rt, path, &mut buffer);
    let bytes = &buffer[..count];
    if trace.is_empty() {
        file_text(rt.alloc(), bytes)
    } else {
        trace_text(rt.alloc(), bytes, trace)
    }
}

// What joint runs of a card file and a test file say.
fn beside(rt: &HostRuntime, card_path: &str, test_path: &str) -> Result<String, AllocError> {
    let mut card = [0; LOOKED_AT];
    let mut test = [0; LOOKED_AT];
    let card_count = read_start(rt, card_path, &mut card);
    let test_count = read_start(rt, test_path, &mut test);
    experiment_text(rt.alloc(), &card[..card_count], &test[..test_count])
}

// How the program is called.
const USAGE: &str =
    "usage: card_show FILE [ACTION...], card_show FILE --beside TESTFILE, or card_show --two-counters";

fn run(rt: &HostRuntime) -> anyhow::Result<()> {
    let mut args = env::args(rt)?.skip(1);
    let path = args.next().context(USAGE)?;
    if path.as_str() == "--two-counters" {
        rt.print(two_counters(rt.alloc())?)?;
        return Ok(());
    }
    let words: Vec<String> = args.collect(rt.alloc())?;
    let text = match words.as_slice() {
        [flag, test] if flag.as_str() == "--beside" => beside(rt, path.as_str(), test.as_str())?,
        [flag, ..] if flag.as_str() == "--beside" => bail!(USAGE),
        actions => {
            let trace: Vec<u8> = actions
                .iter()
                .map(|action| action.as_str().parse::<u8>().map_err(anyhow::Error::from))
                .try_collect(rt.alloc())?;
            shown(rt, path.as_str(), trace.as_slice())?
        }
    };
    rt.print(text)?;
    Ok(())
}

fn main(rt: HostRuntime) -> anyhow::Result<()> {
    run(&rt)
}
