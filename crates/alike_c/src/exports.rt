// The exports. A C caller passes a slice as a pointer and a length, and nothing for the heap.
ghost use Rattle.reports.specs.Printed.{files_line as files_line_of};
ghost use Rattle.printing.specs.Shown.{file_text as file_text_of};
ghost use Rattle.printing.specs.Trails.{trace_text as trace_text_of};
ghost use Rattle.printing.specs.Experiments.{experiment_text as experiment_text_of};
ghost use Rattle.alike_c.specs.CallReplies.{calls_words as calls_words_of};
ghost use Rattle.alike_c.specs.CardReplies.{words_read};
ghost use Rattle.alike_c.specs.Counters.{counters_text as counters_text_of};
ghost use Rattle.alike_c.specs.Placing.{Placed};

use crate::calls::calls_words;
use crate::counters::counters_text;
use crate::placing::{place_text, place_words};
use crate::words::read_words;
use printing::cards_shown::file_text;
use printing::experiments_shown::experiment_text;
use printing::traces_shown::trace_text;
use reports::lines::files_line;
use std::alloc::Global;

// The printed line of two card files.
#[unsafe(no_mangle)]
pub extern "C" fn alike_files_line(left: &[u8], right: &[u8], out: &mut [u8], heap: Global) -> usize
    ensures { Placed (files_line_of left.now right.now) out.old out.new result }
{
    place_text(files_line(heap, left, right), out)
}

// What a card file is, or what is wrong with it.
#[unsafe(no_mangle)]
pub extern "C" fn alike_file_text(file: &[u8], out: &mut [u8], heap: Global) -> usize
    ensures { Placed (file_text_of file.now) out.old out.new result }
{
    place_text(file_text(heap, file), out)
}

// Where a trace leads in a card file, or what is wrong with it.
#[unsafe(no_mangle)]
pub extern "C" fn alike_trace_text(file: &[u8], trace: &[u8], out: &mut [u8], heap: Global) -> usize
    ensures { Placed (trace_text_of file.now trace.now) out.old out.new result }
{
    place_text(trace_text(heap, file, trace), out)
}

// May and must of a card file beside a test file, or what is wrong with the first of them that is not good.
#[unsafe(no_mangle)]
pub extern "C" fn alike_experiment_text(
    card: &[u8],
    test: &[u8],
    out: &mut [u8],
    heap: Global,
) -> usize
    ensures { Placed (experiment_text_of card.now test.now) out.old out.new result }
{
    place_text(experiment_text(heap, card, test), out)
}

// The line of two counters of these capacities in a row beside one of both, or why it is not told.
#[unsafe(no_mangle)]
pub extern "C" fn alike_counters(first: u32, second: u32, out: &mut [u8], heap: Global) -> usize
    ensures { Placed (counters_text_of first second) out.old out.new result }
{
    place_text(counters_text(heap, first, second), out)
}

// The words that a card read from these words is written as, or its first fault.
#[unsafe(no_mangle)]
pub extern "C" fn alike_read_words(words: &[u32], out: &mut [u32], heap: Global) -> usize
    ensures { Placed (words_read words.now) out.old out.new result }
{
    place_words(read_words(heap, words), out)
}

// What a list of calls of a comparison of two card files replies.
#[unsafe(no_mangle)]
pub extern "C" fn alike_calls(
    left: &[u8],
    right: &[u8],
    calls: &[u32],
    replies: &mut [u32],
    heap: Global,
) -> usize
    ensures { Placed (calls_words_of left.now right.now calls.now) replies.old replies.new result }
{
    place_words(calls_words(heap, left, right, calls), replies)
}
