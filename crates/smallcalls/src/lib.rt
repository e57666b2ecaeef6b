// The calls on the small traces as the library for C has them: a code back, and columns and words that a refusal leaves as they were.
#![tactic(auto)]

ghost use Rattle.taskset.specs.TaskSet.{view_of};
ghost use Rattle.enumeration.specs.SmallCalls.{count_call};
ghost use Rattle.interface.specs.Interface.{one_word};
ghost use Rattle.smallcalls.specs.SmallWords.{small_answer, SmallWordsEnd, WordsEnd};

use interface::{put_words, refusal_code, short_code};
use taskset::TaskSet;

// The small trace at a position: its releases in the columns, and two words, 1 and their number; or 0 and 0 past the last trace.
pub fn trace_words(
    s: TaskSet,
    releases: usize,
    ticks: usize,
    position: u64,
    task: &mut [u32],
    tick: &mut [u64],
    cost: &mut [u32],
    answer: &mut [u64],
) -> u64
    ensures { SmallWordsEnd
        (small_answer (view_of s) releases ticks position task.old tick.old cost.old answer.old)
        task.old tick.old cost.old answer.old result task.new tick.new cost.new answer.new }
{
    let mut task_row = [0u32; 6];
    let mut tick_row = [0u64; 6];
    let mut cost_row = [0u32; 6];
    let found = match smalltraces::find(
        s,
        releases,
        ticks,
        position,
        &mut task_row,
        &mut tick_row,
        &mut cost_row,
    ) {
        Ok(found) => found,
        Err(r) => return refusal_code(r),
    };
    let Some(length) = found else {
        return put_words(answer, &[0, 0]);
    };
    if let Err(r) = releases::check_columns(length, task, tick, cost) {
        return refusal_code(r);
    }
    if answer.len() < 2 {
        return short_code(2);
    }
    smalltraces::put_rows(length, &task_row, &tick_row, &cost_row, task, tick, cost);
    put_words(answer, &[1, length as u64])
}

// How many small traces there are: one word.
pub fn count_words(s: TaskSet, releases: usize, ticks: usize, answer: &mut [u64]) -> u64
    ensures { WordsEnd 1 one_word (count_call (view_of s) releases ticks) answer.old result answer.new }
{
    match smalltraces::small_trace_count(s, releases, ticks) {
        Ok(n) => put_words(answer, &[n]),
        Err(r) => refusal_code(r),
    }
}
