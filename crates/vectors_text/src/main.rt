// Runs the stored cases of the loader, and prints a line for each: the answer, and the task set that a load returns; of a text in pieces first whether the
// answer is decided after each.
#![tactic(auto)]

use loader::Loader;
use refusal::Refusal;
use taskset::TaskSet;

// Prints the answer and the task set; of a refusal the empty one.
fn print_loaded(answer: Result<TaskSet, Refusal>) {
    match answer {
        Ok(tasks) => {
            cases::print_words(b"loaded");
            cases::print_task_set(tasks);
        }
        Err(r) => {
            cases::print_refusal(r);
            cases::print_no_tasks();
        }
    }
}

// A case of the load: a whole text.
fn load_case() {
    let mut text = [0u8; 12288];
    let n = cases::read_block(&mut text);
    print_loaded(loader::load(&text[..n]));
}

// Prints whether the answer is decided.
fn print_decided(l: Loader) {
    if loader::is_decided(l) {
        cases::print_words(b"decided");
    } else {
        cases::print_words(b"open");
    }
}

// Feeds the next piece, and prints whether the answer is decided.
fn feed_next(l: Loader) -> Loader {
    let mut piece = [0u8; 12288];
    let n = cases::read_block(&mut piece);
    let next = loader::feed(l, &piece[..n]);
    print_decided(next);
    next
}

// A case of a text in three pieces.
fn pieces_case() {
    let mut l = loader::start();
    for _ in 0..3 {
        l = feed_next(l);
    }
    print_loaded(loader::finish(l));
}

// One case: 0 is a whole text, 1 a text in pieces.
fn one(head: &[u32; 168]) {
    if head[0] == 0 {
        load_case();
    } else {
        pieces_case();
    }
}

fn main() {
    cases::run_cases(one);
}
