// Runs the stored cases of read and write, and prints a line for each: the answer, the task set that a read returns with its charge, and every slot and
// byte of the lent slices.
#![tactic(auto)]

ghost use Rattle.std.specs.Prelude.{◌≡◌, length};
ghost use Rattle.model.specs.Checks.{refusal_of};
ghost use Rattle.model.specs.Calls.{column_after};
ghost use Rattle.taskset.specs.TaskSet.{view_of};
ghost use Rattle.fileformat.specs.File.{encode};
ghost use Rattle.releases.specs.Over.{over};
ghost use Rattle.fileformat.specs.FileCalls.{file_of, read_call, read_column, write_inputs};

use reader::ReadAnswer;
use refusal::Refusal;
use releases::Releases;
use taskset::TaskSet;

// Standard output.
const STDOUT_FILENO: i32 = 1;

// Prints the charge of a task set.
fn print_charge(charge: u8) {
    cases::print_named(b"charge", u64::from(charge));
}

// Prints what a read answers; of a refusal also the empty sheet, which stands in the stored lines.
fn print_read(answer: Result<ReadAnswer, Refusal>) {
    match answer {
        Ok(got) => {
            cases::print_named(b"read", got.releases as u64);
            cases::print_task_set(got.tasks);
            print_charge(got.tasks.charge);
        }
        Err(r) => {
            cases::print_refusal(r);
            cases::print_no_tasks();
            print_charge(0);
        }
    }
}

// Prints a byte in two hexadecimal digits.
fn print_byte(b: u8) {
    io::print_hex(STDOUT_FILENO, b as u64, 2);
}

// Prints the first bytes of a buffer, as many as are asked for, after a comma.
fn print_bytes(bytes: &[u8], count: usize) {
    io::write_all(STDOUT_FILENO, b", ");
    for b in &bytes[..count.min(bytes.len())] {
        print_byte(*b);
    }
}

// Calls the read, and prints the answer, the task set, its charge and the columns lent.
fn read_call(file: &[u8], task: &mut [u32], tick: &mut [u64], cost: &mut [u32])
    ensures task_after { task.new
        ≡ read_column (λ q. q.task) (read_call file.now task.old tick.old cost.old) task.old }
    ensures tick_after { tick.new
        ≡ read_column (λ q. q.tick) (read_call file.now task.old tick.old cost.old) tick.old }
    ensures cost_after { cost.new
        ≡ read_column (λ q. q.cost) (read_call file.now task.old tick.old cost.old) cost.old }
{
    print_read(reader::read(file, task, tick, cost));
    cases::print_column(task);
    cases::print_ticks(tick);
    cases::print_column(cost);
}

// A case of the read: the file, then the columns of tasks, ticks and costs.
fn read_case() {
    let mut file = [0u8; 16384];
    let n = cases::read_block(&mut file);
    let mut task = cases::lent_column::<1056>();
    let tasks = task.lent;
    let mut tick = cases::lent_ticks::<1056>();
    let ticks = tick.lent;
    let mut cost = cases::lent_column::<1056>();
    let costs = cost.lent;
    read_call(
        &file[..n],
        &mut task.slots[..tasks],
        &mut tick.slots[..ticks],
        &mut cost.slots[..costs],
    );
}

// Prints how many bytes a write wrote, or its refusal.
fn print_written(answer: Result<usize, Refusal>) {
    match answer {
        Ok(bytes) => cases::print_named(b"written", bytes as u64),
        Err(r) => cases::print_refusal(r),
    }
}

// Calls the write, and prints the answer and the bytes lent.
fn write_call(set: TaskSet, list: &Releases, out: &mut [u8])
    ensures { out.new
        ≡ column_after
        (refusal_of (over (write_inputs (view_of set)) list.now (length out.old)))
        (encode (over (file_of set) list.now))
        out.old }
{
    print_written(writer::write(set, list, out));
    print_bytes(out, out.len());
}

// A case of the write: count of releases; then tasks, ticks, costs and the bytes.
fn write_case(head: &[u32; 168]) {
    let set = cases::task_set(head);
    let count = cases::index(head[1]);
    let task = cases::lent_column::<1056>();
    let tick = cases::lent_ticks::<1056>();
    let cost = cases::lent_column::<1056>();
    let mut out = [0u8; 16384];
    let n = cases::read_block(&mut out);
    let list = Releases {
        count,
        task: task.as_slice(),
        tick: tick.as_slice(),
        cost: cost.as_slice(),
    };
    write_call(set, &list, &mut out[..n]);
}

// Writes what was read, and prints the bytes of the file.
fn write_again(set: TaskSet, list: &Releases) {
    let mut out = [0u8; 16384];
    let answer = writer::write(set, list, &mut out);
    print_written(answer);
    if let Ok(bytes) = answer {
        print_bytes(&out, bytes);
    }
}

// A case of both: a file is read and written again.
fn again_case() {
    let mut file = [0u8; 16384];
    let n = cases::read_block(&mut file);
    let mut task = [0u32; 1024];
    let mut tick = [0u64; 1024];
    let mut cost = [0u32; 1024];
    match reader::read(&file[..n], &mut task, &mut tick, &mut cost) {
        Ok(got) => {
            let list = Releases {
                count: got.releases,
                task: &task,
                tick: &tick,
                cost: &cost,
            };
            write_again(got.tasks, &list)
        }
        Err(r) => cases::print_refusal(r),
    }
}

// One case: 0 is the read, 1 the write, 2 both.
fn one(head: &[u32; 168]) {
    if head[0] == 0 {
        read_case();
    } else if head[0] == 1 {
        write_case(head);
    } else {
        again_case();
    }
}

fn main() {
    cases::run_cases(one);
}
