// The first program: reads a file from standard input, ignores its releases once read, and prints the choice.
#![tactic(auto)]

// Standard input.
const STDIN_FILENO: i32 = 0;
// Standard output.
const STDOUT_FILENO: i32 = 1;

fn main() {
    // No byte past these changes the answer.
    let mut file: [u8; 14932] = [0; 14932];
    let n = io::read_full(STDIN_FILENO, &mut file);
    let mut out: [u8; 2560] = [0; 2560];
    let m = answers::choose_text(&file, n, &mut out);
    io::write_all(STDOUT_FILENO, &out[..m]);
}
