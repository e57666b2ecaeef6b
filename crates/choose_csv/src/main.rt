// The third program: reads a text sheet from standard input in pieces, to its end or until the answer is decided, and prints the choice.
#![tactic(auto)]

ghost use Rattle.std.specs.Prelude.{◌≡◌};
ghost use Rattle.loader.specs.Pieces.{Fed};
ghost use Rattle.choose_csv.specs.Turn.{turn_of};

use loader::Loader;
use std::io::Read;

// Standard output.
const STDOUT_FILENO: i32 = 1;

// What follows on a read: it failed, or the answer of the loader is printed, or more is read into it. Three cases, so neither Option nor Result.
#[derive(Clone, Copy)]
pub enum Turn {
    Fails,
    Prints(Loader),
    Reads(Loader),
}

// What a read brought. One that fails ends the program without an answer: what came before may be a part of the text that looks like a whole one.
fn after_read(l: Loader, piece: &[u8], got: std::io::Result<usize>) -> Turn
    ensures { result ≡ turn_of l piece.now got }
{
    let Ok(read) = got else {
        return Turn::Fails;
    };
    let n = read.min(piece.len());
    if n == 0 {
        return Turn::Prints(l);
    }
    let next = loader::feed(l, &piece[..n]);
    if loader::is_decided(next) {
        return Turn::Prints(next);
    }
    Turn::Reads(next)
}

// Prints the answer for a loader that was fed a text.
fn print(l: Loader)
    requires { Fed l }
{
    let mut out: [u8; 2560] = [0; 2560];
    let m = answers::choose_csv_text(l, &mut out);
    io::write_all(STDOUT_FILENO, &out[..m]);
}

// A proved loop has to end, so it counts its turns, to a number that no input uses up.
fn main(rt: HostRuntime) {
    let mut input = rt.stdin();
    let mut l = loader::start();
    let mut piece: [u8; 4096] = [0; 4096];
    for _ in 0..u64::MAX {
        let got = input.read(&mut piece);
        match after_read(l, &piece, got) {
            Turn::Fails => return,
            Turn::Prints(whole) => {
                print(whole);
                return;
            }
            Turn::Reads(more) => l = more,
        }
    }
}
