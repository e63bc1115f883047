// Replays recorded answers. Standard input has groups of records: the rules' worked cases, each with the answer
// told there; some thousands of answers of the Rust and of the machine's square root, for each entry; and answers
// with one thing wrong, which have to differ. For each group its name is printed, how many records it has, and how many
// of them the entry answers otherwise.
//
// The input is made by
//     MEFIKIT_SRC=FOLDER cargo run --manifest-path compare/Cargo.toml --config compare/.cargo/config.toml \
//         --offline --release --features mefikit --bin record -- crates/replay/stdin
// and its format stands in compare/src/recorded.rs.
#![tactic(auto)]

ghost use Rattle.std.specs.Prelude.{◌≤◌};

mod answer;
mod same;
mod word;

use answer::{Buffers, Case, Entry};
use same::{Recorded, same};
use std::io::{self, Read, Write};
use std::num::{f64_from_bits_with_nan, f64_to_bits_with_nan};

fn main(rt: HostRuntime) -> io::Result<()> {
    let mut input = rt.stdin();
    for _ in 0..word::next(&mut input) {
        replay_group(&rt, &mut input)?;
    }
    Ok(())
}

fn replay_group<P: Print, R: Read>(rt: &P, input: &mut R) -> io::Result<()> {
    let mut name = [0u8; 64];
    let _ = input.read_exact(&mut name);
    io::writer(rt).write_all(&name)?;
    let n = word::next(input);
    print!(rt; "{n} records, ")?;
    let count = differing(input, n);
    println!(rt; "{count} differ")
}

// How many of the next n records are answered otherwise.
fn differing<R: Read>(input: &mut R, n: u64) -> usize
    ensures { result ≤ n }
{
    (0..n).filter(|_| !answers(input)).count()
}

// Whether the next record is answered as recorded. A number that names no entry stands for the plane cell by direction.
fn answers<R: Read>(input: &mut R) -> bool {
    let entry = Entry::try_from(word::next(input)).unwrap_or(Entry::PlaneCellByDirection);
    let scaled = (word::next(input) % 256) as u8;
    let strict = (word::next(input) % 256) as u8;
    let cell_type = (word::next(input) % 256) as u8;
    let number = |w| f64_from_bits_with_nan(w);
    let tol = number(word::next(input));
    let mut conn = [0u64; 320];
    let mut coords = [0.0f64; 1600];
    let mut origin = [0.0f64; 8];
    let mut vector = [0.0f64; 8];
    let case = Case {
        entry,
        scaled,
        strict,
        cell_type,
        tol,
        conn: word::next_list(input, &mut conn, |w| w),
        coords: word::next_list(input, &mut coords, number),
        origin: word::next_list(input, &mut origin, number),
        vector: word::next_list(input, &mut vector, number),
    };
    answers_case(input, &case)
}

// The same of a case, in buffers of the recorded lengths.
fn answers_case<R: Read>(input: &mut R, case: &Case) -> bool {
    let mut numbers = [f64::BLANK; 3600];
    let mut nodes = [u32::BLANK; 400];
    let mut ends = [u32::BLANK; 200];
    let mut lent = Buffers {
        numbers: &mut numbers[..word::next_length(input, 3600)],
        nodes: &mut nodes[..word::next_length(input, 400)],
        ends: &mut ends[..word::next_length(input, 200)],
    };
    let told = case.answer(&mut lent);
    let value = f64_to_bits_with_nan(told.value) == word::next(input);
    let counts = recorded(input, &mut [0; 400], &told.counts);
    let numbers = recorded(input, &mut [0; 3600], lent.numbers);
    let nodes = recorded(input, &mut [0; 400], lent.nodes);
    let ends = recorded(input, &mut [0; 400], lent.ends);
    value & counts & numbers & nodes & ends
}

// Whether the next list, of which words takes the start, is what was told or written to a buffer.
fn recorded<R: Read, T: Recorded>(input: &mut R, words: &mut [u64], out: &[T]) -> bool {
    same(word::next_list(input, words, |w| w), out)
}
