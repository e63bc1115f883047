// Words of 64 bits, as they are read, and lists of them.
ghost use Rattle.std.specs.Prelude.{◌≤◌, length};

use std::io::Read;

// The next word of the input, lowest byte first. Bytes that the input lacks, or where a read fails, are 0.
pub fn next<R: Read>(input: &mut R) -> u64 {
    let mut bytes = [0u8; 8];
    let _ = input.read_exact(&mut bytes);
    u64::from_le_bytes(bytes)
}

// The next word as a length, or `most` where it is more.
pub fn next_length<R: Read>(input: &mut R, most: usize) -> usize
    ensures { result ≤ most }
{
    (next(input) as usize).min(most)
}

// Reads the next list to the start of out, and gives that start. What a word stands for is `of_word` of it.
pub fn next_list<'a, R: Read, T: Copy, F: Fn(u64) -> T>(
    input: &mut R,
    out: &'a mut [T],
    of_word: F,
) -> &'a [T]
    requires { F.IsAlwaysCallable of_word }
    ensures { length result.now ≤ length out.old }
{
    let n = next_length(input, out.len());
    let list = &mut out[..n];
    for x in list.iter_mut() {
        *x = of_word(next(input));
    }
    list
}
