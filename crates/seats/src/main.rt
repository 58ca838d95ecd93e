// Standard input to standard output. One byte more than an input may have is read, so that a longer one is seen.
#![tactic(auto)]

ghost use Rattle.std.specs.Counts.{IsPrefixLen};

use std::io::{self, Read, Write};
use transcript::{MOST_INPUT, MOST_OUTPUT};

// What the reader has, until the bytes are full, it ends or a read fails; how many bytes that is.
fn read_full<R: Read>(reader: &mut R, bytes: &mut [u8]) -> usize
    ensures { IsPrefixLen result bytes.new }
{
    // An index: std's `read_to_end` puts into a Vec, and there is no heap.
    let mut done = 0;
    while done < bytes.len() {
        let n = reader.read(&mut bytes[done..]).unwrap_or(0);
        if n == 0 {
            break;
        }
        done += n;
    }
    done
}

fn main(rt: HostRuntime) {
    let mut input = [0u8; MOST_INPUT + 1];
    let n = read_full(&mut rt.stdin(), &mut input);
    let mut out = [0u8; MOST_OUTPUT];
    let len = transcript::run(&input[..n], &mut out);
    // where the answers cannot be written there is nobody to be told
    let _unsaid = io::writer(&rt).write_all(&out[..len]);
}
