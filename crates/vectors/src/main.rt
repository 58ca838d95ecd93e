// Prints outputs of SplitMix64: the published ones, every pair of edges, and sums over blocks of pairs. An independent
// program prints the same text from the same rule, and `stdout` is that program's.
#![tactic(auto)]

use splitmix::{draw, product};

// 0, 1, 2^32 - 1, 2^32, 2^63 and 2^64 - 1, with their neighbours.
const EDGES: [u64; 12] = [
    0,
    1,
    2,
    0xffff_fffe,
    0xffff_ffff,
    0x1_0000_0000,
    0x1_0000_0001,
    0x7fff_ffff_ffff_ffff,
    0x8000_0000_0000_0000,
    0x8000_0000_0000_0001,
    0xffff_ffff_ffff_fffe,
    0xffff_ffff_ffff_ffff,
];

fn print_line(rt: &impl Print, x: u64, y: u64, z: u64) {
    // where a line cannot be written the comparison says so
    let _unsaid = println!(rt; "{x} {y} {z}");
}

// Outputs 1 to 5 of the generator started at k: k, n, the output.
fn print_first(rt: &impl Print, k: u64) {
    for n in 1..6 {
        print_line(rt, k, n, draw(n, k));
    }
}

// The outputs at the edges of the generator started at k: k, n, the output.
fn print_edges(rt: &impl Print, k: u64) {
    for n in EDGES {
        print_line(rt, k, n, draw(n, k));
    }
}

// The next number of Knuth's MMIX generator, which makes the pairs of a block.
fn next(x: u64) -> u64 {
    product(x, 6364136223846793005).wrapping_add(1442695040888963407)
}

// Block b has 1,024 pairs, from the numbers that follow b in turn: k is one of them, and n the one after it divided by
// 2^(b mod 64), so that n comes in every length. Printed are b, the sum of the outputs modulo 2^64, and their xor.
fn print_block(rt: &impl Print, b: u64) {
    let mut x = b;
    let mut sum: u64 = 0;
    let mut xor = 0;
    for _ in 0..1024 {
        let k = next(x);
        x = next(k);
        let z = draw(x >> (b % 64), k);
        sum = sum.wrapping_add(z);
        xor ^= z;
    }
    print_line(rt, b, sum, xor);
}

fn main(rt: HostRuntime) {
    print_first(&rt, 1234567);
    print_first(&rt, 0);
    for k in EDGES {
        print_edges(&rt, k);
    }
    for b in 0..128 {
        print_block(&rt, b);
    }
}
