// SplitMix64: any output of the generator, from the number that it is started at.
#![tactic(auto)]

ghost use Rattle.std.specs.Prelude.{◌≡◌, ◌*◌, ◌%◌, ◌^◌, ◌<◌};
ghost use Rattle.splitmix.specs.Generator.{mixed, scrambled, output};

// One step of the generator.
const STEP: u64 = 0x9e3779b97f4a7c15;

// The product modulo 2^64.
pub fn product(a: u64, b: u64) -> u64
    ensures { result ≡ a * b % 2 ^ 64 }
{
    a.wrapping_mul(b)
}

#[tactic(auto, unfolding(crate::specs::Generator::mixed))]
fn mix(z: u64, s: u64, c: u64) -> u64
    requires { s < 64 }
    ensures { result ≡ mixed s c z }
{
    product(z ^ (z >> s), c)
}

fn scramble(z: u64) -> u64
    ensures { result ≡ scrambled z }
{
    let z = mix(z, 30, 0xbf58476d1ce4e5b9);
    let z = mix(z, 27, 0x94d049bb133111eb);
    z ^ (z >> 31)
}

// Output n of the generator started at k.
#[tactic(auto, unfolding(crate::specs::Generator::output))]
pub fn draw(n: u64, k: u64) -> u64
    ensures { result ≡ output n k }
{
    scramble(k.wrapping_add(product(n, STEP)))
}
