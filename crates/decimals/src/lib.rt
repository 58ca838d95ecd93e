// Decimal numbers as text: read from bytes, and put into bytes.
#![tactic(auto)]

ghost use Rattle.std.specs.Prelude.{◌≡◌, ◌-◌, ◌≤◌, cond, length};
ghost use Rattle.decimals.specs.Decimal.{decimal, is_digit, more, follows, number};
ghost use Rattle.decimals.specs.Places.{seen, Reads, Put};

// What a digit is worth.
fn digit(d: u8) -> Option<u64>
    ensures { result ≡ cond (is_digit d) (Some (d - 48)) None }
{
    match d {
        b'0'..=b'9' => Some(u64::from(d - b'0')),
        _ => None,
    }
}

// v with the digit d behind it: at most lim, and no number but 0 begins with 0.
fn with_digit(v: u64, d: u8, lim: u64) -> Option<u64>
    ensures { result ≡ cond (follows lim v d) (Some (more v d)) None }
{
    let x = digit(d)?;
    let more = v.checked_mul(10)?.checked_add(x)?;
    (0 < v && more <= lim).then_some(more)
}

// The number that these bytes begin with, which ends at the byte `end` or with them, and what is left of them.
// Not std's `parse`: it takes a sign and leading zeros.
#[tactic(auto, unfolding(crate::specs::Decimal::digits, crate::specs::Decimal::number))]
pub fn read_decimal(s: &[u8], end: u8, lim: u64) -> Option<(u64, &[u8])>
    requires { 9 ≤ lim }
    ensures { Reads (number end lim s.now) (seen result) }
{
    let (first, mut rest) = s.split_first()?;
    let mut v = digit(*first)?;
    while let Some((d, behind)) = rest.split_first() {
        if *d == end {
            break;
        }
        v = with_digit(v, *d, lim)?;
        rest = behind;
    }
    Some((v, rest))
}

// A number's digits at the front, the last behind the others; how many they are. It calls itself for the others, nineteen times at most.
// Not std's `Display`: what it prints into fixed memory, an `InlineText`, may by its contract have been cut.
pub fn put_decimal(out: &mut [u8], v: u64) -> usize
    requires { length (decimal v) ≤ length out.old }
    ensures { Put (decimal v) 0 out.old (result, out.new) }
{
    if v < 10 {
        out[0] = b'0' + v as u8;
        return 1;
    }
    let to = put_decimal(out, v / 10);
    out[to] = b'0' + (v % 10) as u8;
    to + 1
}
