// The key of a packet, from its IP header.
#![tactic(auto)]

ghost use Rattle.std.specs.Prelude.{◌≡◌, true, ◌+◌, ◌*◌, ◌^◌, ◌≤◌, length, SomeIff};
ghost use Rattle.std.specs.Int.Bits.{bit_xor};
ghost use Rattle.splitmix.specs.Generator.{output};
ghost use Rattle.rules.specs.Answers.{Results};
ghost use Rattle.fields.specs.Numbers.{number_at};
ghost use Rattle.packet.specs.Packet.{header4, header6, wants_ports, fits4, fits6, ports_fit, ports, well_formed4, well_formed6, well_formed, words4, words6, words_of};
ghost use Rattle.packet.specs.Key.{key_of, keyed_answer, key_call};

use fields::number_at;
use rules::Refusal;
use splitmix::draw;

// The bytes of the shortest IPv4 header, of the IPv6 header, of both ports, and of a word, as the key is one.
const LEAST_HEADER: usize = 20;

const HEADER_6: usize = 40;

const PORTS: usize = 4;

const WORD: usize = 8;

// The protocols that have ports.
const TCP: u8 = 6;

const UDP: u8 = 17;

// What a header says of its packet: where the header ends, where the packet ends, what it carries, and whether it is a fragment.
#[derive(Clone, Copy)]
struct Header {
    end: usize,
    total: usize,
    protocol: u8,
    fragment: bool,
}

impl Header {
    // Of IPv4, or none: the packet breaks its rules. Not one with `of_6`: it has two tests more, and no field stands at the same byte.
    fn of_4(p: &[u8]) -> Option<Header>
        ensures { SomeIff result (fits4 (header4 p.now) (length p.now) ≡ true) (header4 p.now) }
    {
        if p.len() < LEAST_HEADER {
            return None;
        }
        let end = (p[0] % 16) as usize * 4;
        let total = number_at(p, 2, 2) as usize;
        if end < LEAST_HEADER || total < end || p.len() < total {
            return None;
        }
        // Both bytes in one test: `||` makes two jumps of it.
        let fragment = (p[6] % 64 != 0) | (p[7] != 0);
        Some(Header {
            end,
            total,
            protocol: p[9],
            fragment,
        })
    }

    // And of IPv6.
    fn of_6(p: &[u8]) -> Option<Header>
        ensures { SomeIff result (fits6 (header6 p.now) (length p.now) ≡ true) (header6 p.now) }
    {
        if p.len() < HEADER_6 {
            return None;
        }
        let total = HEADER_6 + number_at(p, 4, 2) as usize;
        if p.len() < total {
            return None;
        }
        Some(Header {
            end: HEADER_6,
            total,
            protocol: p[6],
            fragment: false,
        })
    }

    // By an early return: with `&&` the compiler sets a flag for each test, and saves registers for them.
    fn wants_ports(self) -> bool
        ensures { result ≡ wants_ports self }
    {
        if self.fragment {
            return false;
        }
        matches!(self.protocol, TCP | UDP)
    }

    // Both ports as one number, 0 where none are wanted; or none: they lie beyond the packet's end.
    fn ports(self, p: &[u8]) -> Option<u32>
        requires { (self.end ≤ self.total) × (self.total ≤ length p.now) }
        ensures { SomeIff result (ports_fit self ≡ true) (ports p.now self) }
    {
        if !self.wants_ports() {
            return Some(0);
        }
        if self.total - self.end < PORTS {
            return None;
        }
        Some(number_at(p, self.end, PORTS))
    }

    // The last word: the protocol and both ports.
    fn last_word(self, ports: u32) -> u64
        ensures { result ≡ self.protocol * 2 ^ 32 + ports }
    {
        ((self.protocol as u64) << 32) + ports as u64
    }
}

fn word_at(p: &[u8], at: usize) -> u64
    requires { at + 8 ≤ length p.now }
    ensures { result ≡ number_at p.now at 8 }
{
    u64::from_be_bytes(p[at..at + WORD].try_into().unwrap())
}

// The key after one more word.
fn after(key: u64, word: u64) -> u64
    ensures { result ≡ output 1 (bit_xor key word) }
{
    draw(1, key ^ word)
}

// Two readers, and no trait over the version: the ports and the last word are methods of both, and of address words there are one and four, plainer one by one.
fn key_4(p: &[u8]) -> Option<u64>
    ensures { SomeIff result (well_formed4 p.now ≡ true) (key_of (words4 p.now)) }
{
    let h = Header::of_4(p)?;
    let ports = h.ports(p)?;
    Some(after(after(0, word_at(p, 12)), h.last_word(ports)))
}

fn key_6(p: &[u8]) -> Option<u64>
    ensures { SomeIff result (well_formed6 p.now ≡ true) (key_of (words6 p.now)) }
{
    let h = Header::of_6(p)?;
    let ports = h.ports(p)?;
    let source = after(after(0, word_at(p, 8)), word_at(p, 16));
    let key = after(after(source, word_at(p, 24)), word_at(p, 32));
    Some(after(key, h.last_word(ports)))
}

// The key, or none: the packet breaks the rules.
#[tactic(auto, unfolding(crate::specs::Packet::well_formed, crate::specs::Packet::words_of))]
fn key_of(p: &[u8]) -> Option<u64>
    ensures { SomeIff result (well_formed p.now ≡ true) (key_of (words_of p.now)) }
{
    match p.first()? / 16 {
        4 => key_4(p),
        6 => key_6(p),
        _ => None,
    }
}

// The key of a packet, big-endian. Nothing is written before the packet is judged.
#[tactic(auto, unfolding(crate::specs::Key::key_call))]
pub fn packet_key(p: &[u8], key: &mut [u8]) -> Result<(), Refusal>
    ensures { Results keyed_answer (key_call p.now key.old) (result, key.new) }
{
    if key.len() != WORD {
        return Err(Refusal::Room);
    }
    let x = key_of(p).ok_or(Refusal::Packet)?;
    key.copy_from_slice(&x.to_be_bytes());
    Ok(())
}
