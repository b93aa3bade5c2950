// commands: the bytes of the recorder's commands: how many each has, and its operands, little-endian.
// Past the end of its bytes a command has zeros: no reader relies on its caller.
#![tactic(auto)]

ghost use Rattle.std.specs.Prelude.{◌≡◌};
ghost use Rattle.commands.specs.Commands.{byte, half, word, long, signed64, pair_at, fifteen_at};
ghost use Rattle.commands.specs.Commands.{size_of, next_of};

use job_policy::BasicPolicy;

// What stands at the front of some bytes: too few for a command, no command, or one of so many bytes.
#[derive(Clone, Copy)]
pub enum Next {
    Wait,
    Stop,
    Whole(usize),
}

// -- Operands --------------------------------------------------------------------------------

pub fn byte_at(s: &[u8], i: usize) -> u8
    ensures { result ≡ byte s.now i }
{
    s.get(i).copied().unwrap_or(0)
}

// H, at byte 2.
pub fn half_at(s: &[u8]) -> u16
    ensures { result ≡ half s.now 2 }
{
    u16::from_le_bytes([byte_at(s, 2), byte_at(s, 3)])
}

// W, at byte 2.
pub fn word_at(s: &[u8]) -> u32
    ensures { result ≡ word s.now 2 }
{
    u32::from_le_bytes([byte_at(s, 2), byte_at(s, 3), byte_at(s, 4), byte_at(s, 5)])
}

// V, at byte 2.
#[tactic(auto, using(crate::proofs::Signed::signed_is))]
pub fn value_at(s: &[u8]) -> i64
    ensures { result ≡ signed64 (long s.now 2) }
{
    i64::from_le_bytes([
        byte_at(s, 2),
        byte_at(s, 3),
        byte_at(s, 4),
        byte_at(s, 5),
        byte_at(s, 6),
        byte_at(s, 7),
        byte_at(s, 8),
        byte_at(s, 9),
    ])
}

// A pair of 0f, at byte i: a condition and an action.
fn pair_at(s: &[u8], i: u8) -> BasicPolicy
    ensures { result ≡ pair_at s.now i }
{
    let at = i as usize;
    BasicPolicy {
        condition: byte_at(s, at),
        action: byte_at(s, at + 1),
    }
}

// The four pairs of 0f, from byte 4, and eleven entries that no command has.
pub fn fifteen_at(s: &[u8]) -> [BasicPolicy; 15]
    ensures { result ≡ fifteen_at s.now }
{
    let none = BasicPolicy {
        condition: 0,
        action: 0,
    };
    let mut policies = [none; 15];
    policies[..4].copy_from_slice(&[pair_at(s, 4), pair_at(s, 6), pair_at(s, 8), pair_at(s, 10)]);
    policies
}

// -- A whole command -------------------------------------------------------------------------

// The bytes of a command with its operands, 0 where there is no such command.
#[tactic(auto, unfolding(crate::specs::Commands::size_of))]
fn size_of(code: u8) -> usize
    ensures { result ≡ size_of code }
{
    match code {
        0x01 => 3,
        0x02 => 2,
        0x03 => 3,
        0x04 => 3,
        0x05 => 10,
        0x06 => 2,
        0x07 => 4,
        0x08 => 3,
        0x09 => 2,
        0x0a => 2,
        0x0b => 2,
        0x0c => 2,
        0x0d => 4,
        0x0e => 2,
        0x0f => 12,
        0x10 => 11,
        0x11 => 3,
        0x12 => 3,
        0x13 => 3,
        0x14 => 4,
        0x15 => 2,
        0x16 => 6,
        0x17 => 6,
        0x18 => 2,
        0x19 => 4,
        0x1a => 3,
        0x1b => 2,
        0x1c => 2,
        0x1d => 2,
        0x1e => 3,
        0x1f => 3,
        _ => 0,
    }
}

// A whole 0f with a count above 4 is no command.
#[tactic(auto, using(laws::proofs::Flow::branches), unfolding(crate::specs::Commands::next_of))]
pub fn next_of(s: &[u8]) -> Next
    ensures { result ≡ next_of s.now }
{
    let Some(&code) = s.first() else {
        return Next::Wait;
    };
    match size_of(code) {
        0 => Next::Stop,
        size if s.len() < size => Next::Wait,
        _ if code == 0x0f && 4 < byte_at(s, 3) => Next::Stop,
        size => Next::Whole(size),
    }
}
