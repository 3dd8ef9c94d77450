//! XXH64 with the seed 0: the checksum of Zstandard's frames.
#![tactic(auto)]

ghost use Rattle.std.specs.Prelude.{◌≡◌, ◌≤◌, ◌+◌, ◌/◌, length};
ghost use Rattle.xxh_sum.specs.Sums.{round, mixed, striped, start, merged, joined, begun};
ghost use Rattle.xxh_sum.specs.Sums.{by_eight, by_four, by_one, eights, ones, ended};
ghost use Rattle.xxh_sum.specs.Sums.{shaken, rest_summed, sum_of};

use byteorder::{ByteOrder, LittleEndian};

const P1: u64 = 0x9E3779B185EBCA87;

const P2: u64 = 0xC2B2AE3D27D4EB4F;

const P3: u64 = 0x165667B19E3779F9;

const P4: u64 = 0x85EBCA77C2B2AE63;

const P5: u64 = 0x27D4EB2F165667C5;

/// The four sums that run side by side over stripes of 32 bytes.
#[derive(Clone, Copy)]
struct Lanes {
    first: u64,
    second: u64,
    third: u64,
    fourth: u64,
}

/// A sum behind a lane more.
#[inline]
#[tactic(auto, unfolding(crate::specs::Sums::round))]
fn round(sum: u64, lane: u64) -> u64
    ensures { result ≡ round sum lane }
{
    let added = sum.wrapping_add(lane.wrapping_mul(P2));
    added.rotate_left(31).wrapping_mul(P1)
}

/// The sums behind a stripe more.
#[inline]
#[tactic(auto, unfolding(crate::specs::Sums::mixed))]
fn mixed(stripe: &[u8], lanes: Lanes) -> Lanes
    requires { 32 ≤ length stripe.now }
    ensures { result ≡ mixed stripe.now lanes }
{
    Lanes {
        first: round(lanes.first, LittleEndian::read_u64(stripe)),
        second: round(lanes.second, LittleEndian::read_u64(&stripe[8..])),
        third: round(lanes.third, LittleEndian::read_u64(&stripe[16..])),
        fourth: round(lanes.fourth, LittleEndian::read_u64(&stripe[24..])),
    }
}

/// The sums behind all whole stripes.
fn striped(bytes: &[u8]) -> Lanes
    ensures { result ≡ striped (length bytes.now / 32) bytes.now start }
{
    let mut lanes = Lanes {
        first: P1.wrapping_add(P2),
        second: P2,
        third: 0,
        fourth: 0u64.wrapping_sub(P1),
    };
    for i in 0..bytes.len() / 32 {
        lanes = mixed(&bytes[32 * i..], lanes);
    }
    lanes
}

/// A lane's sum goes into the sum of all.
#[tactic(auto, unfolding(crate::specs::Sums::merged))]
fn merged(sum: u64, lane: u64) -> u64
    ensures { result ≡ merged sum lane }
{
    (sum ^ round(0, lane)).wrapping_mul(P1).wrapping_add(P4)
}

/// One sum of the four.
#[tactic(auto, unfolding(crate::specs::Sums::joined))]
fn joined(lanes: Lanes) -> u64
    ensures { result ≡ joined lanes }
{
    let halves = lanes
        .first
        .rotate_left(1)
        .wrapping_add(lanes.second.rotate_left(7));
    let three = halves.wrapping_add(lanes.third.rotate_left(12));
    let sum = three.wrapping_add(lanes.fourth.rotate_left(18));
    let front = merged(merged(sum, lanes.first), lanes.second);
    merged(merged(front, lanes.third), lanes.fourth)
}

/// The sum behind all whole stripes.
#[tactic(auto, unfolding(crate::specs::Sums::begun))]
fn begun(bytes: &[u8]) -> u64
    ensures { result ≡ begun bytes.now }
{
    if bytes.len() < 32 {
        P5
    } else {
        joined(striped(bytes))
    }
}

/// The sum behind eight bytes more.
#[inline]
#[tactic(auto, unfolding(crate::specs::Sums::by_eight))]
fn by_eight(lane: u64, sum: u64) -> u64
    ensures { result ≡ by_eight lane sum }
{
    let mixed = (sum ^ round(0, lane)).rotate_left(27);
    mixed.wrapping_mul(P1).wrapping_add(P4)
}

/// The sum behind four bytes more.
#[tactic(auto, unfolding(crate::specs::Sums::by_four))]
fn by_four(lane: u32, sum: u64) -> u64
    ensures { result ≡ by_four lane sum }
{
    let mixed = (sum ^ u64::from(lane).wrapping_mul(P1)).rotate_left(23);
    mixed.wrapping_mul(P2).wrapping_add(P3)
}

/// The sum behind a byte more.
#[tactic(auto, unfolding(crate::specs::Sums::by_one))]
fn by_one(byte: u8, sum: u64) -> u64
    ensures { result ≡ by_one byte sum }
{
    let mixed = (sum ^ u64::from(byte).wrapping_mul(P5)).rotate_left(11);
    mixed.wrapping_mul(P1)
}

/// The sum behind all whole lanes.
fn eights(bytes: &[u8], start: u64) -> u64
    ensures { result ≡ eights (length bytes.now / 8) bytes.now start }
{
    let mut sum = start;
    for i in 0..bytes.len() / 8 {
        sum = by_eight(LittleEndian::read_u64(&bytes[8 * i..]), sum);
    }
    sum
}

/// The sum behind single bytes.
fn ones(bytes: &[u8], start: u64) -> u64
    ensures { result ≡ ones bytes.now start }
{
    let mut sum = start;
    for byte in bytes {
        sum = by_one(*byte, sum);
    }
    sum
}

/// The sum behind less than a lane.
#[tactic(auto, unfolding(crate::specs::Sums::ended))]
fn ended(bytes: &[u8], sum: u64) -> u64
    ensures { result ≡ ended bytes.now sum }
{
    if bytes.len() < 4 {
        return ones(bytes, sum);
    }
    ones(&bytes[4..], by_four(LittleEndian::read_u32(bytes), sum))
}

/// The last mixing.
#[tactic(auto, unfolding(crate::specs::Sums::shaken))]
fn shaken(sum: u64) -> u64
    ensures { result ≡ shaken sum }
{
    let a = (sum ^ (sum >> 33)).wrapping_mul(P2);
    let b = (a ^ (a >> 29)).wrapping_mul(P3);
    b ^ (b >> 32)
}

/// The sum behind what is no whole stripe.
#[tactic(auto, unfolding(crate::specs::Sums::rest_summed))]
fn rest_summed(rest: &[u8], sum: u64) -> u64
    ensures { result ≡ rest_summed rest.now sum }
{
    let lanes_end = rest.len() / 8 * 8;
    ended(&rest[lanes_end..], eights(rest, sum))
}

/// The checksum of the bytes: XXH64 with the seed 0 (RFC 8878, section 3.1.1, Content_Checksum).
#[tactic(auto, unfolding(crate::specs::Sums::sum_of))]
pub fn sum(bytes: &[u8]) -> u64
    ensures { result ≡ sum_of bytes.now }
{
    let start = begun(bytes).wrapping_add(bytes.len() as u64);
    let stripes_end = bytes.len() / 32 * 32;
    shaken(rest_summed(&bytes[stripes_end..], start))
}

#[cfg(test)]
mod tests {
    use super::*;

    #[test]
    fn sums(rt: HostRuntime) {
        assert_eq!(rt; sum(b""), 0xEF46DB3751D8E999);
        assert_eq!(rt; sum(b"abc"), 0x44BC2CF5AD770999);
    }
}
