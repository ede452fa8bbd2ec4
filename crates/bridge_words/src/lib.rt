// Numbers of eight bytes, the highest first, in a buffer; the rounds of a negotiation so.
#![tactic(auto)]

use negotiation::Round;

// Writes a number at a place, where there is room for it, and answers the place past it.
pub fn put(out: &mut [u8; 65536], at: usize, x: u64) -> usize {
    if 65528 < at {
        return at;
    }
    for (to, byte) in out[at..at + 8].iter_mut().zip(x.to_be_bytes()) {
        *to = byte;
    }
    at + 8
}

// The k-th number from a place on; 0 past the buffer.
pub fn get(s: &[u8; 65536], at: usize, k: usize) -> u64 {
    if 65536 < at || 64 < k {
        return 0;
    }
    wire::number(s, at + 8 * k)
}

// The place k numbers on, or the buffer's end.
pub fn on(at: usize, k: usize) -> usize {
    if 65536 < at || 64 < k {
        return 65536;
    }
    at + 8 * k
}

// A word cut to 32 bits; `as` alone is proved to lose nothing, and so cuts nothing.
pub fn half(x: u64) -> u32 {
    (x % (1 << 32)) as u32
}

fn round(out: &mut [u8; 65536], at: usize, r: Round) -> usize {
    let mut p = put(out, at, r.party as u64);
    p = put(out, p, money::bits(r.amount));
    p = put(out, p, r.rate as u64);
    p = put(out, p, r.duration);
    put(out, p, r.time)
}

// The rounds in use.
pub fn rounds(out: &mut [u8; 65536], at: usize, rows: [Round; 16], n: u32) -> usize {
    let mut p = at;
    for row in rows.iter().take(n as usize) {
        p = round(out, p, *row);
    }
    p
}
