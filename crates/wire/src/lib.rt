// Tagged fields: a one-byte tag, a two-byte big-endian length and the field's bytes.
#![tactic(auto)]

ghost use Rattle.std.specs.Prelude.{◌≡◌, ◌+◌, ◌≤◌, ◌<◌, length, drop};
ghost use Rattle.wire.specs.Field.{number_in, bytes_of, field_of, head_of, begins, number_at};
ghost use Rattle.refusal.specs.Placed.{laid};
ghost use Rattle.wire.specs.Room.{Room};

// Whether n places from p on lie within len.
fn room(len: usize, p: usize, n: usize) -> bool
    ensures { Room p n len result }
{
    p <= len && n <= len - p
}

// The number that the n bytes from p are.
fn digits(s: &[u8], p: usize, n: usize) -> u64
    requires { (p + n ≤ length s.now) × (n ≤ 8) }
    ensures { result ≡ number_in (drop p s.now) n }
{
    let mut v = 0;
    for i in 0..n {
        v = v * 256 + u64::from(s[p + i]);
    }
    v
}

// Whether a field of this tag and length begins at p, with all its bytes there.
pub fn begins(s: &[u8], p: usize, tag: u8, size: usize) -> bool
    ensures { result ≡ begins tag size (drop p s.now) }
{
    if !room(s.len(), p, 3) {
        return false;
    }
    if !room(s.len(), p + 3, size) {
        return false;
    }
    s[p] == tag && digits(s, p + 1, 2) == size as u64
}

fn whole(s: &[u8], p: usize, n: usize) -> u64
    requires { (0 < n) × (n ≤ 8) }
    ensures { result ≡ number_at n (drop p s.now) }
{
    if room(s.len(), p, n) {
        digits(s, p, n)
    } else {
        0
    }
}

// The eight-byte number at p; 0 where not all its bytes are there.
pub fn number(s: &[u8], p: usize) -> u64
    ensures { result ≡ number_at 8 (drop p s.now) }
{
    whole(s, p, 8)
}

// The two-byte number at p, likewise.
pub fn pair(s: &[u8], p: usize) -> u64
    ensures { result ≡ number_at 2 (drop p s.now) }
{
    whole(s, p, 2)
}

// A field of eight bytes, by itself.
pub fn field(tag: u8, v: u64) -> [u8; 11]
    ensures { result ≡ field_of tag (bytes_of 8 v) }
{
    let [a, b, c, d, e, f, g, h] = v.to_be_bytes();
    [tag, 0, 8, a, b, c, d, e, f, g, h]
}

// Writes an eight-byte field at p; without room for it the buffer stays as it is.
pub fn put_field(out: &mut [u8], p: usize, tag: u8, v: u64)
    ensures { out.new ≡ laid p (field_of tag (bytes_of 8 v)) out.old }
{
    if room(out.len(), p, 11) {
        copying::copy(&field(tag, v), &mut out[p..]);
    }
}

// Writes the tag and length that a field begins with.
pub fn put_head(out: &mut [u8], p: usize, tag: u8, size: u64)
    ensures { out.new ≡ laid p (head_of tag size) out.old }
{
    if room(out.len(), p, 3) {
        let [.., high, low] = size.to_be_bytes();
        copying::copy(&[tag, high, low], &mut out[p..]);
    }
}
