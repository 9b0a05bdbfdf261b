// The bits of a field, out of eight bytes: a constant number of loads, and no loop.
ghost use Rattle.std.specs.Prelude.{◌≡◌, ◌+◌, ◌*◌, ◌-◌, ◌/◌, ◌%◌, ◌^◌, ◌<◌, ◌≤◌, length, get_or};
ghost use Rattle.getbits.specs.Bits.{bits_at};
ghost use Rattle.getbits.specs.Words.{four_bytes, eight_bytes};

fn u8_to_u64(x: u8) -> u64
    ensures { (result ≡ x) × (result < 256) }
{
    x as u64
}

// The byte at i, and 0 past the end.
fn at(s: &[u8], i: usize) -> u64
    ensures { (result ≡ get_or s.now i 0) × (result < 256) }
{
    if i < s.len() { u8_to_u64(s[i]) } else { 0 }
}

// Four bytes that are all there.
fn four_bytes_within(s: &[u8], i: usize) -> u64
    requires { i + 4 ≤ length s.now }
    ensures { (result ≡ four_bytes s.now i) × (result < 2 ^ 32) }
{
    u8_to_u64(s[i]) * 0x100_0000
        + u8_to_u64(s[i + 1]) * 0x1_0000
        + u8_to_u64(s[i + 2]) * 0x100
        + u8_to_u64(s[i + 3])
}

// Four bytes, with 0 for those past the end.
fn four_bytes_near_end(s: &[u8], i: usize) -> u64
    requires { i ≤ length s.now + 4 }
    ensures { (result ≡ four_bytes s.now i) × (result < 2 ^ 32) }
{
    at(s, i) * 0x100_0000 + at(s, i + 1) * 0x1_0000 + at(s, i + 2) * 0x100 + at(s, i + 3)
}

// Eight bytes that are all there.
fn eight_bytes_within(s: &[u8], i: usize) -> u64
    requires { i + 8 ≤ length s.now }
    ensures { result ≡ eight_bytes s.now i }
{
    four_bytes_within(s, i) * 0x1_0000_0000 + four_bytes_within(s, i + 4)
}

// Eight bytes, with 0 for those past the end: the last eight without those before i, or, where s has fewer, one by one.
fn eight_bytes_near_end(s: &[u8], i: usize) -> u64
    requires { (i ≤ length s.now) × (length s.now < i + 8) }
    ensures { result ≡ eight_bytes s.now i }
{
    if 8 <= s.len() {
        let left = (s.len() - i) as u32;
        return eight_bytes_within(s, s.len() - 8) << 8 << (8 * (7 - left));
    }
    four_bytes_near_end(s, i) * 0x1_0000_0000 + four_bytes_near_end(s, i + 4)
}

// The n bits of the 64 bits of w behind its first `used` ones: one shift drops what stands before them, two what stands behind.
fn field(w: u64, used: u32, n: u32) -> u32
    requires { (used < 8) × (n ≤ 32) }
    ensures { result ≡ w / 2 ^ (64 - (used + n)) % 2 ^ n }
{
    (w << used >> 1 >> (63 - n)) as u32
}

// The n bits behind the first `used` ones of the byte, where four bytes are there and hold them. It is inlined in its callers.
pub fn narrow(s: &[u8], byte: usize, used: u32, n: u32) -> u32
    requires { (byte + 4 ≤ length s.now) × (used < 8) × (n ≤ 25) }
    ensures { result ≡ bits_at s.now (8 * byte + used) n }
{
    (four_bytes_within(s, byte) as u32) << used >> 1 >> (31 - n)
}

// The same of up to 32 bits, where eight bytes are there.
pub fn within(s: &[u8], byte: usize, used: u32, n: u32) -> u32
    requires { (byte + 8 ≤ length s.now) × (used < 8) × (n ≤ 32) }
    ensures { result ≡ bits_at s.now (8 * byte + used) n }
{
    field(eight_bytes_within(s, byte), used, n)
}

// The same with 0 for each past the end. It is not inlined while it has several callers.
pub fn peek(s: &[u8], byte: usize, used: u32, n: u32) -> u32
    requires { (byte ≤ length s.now) × (used < 8) × (n ≤ 32) }
    ensures { result ≡ bits_at s.now (8 * byte + used) n }
{
    if 8 <= s.len() - byte {
        within(s, byte, used, n)
    } else {
        field(eight_bytes_near_end(s, byte), used, n)
    }
}
