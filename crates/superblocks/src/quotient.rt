// A quotient, worked out by comparing, shifting and subtracting alone.
ghost use Rattle.std.specs.Prelude.{◌≡◌, ◌-◌, ◌*◌, ◌/◌, ◌^◌, ◌<◌, ◌≤◌, max};

// k, or k - j where that many bits hold n / d.
fn narrow(n: u32, d: u32, k: u32, j: u32) -> u32
    requires { (1 ≤ d) × (1 ≤ j) × (j * 2 ≤ k) × (k ≤ 32) × (n / d < 2 ^ k) × (2 ^ (k - j * 2) ≤ max 1 (n / d)) }
    ensures { (j ≤ result) × (result ≤ 32) × (n / d < 2 ^ result) × (2 ^ (result - j) ≤ max 1 (n / d)) }
{
    if n >> (k - j) < d { k - j } else { k }
}

// How many bits n / d has; 0 has one. Five halvings of the 32 that it may have, and no loop.
fn quotient_bits(n: u32, d: u32) -> u32
    requires { 1 ≤ d }
    ensures { (1 ≤ result) × (result ≤ 32) × (n / d < 2 ^ result) × (2 ^ (result - 1) ≤ max 1 (n / d)) }
{
    let within_16 = narrow(n, d, 32, 16);
    let within_8 = narrow(n, d, within_16, 8);
    let within_4 = narrow(n, d, within_8, 4);
    let within_2 = narrow(n, d, within_4, 2);
    narrow(n, d, within_2, 1)
}

// n / d. A turn for each of its bits, the highest first, all of them set at the start: d * 2 ^ k is taken off what is left of n, or, where that is too
// little, 2 ^ k off the quotient.
pub fn quotient(n: u32, d: u32) -> u32
    requires { 1 ≤ d }
    ensures { result ≡ n / d }
{
    let bits = quotient_bits(n, d);
    let mut q = 0xFFFF_FFFF >> (32 - bits);
    let mut left = n;
    for k in (0..bits).rev() {
        let part = d << k;
        if part <= left {
            left -= part;
        } else {
            q -= 1 << k;
        }
    }
    q
}
