// An integer helper. It is inner: it asks of its caller what the callers here know.
ghost use Rattle.std.specs.Prelude.{◌≡◌, ◌^◌, ◌<◌};
ghost use Rattle.codes.specs.Codes.{inv_recenter};

pub fn inv_recenter(r: u32, v: u32) -> u32
    requires { (r < 2 ^ 31) × (v < 2 ^ 31) }
    ensures { result ≡ inv_recenter r v }
{
    if 2 * r < v {
        return v;
    }
    if v % 2 == 0 {
        return v / 2 + r;
    }
    r - (v + 1) / 2
}
