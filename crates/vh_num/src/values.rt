ghost use Rattle.std.specs.Prelude.{◌≡◌, ◌≤◌};
ghost use Rattle.vh_num.specs.Values.{index_of, norm_of, quant_of};

/// The greatest normalised value, 2^24, which stands for 1.0.
pub const ONE: u32 = 16_777_216;

/// The step, 0 to `n`, that the normalised value `v` falls on, of a parameter of step count `n`
/// (the SDK's `FDiscrete` with `n + 1` values, in fixed point).
pub fn index(v: u32, n: u32) -> u32
    requires value { v ≤ ONE }
    requires some_steps { 1 ≤ n }
    requires steps { n ≤ 4095 }
    ensures { result ≡ index_of v n }
{
    if v < ONE {
        (u64::from(v) * u64::from(n + 1) / u64::from(ONE)) as u32
    } else {
        n
    }
}

/// The normalised value, 0 to [`ONE`], of step `i` of a parameter of step count `n`.
pub fn norm(i: u32, n: u32) -> u32
    requires some_steps { 1 ≤ n }
    requires steps { n ≤ 4095 }
    requires step { i ≤ n }
    ensures { result ≡ norm_of i n }
{
    (u64::from(i) * u64::from(ONE) / u64::from(n)) as u32
}

/// The normalised value that a parameter of step count `n` takes for `v`: `v` itself where it is
/// continuous (`n` is 0), else the value of the step that `v` falls on.
pub fn quant(v: u32, n: u32) -> u32
    requires value { v ≤ ONE }
    requires steps { n ≤ 4095 }
    ensures { result ≡ quant_of v n }
{
    if n == 0 { v } else { norm(index(v, n), n) }
}
