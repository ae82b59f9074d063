ghost use Rattle.std.specs.Prelude.{◌≡◌, ◌*◌, ◌^◌, length, map, All, pos, neg_ℤ, ◌≤ℤ◌};
ghost use Rattle.vh_num.specs.Samples.{clamp_of, added, IsWithin};

/// The sample nearest to `x`, in units of 2^-23 of full scale.
pub fn clamp(x: i64) -> i32
    ensures { result ≡ clamp_of x }
{
    x.clamp(-2_147_483_648, 2_147_483_647) as i32
}

/// Adds a source to a sum, lane by lane, exactly. A sum of 255 sources has room for one more.
pub fn mix_into(acc: &mut [i64], src: &[i32])
    requires lanes { length acc.old ≡ length src.now }
    requires room { All (IsWithin (255 * 2 ^ 31)) acc.old }
    ensures { acc.new ≡ added acc.old src.now }
{
    for i in 0..acc.len() {
        acc[i] += i64::from(src[i]);
    }
}

/// Gives each lane of an exact sum as the sample nearest to it.
pub fn settle(acc: &[i64], out: &mut [i32])
    requires { length acc.now ≡ length out.old }
    ensures { out.new ≡ map clamp_of acc.now }
{
    for i in 0..out.len() {
        out[i] = clamp(acc[i]);
    }
}
