// What the benchmark measures beside the library, and no caller is meant to call: the engine's product behind its questions, with the count
// of its monomials and without it. It is the code of the library, and asks nothing: the benchmark hands it tables.

#![tactic(auto)]

ghost use Rattle.std.specs.Prelude.{◌≡◌, cond, ◌^◌, ◌≤◌, length};
ghost use Rattle.ring.specs.Polynomial.{product};
ghost use Rattle.ring.specs.Length.{monomial_count};
ghost use Rattle.ring.specs.Table.{IsTable, present, table};

#[unsafe(no_mangle)]
pub extern "C" fn measured_product(
    n: usize,
    a: &[u8],
    b: &[u8],
    out: &mut [u8],
    counts: bool,
) -> usize
    requires { (n ≤ 10) × IsTable n a.now × IsTable n b.now × (length out.old ≡ 2 ^ n) }
    ensures { (out.new ≡ table n (product n (present a.now) (present b.now)))
        × (result ≡ cond counts (monomial_count n (present out.new)) 0) }
{
    polynomials::multiply(n, a, b, out, counts)
}
