// What a solution of a condition is, and that Boole's and Löwenheim's are general: definitions and laws.
// `specs/` follows documents 01 and 02: letters and lists of letters, substitutions and instances, conditions and orders, elimination and
// answers, general solutions. `proofs/Theorems.antt` has the laws that the volume stands on; the solving calls, in `solver`, cite these
// definitions. The code here is that of orders in six bytes: question 17, which solving, writing and reading put, and the order 0, 1, 2, ..

#![tactic(auto)]

ghost use Rattle.std.specs.Prelude.{◌≡◌, eqb, length, get_or};
ghost use Rattle.ring.specs.Polynomial.{every_below};
ghost use Rattle.ring.specs.Lists.{times};
ghost use Rattle.solution.specs.Condition.{default_order};
ghost use Rattle.solution.specs.Order.{order_fits, default_bytes};

fn times(x: usize, s: &[u8]) -> usize
    ensures { result ≡ times x s.now }
{
    let mut count = 0usize;
    for &byte in s {
        if x == usize::from(byte) {
            count += 1;
        }
    }
    count
}

fn holds_each(u: usize, s: &[u8]) -> bool
    ensures { result ≡ every_below u (λ x. eqb (times x s.now) 1) }
{
    (0..u).all(|x| times(x, s) == 1)
}

fn all_unused(s: &[u8]) -> bool
    ensures { result ≡ every_below (length s.now) (λ i. eqb (get_or s.now i 0) 255) }
{
    s.iter().all(|&byte| byte == 255)
}

// Question 17.
pub fn order_fits(u: usize, order: [u8; 6]) -> bool
    ensures { result ≡ order_fits u order }
{
    u <= 6 && holds_each(u, &order[..u]) && all_unused(&order[u..])
}

// The order 0, 1, 2, ..
pub fn default_order(u: usize) -> [u8; 6]
    ensures { result ≡ default_bytes u }
{
    std::array::from_fn(|i| if i < u { i as u8 } else { 255 })
}
