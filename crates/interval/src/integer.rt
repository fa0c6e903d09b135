// Exact arithmetic of words in 64 bits, where no sum, product, quotient or remainder of two words overflows.
ghost use Rattle.std.specs.Prelude.{◌≡◌, ◌+ℤ◌, ◌-ℤ◌, ◌*ℤ◌, neg_ℤ};
ghost use Rattle.std.specs.Int.Signed.{quot_z, rem_z};

pub fn negative(a: i32) -> i64
    ensures { result ≡ neg_ℤ a }
{
    -i64::from(a)
}

pub fn plus(a: i32, b: i32) -> i64
    ensures { result ≡ a +ℤ b }
{
    i64::from(a) + i64::from(b)
}

pub fn minus(a: i32, b: i32) -> i64
    ensures { result ≡ a -ℤ b }
{
    i64::from(a) - i64::from(b)
}

pub fn times(a: i32, b: i32) -> i64
    ensures { result ≡ a *ℤ b }
{
    i64::from(a) * i64::from(b)
}

// Cut towards zero. By 0 it is 0.
pub fn over(a: i32, b: i32) -> i64
    ensures { result ≡ quot_z a b }
{
    if b == 0 {
        return 0;
    }
    i64::from(a) / i64::from(b)
}

// The remainder, with the sign of a. By 0 it is a.
pub fn rem(a: i32, b: i32) -> i64
    ensures { result ≡ rem_z a b }
{
    if b == 0 {
        return i64::from(a);
    }
    i64::from(a) % i64::from(b)
}
