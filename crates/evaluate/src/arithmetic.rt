// The operations on values, each total: one function for each, since each keeps to another definition.
ghost use Rattle.std.specs.Prelude.{◌≡◌, pos, ◌+ℤ◌, ◌-ℤ◌, ◌*ℤ◌, int_lt};
ghost use Rattle.script.specs.Values.{wrapped, quotient, truth, equal};

pub(crate) fn add(a: i32, b: i32) -> i32
    ensures { result ≡ wrapped (a +ℤ b) }
{
    a.wrapping_add(b)
}

pub(crate) fn subtract(a: i32, b: i32) -> i32
    ensures { result ≡ wrapped (a -ℤ b) }
{
    a.wrapping_sub(b)
}

pub(crate) fn multiply(a: i32, b: i32) -> i32
    ensures { result ≡ wrapped (a *ℤ b) }
{
    a.wrapping_mul(b)
}

// The quotient without its fraction; 0 where the divisor is 0. The least number by -1 wraps to itself.
pub(crate) fn divide(a: i32, b: i32) -> i32
    ensures { result ≡ wrapped (quotient a b) }
{
    if b == 0 {
        return 0;
    }
    a.wrapping_div(b)
}

pub(crate) fn less(a: i32, b: i32) -> i32
    ensures { result ≡ truth (int_lt a b) }
{
    i32::from(a < b)
}

pub(crate) fn same(a: i32, b: i32) -> i32
    ensures { result ≡ truth (equal a b) }
{
    i32::from(a == b)
}

// The value of a number's digits.
pub(crate) fn literal(digits: u32) -> i32
    ensures { result ≡ wrapped (pos digits) }
{
    digits.cast_signed()
}
