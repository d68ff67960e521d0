// Parities: for each place, whether the number of marks up to it is odd.
ghost use Rattle.std.specs.Prelude.{◌≡◌, ◌+◌, ◌%◌, ◌<◌, ℕ};
ghost use Rattle.std.specs.Int.{bit_at};
ghost use Rattle.lexical_tables.specs.Looks.{bits_below};

// `x ^ (x << n)`: bit k is set if exactly one of the bits k and k - n of x is.
#[inline(always)]
fn with_marks_below(marks: u64, by: u32) -> u64
    requires { by < 64 }
    ensures low { (k : ℕ) → k < by → bit_at result k ≡ bit_at marks k }
    ensures high { (k : ℕ) → by + k < 64
        → bit_at result (by + k) ≡ (bit_at marks (by + k) + bit_at marks k) % 2 }
{
    marks ^ (marks << by)
}

// Bit k is the parity of the marks at 0 to k, for k below 16. After the steps by 1, 2, 4 and 8 it is the parity of the
// last 2, 4, 8 and 16 marks up to k.
#[inline(always)]
pub(crate) fn odd_to_16(marks: u64) -> u64
    ensures { (k : ℕ) → k < 16 → bit_at result k ≡ bits_below marks (k + 1) % 2 }
{
    let of_two = with_marks_below(marks, 1);
    let of_four = with_marks_below(of_two, 2);
    let of_eight = with_marks_below(of_four, 4);
    with_marks_below(of_eight, 8)
}

// Bit k is the parity of the marks at 0 to k, for k below 64: by two more steps.
#[inline(always)]
pub(crate) fn odd_to_64(marks: u64) -> u64
    ensures { (k : ℕ) → k < 64 → bit_at result k ≡ bits_below marks (k + 1) % 2 }
{
    let among_two = with_marks_below(marks, 1);
    let among_four = with_marks_below(among_two, 2);
    let among_eight = with_marks_below(among_four, 4);
    let among_sixteen = with_marks_below(among_eight, 8);
    let among_half = with_marks_below(among_sixteen, 16);
    with_marks_below(among_half, 32)
}
