ghost use Rattle.std.specs.Prelude.{◌≡◌, ◌<◌, ◌^◌, nat_lt, length};
ghost use Rattle.net_drivers.specs.Covers.{AreOrdered, IsFirstOf, covered, passing, with_end};

/// The ends, one past the last bit, of the two furthest among what drives bits from one bit on; 0 for none.
#[derive(Clone, Copy, Debug, PartialEq, Eq)]
pub struct Ends {
    pub last: u32,
    pub second: u32,
}

/// Keeps the two furthest.
fn with_end(ends: Ends, end: u32) -> Ends
    ensures { result ≡ with_end ends end }
{
    if ends.last < end {
        Ends {
            last: end,
            second: ends.last,
        }
    } else if ends.second < end {
        Ends {
            last: ends.last,
            second: end,
        }
    } else {
        ends
    }
}

/// Counts that something drives the bits from `low` to in front of `end`.
pub fn cover(rows: &mut [Ends], low: u32, end: u32)
    requires { low < length rows.old }
    ensures { rows.new ≡ covered low end rows.old }
{
    let place = &mut rows[low as usize];
    *place = with_end(*place, end);
}

/// The first bit that more than one thing drives.
pub fn first_twice(rows: &[Ends]) -> Option<u32>
    requires ordered { AreOrdered rows.now }
    requires small { length rows.now < 2 ^ 32 }
    ensures { IsFirstOf (λ b. nat_lt 1 (passing rows.now b)) (length rows.now) result }
{
    let mut furthest = Ends { last: 0, second: 0 };
    for (bit, ends) in rows.iter().enumerate() {
        furthest = with_end(with_end(furthest, ends.last), ends.second);
        if bit < furthest.second as usize {
            return Some(bit as u32);
        }
    }
    None
}
