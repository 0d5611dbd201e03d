ghost use Rattle.std.specs.Prelude.{◌≡◌, true, IsTrue, AllPairs};
ghost use Rattle.std.specs.List.Sorted.{IsPermutation};
ghost use Rattle.state_numbers.specs.Placed.{placed_before, IsFoundPlace};

/// A pin or an arc in a class of a number.
#[derive(Clone, Copy, Debug, PartialEq, Eq)]
pub struct Placed {
    pub class: u32,
    pub number: u32,
    /// What goes with it: the class behind an arc.
    pub with: u32,
}

fn is_before(x: &Placed, y: &Placed) -> bool
    ensures { result ≡ placed_before x.now y.now }
{
    x.class < y.class || x.class == y.class && x.number < y.number
}

/// Puts them in order of their classes and then their numbers.
pub fn sort_placed(list: &mut Vec<Placed>)
    ensures { IsPermutation list.old.items list.new.items }
{
    list.sort_unstable_by_key(|x| u64::from(x.class) * 4294967296 + u64::from(x.number));
}

/// Whether each comes before all that follow it.
pub fn are_rising(list: &[Placed]) -> bool
    ensures { IsTrue result → AllPairs (λ x y. placed_before x y ≡ true) list.now }
{
    for place in 1..list.len() {
        if !is_before(&list[place - 1], &list[place]) {
            return false;
        }
    }
    true
}

/// The place of a pin or an arc in a class, in logarithmic time.
pub fn find_placed(list: &[Placed], class: u32, number: u32) -> Option<usize>
    requires { AllPairs (λ x y. placed_before x y ≡ true) list.now }
    ensures { IsFoundPlace list.now class number result }
{
    let key = Placed {
        class,
        number,
        with: 0,
    };
    let mut low = 0;
    let mut high = list.len();
    while low < high {
        let middle = low + (high - low) / 2;
        if is_before(&list[middle], &key) {
            low = middle + 1;
        } else if is_before(&key, &list[middle]) {
            high = middle;
        } else {
            return Some(middle);
        }
    }
    None
}
