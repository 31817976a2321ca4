// What calls answer: what they hand out where they are done, and what a guest's access to a bank answers.
ghost use Rattle.std.specs.Prelude.{◌≡◌, ℕ, List, [], ◌∷◌, get_or};
ghost use Rattle.answers.specs.Answers.{state_values, answered};

use attributes::attributes::InterruptState;
use identifiers::error::Refusal;

// What a call hands out, as numbers.
pub trait Values {
    ghost values: { Self → List ℕ };

    // The first number, or 0 where there is none.
    fn first(self) -> u64
        ensures { result ≡ get_or (values self) 0 0 };
}

// A creation, and a change of the host that gives nothing back.
impl Values for () {
    ghost values = { λ x. [] };

    fn first(self) -> u64 {
        0
    }
}

// A read.
impl Values for u64 {
    ghost values = { λ n. n ∷ [] };

    fn first(self) -> u64 {
        self
    }
}

// A write: how many candidates it lists.
impl Values for usize {
    ghost values = { λ n. n ∷ [] };

    fn first(self) -> u64 {
        self as u64
    }
}

// A change of the host: the merged state of a synchronisation.
impl Values for Option<InterruptState> {
    ghost values = { state_values };

    fn first(self) -> u64 {
        match self {
            Some(state) => state.number(),
            None => 0,
        }
    }
}

// What was read, or how many candidates a write lists; or refusal 1, carrying the lowest INTID beyond the table.
pub fn unless_beyond<T: Drop>(beyond: Option<u32>, value: T) -> Result<T, Refusal>
    ensures { result ≡ answered beyond value }
{
    match beyond {
        Some(i) => Err(Refusal::InvalidIntId(i)),
        None => Ok(value),
    }
}
