// How many received frames were accepted and refused. (added)
#![tactic(auto)]

ghost use Rattle.std.specs.Prelude.{◌≡◌, ℕ};
ghost use Rattle.tally.specs.Tally.{zeroed, after, outcome_by};

pub mod receive;

// Each holds at the largest number.
#[derive(Clone, Copy)]
pub struct Tally {
    pub accepted: u32,
    pub refused: u32,
}

impl Tally {
    pub fn zeroed() -> Self
        ensures { result ≡ zeroed }
    {
        Tally {
            accepted: 0,
            refused: 0,
        }
    }

    // The tally after one more answer, whatever number its refusal has.
    pub fn count<E: Drop>(self, answer: Result<usize, E>) -> Self
        ensures { (number : E → ℕ) → result ≡ after self (outcome_by number answer) }
    {
        match answer {
            Ok(_) => Tally {
                accepted: self.accepted.saturating_add(1),
                ..self
            },
            Err(_) => Tally {
                refused: self.refused.saturating_add(1),
                ..self
            },
        }
    }
}
