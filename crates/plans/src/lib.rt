// Plans and the law of the board that holds them: definitions and theorems, hardly any code.
//
// `Placing` is what a plan gives an operation; `Life` is how long a value stands in its register.
#![tactic(auto)]

ghost use Rattle.plans.specs.Law.{Law};

// Where and when an operation runs, and the register that keeps its value.
#[derive(Clone, Copy, PartialEq, Eq, Debug)]
pub struct Placing {
    pub unit: u8,
    pub start: u16,
    pub register: u8,
}

// The register of a value, and the first and the last step of its life.
#[derive(Clone, Copy)]
pub struct Life {
    pub register: u8,
    pub from: u32,
    pub through: u32,
}

// The law of every board, proved.
pub fn board_law()
    ensures { Law }
{}
