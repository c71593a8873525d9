// Spans and the floor: definitions and theorems, hardly any code.
//
// A span says between which steps an operation can start; the floor is a charge that no complete lawful plan undercuts.
#![tactic(auto)]

ghost use Rattle.floors.specs.Figures.{Floored};
ghost use Rattle.floors.specs.Law.{Law};

// The law of spans and floor, proved.
pub fn floor_law()
    ensures { Law }
{}

// The worked figures of the floor, proved from the definitions.
pub fn floor_figures()
    ensures { Floored }
{}
