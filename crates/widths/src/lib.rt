// Kinds of units, their widths and cells.
//
// `UnitKind` names the kinds there are, and knows their widths and cells by sides. `Kind` is what a kind answers as a type,
// with its own type of widths and its own number of cells; `Adder`, `Multiplier` and `Register` are the kinds, and as those
// that have a name they are `NamedKind`s. `covers` and `lies_under` are one text for all kinds.
#![tactic(auto)]

ghost use Rattle.std.specs.Prelude.{◌≡◌, ℕ, if◌then◌else◌, Some, None, refl};
ghost use Rattle.std.specs.Option.{option_map};
ghost use Rattle.widths.specs.declared.Sides.{Sides};
ghost use Rattle.widths.specs.Kinds.{code_of, name_of, unknown_text, Decodes, sides_of, covers, lies_under, widest, first_side, has_sides, valid, is_cell, cell_count};

use std::error::Error;
use std::fmt;

// A width or a cell by its sides; q is 0 where the kind has one side.
#[derive(Clone, Copy, PartialEq, Eq, Debug)]
pub struct Sides {
    pub p: u8,
    pub q: u8,
}

impl Sides {
    // Whether none of its sides is smaller than the other's.
    #[tactic(auto, unfolding(crate::specs::Kinds::covers))]
    pub fn covers(self, other: Sides) -> bool
        ensures { result ≡ covers self other }
    {
        other.p <= self.p && other.q <= self.q
    }
}

// The kinds of units by name.
#[derive(Clone, Copy, PartialEq, Eq, Debug)]
pub enum UnitKind {
    Adder,
    Multiplier,
    Register,
}

// A number of no kind.
#[derive(Clone, Copy, PartialEq, Eq, Debug)]
pub struct UnknownKind(pub u8);

impl UnitKind {
    // The largest first side of a width or a cell.
    fn widest(self) -> u8
        ensures { result ≡ widest (code_of self) }
    {
        match self {
            UnitKind::Adder => 40,
            UnitKind::Multiplier => 40,
            UnitKind::Register => 64,
        }
    }

    // Whether some width of the kind has this first side.
    pub fn has_first_side(self, p: u8) -> bool
        ensures { result ≡ first_side (code_of self) p }
    {
        (1..=self.widest()).contains(&p)
    }

    // Whether the kind has a width with these sides.
    pub fn has_width(self, s: Sides) -> bool
        ensures { result ≡ valid (code_of self) s }
    {
        self.has_cell(s) && (self != UnitKind::Multiplier || s.q <= s.p)
    }

    // Whether the kind has a cell with these sides.
    pub fn has_cell(self, s: Sides) -> bool
        ensures { result ≡ is_cell (code_of self) s }
    {
        self.has_first_side(s.p)
            && match self {
                UnitKind::Multiplier => (1..=24).contains(&s.q),
                UnitKind::Adder | UnitKind::Register => s.q == 0,
            }
    }
}

impl From<UnitKind> for u8 {
    ghost from_gives = { λ kind number. number ≡ code_of kind };

    fn from(kind: UnitKind) -> u8 {
        match kind {
            UnitKind::Adder => 0,
            UnitKind::Multiplier => 1,
            UnitKind::Register => 2,
        }
    }
}

impl TryFrom<u8> for UnitKind {
    type Error = UnknownKind;

    ghost try_from_gives = { Decodes };

    fn try_from(number: u8) -> Result<UnitKind, UnknownKind> {
        match number {
            0 => Ok(UnitKind::Adder),
            1 => Ok(UnitKind::Multiplier),
            2 => Ok(UnitKind::Register),
            _ => Err(UnknownKind(number)),
        }
    }
}

impl fmt::Display for UnitKind {
    ghost output = { λ kind. Some (name_of kind) };

    fn fmt<W: fmt::Write>(&self, f: &mut fmt::Formatter<W>) -> fmt::Result {
        f.write_str(match self {
            UnitKind::Adder => "adder",
            UnitKind::Multiplier => "multiplier",
            UnitKind::Register => "register",
        })
    }
}

impl fmt::Display for UnknownKind {
    ghost output = { λ unknown. Some (unknown_text unknown) };

    fn fmt<W: fmt::Write>(&self, f: &mut fmt::Formatter<W>) -> fmt::Result {
        write!(f, "no kind of unit has number {}", self.0)
    }
}

impl Error for UnknownKind {}

// A kind of unit. A cell has the type of a width: a place in the grid that a width spans. A kind by a number that has no name
// has no widths and no cells.
pub trait Kind {
    type Width: Copy;

    const CELLS: usize;

    // the kind's number, and a width or a cell by its sides
    ghost code: { ℕ };

    ghost shape: { Self.Width → Sides };

    fn number() -> u8
        ensures { result ≡ code };

    fn sides(w: Self::Width) -> Sides
        ensures { result ≡ shape w };

    // Whether some width of the kind has this first side.
    fn has_first_side(p: u8) -> bool
        ensures { result ≡ first_side code p }
    {
        UnitKind::try_from(Self::number()).is_ok_and(|kind| kind.has_first_side(p))
    }

    fn is_width(w: Self::Width) -> bool
        ensures { result ≡ valid code (shape w) }
    {
        UnitKind::try_from(Self::number()).is_ok_and(|kind| kind.has_width(Self::sides(w)))
    }

    fn is_cell(c: Self::Width) -> bool
        ensures { result ≡ is_cell code (shape c) }
    {
        UnitKind::try_from(Self::number()).is_ok_and(|kind| kind.has_cell(Self::sides(c)))
    }

    // The width with these sides, if the kind has it.
    fn width(s: Sides) -> Option<Self::Width>
        ensures { option_map shape result ≡ (if valid code s then Some s else None) };

    // The cell with these sides, if the kind has it.
    fn cell(s: Sides) -> Option<Self::Width>
        ensures { option_map shape result ≡ (if is_cell code s then Some s else None) };

    // A contract cannot name the constant of a type parameter, so this ties it to the kind.
    fn cell_count() -> usize
        ensures { result ≡ cell_count code };
}

// A kind that `UnitKind` names.
pub trait NamedKind: Kind {
    fn kind() -> UnitKind
        ensures { code_of result ≡ Self.Kind.code };

    // The width or the cell with these sides, whether or not it is one of the kind's; none where they are more than the kind has.
    fn from_sides(s: Sides) -> Option<Self::Width>
        ensures { option_map Self.Kind.shape result ≡ (if has_sides Self.Kind.code s then Some s else None) };
}

// Whether none of the sides of `w` is smaller than that of `v`.
pub fn covers<K: Kind>(w: K::Width, v: K::Width) -> bool
    ensures { result ≡ covers (K.Kind.shape w) (K.Kind.shape v) }
{
    K::sides(w).covers(K::sides(v))
}

// Whether none of the sides of `cell` is larger than that of `w`.
pub fn lies_under<K: Kind>(cell: K::Width, w: K::Width) -> bool
    ensures { result ≡ lies_under (K.Kind.shape cell) (K.Kind.shape w) }
{
    covers::<K>(w, cell)
}

// A width of one side by its sides.
impl From<u8> for Sides {
    ghost from_gives = { λ w s. s ≡ sides_of w 0 };

    fn from(w: u8) -> Sides {
        Sides { p: w, q: 0 }
    }
}

impl From<(u8, u8)> for Sides {
    ghost from_gives = { λ w s. s ≡ sides_of w.0 w.1 };

    fn from(w: (u8, u8)) -> Sides {
        Sides { p: w.0, q: w.1 }
    }
}

// Adder and register differ in constants alone. As const parameters of one type these would have to keep the definitions for
// every number, and there are only these two.
pub struct Adder;

impl Kind for Adder {
    type Width = u8;

    const CELLS: usize = 40;

    ghost code = { 0 };

    ghost shape = { λ w. sides_of w 0 };

    fn number() -> u8 {
        Self::kind().into()
    }

    fn sides(w: u8) -> Sides {
        w.into()
    }

    fn width(s: Sides) -> Option<u8> {
        Self::from_sides(s).filter(|_| Self::kind().has_width(s))
    }

    fn cell(s: Sides) -> Option<u8> {
        Self::from_sides(s).filter(|_| Self::kind().has_cell(s))
    }

    fn cell_count() -> usize {
        Self::CELLS
    }
}

impl NamedKind for Adder {
    fn kind() -> UnitKind {
        UnitKind::Adder
    }

    fn from_sides(s: Sides) -> Option<u8> {
        (s.q == 0).then_some(s.p)
    }
}

pub struct Multiplier;

impl Kind for Multiplier {
    type Width = (u8, u8);

    const CELLS: usize = 960;

    ghost code = { 1 };

    ghost shape = { λ w. sides_of w.0 w.1 };

    fn number() -> u8 {
        Self::kind().into()
    }

    fn sides(w: (u8, u8)) -> Sides {
        w.into()
    }

    fn width(s: Sides) -> Option<(u8, u8)> {
        Self::from_sides(s).filter(|_| Self::kind().has_width(s))
    }

    fn cell(s: Sides) -> Option<(u8, u8)> {
        Self::from_sides(s).filter(|_| Self::kind().has_cell(s))
    }

    fn cell_count() -> usize {
        Self::CELLS
    }
}

impl NamedKind for Multiplier {
    fn kind() -> UnitKind {
        UnitKind::Multiplier
    }

    fn from_sides(s: Sides) -> Option<(u8, u8)> {
        Some((s.p, s.q))
    }
}

pub struct Register;

impl Kind for Register {
    type Width = u8;

    const CELLS: usize = 64;

    ghost code = { 2 };

    ghost shape = { λ w. sides_of w 0 };

    fn number() -> u8 {
        Self::kind().into()
    }

    fn sides(w: u8) -> Sides {
        w.into()
    }

    fn width(s: Sides) -> Option<u8> {
        Self::from_sides(s).filter(|_| Self::kind().has_width(s))
    }

    fn cell(s: Sides) -> Option<u8> {
        Self::from_sides(s).filter(|_| Self::kind().has_cell(s))
    }

    fn cell_count() -> usize {
        Self::CELLS
    }
}

impl NamedKind for Register {
    fn kind() -> UnitKind {
        UnitKind::Register
    }

    fn from_sides(s: Sides) -> Option<u8> {
        (s.q == 0).then_some(s.p)
    }
}
