// The numbers that stand for blocks, variables, values and branches; the types; what a value is, in one cell; the limits, and the rooms that follow from them.
#![tactic(auto)]

ghost use Rattle.std.specs.Prelude.{◌≡◌, ◌<◌, eqb, ltb};
ghost use Rattle.entity.specs.Described.{Fits, Parts, number_of, sort_room, packed, mark_of, with_mark};
ghost use Rattle.entity.specs.Host.{InForce, Needed};
ghost use Rattle.entity.specs.Types.{Shaped, Unset, known_number, lane_of, lanes_of, number_found, plus_one, step_of, type_count, width_of};

// Four kinds of number, each a type of its own, so that one can't be taken for another. Where one may be missing, `Option` stands for the original's
// `PackedOption`; a cell has the number plus one, 0 for none.
#[derive(Clone, Copy, Debug, PartialEq, Eq)]
pub struct Block(pub u32);

#[derive(Clone, Copy, Debug, PartialEq, Eq)]
pub struct Variable(pub u32);

#[derive(Clone, Copy, Debug, PartialEq, Eq)]
pub struct Value(pub u32);

// A branch bears the number of its block.
#[derive(Clone, Copy, Debug, PartialEq, Eq)]
pub struct Branch(pub u32);

impl From<Branch> for Block {
    ghost from_gives = { λ p b. b.0 ≡ p.0 };

    fn from(branch: Branch) -> Block {
        Block(branch.0)
    }
}

impl From<Block> for Branch {
    ghost from_gives = { λ b p. p.0 ≡ b.0 };

    fn from(block: Block) -> Branch {
        Branch(block.0)
    }
}

// A type is its number, as in the lists of calls. A number past the table names none: it has no lane, no width and no bits.
#[derive(Clone, Copy, Debug, PartialEq, Eq)]
pub struct Type(pub u32);

// What there is to know of a type: the type; its lane's type (its own, unless it is a vector); how many lanes it has; its width in bytes; where its zero takes
// two steps, the first one's type; the bits of its unset value, the low 64 and the high 64. Without names, so that a type is a line of the table below.
#[derive(Clone, Copy, Debug, PartialEq, Eq)]
struct Shape(Type, Type, u32, u32, Option<Type>, u64, u64);

// Quiet NaNs side by side: two of 16 bits; then 64 bits of four, of two of 32, of one of 64, and the top of one of 128.
const D16: u64 = 0x7E00_7E00;

const Q16: u64 = 0x7E00_7E00_7E00_7E00;

const Q32: u64 = 0x7FC0_0000_7FC0_0000;

const Q64: u64 = 0x7FF8_0000_0000_0000;

const Q128: u64 = 0x7FFF_8000_0000_0000;

// The types, in the order of their numbers: to add one, write its line here and in specs/Types.antt, its name and the count below.
const SHAPES: [Shape; Type::COUNT as usize] = [
    Shape(Type::I8, Type::I8, 1, 1, None, 0, 0),
    Shape(Type::I16, Type::I16, 1, 2, None, 0, 0),
    Shape(Type::I32, Type::I32, 1, 4, None, 0, 0),
    Shape(Type::I64, Type::I64, 1, 8, None, 0, 0),
    Shape(Type::F32, Type::F32, 1, 4, None, 0x7FC0_0000, 0),
    Shape(Type::F64, Type::F64, 1, 8, None, Q64, 0),
    Shape(Type::I128, Type::I128, 1, 16, Some(Type::I64), 0, 0),
    Shape(Type::F16, Type::F16, 1, 2, None, 0x7E00, 0),
    Shape(Type::F128, Type::F128, 1, 16, None, 0, Q128),
    Shape(Type::I8X2, Type::I8, 2, 2, None, 0, 0),
    Shape(Type::I8X4, Type::I8, 4, 4, None, 0, 0),
    Shape(Type::I8X8, Type::I8, 8, 8, None, 0, 0),
    Shape(Type::I8X16, Type::I8, 16, 16, None, 0, 0),
    Shape(Type::I16X2, Type::I16, 2, 4, None, 0, 0),
    Shape(Type::I16X4, Type::I16, 4, 8, None, 0, 0),
    Shape(Type::I16X8, Type::I16, 8, 16, None, 0, 0),
    Shape(Type::I32X2, Type::I32, 2, 8, None, 0, 0),
    Shape(Type::I32X4, Type::I32, 4, 16, None, 0, 0),
    Shape(Type::I64X2, Type::I64, 2, 16, None, 0, 0),
    Shape(Type::F16X2, Type::F16, 2, 4, Some(Type::F16), D16, 0),
    Shape(Type::F16X4, Type::F16, 4, 8, Some(Type::F16), Q16, 0),
    Shape(Type::F16X8, Type::F16, 8, 16, Some(Type::F16), Q16, Q16),
    Shape(Type::F32X2, Type::F32, 2, 8, Some(Type::F32), Q32, 0),
    Shape(Type::F32X4, Type::F32, 4, 16, Some(Type::F32), Q32, Q32),
    Shape(Type::F64X2, Type::F64, 2, 16, Some(Type::F64), Q64, Q64),
];

// Up to 128 bits.
#[derive(Clone, Copy, Debug, PartialEq, Eq)]
pub struct Bits {
    pub low: u64,
    pub high: u64,
}

impl Type {
    pub const COUNT: u32 = 25;

    pub const I8: Type = Type(0);

    pub const I16: Type = Type(1);

    pub const I32: Type = Type(2);

    pub const I64: Type = Type(3);

    pub const F32: Type = Type(4);

    pub const F64: Type = Type(5);

    pub const I128: Type = Type(6);

    pub const F16: Type = Type(7);

    pub const F128: Type = Type(8);

    pub const I8X2: Type = Type(9);

    pub const I8X4: Type = Type(10);

    pub const I8X8: Type = Type(11);

    pub const I8X16: Type = Type(12);

    pub const I16X2: Type = Type(13);

    pub const I16X4: Type = Type(14);

    pub const I16X8: Type = Type(15);

    pub const I32X2: Type = Type(16);

    pub const I32X4: Type = Type(17);

    pub const I64X2: Type = Type(18);

    pub const F16X2: Type = Type(19);

    pub const F16X4: Type = Type(20);

    pub const F16X8: Type = Type(21);

    pub const F32X2: Type = Type(22);

    pub const F32X4: Type = Type(23);

    pub const F64X2: Type = Type(24);

    // Does this number name a type? The types are numbered from 0, without a gap.
    pub fn known(n: u32) -> bool
        ensures { result ≡ ltb n type_count }
    {
        n < Type::COUNT
    }

    pub fn from_number(n: u32) -> Option<Type>
        ensures { number_found result ≡ known_number n }
    {
        if Type::known(n) { Some(Type(n)) } else { None }
    }

    pub fn number(self) -> u32
        ensures { result ≡ self.0 }
    {
        self.0
    }

    fn shape(self) -> Shape
        ensures { Shaped self.0 result }
    {
        match SHAPES.get(self.0 as usize) {
            Some(shape) => *shape,
            None => Shape(self, Type(0), 0, 0, None, 0, 0),
        }
    }

    // The type of each lane; a type that is no vector is its own.
    pub fn lane(self) -> Type
        ensures { result.0 ≡ lane_of self.0 }
    {
        self.shape().1
    }

    pub fn lanes(self) -> u32
        ensures { result ≡ lanes_of self.0 }
    {
        self.shape().2
    }

    // In bytes.
    pub fn width(self) -> u32
        ensures { result ≡ width_of self.0 }
    {
        self.shape().3
    }

    // A zero of this type is one constant, or is made in two steps: then this is the type of the first.
    pub fn step(self) -> Option<Type>
        ensures { number_found result ≡ step_of self.0 }
    {
        self.shape().4
    }

    // The number of that type plus one, else 0.
    pub fn step_plus_one(self) -> u32
        ensures { result ≡ plus_one (step_of self.0) }
    {
        match self.step() {
            Some(first) => first.0 + 1,
            None => 0,
        }
    }

    // The bits of the type's unset value: a zero of this type holds them. In each lane of a float they are a quiet NaN.
    pub fn unset_bits(self) -> Bits
        ensures { Unset self.0 result.low result.high }
    {
        let s = self.shape();
        Bits {
            low: s.5,
            high: s.6,
        }
    }
}

// Where a value comes from: made by the caller, a parameter that the builder gave a block, a zero where nothing was defined, a parameter of the caller's.
#[derive(Clone, Copy, Debug, PartialEq, Eq)]
pub enum Sort {
    Made,
    Param,
    Zero,
    Caller,
}

// The number that a cell and a dump have for it.
impl From<Sort> for u32 {
    ghost from_gives = { λ s n. n ≡ number_of s };

    fn from(sort: Sort) -> u32 {
        match sort {
            Sort::Made => 0,
            Sort::Param => 1,
            Sort::Zero => 2,
            Sort::Caller => 3,
        }
    }
}

impl Sort {
    // The sort with this number.
    fn numbered(n: u32) -> Sort
        requires { n < sort_room }
        ensures { number_of result ≡ n }
    {
        match n {
            0 => Sort::Made,
            1 => Sort::Param,
            2 => Sort::Zero,
            _ => Sort::Caller,
        }
    }
}

// What a value is: its cell holds the type in the lowest five bits, since the type is read most, then the sort in two and a bit that is the mark: stack maps
// must have the value. The block stands on top, so that no limit on blocks moves the others.
#[derive(Clone, Copy, Debug, PartialEq, Eq)]
pub struct Described {
    pub ty: u32,
    pub sort: Sort,
    pub block: Block,
}

impl Described {
    // How many types, sorts and marks a cell can tell apart.
    pub const TYPES: u32 = 32;

    pub const SORTS: u32 = 4;

    pub const MARKS: u32 = 2;

    // The cell, with no mark.
    pub fn cell(self) -> u32
        requires { Fits self.ty (number_of self.sort) self.block.0 }
        ensures { result ≡ packed self.ty (number_of self.sort) 0 self.block.0 }
    {
        let sort = u32::from(self.sort);
        (self.block.0 * Described::MARKS * Described::SORTS + sort) * Described::TYPES + self.ty
    }

    // What any cell says, whether it is marked or not.
    pub fn from_cell(cell: u32) -> Described
        ensures { Parts cell result }
    {
        Described {
            ty: cell % Described::TYPES,
            sort: Sort::numbered(cell / Described::TYPES % Described::SORTS),
            block: Block(cell / Described::TYPES / Described::SORTS / Described::MARKS),
        }
    }

    // The same with its mark set; it may be set already.
    pub fn marked(cell: u32) -> u32
        ensures { result ≡ with_mark cell }
    {
        let unit = Described::TYPES * Described::SORTS;
        let above = cell / unit / Described::MARKS;
        (above * Described::MARKS + 1) * unit + cell % unit
    }

    // Is it set?
    pub fn is_marked(cell: u32) -> bool
        ensures { result ≡ eqb (mark_of cell) 1 }
    {
        cell / Described::TYPES / Described::SORTS % Described::MARKS == 1
    }
}

// The limits: to raise one, edit its number here and in specs/Limits.antt.
pub const BLOCKS: u32 = 64;

pub const VARIABLES: u32 = 64;

pub const DESTS: u32 = 8;

pub const MADE: u32 = 4096;

pub const OWN_PARAMS: u32 = 64;

pub const CALLS: u32 = 16384;

// The rooms that follow, as specs/Limits.antt works them out and says why.
pub const ZERO_ROOM: usize = BLOCKS as usize * VARIABLES as usize;

pub const VALUE_ROOM: usize = MADE as usize + 3 * ZERO_ROOM;

pub const WAIT_ROOM: usize = VARIABLES as usize;

pub const PARAM_ROOM: usize = VARIABLES as usize + OWN_PARAMS as usize;

pub const PRED_ROOM: usize = BLOCKS as usize;

pub const CALL_ROOM: usize = BLOCKS as usize * (1 + DESTS as usize);

pub const RESULT_ROOM: usize = 1 + BLOCKS as usize * DESTS as usize;

// A row that holds a list: its count, then its entries.
pub const TYPE_ROW: usize = 1 + VARIABLES as usize;

pub const DEST_ROW: usize = 1 + DESTS as usize;

pub const ZERO_ROW: usize = 1 + ZERO_ROOM;

pub const WAIT_ROW: usize = 1 + WAIT_ROOM;

pub const PARAM_ROW: usize = 1 + PARAM_ROOM;

pub const PRED_ROW: usize = 1 + PRED_ROOM;

// The cells that each of the three lent tables needs.
pub const GRAPH_NEED: usize = 1
    + TYPE_ROW
    + BLOCKS as usize
    + BLOCKS as usize
    + BLOCKS as usize
    + VARIABLES as usize
    + BLOCKS as usize * DEST_ROW
    + BLOCKS as usize * PRED_ROW;

pub const FORM_NEED: usize = 2
    + 2 * VALUE_ROOM
    + PRED_ROW
    + 2 * ZERO_ROW
    + BLOCKS as usize * PARAM_ROW
    + BLOCKS as usize
    + BLOCKS as usize * WAIT_ROW
    + VARIABLES as usize * BLOCKS as usize
    + BLOCKS as usize * (DESTS as usize * PARAM_ROW);

pub const WORK_NEED: usize = 2 * CALL_ROOM + RESULT_ROOM;

#[derive(Clone, Copy, Debug, PartialEq, Eq)]
pub struct Limits {
    pub blocks: u32,
    pub variables: u32,
    pub dests: u32,
    pub made: u32,
    pub owns: u32,
    pub calls: u32,
}

impl Limits {
    // Tells a host what a session takes.
    pub fn in_force() -> Limits
        ensures { InForce result }
    {
        Limits {
            blocks: BLOCKS,
            variables: VARIABLES,
            dests: DESTS,
            made: MADE,
            owns: OWN_PARAMS,
            calls: CALLS,
        }
    }
}

#[derive(Clone, Copy, Debug, PartialEq, Eq)]
pub struct Rooms {
    pub values: usize,
    pub zeros: usize,
    pub params: usize,
    pub waits: usize,
    pub preds: usize,
    pub calls: usize,
    pub results: usize,
    pub graph: usize,
    pub form: usize,
    pub work: usize,
}

impl Rooms {
    // Tells a host how long its tables must be.
    pub fn needed() -> Rooms
        ensures { Needed result }
    {
        Rooms {
            values: VALUE_ROOM,
            zeros: ZERO_ROOM,
            params: PARAM_ROOM,
            waits: WAIT_ROOM,
            preds: PRED_ROOM,
            calls: CALL_ROOM,
            results: RESULT_ROOM,
            graph: GRAPH_NEED,
            form: FORM_NEED,
            work: WORK_NEED,
        }
    }
}
