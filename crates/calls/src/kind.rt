// The kinds of call, in the order of their numbers.
ghost use Rattle.std.specs.Prelude.{◌≡◌};
ghost use Rattle.calls.specs.Kinds.{number_of, Decodes};

use reply::Refusal;

#[derive(Clone, Copy, Debug, PartialEq, Eq)]
pub enum Kind {
    DeclareBlock,
    DeclareVar,
    MakeValue,
    Define,
    DefineAnswer,
    UseVar,
    NewBranch,
    NewDest,
    AddPred,
    DropPred,
    SealBlock,
    SealAllBlocks,
    HasAnyPredecessors,
    IsSealed,
    OwnParam,
    GiveArg,
    MarkVar,
}

impl Kind {
    // As docs/RULES.md numbers them.
    pub fn number(self) -> u32
        ensures { result ≡ number_of self }
    {
        match self {
            Kind::DeclareBlock => 1,
            Kind::DeclareVar => 2,
            Kind::MakeValue => 3,
            Kind::Define => 4,
            Kind::DefineAnswer => 5,
            Kind::UseVar => 6,
            Kind::NewBranch => 7,
            Kind::NewDest => 8,
            Kind::AddPred => 9,
            Kind::DropPred => 10,
            Kind::SealBlock => 11,
            Kind::SealAllBlocks => 12,
            Kind::HasAnyPredecessors => 13,
            Kind::IsSealed => 14,
            Kind::OwnParam => 15,
            Kind::GiveArg => 16,
            Kind::MarkVar => 17,
        }
    }
}

// A number that no kind has is refused.
impl TryFrom<u32> for Kind {
    type Error = Refusal;

    ghost try_from_gives = { Decodes };

    fn try_from(n: u32) -> Result<Self, Refusal> {
        match n {
            1 => Ok(Kind::DeclareBlock),
            2 => Ok(Kind::DeclareVar),
            3 => Ok(Kind::MakeValue),
            4 => Ok(Kind::Define),
            5 => Ok(Kind::DefineAnswer),
            6 => Ok(Kind::UseVar),
            7 => Ok(Kind::NewBranch),
            8 => Ok(Kind::NewDest),
            9 => Ok(Kind::AddPred),
            10 => Ok(Kind::DropPred),
            11 => Ok(Kind::SealBlock),
            12 => Ok(Kind::SealAllBlocks),
            13 => Ok(Kind::HasAnyPredecessors),
            14 => Ok(Kind::IsSealed),
            15 => Ok(Kind::OwnParam),
            16 => Ok(Kind::GiveArg),
            17 => Ok(Kind::MarkVar),
            _ => Err(Refusal::UnknownKind),
        }
    }
}
