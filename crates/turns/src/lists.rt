// The lists that a run is given. They stand apart from its functions, whose promises speak of them.
ghost use Rattle.std.specs.Prelude.{◌≡◌, length};
ghost use Rattle.turns.specs.Lists.{Fitting};

// The calls of a session, a kind and three numbers each: the four lists are equally long, and within the limit.
#[derive(Clone, Copy)]
pub struct Calls<'a> {
    pub kinds: &'a [u32],
    pub xs: &'a [u32],
    pub ys: &'a [u32],
    pub zs: &'a [u32],
    ghost fit: { Fitting kinds.now xs.now ys.now zs.now },
}

// Their answers, a code and a number each. The lists are lent, and a call's answer is written at its place.
#[derive(Drop)]
pub(crate) struct Answers<'a> {
    pub(crate) codes: &'a mut [u32],
    pub(crate) numbers: &'a mut [u32],
    ghost even: { length numbers.now ≡ length codes.now },
}
