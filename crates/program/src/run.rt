// Runs a list over the program's tables, and shows what the session leaves.
ghost use Rattle.std.specs.Prelude.{◌≡◌, suc, ◌*◌, length};
ghost use Rattle.entity.specs.Limits.{limits, param_room, graph_need, form_need, work_need};

use crate::{Input, Program, Show, Stop};
use draw::Undrawn;
use dump::Left;
use input::list::Calls;
use phrases::line::Style;
use std::fmt;
use std::fmt::{Display, Formatter, Write};

const CALLS: usize = entity::CALLS as usize;

// More bytes than a picture has: a line for each block and each destination, with at most seven bytes for an entry. The eighth is room for the names.
const PICTURE_BYTES: usize = entity::BLOCKS as usize
    * (1 + entity::DESTS as usize)
    * (8 * entity::PARAM_ROOM);

// What a session is lent besides its calls. It starts empty whatever they hold, so all lists can have the same. There is no heap, so each table has all its
// cells.
#[derive(Drop)]
pub struct Tables {
    codes: [u32; CALLS],
    numbers: [u32; CALLS],
    graph: [u32; entity::GRAPH_NEED],
    form: [u32; entity::FORM_NEED],
    work: [u32; entity::WORK_NEED],
}

impl Tables {
    // Each has the length that a session of any list needs.
    pub fn new() -> Tables
        ensures codes_long { limits.calls ≡ length result.codes }
        ensures numbers_long { limits.calls ≡ length result.numbers }
        ensures graph_long { graph_need limits ≡ length result.graph }
        ensures form_long { form_need limits ≡ length result.form }
        ensures work_long { work_need limits ≡ length result.work }
    {
        Tables {
            codes: [0; CALLS],
            numbers: [0; CALLS],
            graph: [0; entity::GRAPH_NEED],
            form: [0; entity::FORM_NEED],
            work: [0; entity::WORK_NEED],
        }
    }

    // Runs a session. Was it run?
    fn run(&mut self, calls: &Calls) -> bool {
        session::session(
            calls.kinds(),
            calls.xs(),
            calls.ys(),
            calls.zs(),
            &mut self.codes,
            &mut self.numbers,
            &mut self.graph,
            &mut self.form,
            &mut self.work,
        )
        .is_ok()
    }

    // What the session of these calls left.
    fn left<'a>(&'a self, calls: &'a Calls) -> Left<'a> {
        Left {
            kinds: calls.kinds(),
            xs: calls.xs(),
            ys: calls.ys(),
            zs: calls.zs(),
            codes: &self.codes,
            numbers: &self.numbers,
            graph: &self.graph,
            form: &self.form,
        }
    }
}

impl Show {
    // How the lines of a dump are written. A picture has none.
    fn style(self) -> Option<Style> {
        match self {
            Show::Letters => Some(Style::Letters),
            Show::Words => Some(Style::Words),
            Show::Picture => None,
        }
    }
}

// Why a list has no picture.
#[derive(Clone, Copy, Debug, PartialEq, Eq)]
enum NoPicture {
    // It ends before this line, and has so many calls.
    TooLong { place: u64, count: u32 },
    Refused(Undrawn),
}

impl Display for NoPicture {
    fn fmt<W: Write>(&self, f: &mut Formatter<W>) -> fmt::Result {
        match self {
            NoPicture::TooLong { place, count } => write!(
                f,
                "the list that ends before line {place} has {count} calls, a session takes {}: there is no picture",
                entity::CALLS
            ),
            NoPicture::Refused(why) => write!(f, "a picture is refused with code {}", why.code()),
        }
    }
}

// The room of a picture is made by a function of its own: to count so many bytes where they are lent takes the prover too long.
fn picture_bytes() -> [u8; PICTURE_BYTES]
    ensures { limits.blocks * suc limits.dests * (8 * param_room limits) ≡ length result }
{
    [0; PICTURE_BYTES]
}

impl Program<'_, '_> {
    // Tables that a session left can be drawn, and the buffer is long enough; should it not be, that is told.
    fn picture(&mut self, name: &[u8]) {
        let mut text = picture_bytes();
        let tables = &*self.tables;
        match draw::draw(&tables.graph, &tables.form, &mut text) {
            Ok(length) => {
                let _ = self.out.bytes(&text[..length]);
            }
            Err(why) => self.tell(name, &NoPicture::Refused(why)),
        }
    }

    // Shows what the session of a list left.
    fn show(&mut self, input: &Input<'_>) {
        let Some(style) = self.show.style() else {
            return self.picture(input.name);
        };
        let left = self.tables.left(self.calls);
        let _ = dump::dump(&mut self.out, style, &left);
    }

    fn refuse(&mut self, input: &Input<'_>, count: u32) {
        let Some(style) = self.show.style() else {
            let place = input.reading.place();
            return self.tell(input.name, &NoPicture::TooLong { place, count });
        };
        let _ = dump::refused(&mut self.out, style);
    }

    // A list of so many calls is whole: runs it, and shows what the session leaves. One that has more calls than a session takes is refused whole.
    // A write that fails is told by the output, which is lost then.
    pub fn answer(&mut self, input: &Input<'_>, count: u32) -> Result<(), Stop> {
        if count <= entity::CALLS && self.tables.run(self.calls) {
            self.show(input);
        } else {
            self.refuse(input, count);
        }
        if self.out.is_lost() {
            return Err(Stop::Lost);
        }
        Ok(())
    }
}
