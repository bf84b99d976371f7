// A finished session's tables as a picture: Graphviz's DOT, as text in a lent buffer. The tables may hold anything: what can't be drawn is refused.
#![tactic(auto)]

mod text;

ghost use Rattle.std.specs.Prelude.{◌≡◌};
ghost use Rattle.draw.specs.Draws.{undrawn_code, told_code, told_length, Draws};

use drawable::Tables;

// Why nothing is drawn.
#[derive(Debug, Clone, Copy, PartialEq, Eq)]
pub enum Undrawn {
    // A table is shorter than its need.
    Short,
    // The buffer is shorter than the text.
    NoRoom,
    // A count is past its limit, or a number is not below its count.
    NotDrawable,
}

impl Undrawn {
    // As the library tells it.
    pub fn code(self) -> u32
        ensures { result ≡ undrawn_code self }
    {
        match self {
            Undrawn::Short => 1,
            Undrawn::NoRoom => 15,
            Undrawn::NotDrawable => 16,
        }
    }
}

// Writes the picture into the buffer, and answers the text's length. Until it is settled that it is drawn no byte is written: the text is measured by writing
// it where there is no room.
pub fn draw(graph: &[u32], form: &[u32], buffer: &mut [u8]) -> Result<usize, Undrawn>
    ensures { Draws graph.now form.now buffer.old buffer.new (told_code result) (told_length result) }
{
    if graph.len() < entity::GRAPH_NEED {
        return Err(Undrawn::Short);
    }
    if form.len() < entity::FORM_NEED {
        return Err(Undrawn::Short);
    }
    let tables = Tables { graph, form };
    if !tables.drawable() {
        return Err(Undrawn::NotDrawable);
    }
    let mut nowhere = [0u8; 0];
    let length = text::put_text(&mut nowhere, &tables);
    if buffer.len() < length {
        return Err(Undrawn::NoRoom);
    }
    text::put_text(buffer, &tables);
    Ok(length)
}
