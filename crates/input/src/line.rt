// A line of numbers, read byte by byte.
ghost use Rattle.std.specs.Prelude.{◌<◌, ◌≤◌, IsTrue};
ghost use Rattle.input.specs.declared.line.TheConstants.{MOST};

// A call is a kind and three numbers.
pub const MOST: usize = 4;

// No number has this value or more.
pub const ABOVE: u64 = 4294967296;

// Why a line can't be read.
#[derive(Clone, Copy, Debug, PartialEq, Eq)]
pub enum Fault {
    // A byte that no line may have.
    Strange(u8),
    // A digit that makes the number too large.
    TooLarge,
    // A digit that begins one number too many.
    TooMany,
    // The line is whole, and has not as many numbers as it should.
    Has(usize),
}

#[derive(Clone, Copy)]
pub struct Line {
    // The line's number, and that of its latest byte, both from 1. Should such a count be used up, it stays.
    place: u64,
    column: u64,
    // Its numbers so far, and how many they are. There is no heap, so a line has room for the most.
    numbers: [u32; MOST],
    count: usize,
    // Does the next digit belong to the latest number?
    in_number: bool,
    ghost in_room: { count ≤ MOST },
    ghost begun: { IsTrue in_number → 0 < count },
}

impl Line {
    fn at(place: u64) -> Line {
        Line {
            place,
            column: 0,
            numbers: [0; MOST],
            count: 0,
            in_number: false,
        }
    }

    // The first line, before its first byte.
    pub fn first() -> Line {
        Line::at(1)
    }

    // The line after this one.
    pub fn after(&self) -> Line {
        Line::at(self.place.saturating_add(1))
    }

    pub fn place(&self) -> u64 {
        self.place
    }

    pub fn column(&self) -> u64 {
        self.column
    }

    pub fn numbers(&self) -> &[u32] {
        &self.numbers[..self.count]
    }

    // A digit that follows a digit.
    fn lengthen(&mut self, digit: u8) -> Result<(), Fault>
        requires { 0 < self.old.count }
    {
        let latest = self.numbers[self.count - 1];
        let ten = latest.checked_mul(10).ok_or(Fault::TooLarge)?;
        self.numbers[self.count - 1] = ten.checked_add(u32::from(digit)).ok_or(Fault::TooLarge)?;
        Ok(())
    }

    // A number's first digit.
    fn begin(&mut self, digit: u8) -> Result<(), Fault> {
        if self.count == MOST {
            return Err(Fault::TooMany);
        }
        self.numbers[self.count] = u32::from(digit);
        self.count += 1;
        self.in_number = true;
        Ok(())
    }

    // Takes one byte more, which is not the line's end.
    pub fn take(&mut self, byte: u8) -> Result<(), Fault> {
        self.column = self.column.saturating_add(1);
        match byte {
            b' ' | b'\t' | b'\r' => {
                self.in_number = false;
                Ok(())
            }
            b'0'..=b'9' if self.in_number => self.lengthen(byte - b'0'),
            b'0'..=b'9' => self.begin(byte - b'0'),
            _ => Err(Fault::Strange(byte)),
        }
    }
}
