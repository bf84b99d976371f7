// What the programs share: the lists of calls in the named files, or those on standard input, are run in turn, and what each session leaves is shown.
#![tactic(auto)]

ghost use Rattle.std.specs.Prelude.{◌≡◌};
ghost use Rattle.program.specs.Shows.{shown_by};

use input::list::{Calls, Reading, Trouble};
use input::tell;
use options::{Options, ROOM};
use phrases::out::Out;
use phrases::reason::Words;
use run::Tables;
use std::env::Env;
use std::fmt::Display;
use std::fs::File;
use std::io;
use std::io::{Error, Read};

mod options;
mod run;

// How a session is shown: line by line in letters, for programs, or in words, for people; or as a picture.
#[derive(Clone, Copy, Debug, PartialEq, Eq)]
pub enum Show {
    Letters,
    Words,
    Picture,
}

// A caller may name the way by a number too, and a number that names none means letters.
impl From<u32> for Show {
    ghost from_gives = { λ n s. s ≡ shown_by n };

    fn from(n: u32) -> Show {
        match n {
            1 => Show::Words,
            2 => Show::Picture,
            _ => Show::Letters,
        }
    }
}

// How many bytes of output wait before they are written.
const OUTPUT: usize = 65536;

// The system's number for a name that is not of the characters that it takes.
const NO_TEXT: i32 = 84;

// What ends the reading of an input early.
#[derive(Drop)]
enum Stop {
    Trouble(Trouble),
    Unread(Error),
    // Nothing can be written any more. That was told.
    Lost,
}

impl From<Trouble> for Stop {
    fn from(trouble: Trouble) -> Stop {
        Stop::Trouble(trouble)
    }
}

impl From<Error> for Stop {
    fn from(e: Error) -> Stop {
        Stop::Unread(e)
    }
}

// An input: its name, for messages, and how far it is read.
#[derive(Drop)]
struct Input<'n> {
    name: &'n [u8],
    reading: Reading,
}

// A program at work.
#[derive(Drop)]
struct Program<'w, 'o> {
    rt: HostRuntime,
    // Its name, for messages.
    who: &'w [u8],
    show: Show,
    out: Out<'o, HostRuntime>,
    // The calls of the list under way, or of the one that was whole last.
    calls: &'o mut Calls,
    // What the sessions are lent, one after the other.
    tables: &'o mut Tables,
}

impl Program<'_, '_> {
    // Tells what is wrong with what is named.
    fn tell(&self, name: &[u8], what: &impl Display) {
        tell::tell(&self.rt.stderr(), self.who, name, what);
    }

    // Takes what came of an input, and shows what each list leaves that is whole.
    fn take(&mut self, input: &mut Input<'_>, bytes: &[u8]) -> Result<(), Stop> {
        for byte in bytes {
            if let Some(count) = input.reading.take(self.calls, *byte)? {
                self.answer(input, count)?;
            }
        }
        Ok(())
    }

    // The input is at its end.
    fn end(&mut self, input: &mut Input<'_>) -> Result<(), Stop> {
        match input.reading.end(self.calls)? {
            Some(count) => self.answer(input, count),
            None => Ok(()),
        }
    }

    // A proved loop has to end, and nothing says that the input does. So the reads are counted, up to a number that no run uses up.
    fn lists<S: Read>(&mut self, name: &[u8], source: &mut S) -> Result<(), Stop> {
        let reading = Reading::new();
        let mut input = Input { name, reading };
        let mut space = [0u8; ROOM];
        for _ in 0..u64::MAX {
            let n = source.read(&mut space)?;
            if n == 0 {
                return self.end(&mut input);
            }
            self.take(&mut input, &space[..n])?;
        }
        Ok(())
    }

    // Runs the lists of one input, and tells what can't be read of it.
    fn run<S: Read>(&mut self, name: &[u8], source: &mut S) {
        match self.lists(name, source) {
            Ok(()) | Err(Stop::Lost) => {}
            Err(Stop::Trouble(trouble)) => self.tell(name, &trouble),
            Err(Stop::Unread(e)) => self.tell(name, &Words(&e)),
        }
    }

    // In words the name of a file stands above its lists. That a name can't be written, the output tells.
    fn title(&mut self, name: &[u8]) {
        if self.show == Show::Words {
            let _ = self.out.bytes(name);
            let _ = self.out.bytes(b"\n");
        }
    }

    // The named file. A name that is no text names none.
    fn opened(&self, name: &[u8]) -> io::Result<File> {
        match str::from_utf8(name) {
            Ok(path) => File::open(&self.rt, path),
            Err(_) => Err(Error::from_raw_os_error(NO_TEXT)),
        }
    }

    fn file(&mut self, name: &[u8]) {
        match self.opened(name) {
            Ok(mut source) => {
                self.title(name);
                self.run(name, &mut source);
            }
            Err(e) => self.tell(name, &Words(&e)),
        }
    }

    // Argument i, if it names a file.
    fn argument(&mut self, i: usize) {
        let mut space = [0u8; ROOM];
        let n = self.rt.arg(i, &mut space).unwrap_or(0);
        if !options::is_option(&space[..n]) {
            self.file(&space[..n]);
        }
    }

    // Does what the options ask.
    fn work(&mut self, help: &[u8], asked: Options) {
        self.show = asked.show;
        if asked.help {
            let _ = self.out.bytes(help);
            return;
        }
        if !asked.files {
            let mut source = self.rt.stdin();
            return self.run(b"standard input", &mut source);
        }
        for i in 1..options::count(&self.rt) {
            self.argument(i);
        }
    }
}

// The whole of a program: its name for messages, what --help prints, and how it shows a session.
pub fn start(rt: HostRuntime, who: &[u8], help: &[u8], show: impl Into<Show>) {
    let mut room = [0u8; OUTPUT];
    let out = Out::new(&rt, &mut room);
    let mut calls = Calls::new();
    let mut tables = Tables::new();
    let mut program = Program {
        rt,
        who,
        show: show.into(),
        out,
        calls: &mut calls,
        tables: &mut tables,
    };
    if let Some(asked) = program.asked() {
        program.work(help, asked);
    }
    program.out.flush();
}
