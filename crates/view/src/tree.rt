//! A text's tree, indented, read off its code.
ghost use Rattle.std.specs.Prelude.{◌≡◌};

use code::{Code, Command, LEVELS, Part, RedirectTag};
use front::faults::Reading;
use front::visible::Visible;
use std::io;

/// Shows what a text was read to: its tree, one step to the right, and its stage.
pub fn show_program(rt: &HostRuntime, text: &[u8], reading: &Reading) -> io::Result<()> {
    let level = Level {
        rt,
        code: reading.code(text),
        indent: 1,
        left: LEVELS,
    };
    level.list(reading.program.root)?;
    let stage = reading.program.stage;
    println!(rt; "stage {stage}")
}

/// Where something is shown: how far to the right, with fewer than `left` lists in one another below.
#[derive(Clone, Copy)]
struct Level<'a> {
    rt: &'a HostRuntime,
    code: Code<'a>,
    indent: usize,
    left: u32,
}

impl Level<'_> {
    fn start(self) -> io::Result<()> {
        // A count, and no index.
        for _ in 0..self.indent {
            print!(self.rt; "  ")?;
        }
        Ok(())
    }

    fn heading(self, name: &str) -> io::Result<()> {
        self.start()?;
        println!(self.rt; "{name}")
    }

    fn named(self, name: &str, bytes: &[u8]) -> io::Result<()> {
        self.start()?;
        let shown = Visible(bytes);
        println!(self.rt; "{name} {shown}")
    }

    /// One step further to the right.
    fn inner(self) -> Self
        ensures { result.left ≡ self.entry.left }
    {
        Level {
            indent: self.indent.saturating_add(1),
            ..self
        }
    }

    #[cycle(showing)]
    fn list(self, first: u32) -> io::Result<()> {
        let Some(left) = self.left.checked_sub(1) else {
            return self.heading("...");
        };
        let level = Level { left, ..self };
        for at in self.code.chain(first) {
            let item = self.code.item(at);
            level.and_or(item.and_or)?;
            if item.background {
                self.heading("& (in the background)")?;
            }
        }
        Ok(())
    }

    /// A chain of && and ||, given by its last; each links to the one before.
    #[cycle(showing)]
    fn and_or(self, last: u32) -> io::Result<()> {
        let chain: Vec<u32> = self.code.chain(last).collect(self.rt.alloc())?;
        for at in chain.iter().rev() {
            let link = self.code.and_or(*at);
            if link.before != 0 {
                self.heading(if link.and { "&&" } else { "||" })?;
            }
            if link.not {
                self.heading("!")?;
            }
            self.pipeline(link.pipeline)?;
        }
        Ok(())
    }

    #[cycle(showing)]
    fn pipeline(self, first: u32) -> io::Result<()> {
        for at in self.code.chain(first) {
            if at != first {
                self.heading("|")?;
            }
            self.command(at)?;
        }
        Ok(())
    }

    // One arm for each form: each takes other data out of its variant, so no table of functions would do.
    #[cycle(showing)]
    fn command(self, at: u32) -> io::Result<()> {
        let Some(command) = self.code.command(at) else {
            return Ok(());
        };
        match command {
            Command::Simple {
                assignments,
                words,
                redirects,
            } => self.simple(assignments, words, redirects),
            Command::Group { list, redirects } => self.enclosed("{ }", list, redirects),
            Command::Subshell { list, redirects } => self.enclosed("( )", list, redirects),
            Command::If {
                condition,
                then,
                otherwise,
                redirects,
            } => self.branches(condition, then, otherwise, redirects),
            Command::While {
                condition,
                body,
                redirects,
            } => {
                self.section("while", condition)?;
                self.section("do", body)?;
                self.closed("done", redirects)
            }
            Command::For {
                name,
                words,
                body,
                redirects,
            } => self.rounds(name, words, body, redirects),
            Command::Case {
                word,
                arms,
                redirects,
            } => self.choice(word, arms, redirects),
            Command::Function { name, body } => {
                self.named("function", name)?;
                self.inner().list(body)
            }
        }
    }

    #[cycle(showing)]
    fn simple(self, assignments: u32, words: u32, redirects: u32) -> io::Result<()> {
        self.heading("simple command")?;
        self.inner().assignments(assignments)?;
        self.inner().words(words)?;
        self.inner().redirects(redirects)
    }

    // One word of a cell is read by its place, where `Code` has no call for it alone; so below.
    /// An if; an address of 0 says that there is no else.
    #[cycle(showing)]
    fn branches(self, condition: u32, then: u32, otherwise: u32, redirects: u32) -> io::Result<()> {
        self.section("if", condition)?;
        self.section("then", then)?;
        if otherwise != 0 {
            self.section("else", self.code.word(otherwise as usize))?;
        }
        self.closed("fi", redirects)
    }

    /// A for.
    #[cycle(showing)]
    fn rounds(self, name: &[u8], words: u32, body: u32, redirects: u32) -> io::Result<()> {
        self.named("for", name)?;
        self.inner().words(words)?;
        self.section("do", body)?;
        self.closed("done", redirects)
    }

    /// A case.
    #[cycle(showing)]
    fn choice(self, word: u32, arms: u32, redirects: u32) -> io::Result<()> {
        self.heading("case")?;
        self.inner().word(word)?;
        self.arms(arms)?;
        self.closed("esac", redirects)
    }

    /// A list below a heading.
    #[cycle(showing)]
    fn section(self, name: &str, list: u32) -> io::Result<()> {
        self.heading(name)?;
        self.inner().list(list)
    }

    /// The end of a command, with its redirections.
    #[cycle(showing)]
    fn closed(self, name: &str, redirects: u32) -> io::Result<()> {
        self.heading(name)?;
        self.inner().redirects(redirects)
    }

    #[cycle(showing)]
    fn enclosed(self, name: &str, list: u32, redirects: u32) -> io::Result<()> {
        self.section(name, list)?;
        self.inner().redirects(redirects)
    }

    #[cycle(showing)]
    fn arms(self, first: u32) -> io::Result<()> {
        for at in self.code.chain(first) {
            let arm = self.code.arm(at);
            self.heading("when")?;
            self.inner().word(arm.pattern)?;
            self.inner().list(arm.list)?;
        }
        Ok(())
    }

    #[cycle(showing)]
    fn assignments(self, first: u32) -> io::Result<()> {
        for at in self.code.chain(first) {
            let assignment = self.code.assignment(at);
            self.named("assign", assignment.name)?;
            self.inner().word(assignment.value)?;
        }
        Ok(())
    }

    #[cycle(showing)]
    fn redirects(self, first: u32) -> io::Result<()> {
        for at in self.code.chain(first) {
            let Some(redirect) = self.code.redirect(at) else {
                return Ok(());
            };
            self.heading(match redirect.tag {
                RedirectTag::Input => "<",
                RedirectTag::Output => ">",
                RedirectTag::Append => ">>",
                RedirectTag::Here => "<<",
            })?;
            self.inner().word(redirect.word)?;
        }
        Ok(())
    }

    #[cycle(showing)]
    fn words(self, first: u32) -> io::Result<()> {
        for at in self.code.chain(first) {
            self.word(self.code.word(at as usize + 1))?;
        }
        Ok(())
    }

    #[cycle(showing)]
    fn word(self, first: u32) -> io::Result<()> {
        self.heading("word")?;
        for at in self.code.chain(first) {
            self.inner().part(at)?;
        }
        Ok(())
    }

    #[cycle(showing)]
    fn part(self, at: u32) -> io::Result<()> {
        match self.code.part(at) {
            Some(Part::Literal { quoted, bytes }) => {
                self.named(if quoted { "quoted literal" } else { "literal" }, bytes)
            }
            Some(Part::Parameter { quoted, name }) => {
                let kind = if quoted {
                    "quoted parameter"
                } else {
                    "parameter"
                };
                self.named(kind, name)
            }
            Some(Part::Substitution { quoted, list }) => {
                self.heading(if quoted { "quoted $( )" } else { "$( )" })?;
                self.inner().list(list)
            }
            None => Ok(()),
        }
    }
}
