// The cases, one line each, and what they are run on.

use crate::expansions::{Beginning, properties, put, value, words};
use crate::{conditions, expansions, paths, schedules, templates};
use bstr::ByteVec;
use std::alloc::Global;
use std::mem;
use var_functions::UserState;

/// What the lines so far have set.
#[derive(Drop)]
pub struct Cases {
    long: Vec<u8>,
    beginning: Beginning,
    state: UserState,
}

/// A word and what stands after the space that ends it.
fn parts(line: &str) -> (&str, &str) {
    line.split_once(' ').unwrap_or((line, ""))
}

impl Cases {
    /// No long text, and a new thread of no variables and no properties.
    pub fn new(alloc: Global) -> anyhow::Result<Cases> {
        let beginning = Beginning::new(alloc)?;
        let state = beginning.state(alloc)?;
        Ok(Cases {
            long: Vec::new(alloc),
            beginning,
            state,
        })
    }

    /// The text of a case. `@` takes the long text.
    fn text(&mut self, alloc: Global, word: &str) -> anyhow::Result<Vec<u8>> {
        if word == "@" {
            return Ok(mem::replace(&mut self.long, Vec::new(alloc)));
        }
        Ok(Vec::unescape_bytes(alloc, word)?)
    }

    /// Adds copies of a text to the long text.
    fn add(&mut self, alloc: Global, rest: &str) -> anyhow::Result<()> {
        let (count, unit) = parts(rest);
        let unit = Vec::unescape_bytes(alloc, unit)?;
        for _ in 0..count.parse::<u32>()? {
            self.long.extend_from_slice(&unit)?;
        }
        Ok(())
    }

    /// A name and a text.
    fn pair(&mut self, alloc: Global, rest: &str) -> anyhow::Result<(Vec<u8>, Vec<u8>)> {
        let (name, value) = parts(rest);
        Ok((Vec::unescape_bytes(alloc, name)?, self.text(alloc, value)?))
    }

    /// One more variable of each new thread.
    fn give(&mut self, alloc: Global, rest: &str) -> anyhow::Result<()> {
        let pair = self.pair(alloc, rest)?;
        self.beginning.given.push(pair)?;
        Ok(())
    }

    /// Begins a thread.
    fn begin(&mut self, alloc: Global) -> anyhow::Result<()> {
        self.state = self.beginning.state(alloc)?;
        Ok(())
    }

    /// Sets a number of each new thread.
    fn number(&mut self, word: &str, rest: &str) -> anyhow::Result<()> {
        let number = rest.parse::<u64>()?;
        match word {
            "thread" => self.beginning.thread = u16::try_from(number)?,
            "stream" => self.beginning.stream = number,
            _ => self.beginning.seed = number,
        }
        Ok(())
    }

    /// Whether a line is a setting, which sets what each new thread begins with, begins one, or adds to the long text. A line
    /// that is empty or begins with `#` is for a reader alone.
    fn sets(&mut self, alloc: Global, word: &str, rest: &str) -> anyhow::Result<bool> {
        let set = match word {
            "add" => self.add(alloc, rest),
            "given" => self.give(alloc, rest),
            "forget" => {
                self.beginning.given.clear();
                Ok(())
            }
            "thread" | "stream" | "seed" => self.number(word, rest),
            "begin" => self.begin(alloc),
            "#" | "" => Ok(()),
            _ => return Ok(false),
        };
        set?;
        Ok(true)
    }

    /// Reads the properties of new threads.
    fn read(&mut self, alloc: Global, text: &[u8], out: &mut String) -> anyhow::Result<()> {
        match properties(alloc, text)? {
            Ok(props) => {
                self.beginning.props = props;
                out.push_str(" => read")?;
            }
            Err(error) => write!(out, " => {error}")?,
        }
        Ok(())
    }

    /// Sets a variable of the thread.
    fn put(&mut self, alloc: Global, rest: &str, out: &mut String) -> anyhow::Result<()> {
        let (name, value) = self.pair(alloc, rest)?;
        match put(alloc, &mut self.state.vars, &name, &value) {
            Ok(()) => out.push_str(" => set")?,
            Err(error) => write!(out, " => {error}")?,
        }
        Ok(())
    }

    /// Expands a text in the thread that many times, so that a script can time it.
    fn times(&mut self, alloc: Global, rest: &str, out: &mut String) -> anyhow::Result<()> {
        let (count, text) = parts(rest);
        let text = self.text(alloc, text)?;
        expansions::often(alloc, &text, &mut self.state, count.parse::<u32>()?, out)
    }

    /// The texts that a path selects.
    fn select(&mut self, alloc: Global, rest: &str, out: &mut String) -> anyhow::Result<()> {
        let (path, body) = parts(rest);
        let path = self.text(alloc, path)?;
        paths::selection(alloc, &path, body, out)
    }

    /// A case that is given one text.
    fn run_on(
        &mut self,
        alloc: Global,
        word: &str,
        text: &[u8],
        out: &mut String,
    ) -> anyhow::Result<()> {
        match word {
            "template" => templates::answer(alloc, text, out),
            "condition" => conditions::answer(alloc, text, out),
            "path" => paths::answer(alloc, text, out),
            "schedule" => schedules::answer(alloc, text, out),
            "properties" => self.read(alloc, text, out),
            "expand" => {
                self.begin(alloc)?;
                expansions::answer(alloc, text, &mut self.state, out)
            }
            "then" => expansions::answer(alloc, text, &mut self.state, out),
            "get" => value(&self.state.vars, text, out),
            "remove" => {
                self.state.vars.remove(text);
                Ok(())
            }
            _ => anyhow::bail!("no case begins with {word}"),
        }
    }

    /// Writes what is printed after a line.
    pub fn run(&mut self, alloc: Global, line: &str, out: &mut String) -> anyhow::Result<()> {
        let (word, rest) = parts(line);
        match word {
            "select" => self.select(alloc, rest, out),
            "times" => self.times(alloc, rest, out),
            "put" => self.put(alloc, rest, out),
            "draw" => words(rest.parse::<u32>()?, &mut self.state.fns, out),
            _ => {
                if self.sets(alloc, word, rest)? {
                    return Ok(());
                }
                let text = self.text(alloc, rest)?;
                self.run_on(alloc, word, &text, out)
            }
        }
    }
}
