// The cases, one line each, and what they are run on.

use crate::calls;
use crate::checks::{checked, checked_each};
use crate::extractors_read::{bounds_of, json_of, regex_of};
use crate::samplers::Scene;
use crate::shown::{ending, write_extracted, write_variables};
use assertions::Answer;
use case_words::{at, bytes_of, fields_of, text_of};
use element_tree::RegexExtractor;
use itoa::Buffer;
use jm_base::{Reply, Text};
use reply_search::{Searches, field_of};
use std::alloc::{AllocError, Global};
use var_functions::{VarError, Vars};

/// What the lines so far have set.
#[derive(Drop)]
pub struct Cases {
    vars: Vars,
    answer: Answer,
    /// Names of variables that are shown besides those of the extractor.
    look: Vec<String>,
    repeat: u32,
    scene: Option<Scene>,
}

impl Cases {
    /// No variables and an empty reply.
    pub fn new(alloc: Global) -> anyhow::Result<Cases> {
        Ok(Cases {
            vars: Vars::new(alloc),
            answer: Answer {
                elapsed: 0,
                reply: Reply {
                    code: 0,
                    message: Text::new(alloc, b"")?,
                    headers: Text::new(alloc, b"")?,
                    body: Text::new(alloc, b"")?,
                },
            },
            look: Vec::new(alloc),
            repeat: 1,
            scene: None,
        })
    }

    fn set_vars(&mut self, alloc: Global, pairs: &[&str]) -> anyhow::Result<()> {
        self.vars = Vars::new(alloc);
        for pair in pairs {
            let (name, value) = pair.split_once('=').unwrap_or((pair, ""));
            self.vars
                .put(text_of(alloc, name)?, text_of(alloc, value)?)?;
        }
        Ok(())
    }

    fn set_look(&mut self, alloc: Global, names: &[&str]) -> anyhow::Result<()> {
        self.look.clear();
        for name in names {
            self.look.push(String::from_str(alloc, name)?)?;
        }
        Ok(())
    }

    fn set_reply(&mut self, alloc: Global, fields: &[&str]) -> anyhow::Result<()> {
        self.answer.elapsed = at(fields, 5).parse::<u32>()?;
        self.answer.reply.code = at(fields, 1).parse::<u16>()?;
        self.answer.reply.message = text_of(alloc, at(fields, 2))?;
        self.answer.reply.headers = text_of(alloc, at(fields, 3))?;
        self.answer.reply.body = text_of(alloc, at(fields, 4))?;
        Ok(())
    }

    /// A thread of a plan begins with the variables so far.
    fn set_scene(&mut self, alloc: Global, text: &str) -> anyhow::Result<()> {
        let vars = std::mem::replace(&mut self.vars, Vars::new(alloc));
        self.scene = Some(Scene::new(alloc, text, vars)?);
        Ok(())
    }

    /// What the thread of the last plan does, and the variables that are looked at.
    fn thread(&mut self, alloc: Global, fields: &[&str], out: &mut String) -> anyhow::Result<()> {
        let Some(scene) = &mut self.scene else {
            anyhow::bail!("no plan");
        };
        match at(fields, 0) {
            "round" => out.push_str(scene.round(alloc))?,
            "sampler" => scene.sampler(alloc, at(fields, 1).parse::<u16>()?, out)?,
            "asked" => return Ok(scene.asked(alloc, out)?),
            _ => return Ok(scene.told(alloc, out)?),
        }
        write_variables(&scene.user.vars, &self.look, out)?;
        Ok(())
    }

    /// What an extractor has made of the variables.
    fn write_after(
        &self,
        alloc: Global,
        came: Result<(), VarError>,
        name: &str,
        out: &mut String,
    ) -> Result<(), AllocError> {
        out.push_str(ending(came))?;
        write_extracted(alloc, &self.vars, name, out)?;
        write_variables(&self.vars, &self.look, out)
    }

    /// The calls of an extractor. More than one are made by searches that are kept from call to call.
    fn search(&mut self, alloc: Global, x: &RegexExtractor, pick: u64) -> Result<(), VarError> {
        let mut digits = Buffer::new();
        let text = field_of(x.field, &self.answer.reply, &mut digits);
        if self.repeat == 1 {
            return calls::regex(alloc, x, text, pick, &mut self.vars);
        }
        let mut searches = Searches::new(alloc);
        let mut came = Ok(());
        for _ in 0..self.repeat {
            came = calls::regex_with(alloc, x, text, pick, &mut searches, &mut self.vars);
        }
        came
    }

    fn regex(&mut self, alloc: Global, fields: &[&str], out: &mut String) -> anyhow::Result<()> {
        let pick = at(fields, 6).parse::<u64>()?;
        let x = regex_of(alloc, fields)?;
        let came = self.search(alloc, &x, pick);
        self.write_after(alloc, came, at(fields, 1), out)?;
        Ok(())
    }

    /// What an extraction from one of some texts has made of the variables, on a line of its own.
    fn regex_of_text<'p>(
        &mut self,
        alloc: Global,
        x: &'p RegexExtractor,
        pick: u64,
        text: &str,
        searches: &mut Searches<'p>,
        name: &str,
        out: &mut String,
    ) -> anyhow::Result<()> {
        let text = bytes_of(alloc, text)?;
        let came = calls::regex_with(alloc, x, &text, pick, searches, &mut self.vars);
        out.push_str(if out.is_empty() { "" } else { "\n" })?;
        self.write_after(alloc, came, name, out)?;
        Ok(())
    }

    /// What an extraction from each of some texts has made of the variables, by searches that are kept from text to text.
    fn regexes(&mut self, alloc: Global, fields: &[&str], out: &mut String) -> anyhow::Result<()> {
        let pick = at(fields, 6).parse::<u64>()?;
        let x = regex_of(alloc, fields.get(..7).unwrap_or(&[]))?;
        let mut searches = Searches::new(alloc);
        for text in fields.get(7..).unwrap_or(&[]) {
            self.regex_of_text(alloc, &x, pick, text, &mut searches, at(fields, 1), out)?;
        }
        Ok(())
    }

    fn json(&mut self, alloc: Global, fields: &[&str], out: &mut String) -> anyhow::Result<()> {
        let pick = at(fields, 4).parse::<u64>()?;
        let x = json_of(alloc, fields)?;
        let mut came = Ok(());
        for _ in 0..self.repeat {
            let text = self.answer.reply.body.bytes();
            came = calls::json(alloc, &x, text, pick, &mut self.vars)?;
        }
        self.write_after(alloc, came, at(fields, 1), out)?;
        Ok(())
    }

    fn bounds(&mut self, alloc: Global, fields: &[&str], out: &mut String) -> anyhow::Result<()> {
        let pick = at(fields, 6).parse::<u64>()?;
        let x = bounds_of(alloc, fields)?;
        let mut came = Ok(());
        for _ in 0..self.repeat {
            let mut digits = Buffer::new();
            let text = field_of(x.field, &self.answer.reply, &mut digits);
            came = calls::bounds(alloc, &x, text, pick, &mut self.vars);
        }
        self.write_after(alloc, came, at(fields, 1), out)?;
        Ok(())
    }

    /// Writes what is printed for the fields of a line, if anything.
    fn run_fields(
        &mut self,
        alloc: Global,
        fields: &[&str],
        out: &mut String,
    ) -> anyhow::Result<()> {
        match at(fields, 0) {
            "vars" => self.set_vars(alloc, fields.get(1..).unwrap_or(&[])),
            "look" => self.set_look(alloc, fields.get(1..).unwrap_or(&[])),
            "reply" => self.set_reply(alloc, fields),
            "repeat" => {
                self.repeat = at(fields, 1).parse::<u32>()?;
                Ok(())
            }
            "regex" => self.regex(alloc, fields, out),
            "regexes" => self.regexes(alloc, fields, out),
            "json" => self.json(alloc, fields, out),
            "bounds" => self.bounds(alloc, fields, out),
            "check" => checked(alloc, fields, &self.answer, out),
            "checks" => checked_each(alloc, fields, out),
            "plan" => self.set_scene(alloc, at(fields, 1)),
            "round" | "sampler" | "told" | "asked" => self.thread(alloc, fields, out),
            _ => Ok(()),
        }
    }

    /// Writes what is printed for a line, if anything.
    pub fn run(&mut self, alloc: Global, line: &str, out: &mut String) -> anyhow::Result<()> {
        let fields = fields_of(alloc, line)?;
        self.run_fields(alloc, &fields, out)
    }
}
