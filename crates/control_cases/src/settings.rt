// Settings of cases, by name.

use std::alloc::Global;

/// The settings so far. Of two with one name the later one counts.
#[derive(Drop)]
pub struct Settings {
    pairs: Vec<(String, String)>,
}

impl Settings {
    /// No setting.
    pub fn new(alloc: Global) -> Settings {
        Settings {
            pairs: Vec::new(alloc),
        }
    }

    /// One more setting. `children` and `plan` begin anew.
    pub fn put(&mut self, alloc: Global, name: &str, value: &str) -> anyhow::Result<()> {
        if name == "children" || name == "plan" {
            self.pairs.clear();
        }
        self.pairs
            .push((name.to_string(alloc)?, value.to_string(alloc)?))?;
        Ok(())
    }

    /// The setting of this name, empty where there is none.
    pub fn text(&self, name: &str) -> &str {
        for (own, value) in self.pairs.iter().rev() {
            if own.as_str() == name {
                return value.as_str();
            }
        }
        ""
    }

    /// The setting of this name as a number.
    pub fn number(&self, name: &str, otherwise: u64) -> anyhow::Result<u64> {
        let text = self.text(name);
        if text.is_empty() {
            return Ok(otherwise);
        }
        let number = text.parse::<u64>()?;
        Ok(number)
    }
}

/// The number that stands after `name=` among the words of a line.
pub fn number_in(line: &str, name: &str, otherwise: u32) -> anyhow::Result<u32> {
    for word in line.split(' ') {
        if let Some((own, number)) = word.split_once('=') {
            if own == name {
                let number = number.parse::<u32>()?;
                return Ok(number);
            }
        }
    }
    Ok(otherwise)
}
