// Plans drawn with letters.

/// The keys of an element by its letter: P, G, C and S stand for the plan, a group, a controller and a sampler; h, d, v, n for
/// configuration elements; u for a pre-processor; t, r for timers; e, x, j for post-processors; a, z, q for assertions; l for a
/// listener. Those of the capital letters end within their list of children.
fn keys_of(letter: char) -> Option<&'static str> {
    match letter {
        'P' => Some(r#""type":"TestPlan","children":["#),
        'G' => Some(r#""type":"ThreadGroup","children":["#),
        'C' => Some(r#""type":"Simple","children":["#),
        'S' => Some(r#""type":"Http","children":["#),
        'h' => Some(r#""type":"HeaderManager","props":{"headers":[]}}"#),
        'd' => Some(r#""type":"HttpDefaults"}"#),
        'v' => Some(r#""type":"UserVariables","props":{"vars":[]}}"#),
        'n' => Some(r#""type":"Counter","props":{"var":"c"}}"#),
        'u' => Some(r#""type":"UserParameters","props":{"vars":[]}}"#),
        't' => Some(r#""type":"ConstantTimer"}"#),
        'r' => Some(r#""type":"UniformTimer"}"#),
        'e' => Some(r#""type":"BoundaryExtractor","props":{"ref":"b","left":"<","right":">"}}"#),
        'x' => Some(r#""type":"RegexExtractor","props":{"ref":"r","pattern":"a"}}"#),
        'j' => Some(r#""type":"JsonExtractor","props":{"ref":"j","path":"$"}}"#),
        'a' => Some(r#""type":"DurationAssertion","props":{"ms":1}}"#),
        'z' => Some(r#""type":"SizeAssertion","props":{"size":5,"op":"="}}"#),
        'q' => Some(r#""type":"ResponseAssertion","props":{"test":"equals","patterns":["x"]}}"#),
        'l' => Some(r#""type":"Listener"}"#),
        _ => None,
    }
}

/// How the text of an element begins.
fn opening(is_enabled: bool) -> &'static str {
    if is_enabled {
        "{"
    } else {
        r#"{"enabled":false,"#
    }
}

/// Appends the plan of a tree of letters, in which what stands below an element stands in parentheses after it, commas part
/// siblings, and a disabled element has a `-` before it.
pub fn push_plan(out: &mut Vec<u8>, letters: &str) -> anyhow::Result<()> {
    let mut is_enabled = true;
    for letter in letters.chars() {
        match letter {
            '(' => {}
            ')' => out.extend_from_slice(b"]}")?,
            ',' => out.push(b',')?,
            '-' => is_enabled = false,
            _ => {
                let Some(keys) = keys_of(letter) else {
                    anyhow::bail!("no element: {letter}");
                };
                out.extend_from_slice(opening(is_enabled).as_bytes())?;
                out.extend_from_slice(keys.as_bytes())?;
                is_enabled = true;
            }
        }
    }
    Ok(())
}
