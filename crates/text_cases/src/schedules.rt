// The tokens of a schedule.

use schedule_text::{Schedule, ScheduleError, Token, parse_schedule};
use std::alloc::{AllocError, Global};

// The reading alone. What it promises is left out here, so that no proof above carries it along.
fn read(alloc: Global, text: &[u8]) -> anyhow::Result<Result<Schedule, ScheduleError>> {
    if text.len() > 65536 {
        anyhow::bail!("the schedule has more than 65,536 bytes");
    }
    Ok(parse_schedule(alloc, text))
}

/// One token.
fn write_token(token: Token, out: &mut String) -> Result<(), AllocError> {
    match token {
        Token::Turn(thread) => write!(out, " turn {thread}"),
        Token::Turns(thread) => write!(out, " turns {thread}"),
        Token::Reporter => out.push_str(" reporter"),
        Token::Reporters => out.push_str(" reporters"),
    }
}

/// How many tokens there are, and the first 40 of them one by one.
fn write_tokens(tokens: &[Token], out: &mut String) -> Result<(), AllocError> {
    write!(out, " => {} tokens:", tokens.len())?;
    for token in tokens.iter().take(40) {
        write_token(*token, out)?;
    }
    Ok(())
}

/// The tokens of a schedule, the first 40 of them one by one, or why it is not read.
pub fn answer(alloc: Global, text: &[u8], out: &mut String) -> anyhow::Result<()> {
    match read(alloc, text)? {
        Ok(schedule) => write_tokens(schedule.tokens(), out)?,
        Err(error) => write!(out, " => {error}")?,
    }
    Ok(())
}
