// Recorded calls: a line each, a word and then numbers.
use anyhow::anyhow;
use layout::Call;
use sheet::{Lexeme, Place};
use std::alloc::Global;

// The numbers of a line, with one space between.
fn numbers(heap: Global, words: &str) -> anyhow::Result<Vec<u64>> {
    words
        .split(' ')
        .map(|word| -> anyhow::Result<u64> { Ok(word.parse()?) })
        .try_collect(heap)
}

// A flag is 1 or 0.
fn flag(number: u64) -> anyhow::Result<bool> {
    match number {
        0 => Ok(false),
        1 => Ok(true),
        _ => Err(anyhow!("a flag is neither 0 nor 1")),
    }
}

// Eight numbers; with `finish` it shares the conversion of one number and nothing else.
fn feed(numbers: &[u64]) -> anyhow::Result<Call> {
    let [ticket, kind, line, column, first, offset, length, free] = numbers else {
        return Err(anyhow!("feed has eight numbers"));
    };
    let lexeme = Lexeme {
        kind: u32::try_from(*kind)?,
        line: u32::try_from(*line)?,
        column: u32::try_from(*column)?,
        first: flag(*first)?,
        offset: u32::try_from(*offset)?,
        length: u32::try_from(*length)?,
    };
    Ok(Call::Feed {
        ticket: *ticket,
        lexeme,
        free: u8::try_from(*free)?,
    })
}

fn finish(numbers: &[u64]) -> anyhow::Result<Call> {
    let [ticket, line, column, free] = numbers else {
        return Err(anyhow!("finish has four numbers"));
    };
    let end = Place {
        line: u32::try_from(*line)?,
        column: u32::try_from(*column)?,
    };
    Ok(Call::Finish {
        ticket: *ticket,
        end,
        free: u8::try_from(*free)?,
    })
}

fn give_up(numbers: &[u64]) -> anyhow::Result<Call> {
    match numbers {
        [ticket] => Ok(Call::GiveUp { ticket: *ticket }),
        _ => Err(anyhow!("give-up has one number")),
    }
}

// The call that a line records.
pub fn call(heap: Global, line: &str) -> anyhow::Result<Call> {
    if line == "begin" {
        return Ok(Call::Begin);
    }
    let Some((word, rest)) = line.split_once(' ') else {
        return Err(anyhow!("no such call"));
    };
    let all = numbers(heap, rest)?;
    match word {
        "feed" => feed(&all),
        "finish" => finish(&all),
        "give-up" => give_up(&all),
        _ => Err(anyhow!("no such call")),
    }
}
