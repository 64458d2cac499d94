//! Sources of many parts: repeated pieces, and numbered modules, variables and definitions.
use std::alloc::{AllocError, Global};

// A piece of a text, or a number.
#[derive(Clone, Copy)]
enum Part {
    Text(&'static str),
    Number(usize),
}

fn push_number(alloc: Global, text: &mut String, number: usize) -> Result<(), AllocError> {
    let digits = number.to_string(alloc)?;
    let pushed = text.push_str(digits.as_str());
    drop(digits);
    pushed
}

fn push_part(alloc: Global, text: &mut String, part: &Part) -> Result<(), AllocError> {
    match part {
        Part::Text(piece) => text.push_str(piece),
        Part::Number(number) => push_number(alloc, text, *number),
    }
}

fn push_parts(alloc: Global, text: &mut String, parts: &[Part]) -> Result<(), AllocError> {
    for part in parts {
        push_part(alloc, text, part)?;
    }
    Ok(())
}

fn push_times(text: &mut String, piece: &str, times: usize) -> Result<(), AllocError> {
    for _ in 0..times {
        text.push_str(piece)?;
    }
    Ok(())
}

fn push_repeated(
    text: &mut String,
    before: &str,
    piece: &str,
    times: usize,
    behind: &str,
) -> Result<(), AllocError> {
    text.push_str(before)?;
    push_times(text, piece, times)?;
    text.push_str(behind)
}

/// A piece that is repeated, between two texts.
pub fn repeated(
    alloc: Global,
    before: &str,
    piece: &str,
    times: usize,
    behind: &str,
) -> Result<String, AllocError> {
    let mut text = String::new(alloc);
    push_repeated(&mut text, before, piece, times, behind)?;
    Ok(text)
}

// A module with two instances of the next.
fn push_module(alloc: Global, text: &mut String, number: usize) -> Result<(), AllocError> {
    let parts = [
        Part::Text("MODULE m"),
        Part::Number(number),
        Part::Text(" VAR a : m"),
        Part::Number(number.saturating_add(1)),
        Part::Text("; b : m"),
        Part::Number(number.saturating_add(1)),
        Part::Text(";\n"),
    ];
    push_parts(alloc, text, &parts)
}

fn push_modules(alloc: Global, text: &mut String, count: usize) -> Result<(), AllocError> {
    text.push_str("MODULE main VAR a : m1; b : m1;\n")?;
    for number in 1..count {
        push_module(alloc, text, number)?;
    }
    let parts = [
        Part::Text("MODULE m"),
        Part::Number(count),
        Part::Text("\n"),
    ];
    push_parts(alloc, text, &parts)
}

/// As many modules, each with two instances of the next, but for the last.
pub fn modules(alloc: Global, count: usize) -> Result<String, AllocError> {
    let mut text = String::new(alloc);
    push_modules(alloc, &mut text, count)?;
    Ok(text)
}

fn push_variables(
    alloc: Global,
    text: &mut String,
    count: usize,
    declared: &'static str,
) -> Result<(), AllocError> {
    text.push_str("MODULE main\nVAR\n")?;
    for number in 0..count {
        let parts = [Part::Text("x"), Part::Number(number), Part::Text(declared)];
        push_parts(alloc, text, &parts)?;
    }
    Ok(())
}

/// As many variables, declared with this behind their names, and this behind them.
pub fn variables(
    alloc: Global,
    count: usize,
    declared: &'static str,
    behind: &str,
) -> Result<String, AllocError> {
    let mut text = String::new(alloc);
    push_variables(alloc, &mut text, count, declared)?;
    text.push_str(behind)?;
    Ok(text)
}

// The name of a definition between these pieces.
fn push_between(
    alloc: Global,
    text: &mut String,
    number: usize,
    pieces: &[&'static str],
) -> Result<(), AllocError> {
    for (place, piece) in pieces.iter().enumerate() {
        if place > 0 {
            push_parts(alloc, text, &[Part::Text("d"), Part::Number(number)])?;
        }
        text.push_str(piece)?;
    }
    Ok(())
}

// A definition in which the next one stands between these pieces.
fn push_definition(
    alloc: Global,
    text: &mut String,
    number: usize,
    pieces: &[&'static str],
) -> Result<(), AllocError> {
    let head = [Part::Text("d"), Part::Number(number), Part::Text(" := ")];
    push_parts(alloc, text, &head)?;
    push_between(alloc, text, number.saturating_add(1), pieces)?;
    text.push_str(";\n")
}

fn push_definitions(
    alloc: Global,
    text: &mut String,
    count: usize,
    pieces: &[&'static str],
) -> Result<(), AllocError> {
    for number in 1..count {
        push_definition(alloc, text, number, pieces)?;
    }
    let head = [Part::Text("d"), Part::Number(count), Part::Text(" := ")];
    push_parts(alloc, text, &head)
}

fn push_all(text: &mut String, pieces: &[&str]) -> Result<(), AllocError> {
    for piece in pieces {
        text.push_str(piece)?;
    }
    Ok(())
}

/// A text with as many definitions behind it, in each of which the next one stands between these pieces; then what the
/// last one is, and what stands behind.
pub fn definitions(
    alloc: Global,
    count: usize,
    before: &str,
    pieces: &[&'static str],
    behind: &[&str],
) -> Result<String, AllocError> {
    let mut text = String::from_str(alloc, before)?;
    push_definitions(alloc, &mut text, count, pieces)?;
    push_all(&mut text, behind)?;
    Ok(text)
}
