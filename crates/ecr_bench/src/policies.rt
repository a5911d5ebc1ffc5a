// Lifecycle policies of the most rules with the most prefixes.
use crate::timing::print_time;
use std::alloc::{AllocError, Global};
use std::io;

const RULES: usize = 50;

const TIMES: u32 = 500;

/// The characters that prefixes are made of, in order.
const LETTERS: [u8; 92] =
    *b"!#$%&'()*+,-./0123456789:;<=>?@ABCDEFGHIJKLMNOPQRSTUVWXYZ[]^_`abcdefghijklmnopqrstuvwxyz{|}~";

/// Times both policies.
pub(crate) fn time(rt: &HostRuntime) -> io::Result<()> {
    let alloc = rt.alloc();
    let apart = policy(alloc, false)?;
    time_one(
        rt,
        "50 rules of 100 prefixes, of which few are shared",
        apart.as_str(),
    )?;
    let shared = policy(alloc, true)?;
    time_one(
        rt,
        "50 rules of 100 prefixes, which share the first 99",
        shared.as_str(),
    )
}

fn time_one(rt: &HostRuntime, name: &str, text: &str) -> io::Result<()> {
    let alloc = rt.alloc();
    println!(rt; "{} characters", text.len())?;
    print_time(rt, name, TIMES, || ecr_policy::read(alloc, text).is_ok())
}

/// The text of a policy.
fn policy(alloc: Global, shared: bool) -> Result<String, AllocError> {
    let mut text = String::from_str(alloc, "{\"rules\":[")?;
    for number in 1..RULES + 1 {
        if number > 1 {
            text.push_str(",")?;
        }
        push_rule(alloc, &mut text, number, shared)?;
    }
    text.push_str("]}")?;
    Ok(text)
}

/// Adds the rule of that number.
fn push_rule(
    alloc: Global,
    text: &mut String,
    number: usize,
    shared: bool,
) -> Result<(), AllocError> {
    let list = if shared {
        shared_list(alloc, number)?
    } else {
        own_list(alloc, number)?
    };
    let rule = format!(in alloc;
        "{{\"rulePriority\":{number},\"selection\":{{\"tagStatus\":\"tagged\",\"tagPrefixList\":[{list}],\"countType\":\"imageCountMoreThan\",\"countNumber\":1}},\"action\":{{\"type\":\"expire\"}}}}"
    )?;
    text.push_str(rule.as_str())
}

/// 100 prefixes, of which 99 are those of each other rule, and the last in order isn't.
fn shared_list(alloc: Global, number: usize) -> Result<String, AllocError> {
    let mut list = String::new(alloc);
    push_prefix(&mut list, &[LETTERS[91], letter(number, 0)])?;
    for at in 0..92 {
        push_prefix(&mut list, &[letter(at, 0)])?;
    }
    for at in 0..7 {
        push_prefix(&mut list, &[LETTERS[0], letter(at, 0)])?;
    }
    Ok(list)
}

/// 100 prefixes, of which some are those of other rules.
fn own_list(alloc: Global, number: usize) -> Result<String, AllocError> {
    let mut list = String::new(alloc);
    for at in 0..60 {
        push_prefix(&mut list, &[letter(at, number)])?;
    }
    for at in 0..40 {
        push_prefix(&mut list, &[letter(number, 0), letter(at, 0)])?;
    }
    Ok(list)
}

/// The character at that place, counted from another.
fn letter(at: usize, from: usize) -> u8 {
    LETTERS[(at % 92 + from % 92) % 92]
}

/// Adds a prefix to the list.
fn push_prefix(list: &mut String, letters: &[u8]) -> Result<(), AllocError> {
    list.push_str(if list.is_empty() { "\"" } else { ",\"" })?;
    for letter in letters {
        list.push(char::from(*letter))?;
    }
    list.push_str("\"")
}
