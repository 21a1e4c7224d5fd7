//! The request on the standard input.

use std::alloc::Global;
use std::io;

/// The words of a run, and the numbers of allocations before it and after it.
#[derive(Drop)]
pub(crate) struct Asked {
    pub(crate) words: Vec<String>,
    pub(crate) before: u32,
    pub(crate) after: u32,
}

/// Reads the three lines of the standard input. A missing line has no word; a word that is no number counts as 0.
pub(crate) fn read_asked<R: Input + AllocGlobal>(rt: &R) -> io::Result<Asked> {
    let alloc = rt.alloc();
    let mut lines = Vec::new(alloc);
    for line in rt.lines(alloc).take(3) {
        lines.push(line?)?;
    }
    Ok(Asked {
        words: words_of(alloc, line(&lines, 0))?,
        before: line(&lines, 1).parse().unwrap_or(0),
        after: line(&lines, 2).parse().unwrap_or(0),
    })
}

fn line(lines: &[String], place: usize) -> &str {
    match lines.get(place) {
        Some(line) => line.as_str(),
        None => "",
    }
}

fn words_of(alloc: Global, line: &str) -> io::Result<Vec<String>> {
    let mut words = Vec::new(alloc);
    for word in line.split_whitespace() {
        words.push(String::from_str(alloc, word)?)?;
    }
    Ok(words)
}
