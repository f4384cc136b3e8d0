//! The lines of a layout.
use chart_page::{Fault, node_of, number_of};
use std::alloc::Global;

/// A run of partitions with the nodes of their copies.
#[derive(Clone, Copy)]
pub(crate) struct Run {
    pub(crate) first: u64,
    pub(crate) last: u64,
    pub(crate) nodes: [u64; 3],
}

impl Run {
    pub(crate) fn has(&self, node: u64) -> bool {
        let [a, b, c] = self.nodes;
        a == node || b == node || c == node
    }

    pub(crate) fn count(&self) -> u64 {
        self.last.saturating_sub(self.first).saturating_add(1)
    }
}

/// What is named of a run of partitions on the side of the cut where the copies begin.
#[derive(Clone, Copy)]
pub(crate) struct Side<'a> {
    pub(crate) first: u64,
    pub(crate) last: u64,
    line: &'a str,
}

impl Side<'_> {
    pub(crate) fn count(&self) -> u64 {
        self.last.saturating_sub(self.first).saturating_add(1)
    }

    /// Whether the word, `up` or `down`, is named.
    pub(crate) fn has(&self, word: &str) -> bool {
        self.line.split(' ').skip(3).any(|named| named == word)
    }

    pub(crate) fn has_zone(&self, zone: &str) -> bool {
        self.line
            .split(' ')
            .skip(3)
            .any(|named| named.strip_prefix("z:") == Some(zone))
    }
}

/// What the lines of a layout told so far.
#[derive(Drop)]
pub(crate) struct Plan<'a> {
    /// The place of the last line's kind among all kinds, 0 before the first.
    stage: u64,
    pub(crate) size: u64,
    pub(crate) redundancy: u64,
    pub(crate) runs: Vec<Run>,
    /// The first partition that no run has.
    next: u64,
    pub(crate) cut_size: u64,
    pub(crate) weight: u64,
    pub(crate) sides: Vec<Side<'a>>,
    named: &'a str,
    pub(crate) moves: Option<u64>,
}

fn number(word: &str) -> Result<u64, Fault> {
    number_of(word).ok_or(Fault::Bad)
}

fn node(word: &str) -> Result<u64, Fault> {
    node_of(word, 64).ok_or(Fault::Bad)
}

/// A run of partitions that begins with `next` or, where there may be gaps, after it.
fn bounds(first: &str, last: &str, next: u64, has_gaps: bool) -> Result<(u64, u64), Fault> {
    let (first, last) = (number(first)?, number(last)?);
    if first < next || first > last || last > 255 || (first > next && !has_gaps) {
        return Err(Fault::Bad);
    }
    Ok((first, last))
}

impl<'a> Plan<'a> {
    pub(crate) fn new(alloc: Global) -> Plan<'a> {
        Plan {
            stage: 0,
            size: 0,
            redundancy: 0,
            runs: Vec::new(alloc),
            next: 0,
            cut_size: 0,
            weight: 0,
            sides: Vec::new(alloc),
            named: "",
            moves: None,
        }
    }

    /// Whether node `node` is named.
    pub(crate) fn has_node(&self, node: u64) -> bool {
        self.named
            .split(' ')
            .skip(1)
            .any(|word| number_of(word) == Some(node))
    }

    /// Whether the last line may be this one.
    pub(crate) fn is_whole(&self) -> bool {
        self.next == 256 && (self.stage == 6 || self.stage == 10)
    }

    /// How many copies a node has.
    pub(crate) fn copies(&self, node: u64) -> u64 {
        let mut copies = 0u64;
        for run in self.runs.iter() {
            if run.has(node) {
                copies = copies.saturating_add(run.count());
            }
        }
        copies
    }

    /// The kinds of lines come in order: one after the other, those that repeat again, and lines of sides may be missing.
    fn go_to(&mut self, stage: u64) -> Result<(), Fault> {
        let repeats = stage == 3 || stage == 5 || stage == 8;
        if stage != self.stage.saturating_add(1)
            && !(repeats && stage == self.stage)
            && !(stage == 6 && self.stage == 4)
        {
            return Err(Fault::Bad);
        }
        self.stage = stage;
        Ok(())
    }

    fn take_set(&mut self, first: &str, last: &str, nodes: [u64; 3]) -> Result<(), Fault> {
        let (first, last) = bounds(first, last, self.next, false)?;
        self.next = last.saturating_add(1);
        self.runs.push(Run { first, last, nodes })?;
        Ok(())
    }

    fn take_side(&mut self, line: &'a str, first: &str, last: &str) -> Result<(), Fault> {
        let next = match self.sides.last() {
            Some(side) => side.last.saturating_add(1),
            None => 0,
        };
        let (first, last) = bounds(first, last, next, true)?;
        self.sides.push(Side { first, last, line })?;
        Ok(())
    }

    /// Adds what a line with these words tells.
    pub(crate) fn take(&mut self, line: &'a str, words: &[&'a str]) -> Result<(), Fault> {
        match *words {
            ["size", size] => {
                self.go_to(1)?;
                self.size = number(size)?;
            }
            ["redundancy", zones] => {
                self.go_to(2)?;
                self.redundancy = node_of(zones, 3).ok_or(Fault::Bad)?;
            }
            ["p", first, last, a, b, c] => {
                self.go_to(3)?;
                self.take_set(first, last, [node(a)?, node(b)?, node(c)?])?;
            }
            ["cut", size, weight] => {
                self.go_to(4)?;
                self.cut_size = number(size)?;
                self.weight = number(weight)?;
            }
            ["c", first, last, ..] => {
                self.go_to(5)?;
                self.take_side(line, first, last)?;
            }
            ["cn", ..] => {
                self.go_to(6)?;
                self.named = line;
            }
            ["moves", moves] => {
                self.go_to(7)?;
                self.moves = Some(number(moves)?);
            }
            ["q", ..] => self.go_to(8)?,
            ["qn", ..] => self.go_to(9)?,
            ["qs", _] => self.go_to(10)?,
            _ => return Err(Fault::Bad),
        }
        Ok(())
    }
}
