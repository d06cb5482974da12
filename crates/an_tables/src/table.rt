use crate::case::{Case, rows_named};
use an_base::{Bytes, moment_of};
use an_calls::{RowError, add_numbers, hex_bytes, number};
use an_keep::Cell;
use std::alloc::{AllocError, AllocFailed, Global};

/// Why a line can't stand in a table.
#[derive(Clone, Copy)]
pub enum LineError {
    /// Its first word is none that a table knows.
    Unknown,
    /// It belongs to a case, and stands before the first.
    NoCase,
    /// It is a line of a text, and no text, store, input, link, output or rows stand above it.
    NoPart,
    /// It names a text that doesn't stand above it.
    NoText,
    /// It names no call.
    NoCall,
    /// A number or a moment is missing, or is none.
    Number,
    /// A call that fails is neither a read, nor a write, nor one of the keeper or the door.
    Fails,
    /// Its bytes aren't written as pairs of digits and letters from a to f.
    Hex,
    /// Memory ran out.
    Memory,
}

impl LineError {
    pub fn text(self) -> &'static str {
        match self {
            LineError::Unknown => "no word of a table",
            LineError::NoCase => "no case stands above it",
            LineError::NoPart => "no text, store, input, link, output or rows stand above it",
            LineError::NoText => "no text above it has this name",
            LineError::NoCall => "no call has this name",
            LineError::Number => "no number",
            LineError::Fails => "neither `read`, `write`, `keeper` nor `door`",
            LineError::Hex => "no bytes",
            LineError::Memory => "memory ran out",
        }
    }
}

impl From<AllocError> for LineError {
    fn from(_error: AllocError) -> LineError {
        LineError::Memory
    }
}

impl<T: Drop> From<AllocFailed<T>> for LineError {
    fn from(_error: AllocFailed<T>) -> LineError {
        LineError::Memory
    }
}

/// What can't be read where numbers are due is none.
impl From<RowError> for LineError {
    fn from(error: RowError) -> LineError {
        match error {
            RowError::Form => LineError::Number,
            RowError::Memory => LineError::Memory,
        }
    }
}

/// A text that cases share.
#[derive(Drop)]
struct Named {
    name: String,
    bytes: Vec<u8>,
}

/// What the marked lines add to.
#[derive(Clone, Copy)]
enum Part {
    None,
    Text,
    Input,
    Link,
    Output,
    Imported,
}

/// The cases that were read so far.
#[derive(Drop)]
pub struct Table {
    alloc: Global,
    texts: Vec<Named>,
    cases: Vec<Case>,
    part: Part,
}

impl Table {
    pub fn new(alloc: Global) -> Table {
        Table {
            alloc,
            texts: Vec::new(alloc),
            cases: Vec::new(alloc),
            part: Part::None,
        }
    }

    pub fn cases(&self) -> &[Case] {
        self.cases.as_slice()
    }

    /// Reads the next line of a table.
    pub fn read_line(&mut self, line: &str) -> Result<(), LineError> {
        let (word, rest) = line.split_once(" ").unwrap_or((line, ""));
        match word {
            "" | "#" => Ok(()),
            "|" => self.add_ended(rest, "\n"),
            ">" => self.add_ended(rest, "\r\n"),
            "+" => self.add(rest.as_bytes()),
            "x" => self.add_hex(rest),
            "text" => self.open_text(rest),
            "case" => self.open_case(rest),
            _ => self.read_member(word, rest),
        }
    }

    /// Begins a text, which begins with the texts whose names stand behind its own.
    fn open_text(&mut self, names: &str) -> Result<(), LineError> {
        let (name, rest) = names.split_once(" ").unwrap_or((names, ""));
        let name = String::from_str(self.alloc, name)?;
        let mut bytes = Vec::new(self.alloc);
        add_texts(&mut bytes, self.texts.as_slice(), rest)?;
        self.texts.push(Named { name, bytes })?;
        self.part = Part::Text;
        Ok(())
    }

    fn open_case(&mut self, name: &str) -> Result<(), LineError> {
        let name = String::from_str(self.alloc, name)?;
        self.cases.push(Case::new(self.alloc, name))?;
        self.part = Part::None;
        Ok(())
    }

    /// Adds a line to the text, the input, the link, the output or the rows above it: of HTTP
    /// behind `>`, of anything else behind `|`.
    fn add_ended(&mut self, line: &str, end: &str) -> Result<(), LineError> {
        self.add(line.as_bytes())?;
        self.add(end.as_bytes())
    }

    /// Adds bytes that no text can show.
    fn add_hex(&mut self, pairs: &str) -> Result<(), LineError> {
        match hex_bytes(self.alloc, pairs) {
            Ok(bytes) => self.add(bytes.as_slice()),
            Err(RowError::Form) => Err(LineError::Hex),
            Err(RowError::Memory) => Err(LineError::Memory),
        }
    }

    fn add(&mut self, bytes: &[u8]) -> Result<(), LineError> {
        match self.part {
            Part::None => return Err(LineError::NoPart),
            Part::Text => add_to_text(self.texts.as_mut_slice(), bytes)?,
            Part::Input => add_to_input(self.cases.as_mut_slice(), bytes)?,
            Part::Link => add_to_link(self.cases.as_mut_slice(), bytes)?,
            Part::Output => add_to_output(self.cases.as_mut_slice(), bytes)?,
            Part::Imported => add_to_imported(self.cases.as_mut_slice(), bytes)?,
        }
        Ok(())
    }

    /// Reads a line on the case above it.
    fn read_member(&mut self, word: &str, rest: &str) -> Result<(), LineError> {
        let Some(case) = self.cases.last_mut() else {
            return Err(LineError::NoCase);
        };
        self.part = Part::None;
        match word {
            "input" => {
                self.part = Part::Input;
                add_texts(&mut case.input, self.texts.as_slice(), rest)
            }
            "link" => {
                self.part = Part::Link;
                let mut link = Vec::new(self.alloc);
                add_texts(&mut link, self.texts.as_slice(), rest)?;
                Ok(case.links.push(link)?)
            }
            "store" => {
                self.part = Part::Imported;
                add_texts(&mut case.imported, self.texts.as_slice(), rest)
            }
            "output" => {
                self.part = Part::Output;
                add_texts(&mut case.due.output, self.texts.as_slice(), rest)
            }
            "rows" => {
                self.part = Part::Output;
                case.kind = rows_named(rest).ok_or(LineError::NoCall)?;
                Ok(())
            }
            _ => read_setting(self.alloc, case, word, rest),
        }
    }
}

fn add_to_text(texts: &mut [Named], bytes: &[u8]) -> Result<(), AllocError> {
    match texts.last_mut() {
        Some(text) => text.bytes.extend_from_slice(bytes),
        None => Ok(()),
    }
}

fn add_to_input(cases: &mut [Case], bytes: &[u8]) -> Result<(), AllocError> {
    match cases.last_mut() {
        Some(case) => case.input.extend_from_slice(bytes),
        None => Ok(()),
    }
}

fn add_to_link(cases: &mut [Case], bytes: &[u8]) -> Result<(), AllocError> {
    match cases.last_mut().and_then(|case| case.links.last_mut()) {
        Some(link) => link.extend_from_slice(bytes),
        None => Ok(()),
    }
}

fn add_to_output(cases: &mut [Case], bytes: &[u8]) -> Result<(), AllocError> {
    match cases.last_mut() {
        Some(case) => case.due.output.extend_from_slice(bytes),
        None => Ok(()),
    }
}

fn add_to_imported(cases: &mut [Case], bytes: &[u8]) -> Result<(), AllocError> {
    match cases.last_mut() {
        Some(case) => case.imported.extend_from_slice(bytes),
        None => Ok(()),
    }
}

/// Adds the texts with these names, in their order. Of texts with one name the last counts.
fn add_texts(bytes: &mut Vec<u8>, texts: &[Named], names: &str) -> Result<(), LineError> {
    for name in names.split_ascii_whitespace() {
        match texts.iter().rev().find(|text| text.name.as_str() == name) {
            Some(text) => bytes.extend_from_slice(text.bytes.as_slice())?,
            None => return Err(LineError::NoText),
        }
    }
    Ok(())
}

/// Reads what a case says of its words, its link and its status.
fn read_setting(alloc: Global, case: &mut Case, word: &str, rest: &str) -> Result<(), LineError> {
    match word {
        "words" => add_words(alloc, &mut case.words, rest),
        "word" => Ok(case.words.push(String::from_str(alloc, rest)?)?),
        "cut" => Ok(add_numbers(&mut case.cut, rest)?),
        "fail" => add_failing(case, rest),
        "cell" => add_cell(alloc, case, rest),
        "clock" => {
            case.clock = moment_of(rest).ok().ok_or(LineError::Number)?;
            Ok(())
        }
        "room" => {
            case.room = Some(number(rest)?);
            Ok(())
        }
        "status" => {
            case.due.status = number(rest)?;
            Ok(())
        }
        _ => Err(LineError::Unknown),
    }
}

/// Adds what stands between spaces.
fn add_words(alloc: Global, words: &mut Vec<String>, text: &str) -> Result<(), LineError> {
    for word in text.split_ascii_whitespace() {
        words.push(String::from_str(alloc, word)?)?;
    }
    Ok(())
}

/// A table, a key and what is kept there.
fn add_cell(alloc: Global, case: &mut Case, text: &str) -> Result<(), LineError> {
    let (tab, rest) = text.split_once(" ").ok_or(LineError::Number)?;
    let (key, val) = rest.split_once(" ").ok_or(LineError::Number)?;
    let val = Bytes::new(alloc, val.as_bytes())?;
    let (tab, key) = (number(tab)?, number(key)?);
    case.cells.push(Cell { tab, key, val })?;
    Ok(())
}

/// `read`, `write`, `keeper` or `door`, and the numbers of the calls that fail.
fn add_failing(case: &mut Case, text: &str) -> Result<(), LineError> {
    match text.split_once(" ") {
        Some(("read", numbers)) => Ok(add_numbers(&mut case.fail_reads, numbers)?),
        Some(("write", numbers)) => Ok(add_numbers(&mut case.fail_writes, numbers)?),
        Some(("keeper", numbers)) => Ok(add_numbers(&mut case.fail_keeps, numbers)?),
        Some(("door", numbers)) => Ok(add_numbers(&mut case.fail_door, numbers)?),
        _ => Err(LineError::Fails),
    }
}
