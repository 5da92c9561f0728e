//! The lines of the input, and the runs that they ask for.

use crate::disks::{all_bytes, copied, names_of, with_file, without_unsynced};
use crate::fault::Fault;
use crate::hex::file_in;
use col_disk::{Disk, MemDisk};
use col_io::{MemFiles, MemSink};
use std::alloc::{AllocError, Global};
use vert_cli::{Session, run};

/// What the lines of a text in work are for.
#[derive(Drop)]
enum Text {
    /// A script that is run with these words before DIR and SCRIPT.
    Script(Vec<String>),
    /// A load file of this name.
    Load(String),
    /// A script that is run over what a stop of the last run leaves.
    Stops,
    /// A script that is run over the disk with a byte changed.
    Changes,
    /// A statement of the session that is open.
    Statement,
}

/// One run: its words and its script.
#[derive(Drop)]
struct Run {
    words: Vec<String>,
    script: Vec<u8>,
}

/// A load file.
#[derive(Drop)]
struct Load {
    name: String,
    bytes: Vec<u8>,
}

/// The disk, how it was before the last run, that run, the load files, the session that is open, and the text in work.
#[derive(Drop)]
pub struct Cases {
    disk: MemDisk,
    before: MemDisk,
    last: Run,
    loads: Vec<Load>,
    session: Option<Session>,
    text: Option<Text>,
    lines: Vec<u8>,
}

/// What a byte is changed by: each bit, and some at once.
const BITS: [u8; 10] = [1, 2, 3, 4, 8, 16, 32, 64, 128, 255];

/// The most calls of a disk that fail in turn.
const MOST_CALLS: u64 = 100_000;

fn copied_words(alloc: Global, words: &[String]) -> Result<Vec<String>, AllocError> {
    let mut out = Vec::new(alloc);
    for word in words {
        out.push(String::from_str(alloc, word.as_str())?)?;
    }
    Ok(out)
}

/// The words before DIR and SCRIPT, parted by single spaces.
fn words_in(alloc: Global, line: &str) -> Result<Vec<String>, AllocError> {
    let mut words = Vec::new(alloc);
    words.push(String::from_str(alloc, "vert")?)?;
    for word in line.split(' ') {
        if !word.is_empty() {
            words.push(String::from_str(alloc, word)?)?;
        }
    }
    words.push(String::from_str(alloc, "DIR")?)?;
    words.push(String::from_str(alloc, "s.sql")?)?;
    Ok(words)
}

fn as_text(alloc: Global, bytes: &[u8]) -> Result<String, Fault> {
    match String::from_utf8(Vec::from_slice(alloc, bytes)?) {
        Ok(text) => Ok(text),
        Err(_) => Err(Fault::NoText),
    }
}

/// What a run writes, with its exit status in a line behind it.
fn ran(
    alloc: Global,
    words: &[String],
    script: &[u8],
    loads: &[Load],
    disk: &mut MemDisk,
) -> Result<String, Fault> {
    let mut files = MemFiles::new(alloc, Vec::new(alloc));
    files.put(alloc, "s.sql", Vec::from_slice(alloc, script)?)?;
    for load in loads {
        let bytes = Vec::from_slice(alloc, load.bytes.as_slice())?;
        files.put(alloc, load.name.as_str(), bytes)?;
    }
    let mut out = MemSink::new(alloc, 65_536, Vec::new(alloc));
    let status = run(alloc, words, &mut files, &mut out, disk);
    let text = as_text(alloc, out.bytes())?;
    let code = status.code();
    Ok(format!(in alloc; "{text}status {code}\n")?)
}

/// Adds a text to those that came, if it is none of them.
fn note(texts: &mut Vec<String>, text: String) -> Result<(), Fault> {
    for other in texts.as_slice() {
        if other.as_str() == text.as_str() {
            return Ok(());
        }
    }
    texts.push(text)?;
    Ok(())
}

/// Texts, one behind the other.
fn joined(alloc: Global, texts: &[String]) -> Result<String, Fault> {
    let mut all = String::new(alloc);
    for text in texts {
        all.push_str(text.as_str())?;
    }
    Ok(all)
}

impl Cases {
    /// An empty disk, and no text in work.
    pub fn new(alloc: Global) -> Cases {
        Cases {
            disk: MemDisk::new(alloc),
            before: MemDisk::new(alloc),
            last: Run {
                words: Vec::new(alloc),
                script: Vec::new(alloc),
            },
            loads: Vec::new(alloc),
            session: None,
            text: None,
            lines: Vec::new(alloc),
        }
    }

    /// What a line comes to, and what it prints.
    pub fn take(&mut self, alloc: Global, line: &str) -> Result<String, Fault> {
        if self.text.is_some() {
            if line == "." {
                return self.finish(alloc);
            }
            self.lines.extend_from_slice(line.as_bytes())?;
            self.lines.push(b'\n')?;
            return Ok(String::new(alloc));
        }
        if let Some(words) = line.strip_prefix("run") {
            self.text = Some(Text::Script(words_in(alloc, words)?));
            return Ok(String::new(alloc));
        }
        if let Some(name) = line.strip_prefix("load ") {
            self.text = Some(Text::Load(String::from_str(alloc, name)?));
            return Ok(String::new(alloc));
        }
        if let Some(file) = line.strip_prefix("put ") {
            let (name, bytes) = file_in(alloc, file)?;
            self.disk = with_file(alloc, &mut self.disk, name, bytes.as_slice())?;
            return Ok(String::new(alloc));
        }
        match line {
            "stops" => {
                self.text = Some(Text::Stops);
                Ok(String::new(alloc))
            },
            "changes" => {
                self.text = Some(Text::Changes);
                Ok(String::new(alloc))
            },
            "failing" => self.failing(alloc),
            "open" => {
                self.session = Some(Session::open(alloc, &mut self.disk)?);
                Ok(String::new(alloc))
            },
            "say" => {
                self.text = Some(Text::Statement);
                Ok(String::new(alloc))
            },
            "new" => {
                self.disk = MemDisk::new(alloc);
                self.loads = Vec::new(alloc);
                Ok(String::new(alloc))
            },
            "files" => names_of(alloc, &mut self.disk),
            "bytes" => all_bytes(alloc, &mut self.disk),
            _ => Ok(format!(in alloc; "{line}\n")?),
        }
    }

    /// Does what the text is for that ends here.
    fn finish(&mut self, alloc: Global) -> Result<String, Fault> {
        let lines = std::mem::replace(&mut self.lines, Vec::new(alloc));
        match self.text.take() {
            Some(Text::Script(words)) => {
                self.before = copied(alloc, &mut self.disk)?;
                let text = ran(
                    alloc,
                    words.as_slice(),
                    lines.as_slice(),
                    self.loads.as_slice(),
                    &mut self.disk,
                )?;
                self.last = Run {
                    words,
                    script: lines,
                };
                Ok(text)
            },
            Some(Text::Load(name)) => {
                self.loads.push(Load { name, bytes: lines })?;
                Ok(String::new(alloc))
            },
            Some(Text::Stops) => self.stops(alloc, lines.as_slice()),
            Some(Text::Changes) => self.changes(alloc, lines.as_slice()),
            Some(Text::Statement) => self.said(alloc, lines.as_slice()),
            None => Ok(String::new(alloc)),
        }
    }

    /// What a query says over a disk.
    fn asked(&self, alloc: Global, query: &[u8], disk: &mut MemDisk) -> Result<String, Fault> {
        let words = words_in(alloc, "--halt")?;
        ran(alloc, words.as_slice(), query, self.loads.as_slice(), disk)
    }

    /// The texts that a query says over what a stop of the last run leaves, each once.
    fn stops(&mut self, alloc: Global, query: &[u8]) -> Result<String, Fault> {
        let mut texts = Vec::new(alloc);
        for call in 0..MOST_CALLS {
            let mut failing = copied(alloc, &mut self.before)?.failing_at(&[call])?;
            self.again(alloc, &mut failing)?;
            if failing.calls() <= call {
                break;
            }
            note(&mut texts, self.asked(alloc, query, &mut failing)?)?;
            let mut stopped = copied(alloc, &mut self.before)?.failing_from(call);
            self.again(alloc, &mut stopped)?;
            let mut left = without_unsynced(alloc, &stopped)?;
            note(&mut texts, self.asked(alloc, query, &mut left)?)?;
            let mut held = stopped.failing_from(u64::MAX);
            note(&mut texts, self.asked(alloc, query, &mut held)?)?;
        }
        joined(alloc, texts.as_slice())
    }

    /// The texts that a query says over the disk with a byte changed, each once.
    fn changes(&mut self, alloc: Global, query: &[u8]) -> Result<String, Fault> {
        let mut texts = Vec::new(alloc);
        let names = self.disk.names(alloc)?;
        for name in names.as_slice() {
            let right = Vec::from_slice(alloc, self.disk.bytes(*name).unwrap_or(b""))?;
            for at in 0..right.len() {
                for bits in BITS {
                    let mut bytes = Vec::from_slice(alloc, right.as_slice())?;
                    bytes[at] = right[at] ^ bits;
                    let mut disk = with_file(alloc, &mut self.disk, *name, bytes.as_slice())?;
                    note(&mut texts, self.asked(alloc, query, &mut disk)?)?;
                }
            }
        }
        joined(alloc, texts.as_slice())
    }

    /// The last run once more.
    fn again(&self, alloc: Global, disk: &mut MemDisk) -> Result<String, Fault> {
        let words = copied_words(alloc, self.last.words.as_slice())?;
        ran(
            alloc,
            words.as_slice(),
            self.last.script.as_slice(),
            self.loads.as_slice(),
            disk,
        )
    }

    /// The texts that the last run prints where one call of the disk fails, each once.
    fn failing(&mut self, alloc: Global) -> Result<String, Fault> {
        let mut texts = Vec::new(alloc);
        for call in 0..MOST_CALLS {
            let mut failing = copied(alloc, &mut self.before)?.failing_at(&[call])?;
            let text = self.again(alloc, &mut failing)?;
            if failing.calls() <= call {
                break;
            }
            note(&mut texts, text)?;
        }
        joined(alloc, texts.as_slice())
    }

    /// What a statement of the session prints over the disk as it is now.
    fn said(&mut self, alloc: Global, text: &[u8]) -> Result<String, Fault> {
        let mut files = MemFiles::new(alloc, Vec::new(alloc));
        let mut out = MemSink::new(alloc, 65_536, Vec::new(alloc));
        let Some(session) = &mut self.session else {
            return Err(Fault::NoAnswer);
        };
        match session.execute(alloc, text, &mut files, &mut self.disk, &mut out) {
            Ok(_) => as_text(alloc, out.bytes()),
            Err(_) => Err(Fault::NoAnswer),
        }
    }
}
