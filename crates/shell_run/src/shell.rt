//! The shell: its session, its input, and what it says to each piece of it.

use crate::answering::{Told, answer};
use crate::faults::{fault_of, in_memory};
use crate::replies::{Reply, done, refused, reply_to};
use col_disk::{Disk, StoreFault};
use col_io::Files;
use shell_text::{Command, Input, Kind, Listing, Piece, asked_in, listing_of, told_unfinished};
use std::alloc::{AllocError, Global};
use vert_cli::{RunFault, Session};

/// How the shell shows what it says.
#[derive(Clone, Copy, Debug)]
pub struct Setting {
    /// Whether rows are shown in columns.
    pub aligned: bool,
    /// Whether it prompts: input and output are a terminal.
    pub prompts: bool,
}

/// A shell over a session.
#[derive(Drop)]
pub struct Shell {
    session: Session,
    input: Input,
    setting: Setting,
    times: bool,
    refused: bool,
}

/// The answer of a query in columns.
fn print_listing(alloc: Global, listing: &Listing) -> Result<Vec<u8>, AllocError> {
    let mut out = Vec::new(alloc);
    listing.print(alloc, &mut out)?;
    Ok(out)
}

/// Shows which empty cells of the answer of a query are NULL.
fn mark<F: Files, D: Disk>(
    alloc: Global,
    session: &mut Session,
    text: &[u8],
    listing: &mut Listing,
    files: &mut F,
    disk: &mut D,
) -> Result<(), RunFault> {
    let Some(marking) = in_memory(listing.marking_text(alloc, text))? else {
        return Ok(());
    };
    let marked = answer(alloc, session, marking.as_slice(), files, disk)?;
    in_memory(listing.mark(alloc, marked.text.as_slice()))
}

/// What a statement answers, a query's rows in columns.
fn in_columns<F: Files, D: Disk>(
    alloc: Global,
    session: &mut Session,
    text: &[u8],
    told: Vec<u8>,
    files: &mut F,
    disk: &mut D,
) -> Result<Vec<u8>, RunFault> {
    let listing = in_memory(listing_of(alloc, text, told.as_slice(), session.schema().tables))?;
    match listing {
        Some(mut listing) => {
            mark(alloc, session, text, &mut listing, files, disk)?;
            in_memory(print_listing(alloc, &listing))
        }
        None => Ok(told),
    }
}

/// Adds that what is committed isn't in the folder, where it isn't.
fn add_kept(kept: bool, reply: &mut Reply) -> Result<(), AllocError> {
    if kept {
        return Ok(());
    }
    reply.err.extend_from_slice(
        b"What is committed isn't in the folder yet: the numbers of files are spent.\n",
    )
}

impl Shell {
    /// A shell over the tables that the folder reopens to.
    pub fn open<D: Disk>(alloc: Global, setting: Setting, disk: &mut D) -> Result<Shell, RunFault> {
        match Session::open(alloc, disk) {
            Ok(session) => Ok(Shell {
                session,
                input: Input::new(alloc),
                setting,
                times: false,
                refused: false,
            }),
            Err(fault) => Err(fault_of(fault)),
        }
    }

    /// More input has come.
    pub fn put(&mut self, alloc: Global, more: &[u8]) -> Result<(), RunFault> {
        in_memory(self.input.put(alloc, more))
    }

    // What is said to a statement that isn't refused.
    fn shown<F: Files, D: Disk>(
        &mut self,
        alloc: Global,
        text: &[u8],
        told: Vec<u8>,
        files: &mut F,
        disk: &mut D,
    ) -> Result<Reply, RunFault> {
        if !self.setting.aligned {
            return Ok(done(alloc, told));
        }
        let shown = in_columns(alloc, &mut self.session, text, told, files, disk)?;
        Ok(done(alloc, shown))
    }

    // What is said to a statement.
    fn run<F: Files, D: Disk>(
        &mut self,
        alloc: Global,
        piece: &Piece,
        files: &mut F,
        disk: &mut D,
    ) -> Result<Reply, RunFault> {
        let Told {
            text,
            refusal,
            kept,
        } = answer(alloc, &mut self.session, piece.text(), files, disk)?;
        let mut reply = match refusal {
            Some(refusal) => in_memory(refused(
                alloc,
                piece,
                text,
                &refusal,
                self.setting.aligned,
                !self.setting.prompts,
            ))?,
            None => self.shown(alloc, piece.text(), text, files, disk)?,
        };
        in_memory(add_kept(kept, &mut reply))?;
        Ok(reply)
    }

    // What is said to a line of the shell's own.
    fn follow(&mut self, alloc: Global, piece: &Piece) -> Result<Reply, RunFault> {
        let asked = asked_in(piece.text());
        if asked.command == Command::Timing {
            self.times = !self.times;
        }
        in_memory(reply_to(alloc, asked, self.session.schema(), self.times))
    }

    /// What is said to the piece of the input that stands first, if its end has come.
    pub fn reply<F: Files, D: Disk>(
        &mut self,
        alloc: Global,
        files: &mut F,
        disk: &mut D,
    ) -> Result<Option<Reply>, RunFault> {
        let Some(piece) = in_memory(self.input.take(alloc))? else {
            return Ok(None);
        };
        let reply = match piece.kind {
            Kind::Statement => self.run(alloc, &piece, files, disk)?,
            Kind::Command => self.follow(alloc, &piece)?,
        };
        if reply.refused {
            self.refused = true;
        }
        Ok(Some(reply))
    }

    /// What is said where the input ends inside of a statement.
    pub fn cut_off(&mut self, alloc: Global) -> Result<Vec<u8>, RunFault> {
        if self.input.is_between() {
            return Ok(Vec::new(alloc));
        }
        self.refused = true;
        let piece = in_memory(self.input.unfinished(alloc))?;
        in_memory(told_unfinished(alloc, &piece))
    }

    /// Whether no statement has begun that isn't ended.
    pub fn is_between(&self) -> bool {
        self.input.is_between()
    }

    /// What is written before more input is read.
    pub fn prompt(&self) -> &'static str {
        if !self.setting.prompts {
            ""
        } else if self.input.is_between() {
            "vert> "
        } else {
            "   > "
        }
    }

    /// What is written at the end of the input.
    pub fn farewell(&self) -> &'static str {
        if self.setting.prompts { "\n" } else { "" }
    }

    /// Whether the time of a statement is told.
    pub fn times(&self) -> bool {
        self.times
    }

    /// Whether something was refused.
    pub fn was_refused(&self) -> bool {
        self.refused
    }

    /// The end: what waits for COMMIT is dropped, and all tables go to disk.
    pub fn close<D: Disk>(self, alloc: Global, disk: &mut D) -> Result<(), StoreFault> {
        let Shell { session, .. } = self;
        session.close(alloc, disk)
    }
}
