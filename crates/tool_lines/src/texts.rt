//! The texts that a tool reads, one after another.
ghost use Rattle.std.specs.Prelude.{◌≡◌, ℕ, List, None, Option, option_map, IfOk};
ghost use Rattle.tool_lines.specs.Texts.{GivesText, one_left};

use crate::faults::Fault;
use std::convert::AsStr;
use std::fs::{File, Files};
use std::io;
use std::io::{ErrorKind, Read};

/// A sequence of texts.
pub trait Texts {
    /// The reader of one of the texts.
    type Text: Read + Drop;

    /// The bytes of each text that is left, if they are known.
    ghost left: { Self → Option (List (List ℕ)) } = { λ _. None };

    /// Opens the next text. Returns `None` if there is no other.
    fn next_text(&mut self) -> Result<Option<Self::Text>, Fault>
        ensures { IfOk result (λ text. GivesText (left self.old) (left self.new)
            (option_map Self.Text.remaining text)) };

    /// Returns the name of the text that was opened last, if it has one.
    fn name(&self) -> Option<&str>;
}

/// One text without a name, such as standard input.
#[derive(Drop)]
pub struct OneText<I> {
    text: Option<I>,
}

impl<I> OneText<I> {
    /// Makes a sequence of this text, which is not read yet.
    pub fn new(text: I) -> OneText<I>
        ensures { result.text ≡ Some text }
    {
        OneText { text: Some(text) }
    }
}

impl<I: Read + Drop> Texts for OneText<I> {
    type Text = I;

    ghost left = { λ t. one_left I.remaining t.text };

    fn next_text(&mut self) -> Result<Option<I>, Fault> {
        Ok(self.text.take())
    }

    fn name(&self) -> Option<&str> {
        None
    }
}

/// A source of files by their names.
pub trait TextFiles {
    /// The reader of a file.
    type File: Read + Drop;

    /// Opens the file of this name.
    fn open_text(&self, name: &str) -> io::Result<Self::File>;
}

/// The files of the system.
#[derive(Clone, Copy)]
pub struct SystemFiles<'a, R> {
    pub files: &'a R,
}

impl<R: Files> TextFiles for SystemFiles<'_, R> {
    type File = R::File;

    fn open_text(&self, name: &str) -> io::Result<R::File> {
        File::open(self.files, name)
    }
}

/// The texts of these names, in order. `-` is standard input, and every other name is that of a file.
#[derive(Drop)]
pub struct NamedTexts<'a, F, S, I> {
    files: &'a F,
    names: &'a [S],
    /// The number of names that were asked for.
    asked: usize,
    /// Standard input, until its name was asked for.
    input: Option<I>,
}

impl<'a, F, S, I> NamedTexts<'a, F, S, I> {
    /// Makes a sequence of the texts of these names, none of which is opened yet.
    pub fn new(files: &'a F, names: &'a [S], input: I) -> NamedTexts<'a, F, S, I> {
        NamedTexts {
            files,
            names,
            asked: 0,
            input: Some(input),
        }
    }
}

/// The reader of a named text. If standard input is named a second time it is empty.
#[derive(Drop)]
pub enum NamedText<I, F> {
    Input(Option<I>),
    File(F),
}

impl<I: Read, F: Read> Read for NamedText<I, F> {
    fn read(&mut self, buf: &mut [u8]) -> io::Result<usize> {
        match self {
            NamedText::Input(Some(input)) => input.read(buf),
            NamedText::Input(None) => Ok(0),
            NamedText::File(file) => file.read(buf),
        }
    }
}

impl<F: TextFiles, S: AsStr, I: Read + Drop> Texts for NamedTexts<'_, F, S, I> {
    type Text = NamedText<I, F::File>;

    fn next_text(&mut self) -> Result<Option<NamedText<I, F::File>>, Fault> {
        let Some(name) = self.names.get(self.asked) else {
            return Ok(None);
        };
        self.asked += 1;
        if name.as_str() == "-" {
            return Ok(Some(NamedText::Input(self.input.take())));
        }
        match self.files.open_text(name.as_str()) {
            Ok(file) => Ok(Some(NamedText::File(file))),
            Err(error) if error.kind() == ErrorKind::NotFound => Err(Fault::NoSuchFile),
            Err(_) => Err(Fault::NotOpened),
        }
    }

    fn name(&self) -> Option<&str> {
        let name = self.names.get(self.asked.checked_sub(1)?)?;
        Some(name.as_str())
    }
}
