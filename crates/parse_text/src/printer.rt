// What is printed of any node: its brackets, its words and, where they are asked for, its place.
use c_tree::expression::{NameId, Specifier};
use c_tree::pragma::Pragma;
use std::alloc::{AllocError, Global};
use wcc_base::Text;

/// Whether the places of nodes are printed.
#[derive(Clone, Copy)]
pub enum Places {
    Hidden,
    Shown,
}

/// A line of text that grows from left to right.
#[derive(Drop)]
pub struct Printer<'a> {
    names: &'a [Text],
    places: Places,
    line: String,
}

fn specifier_word(specifier: Specifier) -> &'static str {
    match specifier {
        Specifier::Static => "static",
        Specifier::Extern => "extern",
        Specifier::Inline => "inline",
        Specifier::Const => "const",
        Specifier::Void => "void",
        Specifier::Char => "char",
        Specifier::Short => "short",
        Specifier::Int => "int",
        Specifier::Long => "long",
        Specifier::Signed => "signed",
        Specifier::Unsigned => "unsigned",
    }
}

impl<'a> Printer<'a> {
    /// An empty line for a tree with these names, and with the places of its nodes or without.
    pub fn new(alloc: Global, names: &'a [Text], places: Places) -> Printer<'a> {
        Printer {
            names,
            places,
            line: String::new(alloc),
        }
    }

    /// The line.
    pub fn into_line(self) -> String {
        let Printer {
            names: _,
            places: _,
            line,
        } = self;
        line
    }

    /// A blank, but at the beginning of the line.
    fn gap(&mut self) -> Result<(), AllocError> {
        if self.line.is_empty() {
            return Ok(());
        }
        self.line.push(' ')
    }

    /// A word of its own.
    pub fn word(&mut self, word: &str) -> Result<(), AllocError> {
        self.gap()?;
        self.line.push_str(word)
    }

    /// The place of the node before it.
    pub fn place(&mut self, at: u32) -> Result<(), AllocError> {
        if matches!(self.places, Places::Shown) {
            write!(self.line, "@{at}")?;
        }
        Ok(())
    }

    /// The bracket, the word and the place of a node.
    pub fn open(&mut self, word: &str, at: u32) -> Result<(), AllocError> {
        self.gap()?;
        self.line.push('(')?;
        self.line.push_str(word)?;
        self.place(at)
    }

    /// The end of a node.
    pub fn close(&mut self) -> Result<(), AllocError> {
        self.line.push(')')
    }

    /// A node without parts.
    pub fn leaf(&mut self, word: &str, at: u32) -> Result<(), AllocError> {
        self.open(word, at)?;
        self.close()
    }

    /// Without a blank before it.
    pub fn mark(&mut self, mark: &str) -> Result<(), AllocError> {
        self.line.push_str(mark)
    }

    /// A number in decimal.
    pub fn decimal(&mut self, value: u32) -> Result<(), AllocError> {
        write!(self.line, " {value}")
    }

    /// A number in decimal between single quotes.
    pub fn quoted(&mut self, value: u8) -> Result<(), AllocError> {
        write!(self.line, " '{value}'")
    }

    fn bytes(&mut self, bytes: &[u8]) -> Result<(), AllocError> {
        for byte in bytes {
            self.line.push(char::from(*byte))?;
        }
        Ok(())
    }

    /// The bytes of a name, or `?` where the list of names lacks it.
    pub fn name(&mut self, name: NameId) -> Result<(), AllocError> {
        self.line.push(' ')?;
        let names = self.names;
        match names.get(name.0 as usize) {
            Some(text) => self.bytes(text.as_bytes()),
            None => self.line.push('?'),
        }
    }

    /// The beginning of a pragma, with its text.
    pub fn open_pragma(&mut self, word: &str, pragma: &Pragma) -> Result<(), AllocError> {
        self.open(word, pragma.at)?;
        self.line.push_str(" \"")?;
        self.bytes(pragma.text.as_bytes())?;
        self.line.push('"')
    }

    /// A pragma and its text.
    pub fn pragma(&mut self, word: &str, pragma: &Pragma) -> Result<(), AllocError> {
        self.open_pragma(word, pragma)?;
        self.close()
    }

    /// Specifiers in square brackets, in order.
    pub fn specifiers(&mut self, specifiers: &[Specifier]) -> Result<(), AllocError> {
        self.line.push_str(" [")?;
        for (i, specifier) in specifiers.iter().enumerate() {
            if i > 0 {
                self.line.push(' ')?;
            }
            self.line.push_str(specifier_word(*specifier))?;
        }
        self.line.push(']')
    }
}
