ghost use Rattle.std.specs.Prelude.{◌≡◌, ◌<◌, ◌==◌, ⊤, [], length, IfSome, IfNone};
ghost use Rattle.std.specs.List.{before_first, after_first};
ghost use Rattle.std.specs.Iterator.{MakesProgress, YieldsFirstBy, YieldsFirstRef, item_count};
ghost use Rattle.cl_lines.specs.Lines.{lines_of, words_of, is_skipped, is_remark, plain_line, numbered_from, stated_from, CutsLine, Numbered};

use std::marker::Model;

/// A line of a text, counted from 1.
#[derive(Clone, Copy, Debug)]
pub struct Line<'a> {
    pub number: usize,
    pub text: &'a str,
}

/// The lines that are left of a text, skipped ones included. U+000A alone parts them.
#[derive(Drop)]
pub struct Lines<'a> {
    number: usize,
    rest: &'a str,
}

impl<'a> Model for Lines<'a> {
    ghost use Rattle.std.specs.Prelude.{◌+◌, ◌<◌, ◌^◌, length};
    ghost use Rattle.cl_lines.specs.Lines.{Numbered};

    ghost Value = { Numbered };

    ghost view = { λ l. record { number = l.number; text = l.rest.now } };

    ghost invariant = { λ l. l.number + length l.rest.now < 2 ^ 64 };
}

impl<'a> Lines<'a> {
    /// The lines of a text, the first as number 1.
    pub fn new(text: &'a str) -> Lines<'a>
        ensures { result ≡ record { number = 1; text = text.now } }
    {
        Lines {
            number: 1,
            rest: text,
        }
    }

    /// The text that is left, from the start of the next line.
    pub fn rest(&self) -> &'a str
        ensures { result.now ≡ self.now.text }
    {
        self.rest
    }
}

impl<'a> Iterator for Lines<'a> {
    type Item = Line<'a>;

    ghost next_gives = { YieldsFirstBy plain_line (λ s. numbered_from s.number (lines_of s.text)) };

    ghost remaining = { item_count (λ s. numbered_from s.number (lines_of s.text)) };

    fn next(&mut self) -> Option<Line<'a>>
        ensures steps { YieldsFirstBy plain_line
            (λ s. numbered_from s.number (lines_of s.text)) self.old result self.new }
        ensures goes { MakesProgress (λ _. ⊤)
            (item_count (λ s. numbered_from s.number (lines_of s.text))) self.old result self.new }
        ensures cut { IfSome result (λ l. CutsLine self.old (plain_line l) self.new) }
        ensures end { IfNone result (self.old.text ≡ []) }
    {
        if self.rest.is_empty() {
            return None;
        }
        let (text, rest) = cut(self.rest, '\n');
        let number = self.number;
        self.number += 1;
        self.rest = rest;
        Some(Line { number, text })
    }
}

/// The lines that are left of a text, without those that are skipped.
#[derive(Drop)]
pub struct Stated<'a> {
    lines: Lines<'a>,
}

impl<'a> Model for Stated<'a> {
    ghost use Rattle.cl_lines.specs.Lines.{Numbered};

    ghost Value = { Numbered };

    ghost view = { λ s. s.lines };
}

impl<'a> Stated<'a> {
    /// The lines of a text that are not skipped, where its first line is number 1.
    pub fn new(text: &'a str) -> Stated<'a>
        ensures { result ≡ record { number = 1; text = text.now } }
    {
        Stated {
            lines: Lines::new(text),
        }
    }
}

impl<'a> Iterator for Stated<'a> {
    type Item = Line<'a>;

    ghost next_gives = { YieldsFirstBy plain_line (λ s. stated_from s.number s.text) };

    ghost remaining = { item_count (λ s. stated_from s.number s.text) };

    fn next(&mut self) -> Option<Line<'a>> {
        while let Some(line) = self.lines.next() {
            if !is_skipped(line.text) {
                return Some(line);
            }
        }
        None
    }
}

/// The words that are left of a line. U+0020 alone parts them.
#[derive(Drop)]
pub struct Words<'a> {
    left: &'a str,
}

impl<'a> Model for Words<'a> {
    ghost use Rattle.std.specs.Prelude.{ℕ, List};

    ghost Value = { List ℕ };

    ghost view = { λ w. w.left.now };
}

impl<'a> Words<'a> {
    /// The words of a line.
    pub fn new(line: &'a str) -> Words<'a>
        ensures { result ≡ line.now }
    {
        Words { left: line }
    }
}

impl<'a> Iterator for Words<'a> {
    type Item = &'a str;

    ghost next_gives = { YieldsFirstRef words_of };

    ghost remaining = { item_count words_of };

    fn next(&mut self) -> Option<&'a str> {
        while !self.left.is_empty() {
            let (word, rest) = cut(self.left, ' ');
            self.left = rest;
            if !word.is_empty() {
                return Some(word);
            }
        }
        None
    }
}

/// Whether a line says nothing: it has no word, or its first word begins with `#`.
pub fn is_skipped(line: &str) -> bool
    ensures { result ≡ is_skipped line.now }
{
    match Words::new(line).next() {
        None => true,
        Some(word) => is_remark(word.as_bytes()),
    }
}

/// Whether a word begins with `#`.
fn is_remark(word: &[u8]) -> bool
    ensures { result ≡ is_remark word.now }
{
    match word {
        [first, ..] => *first == b'#',
        [] => false,
    }
}

/// What stands before the first such character, and what behind it: all and nothing where there is none.
fn cut(text: &str, at: char) -> (&str, &str)
    requires { at < 0x80 }
    ensures before { result.0.now ≡ before_first (λ b. b == at) text.now }
    ensures after { result.1.now ≡ after_first (λ b. b == at) text.now }
{
    match text.split_once(at) {
        Some(parts) => parts,
        None => (text, ""),
    }
}
