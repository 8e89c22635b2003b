//! The reader of a script.

ghost use Rattle.std.specs.Prelude.{◌≡◌, ℕ, ◌+◌, ◌<◌, ◌≤◌, List, [], ◌++◌, length, drop};
ghost use Rattle.std.specs.Prelude.{IfOk, IfSome, IsSome, OnOk, Option, Some, None};
ghost use Rattle.std.specs.Option.{option_map};
ghost use Rattle.line_input.specs.Limits.{input_limit};
ghost use Rattle.line_input.specs.Input.{budget};

use crate::input::{Input, InputError, Next};
use crate::kind::{LineKind, long_kind, short_kind};
use keep_core::Source;
use std::alloc::{AllocError, Global};

/// A script that was read in part: the line that was read last, its number, and what it is if it
/// wasn't taken yet. It remembers the end of its source.
#[derive(Debug, Drop)]
pub struct Script {
    input: Input,
    line: Vec<u8>,
    number: u64,
    kind: Option<LineKind>,
    ghost counted: { number + budget input ≤ input_limit },
}

impl Script {
    ghost use Rattle.line_input.specs.Input.{InputHasCause};
    ghost use Rattle.line_input.specs.Lines.{script_of, short_line, long_line};
    ghost use Rattle.line_input.specs.Script.{next_kind, line_number, line_text, line_of};
    ghost use Rattle.line_input.specs.Script.{next_line};
    ghost use Rattle.line_input.specs.Script.{lines_left, total_left, pending, waiting};
    ghost use Rattle.line_input.specs.Script.{HasOneSource, IsLineOf};

    /// A script of which nothing was read.
    pub fn new(alloc: Global) -> Result<Script, AllocError>
        ensures lines { IfOk result (λ script. (later : Option (List ℕ)) →
            lines_left script later ≡ option_map script_of later) }
        ensures total { IfOk result (λ script. (later : Option (List ℕ)) →
            total_left script later ≡ option_map (λ bytes. length bytes) later) }
        ensures begins { IfOk result (λ script. (later : Option (List ℕ)) →
            HasOneSource script later) }
        ensures none { IfOk result (λ script. next_kind script ≡ None) }
        ensures number { IfOk result (λ script. line_number script ≡ 0) }
    {
        Ok(Script {
            input: Input::new(alloc)?,
            line: Vec::new(alloc),
            number: 0,
            kind: None,
        })
    }

    /// Counts the line that was read, and keeps what it is.
    fn keep_line(&mut self)
        requires { line_number self.old + budget self.old.input < input_limit }
        ensures input { self.new.input ≡ self.old.input }
        ensures text { line_text self.new ≡ line_text self.old }
        ensures number { line_number self.new ≡ line_number self.old + 1 }
        ensures kind { option_map (λ kind. line_of kind (line_text self.new)) (next_kind self.new)
            ≡ short_line (line_text self.old) }
    {
        let line = &self.line;
        let kind = short_kind(line);
        self.number += 1;
        self.kind = kind;
    }

    /// Counts the line over the limit that was read, and keeps what it is.
    fn keep_long_line(&mut self)
        requires { line_number self.old + budget self.old.input < input_limit }
        ensures input { self.new.input ≡ self.old.input }
        ensures text { line_text self.new ≡ line_text self.old }
        ensures number { line_number self.new ≡ line_number self.old + 1 }
        ensures kind { option_map (λ kind. line_of kind (line_text self.new)) (next_kind self.new)
            ≡ long_line (line_text self.old) }
    {
        let line = &self.line;
        let kind = long_kind(line);
        self.number += 1;
        self.kind = kind;
    }

    /// What the next line is, `None` at the end of the script. The line isn't taken, so what is
    /// left stays. Once a read has met the end, the source isn't asked again.
    pub fn peek<I: Source>(&mut self, source: &mut I) -> Result<Option<LineKind>, InputError>
        requires same_source { HasOneSource self.old (I.left source.old) }
        ensures lines { OnOk result (lines_left self.new (I.left source.new)
            ≡ lines_left self.old (I.left source.old)) }
        ensures kind { IfOk result (λ kind. kind ≡ next_kind self.new) }
        ensures line { next_kind self.old ≡ None → IfOk result (λ kind. IfSome kind (λ k.
            IsLineOf k (line_text self.new))) }
        ensures end { result ≡ Ok None → IfSome (I.left source.old) (λ _.
            (I.left source.new ≡ Some []) × (lines_left self.new (I.left source.new) ≡ Some [])) }
        ensures fits { result ≡ Ok None → IfSome (total_left self.new (I.left source.new))
            (λ total. total ≤ input_limit) }
        ensures total { OnOk result (total_left self.new (I.left source.new)
            ≡ total_left self.old (I.left source.old)) }
        ensures pending { OnOk result (pending self.new ≤ pending self.old) }
        ensures number { OnOk result (line_number self.old + waiting self.new
            ≤ line_number self.new + waiting self.old) }
        ensures same_source { HasOneSource self.new (I.left source.new) }
        ensures cause { InputHasCause result (total_left self.old (I.left source.old))
            (I.faults source.old) (I.faults source.new) }
    {
        while self.kind.is_none() {
            match self.input.next_line(source, &mut self.line)? {
                Next::Line => self.keep_line(),
                Next::LongLine => self.keep_long_line(),
                Next::End => return Ok(None),
            }
        }
        Ok(self.kind)
    }

    /// The number of the line that was read last. A script has no more lines than an input may have
    /// bytes.
    pub fn number(&self) -> u64
        ensures is { result ≡ line_number self.now }
        ensures few { result ≤ input_limit }
    {
        self.number
    }

    /// The bytes that are kept of the line that was read last.
    pub fn text(&self) -> &[u8]
        ensures { result.now ≡ line_text self.now }
    {
        &self.line
    }

    /// The line that was read last without its first byte, the mark of a body line.
    pub fn body(&self) -> &[u8]
        ensures { result.now ≡ drop 1 (line_text self.now) }
    {
        match self.line.as_slice() {
            [_, rest @ ..] => rest,
            [] => &[],
        }
    }

    /// Takes the next line, of which `peek` told. Its number and its text stay to be asked.
    pub fn take(&mut self)
        requires { IsSome (next_kind self.old) }
        ensures lines { (later : Option (List ℕ)) → lines_left self.old later
            ≡ option_map (λ left. next_line self.old ++ left) (lines_left self.new later) }
        ensures total { (later : Option (List ℕ)) →
            total_left self.new later ≡ total_left self.old later }
        ensures pending { pending self.new < pending self.old }
        ensures number { line_number self.new ≡ line_number self.old }
        ensures text { line_text self.new ≡ line_text self.old }
        ensures none { next_kind self.new ≡ None }
        ensures same_source { (later : Option (List ℕ)) → HasOneSource self.old later
            → HasOneSource self.new later }
    {
        self.kind = None;
    }
}
