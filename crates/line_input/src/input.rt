//! The lines of an input, over any source.

ghost use Rattle.std.specs.Prelude.{◌≡◌, ℕ, ◌+◌, ◌<◌, ◌≤◌, List, [], ◌∷◌, ◌++◌, length, vec_len};
ghost use Rattle.std.specs.Prelude.{is_none, IfOk, IfSome, OnOk, Option, None, true, false};
ghost use Rattle.std.specs.Option.{option_map, option_to_list};
ghost use Rattle.line_input.specs.Limits.{input_limit};
ghost use Rattle.line_input.specs.Pieces.{piece_size};

use crate::line_end::{KEPT_LIMIT, end_line, last};
use keep_core::{ReadError, Source};
use std::alloc::{AllocError, AllocFailed, Global};

/// The most bytes that an input may have.
const INPUT_LIMIT: u64 = 4_294_967_296;

/// How many bytes a read asks for.
const PIECE_SIZE: usize = 65_536;

/// Why a read of the input fails.
#[derive(Clone, Copy, Debug, PartialEq, Eq)]
pub enum InputError {
    Memory,
    Failed,
    /// The input has over 4,294,967,296 bytes.
    TooLong,
}

/// An input that was read in part: the last piece that was read, of which the bytes from `at` to
/// `end` weren't given yet; how many bytes were read in all; and whether a read has met the end. It
/// remembers the end, so it doesn't ask the source again: a terminal would go on, and another
/// source could fail.
#[derive(Debug, Drop)]
pub struct Input {
    piece: Vec<u8>,
    at: usize,
    end: usize,
    taken: u64,
    met_end: bool,
    ghost size: { vec_len piece ≡ piece_size },
    ghost within: { end ≤ piece_size },
    ghost ordered: { at ≤ end },
    ghost limited: { taken ≤ input_limit },
    ghost emptied: { met_end ≡ true → at ≡ end },
}

/// What the input has next.
#[derive(Clone, Copy, Debug, PartialEq, Eq)]
pub enum Next {
    End,
    Line,
    /// A line over the limit, of which the first bytes are kept.
    LongLine,
}

impl From<AllocError> for InputError {
    ghost use Rattle.std.specs.Prelude.{◌≡◌};
    ghost use Rattle.line_input.specs.declared.input.InputError.TheVariants.{Memory};

    ghost from_gives = { λ _ e. e ≡ Memory };

    fn from(_: AllocError) -> InputError {
        InputError::Memory
    }
}

impl<T: Drop> From<AllocFailed<T>> for InputError {
    ghost use Rattle.std.specs.Prelude.{◌≡◌};
    ghost use Rattle.line_input.specs.declared.input.InputError.TheVariants.{Memory};

    ghost from_gives = { λ _ e. e ≡ Memory };

    fn from(_: AllocFailed<T>) -> InputError {
        InputError::Memory
    }
}

impl From<ReadError> for InputError {
    ghost use Rattle.std.specs.Prelude.{◌≡◌};
    ghost use Rattle.line_input.specs.Input.{input_error_of};

    ghost from_gives = { λ e f. f ≡ input_error_of e };

    fn from(error: ReadError) -> InputError {
        match error {
            ReadError::Memory => InputError::Memory,
            ReadError::Failed => InputError::Failed,
        }
    }
}

impl Input {
    ghost use Rattle.line_input.specs.Input.{piece_left, left_of, total_of, budget, has_ended};
    ghost use Rattle.line_input.specs.Input.{NothingAfterEnd, Spends, MetFeed, InputHasCause};
    ghost use Rattle.line_input.specs.Input.{ReadsLine, IsLineText};

    /// An input of which nothing was read.
    pub fn new(alloc: Global) -> Result<Input, AllocError>
        ensures left { IfOk result (λ input. (later : Option (List ℕ)) →
            left_of input later ≡ later) }
        ensures total { IfOk result (λ input. (later : Option (List ℕ)) →
            total_of input later ≡ option_map (λ bytes. length bytes) later) }
        ensures budget { IfOk result (λ input. budget input ≡ input_limit) }
        ensures begins { IfOk result (λ input. has_ended input ≡ false) }
    {
        Ok(Input {
            piece: vec![in alloc; 0; PIECE_SIZE]?,
            at: 0,
            end: 0,
            taken: 0,
            met_end: false,
        })
    }

    /// Asks the source for the next piece, after the last one was given to its end. Answers `false`
    /// at the end of the input.
    fn refill<I: Source>(&mut self, source: &mut I) -> Result<bool, InputError>
        requires given { self.old.at ≡ self.old.end }
        requires open { has_ended self.old ≡ false }
        ensures left { OnOk result
            (left_of self.new (I.left source.new) ≡ left_of self.old (I.left source.old)) }
        ensures total { OnOk result
            (total_of self.new (I.left source.new) ≡ total_of self.old (I.left source.old)) }
        ensures budget { budget self.new ≡ budget self.old }
        ensures more { result ≡ Ok true →
            (self.new.at < self.new.end) × (has_ended self.new ≡ false) }
        ensures end { result ≡ Ok false →
            (self.new.at ≡ self.new.end) × (has_ended self.new ≡ true) }
        ensures same_source { NothingAfterEnd self.new (I.left source.new) }
        ensures cause { InputHasCause result (total_of self.old (I.left source.old))
            (I.faults source.old) (I.faults source.new) }
    {
        let count = source.read(&mut self.piece)?;
        if count as u64 > INPUT_LIMIT - self.taken {
            return Err(InputError::TooLong);
        }
        self.at = 0;
        self.end = count;
        self.taken += count as u64;
        self.met_end = count == 0;
        Ok(count > 0)
    }

    /// The next byte of the piece.
    fn give(&mut self) -> u8
        requires given { self.old.at < self.old.end }
        ensures left { piece_left self.old ≡ result ∷ piece_left self.new }
        ensures taken { self.new.taken ≡ self.old.taken }
        ensures budget { budget self.new + 1 ≡ budget self.old }
        ensures open { has_ended self.new ≡ has_ended self.old }
    {
        let byte = self.piece[self.at];
        self.at += 1;
        byte
    }

    /// The next byte, `None` at the end of the input.
    fn next_byte<I: Source>(&mut self, source: &mut I) -> Result<Option<u8>, InputError>
        requires { has_ended self.old ≡ false }
        ensures left { IfOk result (λ byte. left_of self.old (I.left source.old)
            ≡ option_map (λ bytes. option_to_list byte ++ bytes)
            (left_of self.new (I.left source.new))) }
        ensures end { result ≡ Ok None →
            IfSome (left_of self.new (I.left source.new)) (λ bytes. bytes ≡ []) }
        ensures total { OnOk result
            (total_of self.new (I.left source.new) ≡ total_of self.old (I.left source.old)) }
        ensures budget { IfOk result (λ byte.
            budget self.new + length (option_to_list byte) ≤ budget self.old) }
        ensures within { budget self.new ≤ budget self.old }
        ensures ends { IfOk result (λ byte. has_ended self.new ≡ is_none byte) }
        ensures same_source { NothingAfterEnd self.new (I.left source.new) }
        ensures cause { InputHasCause result (total_of self.old (I.left source.old))
            (I.faults source.old) (I.faults source.new) }
    {
        if self.at == self.end && !self.refill(source)? {
            return Ok(None);
        }
        Ok(Some(self.give()))
    }

    /// Reads the next line into `line`, without its line feed and one carriage return before that.
    /// A last line needs no line feed, and without one it keeps a carriage return. Of a line over
    /// the limit the first `KEPT_LIMIT` bytes are kept. Once a read has met the end, the source
    /// isn't asked again.
    pub fn next_line<I: Source>(
        &mut self,
        source: &mut I,
        line: &mut Vec<u8>,
    ) -> Result<Next, InputError>
        requires same_source { NothingAfterEnd self.old (I.left source.old) }
        ensures line { IfOk result (λ next. ReadsLine next line.new.items
            (left_of self.old (I.left source.old)) (left_of self.new (I.left source.new))) }
        ensures whole { IfOk result (λ next. IsLineText next line.new.items) }
        ensures spends { IfOk result (λ next.
            Spends next self.old (I.left source.old) self.new (I.left source.new)) }
        ensures within { budget self.new ≤ budget self.old }
        ensures ended { has_ended self.old ≡ true →
            (result ≡ Ok Next.End) × (line.new.items ≡ [])
            × (self.new ≡ self.old) × (source.new ≡ source.old) }
        ensures meets_end { OnOk result (has_ended self.new ≡ false →
            MetFeed (left_of self.old (I.left source.old)) (left_of self.new (I.left source.new))
            (budget self.old) (budget self.new) line.new.items) }
        ensures same_source { NothingAfterEnd self.new (I.left source.new) }
        ensures cause { InputHasCause result (total_of self.old (I.left source.old))
            (I.faults source.old) (I.faults source.new) }
    {
        line.clear();
        if self.met_end {
            return Ok(Next::End);
        }
        let mut long = false;
        while let Some(byte) = self.next_byte(source)? {
            if byte == b'\n' {
                return Ok(end_line(line, long));
            }
            if line.len() < KEPT_LIMIT {
                line.push(byte)?;
            } else {
                long = true;
            }
        }
        Ok(last(line, long))
    }
}
