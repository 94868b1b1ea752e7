ghost use Rattle.std.specs.Prelude.{◌≡◌, ◌↔◌, ◌<◌, ◌≤◌, ◌+◌, ◌++◌, ◌-◌, [], true, false, drop, length, take, List, ℕ, IfOk, OnOk, IfSome, IsNone, IsTrue, IsFalse};
ghost use Rattle.std.specs.Str.Lines.{strip_carriage_return};
ghost use Rattle.pig_value.specs.Leaves.{AreBytes};
ghost use Rattle.pig_value.specs.Lines.{lines_within};
ghost use Rattle.pig_value.specs.Trees.{Tree};
ghost use Rattle.pig_value.specs.Valid.{AreRows};
ghost use Rattle.pig_stream.specs.Ranges.{IsDry, Reading, first_byte, lf_in, lines_coming, rows_of_lines};
ghost use Rattle.pig_stream.specs.Seeking.{IsFound};

use crate::batch::Batch;
use bstr::ByteSlice;
use pig_storage::rows_are_of_their_kinds;
use pig_value::{Columns, Delim, known_bytes};
use std::alloc::{AllocError, Global};
use std::marker::Model;

// So many rows stand in a batch.
const BATCH_ROWS: usize = 256;

/// The lines that start in a range of the bytes of a piece, which are handed in one block after another: from the byte before
/// the range on, which tells whether a line starts there, and as far as its last line goes.
///
/// Contracts see the bytes that are held and what they are of the range.
#[derive(Drop)]
pub struct Window {
    bytes: Vec<u8>,
    /// The place of the first byte that is held, and one before which no LF stands from there on.
    begin: usize,
    clean: usize,
    limit: u64,
    skips: bool,
    ended: bool,
}

impl Model for Window {
    ghost use Rattle.std.specs.Prelude.{◌≡◌, ◌≤◌, [], true, drop, length};
    ghost use Rattle.pig_storage.specs.NextLine.{line_end};
    ghost use Rattle.pig_stream.specs.Ranges.{Reading, coded_reading};

    ghost Value = { Reading };

    ghost coded = { coded_reading };

    ghost view = { λ w. record {
      held = drop w.begin w.bytes.items;
      limit = w.limit;
      skips = w.skips;
      ended = w.ended;
    } };

    ghost invariant = { λ w. (w.begin ≤ w.clean) × (w.clean ≤ length w.bytes.items)
        × (w.clean ≤ line_end w.bytes.items w.begin)
        × (w.skips ≡ true → drop w.begin w.bytes.items ≡ []) };
}

impl Window {
    /// The window of a range, before any byte. The bytes that it is handed are those from the byte before the range on, or
    /// from the first one on where the range begins with it.
    pub fn of(alloc: Global, from: u64, to: u64) -> Window
        requires { from ≤ to }
        ensures lines { (bytes : List ℕ) → lines_coming result (drop (first_byte from) bytes)
            ≡ lines_within from to bytes }
        ensures begun { result.ended ≡ false }
    {
        if from == 0 {
            return Window::begun(alloc, to, false);
        }
        Window::begun(alloc, to - (from - 1), true)
    }

    fn begun(alloc: Global, limit: u64, skips: bool) -> Window
        ensures { result ≡ record {
          held = [];
          limit = limit;
          skips = skips;
          ended = false;
        } }
    {
        Window {
            bytes: Vec::new(alloc),
            begin: 0,
            clean: 0,
            limit,
            skips,
            ended: false,
        }
    }

    /// The next bytes of the piece.
    pub fn hand_in(&mut self, block: &[u8]) -> Result<(), AllocError>
        requires { self.old.ended ≡ false }
        ensures lines { (later : List ℕ) → OnOk result (lines_coming self.new later
            ≡ lines_coming self.old (block.now ++ later)) }
        ensures begun { self.new.ended ≡ false }
    {
        if self.skips() {
            return self.skip(block);
        }
        self.hold(block)
    }

    /// No bytes of the piece are left.
    pub fn end(&mut self)
        ensures lines { (later : List ℕ) → lines_coming self.new later
            ≡ lines_coming self.old [] }
        ensures ended { self.new.ended ≡ true }
    {
        self.ended = true;
    }

    /// Whether no line of the range comes any more, whatever bytes are handed in.
    pub fn is_past(&self) -> bool
        ensures none { IsTrue result → (later : List ℕ) → lines_coming self.now later ≡ [] }
        ensures exact { IsTrue result ↔ (self.now.limit ≡ 0) }
    {
        if self.limit() == 0 {
            return true;
        }
        false
    }

    fn limit(&self) -> u64
        ensures { result ≡ self.now.limit }
    {
        self.limit
    }

    // Bytes of a line that began before the range; from the first LF on they are held.
    fn skip(&mut self, block: &[u8]) -> Result<(), AllocError>
        requires begun { self.old.ended ≡ false }
        requires skips { self.old.skips ≡ true }
        requires none { self.old.held ≡ [] }
        ensures lines { (later : List ℕ) → OnOk result (lines_coming self.new later
            ≡ lines_coming self.old (block.now ++ later)) }
        ensures begun { self.new.ended ≡ false }
    {
        let at = place_of_lf(block);
        if at == block.len() {
            self.pass(at);
            return Ok(());
        }
        self.begin_behind(at);
        self.hold(&block[at + 1..])
    }

    fn pass(&mut self, count: usize)
        ensures { self.new ≡ record {
          held = self.old.held;
          limit = self.old.limit - count;
          skips = self.old.skips;
          ended = self.old.ended;
        } }
    {
        self.limit = self.limit.saturating_sub(count as u64);
    }

    // The first line of the range begins behind an LF at this place of the bytes that come.
    fn begin_behind(&mut self, at: usize)
        requires { self.old.held ≡ [] }
        ensures { self.new ≡ record {
          held = [];
          limit = self.old.limit - (at + 1);
          skips = false;
          ended = self.old.ended;
        } }
    {
        self.limit = self.limit.saturating_sub(at as u64).saturating_sub(1);
        self.skips = false;
    }

    fn hold(&mut self, block: &[u8]) -> Result<(), AllocError>
        requires { self.old.skips ≡ false }
        ensures held { OnOk result (self.new ≡ record {
          held = self.old.held ++ block.now;
          limit = self.old.limit;
          skips = false;
          ended = self.old.ended;
        }) }
        ensures begun { self.new.ended ≡ self.old.ended }
    {
        self.move_front();
        self.bytes.extend_from_slice(block)?;
        Ok(())
    }

    // Brings what is held to the front of the buffer. A line of many blocks stands there already.
    fn move_front(&mut self)
        ensures { self.new ≡ self.old }
    {
        if self.begin == 0 {
            return;
        }
        remove_front(&mut self.bytes, self.begin);
        self.clean -= self.begin;
        self.begin = 0;
    }

    /// Fills a batch with the rows of the next lines, and with none only where more bytes are wanted or no line comes.
    pub fn fill(
        &mut self,
        alloc: Global,
        delim: Delim,
        columns: &Columns,
        batch: &mut Batch,
    ) -> Result<(), AllocError>
        ensures rows { OnOk result ((later : List ℕ)
            → rows_of_lines columns.now delim (lines_coming self.old later)
            ≡ batch.new ++ rows_of_lines columns.now delim (lines_coming self.new later)) }
        ensures values { OnOk result (AreRows batch.new) }
        ensures dry { OnOk result (batch.new ≡ [] → IsDry self.new) }
        ensures ended { self.new.ended ≡ self.old.ended }
    {
        batch.clear();
        'lines: while batch.as_slice().len() < BATCH_ROWS {
            if !self.add_line(alloc, delim, columns, batch)? {
                return Ok(());
            }
        }
        Ok(())
    }

    // Adds the row of the next line, if there is one.
    fn add_line(
        &mut self,
        alloc: Global,
        delim: Delim,
        columns: &Columns,
        batch: &mut Batch,
    ) -> Result<bool, AllocError>
        ensures rows { OnOk result ((later : List ℕ)
            → batch.old ++ rows_of_lines columns.now delim (lines_coming self.old later)
            ≡ batch.new ++ rows_of_lines columns.now delim (lines_coming self.new later)) }
        ensures values { AreRows batch.old → OnOk result (AreRows batch.new) }
        ensures one { IfOk result (λ b. b ≡ true → length batch.new ≡ length batch.old + 1) }
        ensures none { IfOk result (λ b. b ≡ false → IsDry self.new) }
        ensures ended { self.new.ended ≡ self.old.ended }
    {
        rows_are_of_their_kinds();
        let Some(found) = self.seek() else {
            return Ok(false);
        };
        let line = known_bytes(without_cr(self.first_bytes(found.end)));
        batch.push_line(alloc, line, delim, columns)?;
        self.go_on(found.next);
        Ok(true)
    }

    // Where the next line ends and the one behind it begins, of the bytes that are held.
    fn seek(&mut self) -> Option<Found>
        ensures same { self.new ≡ self.old }
        ensures found { IfSome result (λ f. IsFound self.old f) }
        ensures end { IfSome result (λ f. f.end ≤ length self.old.held) }
        ensures next { IfSome result (λ f. f.next ≤ length self.old.held) }
        ensures skips { IfSome result (λ f. self.old.skips ≡ false) }
        ensures none { IsNone result → IsDry self.old }
    {
        if !self.may_find() {
            return None;
        }
        let end = self.find();
        if end < self.held_len() {
            return Some(Found { end, next: end + 1 });
        }
        if self.has_ended() {
            return Some(Found { end, next: end });
        }
        None
    }

    // Where the first LF is, of the bytes that are held.
    fn find(&mut self) -> usize
        ensures same { self.new ≡ self.old }
        ensures is { result ≡ lf_in self.old.held }
        ensures within { result ≤ length self.old.held }
    {
        let place = self.clean + place_of_lf(&self.bytes[self.clean..]);
        self.clean = place;
        place - self.begin
    }

    // Whether bytes are held of lines that start within the range.
    fn may_find(&self) -> bool
        ensures skips { IsTrue result → self.now.skips ≡ false }
        ensures limit { IsTrue result → 0 < self.now.limit }
        ensures here { IsTrue result → 0 < length self.now.held }
        ensures none { IsFalse result → IsDry self.now }
    {
        if self.skips() {
            return false;
        }
        if self.limit() == 0 {
            return false;
        }
        if self.held_len() == 0 {
            return false;
        }
        true
    }

    fn skips(&self) -> bool
        ensures is { result ≡ self.now.skips }
        ensures none { result ≡ true → self.now.held ≡ [] }
    {
        self.skips
    }

    /// Whether no bytes of the piece are left, so that none may be handed in.
    pub fn has_ended(&self) -> bool
        ensures { result ≡ self.now.ended }
    {
        self.ended
    }

    fn held_len(&self) -> usize
        ensures { result ≡ length self.now.held }
    {
        self.bytes.len() - self.begin
    }

    fn first_bytes(&self, count: usize) -> &[u8]
        requires { count ≤ length self.now.held }
        ensures { result.now ≡ take count self.now.held }
    {
        &self.bytes[self.begin..self.begin + count]
    }

    // Lets the first bytes go that are held.
    fn go_on(&mut self, count: usize)
        requires within { count ≤ length self.old.held }
        requires skips { self.old.skips ≡ false }
        ensures { self.new ≡ record {
          held = drop count self.old.held;
          limit = self.old.limit - count;
          skips = false;
          ended = self.old.ended;
        } }
    {
        self.begin += count;
        self.clean = self.begin;
        self.limit = self.limit.saturating_sub(count as u64);
    }
}

// Where a line ends, and where the one behind it begins, of bytes.
#[derive(Clone, Copy, Drop)]
struct Found {
    end: usize,
    next: usize,
}

// The place of the first LF, or the end of the bytes.
fn place_of_lf(bytes: &[u8]) -> usize
    ensures is { result ≡ lf_in bytes.now }
    ensures within { result ≤ length bytes.now }
{
    match bytes.find_byte(b'\n') {
        Some(at) => at,
        None => bytes.len(),
    }
}

// The bytes without the one CR at their end.
fn without_cr(line: &[u8]) -> &[u8]
    ensures { result.now ≡ strip_carriage_return line.now }
{
    match line {
        [front @ .., b'\r'] => front,
        _ => line,
    }
}

// Takes so many bytes off the front.
fn remove_front(bytes: &mut Vec<u8>, count: usize)
    requires { count ≤ length bytes.old.items }
    ensures { bytes.new.items ≡ drop count bytes.old.items }
{
    let length = bytes.len();
    bytes.copy_within(count..length, 0);
    bytes.truncate(length - count);
}
