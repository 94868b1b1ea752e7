ghost use Rattle.std.specs.Prelude.{◌≡◌, ◌≤◌, ◌<◌, ◌+◌, ◌++◌, [], ◌∷◌, drop, length, map, take, IfOk, OnOk};
ghost use Rattle.std.specs.List.{list_all};
ghost use Rattle.std.specs.Option.{option_copied};
ghost use Rattle.pig_value.specs.FieldRows.{row_of};
ghost use Rattle.pig_value.specs.Trees.{row_tree, rows_tree, tree, v_chars, v_null};
ghost use Rattle.pig_typed.specs.Evaluation.{passes};
ghost use Rattle.pig_typed.specs.Typed.{typed};
ghost use Rattle.pig_plan.specs.Operators.{filter_rows};
ghost use Rattle.pig_stream.specs.WordRows.{rows_words, text_words, texts_rows, word_row};

use crate::words::{put_words, text_at};
use pig_eval::holds;
use pig_storage::line_row_over;
use pig_typed::TExpr;
use pig_value::{Columns, Delim, Rows, Seq, Text, Tuple, Value};
use std::alloc::{AllocError, Global};
use std::marker::Model;

// Rows in a list that may hold others behind them, whose memory serves for rows that come.
//
// Contracts see the rows.
#[derive(Drop)]
pub struct Buffer {
    rows: Vec<Tuple>,
    count: usize,
}

impl Model for Buffer {
    ghost use Rattle.std.specs.Prelude.{◌≤◌, List, length, take};
    ghost use Rattle.std.specs.Coded.{coded_list};
    ghost use Rattle.pig_value.specs.Trees.{Tree, rows_tree};
    ghost use Rattle.pig_value.specs.TreeCode.{coded_tree};

    ghost Value = { List (List Tree) };

    ghost coded = { coded_list (coded_list coded_tree) };

    ghost view = { λ b. rows_tree (take b.count b.rows.items) };

    ghost invariant = { λ b. b.count ≤ length b.rows.items };
}

impl Buffer {
    pub fn new(alloc: Global) -> Buffer
        ensures { result ≡ [] }
    {
        Buffer {
            rows: Vec::new(alloc),
            count: 0,
        }
    }

    // Rows that were made, without a copy.
    pub fn of(rows: Rows) -> Buffer
        ensures { result ≡ rows_tree rows }
    {
        let rows = rows.into_vec();
        let count = rows.len();
        Buffer { rows, count }
    }

    // The rows.
    pub fn as_slice(&self) -> &[Tuple]
        ensures { rows_tree result.now ≡ self.now }
    {
        &self.rows[..self.count]
    }

    // Leaves no rows, and their memory.
    pub fn clear(&mut self)
        ensures { self.new ≡ [] }
    {
        self.count = 0;
    }

    // Adds a row behind the others.
    pub fn push(&mut self, row: Tuple) -> Result<(), AllocError>
        ensures { OnOk result (self.new ≡ self.old ++ row_tree row ∷ []) }
    {
        if self.count < self.rows.len() {
            self.rows[self.count] = row;
        } else {
            self.rows.push(row)?;
        }
        self.count += 1;
        Ok(())
    }

    // Adds the row of a line at these columns, in the memory of a row that stood there before.
    pub fn push_line(
        &mut self,
        alloc: Global,
        line: &[u8],
        delim: Delim,
        columns: &Columns,
    ) -> Result<(), AllocError>
        ensures { OnOk result (self.new
            ≡ self.old ++ row_of columns.now delim line.now ∷ []) }
    {
        if self.count == self.rows.len() {
            self.rows.push(Seq::new(alloc))?;
        }
        line_row_over(alloc, line, delim, columns, &mut self.rows[self.count])?;
        self.count += 1;
        Ok(())
    }

    // A row for each word of a field of other rows, in the memory of the rows that stood here before.
    pub fn put_words(&mut self, alloc: Global, rows: &[Tuple], field: u32) -> Result<(), AllocError>
        ensures { OnOk result (self.new ≡ rows_words field (rows_tree rows.now)) }
    {
        self.clear();
        let mut words = Vec::new(alloc);
        for row in rows {
            self.push_words(alloc, text_at(row, field), &mut words)?;
        }
        Ok(())
    }

    fn push_words<'r>(
        &mut self,
        alloc: Global,
        text: Option<&'r Text>,
        words: &mut Vec<&'r str>,
    ) -> Result<(), AllocError>
        ensures { OnOk result (self.new ≡ self.old ++ text_words (option_copied text.entry)) }
    {
        match text {
            Some(text) => {
                put_words(text, words)?;
                self.push_texts(alloc, words.as_slice())
            }
            None => self.push(null_row(alloc)?),
        }
    }

    fn push_texts(&mut self, alloc: Global, texts: &[&str]) -> Result<(), AllocError>
        ensures { OnOk result (self.new ≡ self.old ++ texts_rows texts.now) }
    {
        for text in texts {
            self.push_text(alloc, text)?;
        }
        Ok(())
    }

    // Adds a row of one text, in the memory of a row that stood there before.
    fn push_text(&mut self, alloc: Global, text: &str) -> Result<(), AllocError>
        ensures { OnOk result (self.new ≡ self.old ++ word_row text.now ∷ []) }
    {
        if self.count == self.rows.len() {
            self.rows.push(Seq::new(alloc))?;
        }
        text_row_over(alloc, text, &mut self.rows[self.count])?;
        self.count += 1;
        Ok(())
    }

    // FILTER: the rows of which the condition is true, in their order. The others stay behind them.
    pub fn keep(&mut self, alloc: Global, cond: &TExpr) -> Result<(), AllocError>
        ensures { OnOk result (self.new ≡ filter_rows (typed cond.now) self.old) }
    {
        self.count = kept(alloc, cond, &mut self.rows, self.count)?;
        Ok(())
    }
}

fn null_row(alloc: Global) -> Result<Tuple, AllocError>
    ensures { IfOk result (λ row. row_tree row ≡ v_null ∷ []) }
{
    let mut row = Seq::with_capacity(alloc, 1)?;
    row.push(Value::Null)?;
    Ok(row)
}

// The row of one text in the place of another row.
fn text_row_over(alloc: Global, text: &str, row: &mut Tuple) -> Result<(), AllocError>
    ensures { OnOk result (row_tree row.new ≡ word_row text.now) }
{
    if row.len() != 1 {
        *row = text_row(alloc, text)?;
        return Ok(());
    }
    let old = row.replace(0, Value::Null);
    let value = text_over(alloc, text, old)?;
    drop(row.replace(0, value));
    Ok(())
}

fn text_row(alloc: Global, text: &str) -> Result<Tuple, AllocError>
    ensures { IfOk result (λ row. row_tree row ≡ word_row text.now) }
{
    let mut row = Seq::with_capacity(alloc, 1)?;
    row.push(Value::Chars(Text::from_str(alloc, text)?))?;
    Ok(row)
}

// A text in the memory of another one, where there is one.
fn text_over(alloc: Global, text: &str, old: Value) -> Result<Value, AllocError>
    ensures { IfOk result (λ v. tree v ≡ v_chars text.now) }
{
    let text = match old.into_text() {
        Some(old) => refilled(old, text)?,
        None => Text::from_str(alloc, text)?,
    };
    Ok(Value::Chars(text))
}

fn refilled(old: Text, text: &str) -> Result<Text, AllocError>
    ensures { IfOk result (λ t. t ≡ text.now) }
{
    let mut string = old.into_string();
    string.clear();
    string.push_str(text)?;
    Ok(Text::from_string(string))
}

// Brings those of the first rows of which the condition is true to the front, and counts them.
fn kept(
    alloc: Global,
    cond: &TExpr,
    rows: &mut Vec<Tuple>,
    count: usize,
) -> Result<usize, AllocError>
    requires { count ≤ length rows.old.items }
    ensures within { IfOk result (λ n. n ≤ count) }
    ensures length { length rows.new.items ≡ length rows.old.items }
    ensures rows { IfOk result (λ n. rows_tree (take n rows.new.items)
        ≡ filter_rows (typed cond.now) (rows_tree (take count rows.old.items))) }
{
    let mut front = 0;
    let mut next = 0;
    'rows: while next < count {
        front = moved(alloc, cond, rows, front, next)?;
        next += 1;
    }
    Ok(front)
}

// Moves a row behind those that are kept, where the condition is true of it.
fn moved(
    alloc: Global,
    cond: &TExpr,
    rows: &mut Vec<Tuple>,
    front: usize,
    next: usize,
) -> Result<usize, AllocError>
    requires before { front ≤ next }
    requires within { next < length rows.old.items }
    ensures before { IfOk result (λ n. n ≤ next + 1) }
    ensures length { length rows.new.items ≡ length rows.old.items }
    ensures kept { IfOk result (λ n. rows_tree (take n rows.new.items)
        ≡ rows_tree (take front rows.old.items)
        ++ filter_rows (typed cond.now) (rows_tree (take 1 (drop next rows.old.items)))) }
    ensures rest { drop (next + 1) rows.new.items ≡ drop (next + 1) rows.old.items }
{
    if !holds(alloc, cond, &rows[next])? {
        return Ok(front);
    }
    rows.swap(front, next);
    Ok(front + 1)
}

// Whether the condition is true of all rows.
pub fn all_pass(alloc: Global, cond: &TExpr, rows: &[Tuple]) -> Result<bool, AllocError>
    ensures { IfOk result (λ b. b ≡ list_all (passes (typed cond.now)) (rows_tree rows.now)) }
{
    let mut left = rows;
    'rows: while let [row, rest @ ..] = left {
        if !holds(alloc, cond, row)? {
            return Ok(false);
        }
        left = rest;
    }
    Ok(true)
}
