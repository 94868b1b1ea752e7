use std::alloc::AllocError;
use std::cell::Cell;

/// The types and expressions of a statement nest less deep than this.
pub const MOST_NESTED: u32 = 65;

/// At most this many steps of one expression may nest its tree without a bracket: projections, look-ups, and
/// each WHEN of a CASE.
pub const MOST_STEPS: u32 = 1_024;

/// The copies of the operands of IN and CASE have at most this many nodes in one script.
///
/// A node is an operator, a choice, a call, a literal, a field, or a field that a projection takes. A cast's type counts by
/// its tokens.
pub const MOST_COPIED: u64 = 1_048_576;

/// The texts and names in these copies have at most this many bytes: 64 MiB.
pub const MOST_COPIED_BYTES: u64 = 67_108_864;

/// What trees take: their nodes, and the bytes of their texts and names.
#[derive(Clone, Copy)]
pub struct TreeSize {
    pub nodes: u64,
    pub bytes: u64,
}

impl TreeSize {
    fn none() -> TreeSize {
        TreeSize { nodes: 0, bytes: 0 }
    }

    fn and(self, more: TreeSize) -> TreeSize {
        TreeSize {
            nodes: self.nodes.saturating_add(more.nodes),
            bytes: self.bytes.saturating_add(more.bytes),
        }
    }

    /// What came behind an earlier size.
    pub fn since(self, before: TreeSize) -> TreeSize {
        TreeSize {
            nodes: self.nodes.saturating_sub(before.nodes),
            bytes: self.bytes.saturating_sub(before.bytes),
        }
    }
}

/// What a script has taken of the limits that no bracket sets. What is more is want of memory, which may come at any
/// time, so contracts need not say what the counts are.
#[derive(Drop)]
pub struct Limits {
    steps: Cell<u32>,
    made: Cell<TreeSize>,
    copied: Cell<TreeSize>,
}

impl Limits {
    /// Those of a script of which nothing is read yet.
    pub fn new() -> Limits {
        Limits {
            steps: Cell::new(0),
            made: Cell::new(TreeSize::none()),
            copied: Cell::new(TreeSize::none()),
        }
    }

    /// Counts steps from this number on, and gives the one so far.
    pub fn steps_from(&self, steps: u32) -> u32 {
        let before = self.steps.get();
        self.steps.set(steps);
        before
    }

    /// One more step that nests without a bracket.
    pub fn step(&self) -> Result<(), AllocError> {
        let steps = self.steps.get();
        if steps >= MOST_STEPS {
            return Err(AllocError);
        }
        self.steps.set(steps.saturating_add(1));
        Ok(())
    }

    /// One more node of a tree.
    pub fn node(&self) {
        self.nodes(1);
    }

    /// So many nodes more.
    pub fn nodes(&self, more: usize) {
        self.add(TreeSize {
            nodes: more as u64,
            bytes: 0,
        });
    }

    /// So many bytes of texts and names more.
    pub fn texts(&self, more: usize) {
        self.add(TreeSize {
            nodes: 0,
            bytes: more as u64,
        });
    }

    fn add(&self, more: TreeSize) {
        self.made.set(self.made.get().and(more));
    }

    /// The size of all trees so far; of their texts, those of copies.
    pub fn made(&self) -> TreeSize {
        self.made.get()
    }

    /// The size of all copies so far.
    pub fn copied(&self) -> TreeSize {
        self.copied.get()
    }

    /// Counts copies from this size on, where what was read behind it was read in vain, or is counted as a whole.
    pub fn forget_copies(&self, copied: TreeSize) {
        self.copied.set(copied);
    }

    /// A copy of this size.
    pub fn copy(&self, size: TreeSize) -> Result<(), AllocError> {
        let copied = self.copied.get().and(size);
        if copied.nodes > MOST_COPIED || copied.bytes > MOST_COPIED_BYTES {
            return Err(AllocError);
        }
        self.copied.set(copied);
        Ok(())
    }
}
