use pig_syntax::{GroupInput, JoinInput, Op, Stmt};
use pig_value::Text;
use std::alloc::{AllocError, Global};
use std::collections::HashMap;

// The last statement that names each alias. The columns of what no later statement names can go.
//
// No contract speaks of it: to ask for columns that are gone is want of memory.
#[derive(Drop)]
pub struct Lasting {
    last: HashMap<String, u32>,
}

impl Lasting {
    // That of these statements, which are numbered from 1.
    pub fn of(alloc: Global, stmts: &[Stmt]) -> Result<Lasting, AllocError> {
        let mut last = HashMap::new(alloc);
        let mut number: u32 = 0;
        for stmt in stmts {
            number = number.saturating_add(1);
            note_all(alloc, &mut last, number, stmt)?;
        }
        Ok(Lasting { last })
    }

    // The aliases that a statement names or gives, and that no later one names.
    pub fn ended_by<'s>(
        &self,
        alloc: Global,
        number: u32,
        stmt: &'s Stmt,
    ) -> Result<Vec<&'s Text>, AllocError> {
        let mut ended = Vec::new(alloc);
        for alias in named_by(alloc, stmt)?.as_slice() {
            self.add_ended(&mut ended, number, *alias)?;
        }
        for alias in given_by(alloc, stmt)?.as_slice() {
            self.add_ended(&mut ended, number, *alias)?;
        }
        Ok(ended)
    }

    fn add_ended<'s>(
        &self,
        ended: &mut Vec<&'s Text>,
        number: u32,
        alias: &'s Text,
    ) -> Result<(), AllocError> {
        if self.ends(number, alias) {
            ended.push(alias)?;
        }
        Ok(())
    }

    // Whether no statement behind that of the number names the alias.
    fn ends(&self, number: u32, alias: &Text) -> bool {
        match self.last.get(alias.as_str()) {
            Some(last) => *last <= number,
            None => true,
        }
    }
}

fn note_all(
    alloc: Global,
    last: &mut HashMap<String, u32>,
    number: u32,
    stmt: &Stmt,
) -> Result<(), AllocError> {
    for alias in named_by(alloc, stmt)?.as_slice() {
        let alias = String::from_str(alloc, alias.as_str())?;
        last.insert(alias, number)?;
    }
    Ok(())
}

// The aliases that a statement names.
fn named_by(alloc: Global, stmt: &Stmt) -> Result<Vec<&Text>, AllocError> {
    match stmt {
        Stmt::Assign { op, .. } => named_in(alloc, op),
        Stmt::Split { from, .. } | Stmt::Store { from, .. } | Stmt::Assert { from, .. } => {
            only(alloc, from)
        }
        Stmt::Empty | Stmt::Unsupported => Ok(Vec::new(alloc)),
    }
}

fn named_in(alloc: Global, op: &Op) -> Result<Vec<&Text>, AllocError> {
    match op {
        Op::Load { .. } => Ok(Vec::new(alloc)),
        Op::Union { from, .. } => each(alloc, from.as_slice()),
        Op::Group { inputs, .. } => each_grouped(alloc, inputs.as_slice()),
        Op::Join { inputs, .. } => each_joined(alloc, inputs.as_slice()),
        Op::Filter { from, .. }
        | Op::Foreach { from, .. }
        | Op::GroupAll { from, .. }
        | Op::Distinct { from }
        | Op::Order { from, .. }
        | Op::Limit { from, .. }
        | Op::Cube { from, .. }
        | Op::Rank { from, .. } => only(alloc, from),
    }
}

// The aliases that a statement gives.
fn given_by(alloc: Global, stmt: &Stmt) -> Result<Vec<&Text>, AllocError> {
    match stmt {
        Stmt::Assign { alias, .. } => only(alloc, alias),
        Stmt::Split {
            branches,
            otherwise,
            ..
        } => {
            let mut aliases = Vec::new(alloc);
            for branch in branches.as_slice() {
                aliases.push(&branch.alias)?;
            }
            if let Some(alias) = otherwise {
                aliases.push(alias)?;
            }
            Ok(aliases)
        }
        Stmt::Store { .. } | Stmt::Assert { .. } | Stmt::Empty | Stmt::Unsupported => {
            Ok(Vec::new(alloc))
        }
    }
}

fn only(alloc: Global, alias: &Text) -> Result<Vec<&Text>, AllocError> {
    let mut aliases = Vec::new(alloc);
    aliases.push(alias)?;
    Ok(aliases)
}

fn each(alloc: Global, from: &[Text]) -> Result<Vec<&Text>, AllocError> {
    let mut aliases = Vec::with_capacity(alloc, from.len())?;
    for alias in from {
        aliases.push(alias)?;
    }
    Ok(aliases)
}

fn each_grouped(alloc: Global, inputs: &[GroupInput]) -> Result<Vec<&Text>, AllocError> {
    let mut aliases = Vec::with_capacity(alloc, inputs.len())?;
    for input in inputs {
        aliases.push(&input.from)?;
    }
    Ok(aliases)
}

fn each_joined(alloc: Global, inputs: &[JoinInput]) -> Result<Vec<&Text>, AllocError> {
    let mut aliases = Vec::with_capacity(alloc, inputs.len())?;
    for input in inputs {
        aliases.push(&input.from)?;
    }
    Ok(aliases)
}
