//! What is told of outcomes.

ghost use Rattle.std.specs.Prelude.{◌≡◌, IfOk};

use bit_graph::Edge;
use bit_operators::{Discrete, Symbolic};
use sqlite_items::Items;
use std::alloc::{AllocError, Global};

/// What may be a member of a set.
#[derive(Debug, Drop)]
pub enum Which {
    /// The value of these edges.
    Value(Symbolic),
    /// Each integer from the first to the second.
    Run(i64, i64),
}

/// A member of a set, which is there where the edge is true.
#[derive(Debug, Drop)]
pub struct Member {
    pub present: Edge,
    pub which: Which,
}

/// What is told of an outcome.
#[derive(Debug, Drop)]
pub enum Told {
    /// Nothing, as of an instance, of a temporal operator, and of what is made of these.
    Untold,
    /// A fault where the edge is true, and else this one value.
    One(Edge, Symbolic),
    /// A fault where the edge is true, and else the values of these members.
    Set(Edge, Items<Member>),
}

/// The same value. The only error is running out of memory.
pub fn copied_value(alloc: Global, value: &Symbolic) -> Result<Symbolic, AllocError>
    ensures { IfOk result (λ r. r ≡ value.now) }
{
    match value {
        Symbolic::Boolean(edge) => Ok(Symbolic::Boolean(*edge)),
        Symbolic::Word { signed, bits } => {
            let bits = Items::from_slice(alloc, bits.as_slice())?;
            Ok(Symbolic::Word {
                signed: *signed,
                bits,
            })
        }
        Symbolic::Discrete(discrete) => {
            let copy = copied_discrete(alloc, discrete)?;
            Ok(Symbolic::Discrete(copy))
        }
    }
}

fn copied_discrete(alloc: Global, discrete: &Discrete) -> Result<Discrete, AllocError>
    ensures { IfOk result (λ r. r ≡ discrete.now) }
{
    let number = Items::from_slice(alloc, discrete.number.as_slice())?;
    let symbols = Items::from_slice(alloc, discrete.symbols.as_slice())?;
    let code = Items::from_slice(alloc, discrete.code.as_slice())?;
    Ok(Discrete {
        is_symbol: discrete.is_symbol,
        number,
        symbols,
        code,
    })
}

/// The same. The only error is running out of memory.
pub fn copied_which(alloc: Global, which: &Which) -> Result<Which, AllocError>
    ensures { IfOk result (λ r. r ≡ which.now) }
{
    match which {
        Which::Value(value) => {
            let copy = copied_value(alloc, value)?;
            Ok(Which::Value(copy))
        }
        Which::Run(low, high) => Ok(Which::Run(*low, *high)),
    }
}

/// The same member. The only error is running out of memory.
pub fn copied_member(alloc: Global, member: &Member) -> Result<Member, AllocError>
    ensures { IfOk result (λ r. r ≡ member.now) }
{
    let which = copied_which(alloc, &member.which)?;
    Ok(Member {
        present: member.present,
        which,
    })
}

/// The same members. The only error is running out of memory.
pub fn copied_members(alloc: Global, members: &[Member]) -> Result<Items<Member>, AllocError>
    ensures { IfOk result (λ r. r ≡ members.now) }
{
    let mut made = Items::new(alloc);
    'members: for i in 0..members.len() {
        let copy = copied_member(alloc, &members[i])?;
        made.push(copy)?;
    }
    Ok(made)
}

/// The same. The only error is running out of memory.
pub fn copied(alloc: Global, told: &Told) -> Result<Told, AllocError>
    ensures { IfOk result (λ r. r ≡ told.now) }
{
    match told {
        Told::Untold => Ok(Told::Untold),
        Told::One(fault, value) => {
            let value = copied_value(alloc, value)?;
            Ok(Told::One(*fault, value))
        }
        Told::Set(fault, members) => {
            let members = copied_members(alloc, members.as_slice())?;
            Ok(Told::Set(*fault, members))
        }
    }
}
