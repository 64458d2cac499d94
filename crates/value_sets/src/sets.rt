//! Sets of values.

ghost use Rattle.std.specs.Prelude.{◌≡◌, [], ◌∷◌, ◌++◌, IfOk};
ghost use Rattle.std.specs.List.{flat_map, list_all, list_any};
ghost use Rattle.smv_value.specs.Results.{same};
ghost use Rattle.value_types.specs.Types.{is_of_type};
ghost use Rattle.value_sets.specs.Members.{kept_values, only, run, span_values};

use crate::spans::{Span, all_of, only_of, some_has};
use smv_value::{Value, same};
use sqlite_items::Items;
use std::alloc::{AllocError, Global};
use std::marker::Model;
use value_types::ValueType;

/// The members of a set, in order. One value takes no memory of its own, and a run of integers is one span, however
/// long.
#[derive(Debug, Drop)]
pub struct ValueSet {
    members: Kept,
}

#[derive(Debug, Drop)]
enum Kept {
    One(Value),
    Spans(Items<Span>),
}

impl Model for ValueSet {
    ghost use Rattle.std.specs.Prelude.{List};
    ghost use Rattle.smv_value.specs.declared.value.Value.{Value as Member};
    ghost use Rattle.value_sets.specs.Members.{kept_values as members_of};

    ghost Value = { List Member };

    ghost view = { λ s. members_of s.members };
}

impl ValueSet {
    /// No member.
    pub fn none(alloc: Global) -> ValueSet
        ensures { result ≡ [] }
    {
        ValueSet {
            members: Kept::Spans(Items::new(alloc)),
        }
    }

    /// One value.
    pub fn one(v: Value) -> ValueSet
        ensures { result ≡ v ∷ [] }
    {
        ValueSet {
            members: Kept::One(v),
        }
    }

    /// The integers from the first to the last; none where the last is less.
    pub fn range(alloc: Global, low: i64, high: i64) -> Result<ValueSet, AllocError>
        ensures { IfOk result (λ s. s ≡ run low high) }
    {
        let mut spans = Items::new(alloc);
        spans.push(Span::Run(low, high))?;
        Ok(ValueSet {
            members: Kept::Spans(spans),
        })
    }

    /// The same members.
    pub fn copied(&self, alloc: Global) -> Result<ValueSet, AllocError>
        ensures { IfOk result (λ copy. copy ≡ self.now) }
    {
        match &self.members {
            Kept::One(v) => Ok(ValueSet {
                members: Kept::One(*v),
            }),
            Kept::Spans(spans) => {
                let copy = Items::from_slice(alloc, spans.as_slice())?;
                Ok(ValueSet {
                    members: Kept::Spans(copy),
                })
            }
        }
    }

    /// These members, and then those of another set.
    pub fn with(self, alloc: Global, more: &ValueSet) -> Result<ValueSet, AllocError>
        ensures { IfOk result (λ s. s ≡ self ++ more.now) }
    {
        let ValueSet { members } = self;
        let spans = spans_of(alloc, members)?;
        let all = spans_with(spans, &more.members)?;
        Ok(ValueSet {
            members: Kept::Spans(all),
        })
    }

    /// The only member, if there is just one.
    pub fn single(&self) -> Option<Value>
        ensures { result ≡ only self.now }
    {
        match &self.members {
            Kept::One(v) => Some(*v),
            Kept::Spans(spans) => only_of(spans.as_slice()),
        }
    }

    /// Whether the value is a member.
    pub fn contains(&self, v: Value) -> bool
        ensures { result ≡ list_any (same v) self.now }
    {
        match &self.members {
            Kept::One(w) => same(v, *w),
            Kept::Spans(spans) => some_has(spans.as_slice(), v),
        }
    }

    /// Whether each member is a value of the type. In an enumeration of n elements it takes at most n + 1 times n steps
    /// for a run of integers, however long, and else one for a run.
    pub fn is_of(&self, t: &ValueType) -> bool
        ensures { result ≡ list_all (λ v. is_of_type v t.now) self.now }
    {
        match &self.members {
            Kept::One(v) => t.contains(*v),
            Kept::Spans(spans) => all_of(spans.as_slice(), t),
        }
    }
}

fn spans_of(alloc: Global, members: Kept) -> Result<Items<Span>, AllocError>
    ensures { IfOk result (λ spans. flat_map span_values spans ≡ kept_values members) }
{
    match members {
        Kept::One(v) => {
            let mut spans = Items::new(alloc);
            spans.push(Span::One(v))?;
            Ok(spans)
        }
        Kept::Spans(spans) => Ok(spans),
    }
}

// The spans, and then those of more members.
fn spans_with(mut spans: Items<Span>, more: &Kept) -> Result<Items<Span>, AllocError>
    ensures { IfOk result (λ all. flat_map span_values all ≡ flat_map span_values spans ++ kept_values more.now) }
{
    match more {
        Kept::One(v) => {
            spans.push(Span::One(*v))?;
            Ok(spans)
        }
        Kept::Spans(more) => spans_behind(spans, more.as_slice()),
    }
}

fn spans_behind(mut spans: Items<Span>, more: &[Span]) -> Result<Items<Span>, AllocError>
    ensures { IfOk result (λ all. all ≡ spans ++ more.now) }
{
    for span in more {
        spans.push(*span)?;
    }
    Ok(spans)
}
