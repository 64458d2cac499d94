//! What is said of a specification.

use cert_core::{Certificate, Part};
use smv_tree::SpecificationKind;
use trace_replay::ReplayRule;

/// What is said of a specification, by its trace or its certificate.
#[derive(Drop)]
pub enum Judgement {
    /// The sound block shows that no item faults, and its certificate certifies: no run breaks it, and no lasso violates it. Where
    /// certificates are to be printed again, this is the one that is judged by hints.
    ShownTrue(Option<Certificate>),
    /// Its trace is that of a run that breaks it, or of a lasso that violates it.
    ShownFalse,
    /// The part of this item in the sound block, counted from 0, is the first that fails.
    ItemRejected(usize),
    /// This part of its certificate is the first that fails.
    PartRejected(Part),
    /// This test of its trace is the first that fails, at this number.
    TestRejected { rule: ReplayRule, number: usize },
    /// It has neither a trace nor a certificate.
    NothingShown,
}

/// What is said of the specification of this number, counted from 1.
#[derive(Drop)]
pub struct Record {
    pub number: usize,
    /// What kind of specification it is, for the line that is printed.
    pub kind: SpecificationKind,
    /// What its trace or its certificate shows.
    pub judgement: Judgement,
}
