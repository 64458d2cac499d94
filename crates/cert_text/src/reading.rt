//! Reads the certificate lines of a text one after another: the block that is open, and those
//! complete so far.

ghost use Rattle.std.specs.Prelude.{◌≡◌, ◌==◌, ◌&&◌, ◌∷◌, [], IfOk, IfSome, MatchOption, None, Some, length, slice_set};
ghost use Rattle.std.specs.Bool.{OnTrue};
ghost use Rattle.std.specs.Option.{is_none, option_map};
ghost use Rattle.clause_core.specs.Literals.{Within};
ghost use Rattle.cert_core.specs.Blocks.{HintsFit};
ghost use Rattle.cert_text.specs.Lines.{alone, literals_of, step_of, head_of};
ghost use Rattle.cert_text.specs.Open.{Makes};
ghost use Rattle.cert_text.specs.Reading as reading;

use crate::line::{head_in, item_in, part_in};
use crate::open::OpenCertificate;
use crate::open_sound::OpenSound;
use crate::scan::{hints, literals, tokens};
use crate::token::Token;
use cert_core::{Certificate, Form, MAX_VARS, Sound};
use clause_core::Lit;
use std::alloc::{AllocError, Global};
use std::marker::Model;
use std::mem;

/// The block that is being read.
#[derive(Drop)]
pub enum Open {
    /// None is open.
    Nothing,
    /// A certificate.
    Certificate(OpenCertificate),
    /// A sound block.
    Sound(OpenSound),
}

// A step and its hints.
#[derive(Drop)]
struct StepRead {
    lits: Vec<Lit>,
    hints: Vec<usize>,
}

fn is_closed(block: &Open) -> bool
    ensures says { result ≡ reading.is_closed block.now }
    ensures nothing { OnTrue result (block.now ≡ reading.nothing) }
{
    match block {
        Open::Nothing => true,
        Open::Certificate(_) => false,
        Open::Sound(_) => false,
    }
}

fn is_free(certificates: &[Option<Certificate>], n: usize) -> bool
    ensures { result ≡ reading.is_free certificates.now n }
{
    if n == 0 || n > certificates.len() {
        return false;
    }
    certificates[n - 1].is_none()
}

// The clause that the words are, up to a zero with which they end.
fn clause_in(alloc: Global, words: &[Token]) -> Result<Option<Vec<Lit>>, AllocError>
    ensures says { IfOk result (λ o. option_map (λ v. v.items) o ≡ alone (literals_of words.now)) }
    ensures within { IfOk result (λ o. IfSome o (λ v. Within MAX_VARS v.items)) }
{
    match literals(alloc, words)? {
        None => Ok(None),
        Some(found) => {
            if found.words == words.len() {
                Ok(Some(found.lits))
            } else {
                Ok(None)
            }
        }
    }
}

// The step that the words are, in a block of this form.
fn step_in(alloc: Global, form: Form, words: &[Token]) -> Result<Option<StepRead>, AllocError>
    ensures says { IfOk result (λ o. MatchOption o (step_of form words.now ≡ None) (λ s. step_of form words.now ≡ Some record { lits = s.lits.items; hints = s.hints.items })) }
    ensures within { IfOk result (λ o. IfSome o (λ s. Within MAX_VARS s.lits.items)) }
    ensures hints { IfOk result (λ o. IfSome o (λ s. HintsFit form (s.hints.items ∷ []))) }
{
    let Some(found) = literals(alloc, words)? else {
        return Ok(None);
    };
    let lits = found.lits;
    let rest = &words[found.words..];
    match form {
        Form::Plain => {
            if rest.is_empty() {
                let hints = Vec::new(alloc);
                Ok(Some(StepRead { lits, hints }))
            } else {
                Ok(None)
            }
        }
        Form::Hinted => match hints(alloc, rest)? {
            None => Ok(None),
            Some(hints) => Ok(Some(StepRead { lits, hints })),
        },
    }
}

// Reads a clause in the block that is open.
fn add_clause(block: &mut Open, c: &[Lit]) -> Result<bool, AllocError>
    requires { Within MAX_VARS c.now }
    ensures { IfOk result (Makes (reading.clause_added block.old (Some c.now)) block.new) }
{
    match block {
        Open::Nothing => Ok(false),
        Open::Certificate(open) => open.add_clause(c),
        Open::Sound(_) => Ok(false),
    }
}

// Reads the line of a part in the block that is open.
fn add_part(alloc: Global, block: &mut Open, words: &[Token]) -> bool
    ensures { Makes (reading.part_added block.old words.now) block.new result }
{
    match block {
        Open::Nothing => false,
        Open::Certificate(open) => match part_in(words) {
            None => false,
            Some(part) => open.begin(alloc, part),
        },
        Open::Sound(open) => match item_in(words) {
            None => false,
            Some(item) => open.begin(alloc, item),
        },
    }
}

// Reads a step in the block that is open.
fn add_step(alloc: Global, block: &mut Open, words: &[Token]) -> Result<bool, AllocError>
    ensures { IfOk result (Makes (reading.step_added block.old words.now) block.new) }
{
    match block {
        Open::Nothing => Ok(false),
        Open::Certificate(open) => match step_in(alloc, open.form(), words)? {
            None => Ok(false),
            Some(step) => open.add_step(&step.lits, &step.hints),
        },
        Open::Sound(open) => match step_in(alloc, Form::Plain, words)? {
            None => Ok(false),
            Some(step) => open.add_step(&step.lits, &step.hints),
        },
    }
}

/// What was read of a text so far.
#[derive(Drop)]
pub struct Reading {
    sound: Option<Sound>,
    certificates: Vec<Option<Certificate>>,
    block: Open,
}

impl Model for Reading {
    ghost use Rattle.cert_text.specs.Reading.{ReadSoFar};

    ghost Value = { ReadSoFar };

    ghost view = { λ r. record { sound = r.sound; certificates = r.certificates.items; block = r.block } };
}

// The block that is being read from here on.
fn begin_block(block: &mut Open, begun: Open)
    ensures { block.new ≡ begun }
{
    drop(mem::replace(block, begun));
}

// The certificate of the specification at this place.
fn put_certificate(certificates: &mut [Option<Certificate>], at: usize, certificate: Certificate)
    ensures { certificates.new ≡ slice_set certificates.old at (Some certificate) }
{
    if at < certificates.len() {
        drop(mem::replace(&mut certificates[at], Some(certificate)));
    } else {
        drop(certificate);
    }
}

fn put_sound(sound: &mut Option<Sound>, block: Sound)
    ensures { sound.new ≡ Some block }
{
    *sound = Some(block);
}

fn is_mark(t: Token) -> bool
    ensures { result ≡ reading.is_mark t }
{
    matches!(t, Token::Mark)
}

impl Reading {
    /// Nothing was read, of a text for so many specifications.
    pub fn new(alloc: Global, specs: usize) -> Result<Reading, AllocError>
        ensures { IfOk result (λ r. r ≡ reading.nothing_read specs) }
    {
        let mut certificates = Vec::new(alloc);
        for spec in 0..specs {
            certificates.push(None)?;
        }
        Ok(Reading {
            sound: None,
            certificates,
            block: Open::Nothing,
        })
    }

    // Whether a certificate of the specification with this number may begin.
    fn takes_certificate(&self, spec: usize) -> bool
        ensures { result ≡ (reading.is_closed self.now.block && reading.is_free self.now.certificates spec) }
    {
        is_closed(&self.block) && is_free(&self.certificates, spec)
    }

    // Reads the first line of a certificate.
    fn begin_certificate(&mut self, alloc: Global, words: &[Token]) -> bool
        ensures { Makes (reading.certificate_begun self.old (head_of words.now)) self.new result }
    {
        let Some(head) = head_in(words) else {
            return false;
        };
        if !self.takes_certificate(head.spec) {
            return false;
        }
        let certificate = OpenCertificate::new(
            alloc,
            head.spec.saturating_sub(1),
            head.form,
            head.counter,
        );
        begin_block(&mut self.block, Open::Certificate(certificate));
        true
    }

    // Whether a sound block may begin with these words behind the first.
    fn takes_sound(&self, words: &[Token]) -> bool
        ensures { result ≡ (length words.now == 0 && (reading.is_closed self.now.block && is_none self.now.sound)) }
    {
        words.is_empty() && is_closed(&self.block) && self.sound.is_none()
    }

    // Reads the first line of a sound block.
    fn begin_sound(
        &mut self,
        alloc: Global,
        items: usize,
        words: &[Token],
    ) -> Result<bool, AllocError>
        ensures { IfOk result (Makes (reading.sound_begun items self.old words.now) self.new) }
    {
        if !self.takes_sound(words) {
            return Ok(false);
        }
        let sound = OpenSound::new(alloc, items)?;
        begin_block(&mut self.block, Open::Sound(sound));
        Ok(true)
    }

    // Reads the last line of a block.
    fn end(&mut self, alloc: Global) -> bool
        ensures { Makes (reading.block_closed self.old self.old.block) self.new result }
    {
        match mem::replace(&mut self.block, Open::Nothing) {
            Open::Nothing => false,
            Open::Certificate(open) => {
                let spec = open.spec();
                put_certificate(&mut self.certificates, spec, open.finish(alloc));
                true
            }
            Open::Sound(open) => {
                put_sound(&mut self.sound, open.finish(alloc));
                true
            }
        }
    }

    // Reads a line by the word behind its mark.
    fn add(
        &mut self,
        alloc: Global,
        items: usize,
        kind: Token,
        words: &[Token],
    ) -> Result<bool, AllocError>
        ensures { IfOk result (Makes (reading.line_added items self.old kind words.now) self.new) }
    {
        match kind {
            Token::Cert => Ok(self.begin_certificate(alloc, words)),
            Token::Sound => self.begin_sound(alloc, items, words),
            Token::Clause => match clause_in(alloc, words)? {
                None => Ok(false),
                Some(c) => add_clause(&mut self.block, &c),
            },
            Token::Part => Ok(add_part(alloc, &mut self.block, words)),
            Token::Step => add_step(alloc, &mut self.block, words),
            Token::End => Ok(words.is_empty() && self.end(alloc)),
            _ => Ok(false),
        }
    }

    // Reads a line as its words.
    fn add_words(
        &mut self,
        alloc: Global,
        items: usize,
        words: &[Token],
    ) -> Result<bool, AllocError>
        ensures { IfOk result (Makes (reading.added items self.old words.now) self.new) }
    {
        let [first, kind, rest @ ..] = words else {
            return Ok(false);
        };
        if is_mark(*first) {
            self.add(alloc, items, *kind, rest)
        } else {
            Ok(false)
        }
    }

    /// Reads a line, if it may stand here, of a text for so many items.
    pub fn add_line(&mut self, alloc: Global, items: usize, line: &[u8]) -> Result<bool, AllocError>
        ensures { IfOk result (Makes (reading.added_line items self.old line.now) self.new) }
    {
        match tokens(alloc, line)? {
            None => Ok(false),
            Some(words) => self.add_words(alloc, items, &words),
        }
    }

    /// Whether no block is open.
    pub fn is_closed(&self) -> bool
        ensures says { result ≡ reading.is_closed self.now.block }
        ensures nothing { OnTrue result (self.now.block ≡ reading.nothing) }
    {
        is_closed(&self.block)
    }

    /// The blocks that were read.
    pub fn finish(self) -> (Option<Sound>, Vec<Option<Certificate>>)
        ensures { (result.0 ≡ self.sound) × (result.1.items ≡ self.certificates) }
    {
        let Reading {
            sound,
            certificates,
            block,
        } = self;
        drop(block);
        (sound, certificates)
    }
}
