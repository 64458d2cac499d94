//! Reads the tokens of one line: the head of a certificate, the name of a part, or an item.

ghost use Rattle.std.specs.Prelude.{◌≡◌, ◌<◌, ◌≤◌, IfSome};
ghost use Rattle.std.specs.Option.{ForSome};
ghost use Rattle.cert_text.specs.Lines as lines;

use crate::token::Token;
use cert_core::{Form, MAX_COUNTER, MAX_VARS, Part};
use clause_core::Lit;

/// What the first line of a certificate says.
#[derive(Clone, Copy, PartialEq, Eq, Debug)]
pub struct Head {
    /// How the steps are judged.
    pub form: Form,
    /// The specification's number, counted from 1.
    pub spec: usize,
    /// Up to how many signals were counted.
    pub counter: Option<usize>,
}

// The number that the word is.
fn number_in(t: Token) -> Option<usize>
    ensures { result ≡ lines.number_in t }
{
    match t {
        Token::Number(n) => Some(n),
        _ => None,
    }
}

pub(crate) fn is_zero(t: Token) -> bool
    ensures { result ≡ lines.is_zero t }
{
    match t {
        Token::Number(n) => n == 0,
        _ => false,
    }
}

fn literal(n: usize, positive: bool) -> Option<Lit>
    ensures says { result ≡ lines.literal n positive }
    ensures within { IfSome result (λ l. l.var < MAX_VARS) }
{
    if n <= MAX_VARS {
        Some(Lit::new(n.saturating_sub(1), positive))
    } else {
        None
    }
}

pub(crate) fn literal_of(t: Token) -> Option<Lit>
    ensures says { result ≡ lines.literal_of t }
    ensures within { IfSome result (λ l. l.var < MAX_VARS) }
{
    match t {
        Token::Number(n) => literal(n, true),
        Token::Negative(n) => literal(n, false),
        _ => None,
    }
}

pub(crate) fn hint_of(t: Token) -> Option<usize>
    ensures { result ≡ lines.hint_of t }
{
    match t {
        Token::Number(n) => Some(n.saturating_sub(1)),
        Token::Past => Some(usize::MAX),
        _ => None,
    }
}

fn form_of(n: Option<usize>) -> Option<Form>
    ensures { result ≡ lines.form_of n }
{
    match n {
        None => None,
        Some(n) => {
            if n == 1 {
                Some(Form::Plain)
            } else if n == 2 {
                Some(Form::Hinted)
            } else {
                None
            }
        }
    }
}

fn counter_of(t: Token) -> Option<Option<usize>>
    ensures says { result ≡ lines.counter_of t }
    ensures small { IfSome result (λ o. ForSome o (λ k. k ≤ MAX_COUNTER)) }
{
    match t {
        Token::NoCounter => Some(None),
        Token::Number(n) => {
            if n <= MAX_COUNTER {
                Some(Some(n))
            } else {
                None
            }
        }
        _ => None,
    }
}

fn is_spec(t: Token) -> bool
    ensures { result ≡ lines.is_spec t }
{
    matches!(t, Token::Spec)
}

fn is_counter(t: Token) -> bool
    ensures { result ≡ lines.is_counter t }
{
    matches!(t, Token::Counter)
}

fn head_from(
    form: Option<Form>,
    spec: Option<usize>,
    counter: Option<Option<usize>>,
) -> Option<Head>
    requires { IfSome counter (λ o. ForSome o (λ k. k ≤ MAX_COUNTER)) }
    ensures says { result ≡ lines.head_from form spec counter }
    ensures small { IfSome result (λ h. ForSome h.counter (λ k. k ≤ MAX_COUNTER)) }
{
    let form = form?;
    let spec = spec?;
    let counter = counter?;
    Some(Head {
        form,
        spec,
        counter,
    })
}

// What the words behind `cert` say.
pub(crate) fn head_in(tokens: &[Token]) -> Option<Head>
    ensures says { result ≡ lines.head_of tokens.now }
    ensures small { IfSome result (λ h. ForSome h.counter (λ k. k ≤ MAX_COUNTER)) }
{
    let [form, spec, i, counter, k] = tokens else {
        return None;
    };
    if is_spec(*spec) && is_counter(*counter) {
        head_from(form_of(number_in(*form)), number_in(*i), counter_of(*k))
    } else {
        None
    }
}

fn part_named(name: Token, n: usize) -> Option<Part>
    ensures { result ≡ lines.part_named name n }
{
    match name {
        Token::Shared => { if n == 0 { Some(Part::Shared) } else { None } }
        Token::First => {
            if n == 0 {
                None
            } else {
                Some(Part::First(n - 1))
            }
        }
        Token::Kept => {
            if n == 0 {
                None
            } else {
                Some(Part::Kept(n - 1))
            }
        }
        Token::Safe => { if n == 0 { Some(Part::Safe) } else { None } }
        _ => None,
    }
}

// The part that the words behind `part` name, in a certificate.
pub(crate) fn part_in(tokens: &[Token]) -> Option<Part>
    ensures { result ≡ lines.part_of_words tokens.now }
{
    let [name, n] = tokens else {
        return None;
    };
    let n = number_in(*n)?;
    part_named(*name, n)
}

fn item_named(name: Token, n: Option<usize>) -> Option<usize>
    ensures { result ≡ lines.item_named name n }
{
    match name {
        Token::Item => n,
        _ => None,
    }
}

// The item that the words behind `part` name, in a sound block.
pub(crate) fn item_in(tokens: &[Token]) -> Option<usize>
    ensures { result ≡ lines.item_of_words tokens.now }
{
    let [name, n] = tokens else {
        return None;
    };
    item_named(*name, number_in(*n))
}
