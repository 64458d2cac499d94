//! Prints certificates and sound blocks as comment lines of a model.

ghost use Rattle.std.specs.Prelude.{◌≡◌, ◌++◌, ◌<◌, IfOk, OnOk, All, None, Some, codes, slice_index_or, string_bytes};
ghost use Rattle.clause_core.specs.Literals.{Within};
ghost use Rattle.cert_core.specs.Blocks.{part_of};
ghost use Rattle.cert_core.specs.declared.form.Form.TheVariants.{Plain};
ghost use Rattle.cert_text.specs.Printed as printed;

use cert_core::{Certificate, Form, MAX_VARS, Part, Sound};
use clause_core::{Clauses, Lit};
use hinted_log::Hinted;
use plain_text::Text;
use std::alloc::{AllocError, Global};
use std::fmt::Write;

fn write_literal(out: &mut String, l: Lit) -> Result<(), AllocError>
    requires { l.var < MAX_VARS }
    ensures { OnOk result (string_bytes out.new ≡ string_bytes out.old ++ printed.literal_text l) }
{
    let n = l.var + 1;
    if l.positive {
        write!(out, "{n} ")
    } else {
        write!(out, "-{n} ")
    }
}

// Writes the literals, and the zero that ends them.
fn write_literals(out: &mut String, lits: &[Lit]) -> Result<(), AllocError>
    requires { Within MAX_VARS lits.now }
    ensures { OnOk result (string_bytes out.new ≡ string_bytes out.old ++ printed.literals_text lits.now) }
{
    for l in lits {
        write_literal(out, *l)?;
    }
    out.push_str("0")
}

fn write_hint(out: &mut String, h: usize) -> Result<(), AllocError>
    ensures { OnOk result (string_bytes out.new ≡ string_bytes out.old ++ printed.hint_text h) }
{
    let n = h as u128 + 1;
    write!(out, "{n} ")
}

// Writes the hints, and the zero that ends them.
fn write_hints(out: &mut String, hints: &[usize]) -> Result<(), AllocError>
    ensures { OnOk result (string_bytes out.new ≡ string_bytes out.old ++ printed.hints_text hints.now) }
{
    for h in hints {
        write_hint(out, *h)?;
    }
    out.push_str("0")
}

fn write_clause(out: &mut String, c: &[Lit]) -> Result<(), AllocError>
    requires { Within MAX_VARS c.now }
    ensures { OnOk result (string_bytes out.new ≡ string_bytes out.old ++ printed.clause_line_text c.now) }
{
    out.push_str("--% clause ")?;
    write_literals(out, c)?;
    out.push_str("\n")
}

fn write_hints_behind(out: &mut String, form: Form, hints: &[usize]) -> Result<(), AllocError>
    ensures { OnOk result (string_bytes out.new ≡ string_bytes out.old ++ printed.hints_behind form hints.now) }
{
    match form {
        Form::Plain => Ok(()),
        Form::Hinted => {
            out.push_str(" ")?;
            write_hints(out, hints)
        }
    }
}

fn write_step(out: &mut String, form: Form, step: &[Lit], hints: &[usize]) -> Result<(), AllocError>
    requires { Within MAX_VARS step.now }
    ensures { OnOk result (string_bytes out.new ≡ string_bytes out.old ++ printed.step_line_text form step.now hints.now) }
{
    out.push_str("--% step ")?;
    write_literals(out, step)?;
    write_hints_behind(out, form, hints)?;
    out.push_str("\n")
}

fn write_clauses(out: &mut String, clauses: &Clauses) -> Result<(), AllocError>
    requires { All (Within MAX_VARS) clauses.now }
    ensures { OnOk result (string_bytes out.new ≡ string_bytes out.old ++ printed.clauses_text clauses.now) }
{
    for k in 0..clauses.len() {
        write_clause(out, clauses.get(k))?;
    }
    Ok(())
}

fn write_steps(out: &mut String, form: Form, log: &Hinted) -> Result<(), AllocError>
    requires { All (Within MAX_VARS) log.now.steps }
    ensures { OnOk result (string_bytes out.new ≡ string_bytes out.old ++ printed.steps_text form log.now.steps log.now.hints) }
{
    let steps = log.steps();
    for k in 0..steps.len() {
        write_step(out, form, steps.get(k), log.hints(k))?;
    }
    Ok(())
}

fn write_part(
    out: &mut String,
    form: Form,
    name: &str,
    n: usize,
    log: &Hinted,
) -> Result<(), AllocError>
    requires { All (Within MAX_VARS) log.now.steps }
    ensures { OnOk result (string_bytes out.new ≡ string_bytes out.old ++ printed.part_text form name.now n (Some log.now)) }
{
    write!(out, "--% part {name} {n}\n")?;
    write_steps(out, form, log)
}

fn write_counter(out: &mut String, counter: Option<usize>) -> Result<(), AllocError>
    ensures { OnOk result (string_bytes out.new ≡ string_bytes out.old ++ printed.counter_text counter) }
{
    match counter {
        None => out.push_str("none"),
        Some(k) => write!(out, "{k}"),
    }
}

fn form_name(form: Form) -> &'static str
    ensures { result.now ≡ printed.form_text form }
{
    match form {
        Form::Plain => "1",
        Form::Hinted => "2",
    }
}

fn write_head(out: &mut String, spec: usize, cert: &Certificate) -> Result<(), AllocError>
    ensures { OnOk result (string_bytes out.new ≡ string_bytes out.old ++ printed.head_text spec cert.now) }
{
    let form = form_name(cert.form());
    write!(out, "--% cert {form} spec {spec} counter ")?;
    write_counter(out, cert.counter())?;
    out.push_str("\n")
}

// Writes the part, if it is there.
fn write_numbered(
    out: &mut String,
    cert: &Certificate,
    part: Part,
    name: &str,
    n: usize,
) -> Result<(), AllocError>
    ensures { OnOk result (string_bytes out.new ≡ string_bytes out.old ++ printed.part_text cert.now.form name.now n (part_of cert.now part)) }
{
    match cert.steps(part) {
        None => Ok(()),
        Some(log) => write_part(out, cert.form(), name, n, log),
    }
}

fn write_first(out: &mut String, cert: &Certificate) -> Result<(), AllocError>
    ensures { OnOk result (string_bytes out.new ≡ string_bytes out.old ++ printed.parts_text cert.now.form (codes "first") 1 cert.now.first) }
{
    cert.law();
    for k in 0..cert.clauses().len() {
        write_numbered(out, cert, Part::First(k), "first", k + 1)?;
    }
    Ok(())
}

fn write_kept(out: &mut String, cert: &Certificate) -> Result<(), AllocError>
    ensures { OnOk result (string_bytes out.new ≡ string_bytes out.old ++ printed.parts_text cert.now.form (codes "kept") 1 cert.now.kept) }
{
    cert.law();
    for k in 0..cert.clauses().len() {
        write_numbered(out, cert, Part::Kept(k), "kept", k + 1)?;
    }
    Ok(())
}

fn write_end(out: &mut String) -> Result<(), AllocError>
    ensures { OnOk result (string_bytes out.new ≡ string_bytes out.old ++ printed.end_text) }
{
    out.push_str("--% end\n")
}

fn write_all(out: &mut String, spec: usize, cert: &Certificate) -> Result<(), AllocError>
    ensures { OnOk result (string_bytes out.new ≡ string_bytes out.old ++ printed.certificate_text spec cert.now) }
{
    cert.law();
    write_head(out, spec, cert)?;
    write_clauses(out, cert.clauses())?;
    write_numbered(out, cert, Part::Shared, "shared", 0)?;
    write_first(out, cert)?;
    write_kept(out, cert)?;
    write_numbered(out, cert, Part::Safe, "safe", 0)?;
    write_end(out)?;
    Ok(())
}

fn write_item(out: &mut String, sound: &Sound, item: usize) -> Result<(), AllocError>
    ensures { OnOk result (string_bytes out.new ≡ string_bytes out.old ++ printed.part_text Plain (codes "item") item (slice_index_or sound.now item None)) }
{
    match sound.steps(item) {
        None => Ok(()),
        Some(log) => write_part(out, Form::Plain, "item", item, log),
    }
}

fn write_items(out: &mut String, sound: &Sound) -> Result<(), AllocError>
    ensures { OnOk result (string_bytes out.new ≡ string_bytes out.old ++ printed.parts_text Plain (codes "item") 0 sound.now) }
{
    for item in 0..sound.len() {
        write_item(out, sound, item)?;
    }
    Ok(())
}

/// The text of the certificate of specification number `spec`, counted from 1. The only error is out of memory.
pub fn print(alloc: Global, spec: usize, cert: &Certificate) -> Result<Text, AllocError>
    ensures { IfOk result (λ t. t ≡ printed.certificate_text spec cert.now) }
{
    let mut out = String::new(alloc);
    write_all(&mut out, spec, cert)?;
    Text::from_str(alloc, out.as_str())
}

/// The text of a sound block. The only error is out of memory.
pub fn print_sound(alloc: Global, sound: &Sound) -> Result<Text, AllocError>
    ensures { IfOk result (λ t. t ≡ printed.sound_text sound.now) }
{
    let mut out = String::new(alloc);
    out.push_str("--% sound\n")?;
    write_items(&mut out, sound)?;
    out.push_str("--% end\n")?;
    Text::from_str(alloc, out.as_str())
}
