//! What the words of a command line ask for.

ghost use Rattle.std.specs.Prelude.{◌≡◌, map};
ghost use Rattle.trace_view.specs.Answers as answers;

use trace_lines::number_of;

/// A form in which a trace is shown.
#[derive(Clone, Copy, Debug, PartialEq, Eq)]
pub enum Form {
    Table,
    /// A value change dump.
    Vcd,
    /// A picture.
    Svg,
}

/// A form, and the specification of which the trace is to be shown; of all of them where none is named.
#[derive(Clone, Copy, Debug, PartialEq, Eq)]
pub struct Command {
    pub form: Form,
    pub spec: Option<usize>,
}

fn form_of(word: &str) -> Option<Form>
    ensures { result ≡ answers.form_of word.now }
{
    if word == "table" {
        Some(Form::Table)
    } else if word == "vcd" {
        Some(Form::Vcd)
    } else if word == "svg" {
        Some(Form::Svg)
    } else {
        None
    }
}

fn command_with(form: Option<Form>, spec: Option<usize>) -> Option<Command>
    ensures { result ≡ answers.command_with form spec }
{
    match form {
        None => None,
        Some(form) => Some(Command { form, spec }),
    }
}

fn numbered_command(form: Option<Form>, spec: Option<usize>) -> Option<Command>
    ensures { result ≡ answers.numbered_command form spec }
{
    match spec {
        None => None,
        Some(n) => command_with(form, Some(n)),
    }
}

/// What the words behind the program's name ask for: `table`, `vcd` or `svg`, and perhaps a number behind it. `None`:
/// they are not so.
pub fn command_of(words: &[&str]) -> Option<Command>
    ensures { result ≡ answers.command_of (map (λ w. w.now) words.now) }
{
    match words {
        [form] => command_with(form_of(form), None),
        [form, spec] => numbered_command(form_of(form), number_of(spec.as_bytes())),
        _ => None,
    }
}
