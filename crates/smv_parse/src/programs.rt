//! Sections, modules and programs, read from the front of tokens (NuSMV 2.6 User Manual, 2.3).

ghost use Rattle.std.specs.Prelude.{◌≡◌, false, Ok, IfOk};
ghost use Rattle.phrase_forms.specs.Forms.{token, many, maybe, to, head, ◌▹◌, ◌◃◌};
ghost use Rattle.smv_tree.specs.declared.tree.AssignmentKind.TheVariants as side;
ghost use Rattle.smv_tree.specs.declared.token.TokenKind.TheVariants as kind;
ghost use Rattle.std.specs.Option.{option_copied};
ghost use Rattle.smv_phrases.specs.Names.{just, identifier};
ghost use Rattle.smv_phrases.specs.Lists.{further, listed, maybe_listed, bracketed};
ghost use Rattle.smv_expressions.specs.Expressions.{most_levels};
ghost use Rattle.smv_parse.specs.Programs.{expression, definition, definitions, target, under_one, sided, left_side, assignment, assignments, formula, constrains, kind_asked, constraint, claims, kind_claimed, given_name, specification, section_form, parameter_of, module_form, program};
ghost use Rattle.smv_phrases.specs.Reading.{Gives};

use crate::declarations::{begins_variables, constants, declares, variables};
use crate::edges::{begins_identifier, followed_by, name_begins};
use crate::types::MOST_LEVELS;
use phrase_forms::Fault;
use smv_expressions::indexed;
use smv_phrases::{Stop, begins, identifier, is_kind, just, name, place_of};
use smv_tree::{
    Assignment, AssignmentKind, Constraint, ConstraintKind, Definition, Expr, Module, Parameter,
    Place, Program, Section, Specification, SpecificationKind, Token, TokenKind,
};
use sqlite_items::Items;
use std::alloc::{AllocError, Global};

/// So many levels may be open under one.
const UNDER_ONE: usize = 255;

/// So many selections may stand one over another, as `w[7:4][1:0]` has two and `a[i[1]][0]` three; of more the nodes
/// would stand too deep one in another.
const MOST_SELECTIONS: usize = 2000;

/// The left side of an assignment: its place, what it speaks of, and the variable.
type Left = (Place, AssignmentKind, Expr);

/// The expression of a section.
fn expression<'a>(alloc: Global, tokens: &'a [Token]) -> Result<(Expr, &'a [Token]), Stop<'a>>
    ensures { Gives (λ x. (x.0, x.1.now)) result ((expression 0).parse tokens.now) }
{
    smv_expressions::expression(alloc, MOST_LEVELS, tokens)
}

/// `:=` expression `;`
fn given_value<'a>(alloc: Global, tokens: &'a [Token]) -> Result<(Expr, &'a [Token]), Stop<'a>>
    ensures { Gives (λ x. (x.0, x.1.now)) result ((just kind.Becomes ▹ expression 0 ◃ just kind.Semicolon).parse tokens.now) }
{
    let (_, tokens) = just(TokenKind::Becomes, tokens)?;
    let (value, tokens) = expression(alloc, tokens)?;
    followed_by(TokenKind::Semicolon, value, tokens)
}

/// Identifier `:=` expression `;`
#[tactic(auto, unfolding(crate::specs::Programs::definition))]
fn definition<'a>(alloc: Global, tokens: &'a [Token]) -> Result<(Definition, &'a [Token]), Stop<'a>>
    ensures { Gives (λ x. (x.0, x.1.now)) result ((definition 0).parse tokens.now) }
{
    let (named, tokens) = identifier(tokens)?;
    let name = named.text.copy(alloc)?;
    let (body, tokens) = given_value(alloc, tokens)?;
    let definition = Definition {
        place: named.place,
        name,
        body,
    };
    Ok((definition, tokens))
}

/// As many definitions as there are.
fn many_definitions<'a>(
    alloc: Global,
    tokens: &'a [Token],
) -> Result<(Items<Definition>, &'a [Token]), Stop<'a>>
    ensures { Gives (λ x. (x.0, x.1.now)) result ((many (definition 0)).parse tokens.now) }
{
    let mut all = Items::new(alloc);
    let mut rest = tokens;
    'phrases: while begins_identifier(rest) {
        let (one, after) = definition(alloc, rest)?;
        all.push(one)?;
        rest = after;
    }
    Ok((all, rest))
}

/// `DEFINE` and its definitions.
#[tactic(auto, unfolding(crate::specs::Programs::definitions))]
fn definitions<'a>(alloc: Global, tokens: &'a [Token]) -> Result<(Section, &'a [Token]), Stop<'a>>
    ensures { Gives (λ x. (x.0, x.1.now)) result ((definitions 0).parse tokens.now) }
{
    let (_, tokens) = just(TokenKind::Define, tokens)?;
    let (definitions, tokens) = many_definitions(alloc, tokens)?;
    Ok((Section::Definitions(definitions), tokens))
}

/// A name and its indices, with its place.
fn target<'a>(
    alloc: Global,
    room: usize,
    tokens: &'a [Token],
) -> Result<((Place, Expr), &'a [Token]), Stop<'a>>
    ensures { Gives (λ x. ((x.0.0, x.0.1), x.1.now)) result ((target 0 room).parse tokens.now) }
{
    let (name, tokens) = name(alloc, tokens)?;
    let place = place_of(&name);
    let mut whole = Expr::Name(name);
    let mut rest = tokens;
    'indices: while begins(TokenKind::LeftBracket, rest) {
        let (more, after) = indexed(alloc, room, whole, rest)?;
        whole = more;
        rest = after;
    }
    Ok(((place, whole), rest))
}

/// `(` target `)`
fn enclosed_target<'a>(
    alloc: Global,
    tokens: &'a [Token],
) -> Result<((Place, Expr), &'a [Token]), Stop<'a>>
    ensures { Gives (λ x. ((x.0.0, x.0.1), x.1.now)) result ((just kind.LeftParen ▹ target 0 under_one ◃ just kind.RightParen).parse tokens.now) }
{
    let (_, tokens) = just(TokenKind::LeftParen, tokens)?;
    let (target, tokens) = target(alloc, UNDER_ONE, tokens)?;
    followed_by(TokenKind::RightParen, target, tokens)
}

/// Keyword `(` target `)`
fn sided<'a>(
    alloc: Global,
    keyword: TokenKind,
    kind: AssignmentKind,
    tokens: &'a [Token],
) -> Result<(Left, &'a [Token]), Stop<'a>>
    ensures { Gives (λ x. (x.0, x.1.now)) result ((sided 0 keyword kind).parse tokens.now) }
{
    let (first, tokens) = just(keyword, tokens)?;
    let ((_, target), tokens) = enclosed_target(alloc, tokens)?;
    Ok(((first.place, kind, target), tokens))
}

/// Target.
fn current_target<'a>(alloc: Global, tokens: &'a [Token]) -> Result<(Left, &'a [Token]), Stop<'a>>
    ensures { Gives (λ x. (x.0, x.1.now)) result ((to (λ x. (x.0, side.Current, x.1)) (target 0 most_levels)).parse tokens.now) }
{
    let ((place, target), tokens) = target(alloc, MOST_LEVELS, tokens)?;
    Ok(((place, AssignmentKind::Current, target), tokens))
}

/// Target, `init` `(` target `)`, or `next` `(` target `)`.
#[tactic(auto, using(crate::proofs::Choices::left_reads))]
fn left_side<'a>(alloc: Global, tokens: &'a [Token]) -> Result<(Left, &'a [Token]), Stop<'a>>
    ensures { Gives (λ x. (x.0, x.1.now)) result ((left_side 0).parse tokens.now) }
{
    if name_begins(tokens) {
        current_target(alloc, tokens)
    } else if begins(TokenKind::Init, tokens) {
        sided(alloc, TokenKind::Init, AssignmentKind::Init, tokens)
    } else {
        sided(alloc, TokenKind::Next, AssignmentKind::Next, tokens)
    }
}

/// Left side `:=` expression `;`
#[tactic(auto, unfolding(crate::specs::Programs::assignment))]
fn assignment<'a>(alloc: Global, tokens: &'a [Token]) -> Result<(Assignment, &'a [Token]), Stop<'a>>
    ensures { Gives (λ x. (x.0, x.1.now)) result ((assignment 0).parse tokens.now) }
{
    let ((place, kind, target), tokens) = left_side(alloc, tokens)?;
    let (value, tokens) = given_value(alloc, tokens)?;
    let assignment = Assignment {
        place,
        kind,
        target,
        value,
    };
    Ok((assignment, tokens))
}

/// Whether an assignment begins here.
#[tactic(auto, using(crate::proofs::Choices::assignment_begins))]
fn begins_assignment(tokens: &[Token]) -> bool
    ensures { result ≡ head (assignment 0).first tokens.now }
{
    name_begins(tokens) || begins(TokenKind::Init, tokens) || begins(TokenKind::Next, tokens)
}

/// As many assignments as there are.
fn many_assignments<'a>(
    alloc: Global,
    tokens: &'a [Token],
) -> Result<(Items<Assignment>, &'a [Token]), Stop<'a>>
    ensures { Gives (λ x. (x.0, x.1.now)) result ((many (assignment 0)).parse tokens.now) }
{
    let mut all = Items::new(alloc);
    let mut rest = tokens;
    'phrases: while begins_assignment(rest) {
        let (one, after) = assignment(alloc, rest)?;
        all.push(one)?;
        rest = after;
    }
    Ok((all, rest))
}

/// `ASSIGN` and its assignments.
#[tactic(auto, unfolding(crate::specs::Programs::assignments))]
fn assignments<'a>(alloc: Global, tokens: &'a [Token]) -> Result<(Section, &'a [Token]), Stop<'a>>
    ensures { Gives (λ x. (x.0, x.1.now)) result ((assignments 0).parse tokens.now) }
{
    let (_, tokens) = just(TokenKind::Assign, tokens)?;
    let (assignments, tokens) = many_assignments(alloc, tokens)?;
    Ok((Section::Assignments(assignments), tokens))
}

/// `;` or nothing.
fn maybe_semicolon(tokens: &[Token]) -> (Option<&Token>, &[Token])
    ensures { (maybe (just kind.Semicolon)).parse tokens.now ≡ Ok (option_copied result.0, result.1.now) }
{
    match tokens {
        [first, rest @ ..] if is_kind(TokenKind::Semicolon, first) => (Some(first), rest),
        _ => (None, tokens),
    }
}

/// Expression, and `;` or nothing.
#[tactic(auto, unfolding(crate::specs::Programs::formula))]
fn formula<'a>(alloc: Global, tokens: &'a [Token]) -> Result<(Expr, &'a [Token]), Stop<'a>>
    ensures { Gives (λ x. (x.0, x.1.now)) result ((formula 0).parse tokens.now) }
{
    let (formula, tokens) = expression(alloc, tokens)?;
    let (_, tokens) = maybe_semicolon(tokens);
    Ok((formula, tokens))
}

/// What a constraint behind this keyword speaks of.
fn kind_asked(keyword: TokenKind) -> Option<ConstraintKind>
    ensures { result ≡ kind_asked keyword }
{
    match keyword {
        TokenKind::InitSection => Some(ConstraintKind::Init),
        TokenKind::Invar => Some(ConstraintKind::Invar),
        TokenKind::Trans => Some(ConstraintKind::Trans),
        TokenKind::Justice => Some(ConstraintKind::Justice),
        TokenKind::Fairness => Some(ConstraintKind::Justice),
        _ => None,
    }
}

/// Whether the token is `INIT`, `INVAR`, `TRANS`, `JUSTICE` or `FAIRNESS`.
fn constrains(token: &Token) -> bool
    ensures { result ≡ constrains token.now }
{
    kind_asked(token.kind).is_some()
}

/// Whether a constraint begins here.
fn begins_constraint(tokens: &[Token]) -> bool
    ensures { result ≡ head constrains tokens.now }
{
    match tokens {
        [first, ..] => constrains(first),
        [] => false,
    }
}

/// `INIT`, `INVAR`, `TRANS`, `JUSTICE` or `FAIRNESS`.
fn constraining(tokens: &[Token]) -> Result<(&Token, &[Token]), Stop<'_>>
    ensures { Gives (λ x. (x.0.now, x.1.now)) result ((token false constrains).parse tokens.now) }
{
    match tokens {
        [first, rest @ ..] if constrains(first) => Ok((first, rest)),
        _ => Err(Stop::Refused(Fault::Unexpected, tokens)),
    }
}

/// `INIT`, `INVAR`, `TRANS`, `JUSTICE` or `FAIRNESS`, and a formula.
#[tactic(auto, unfolding(crate::specs::Programs::constraint))]
fn constraint<'a>(alloc: Global, tokens: &'a [Token]) -> Result<(Section, &'a [Token]), Stop<'a>>
    ensures { Gives (λ x. (x.0, x.1.now)) result ((constraint 0).parse tokens.now) }
{
    let (keyword, tokens) = constraining(tokens)?;
    let kind = kind_asked(keyword.kind).unwrap_or(ConstraintKind::Init);
    let (formula, tokens) = formula(alloc, tokens)?;
    let constraint = Constraint {
        place: keyword.place,
        kind,
        formula,
    };
    Ok((Section::Constraint(constraint), tokens))
}

/// `NAME` identifier `:=`
#[tactic(auto, unfolding(crate::specs::Programs::given_name))]
fn given_name(tokens: &[Token]) -> Result<(&Token, &[Token]), Stop<'_>>
    ensures { Gives (λ x. (x.0.now, x.1.now)) result (given_name.parse tokens.now) }
{
    let (_, tokens) = just(TokenKind::Name, tokens)?;
    let (name, tokens) = identifier(tokens)?;
    let (_, tokens) = just(TokenKind::Becomes, tokens)?;
    Ok((name, tokens))
}

/// A name with `NAME` for the specification behind it, which has no effect; or nothing.
#[tactic(auto, unfolding(crate::specs::Programs::given_name))]
fn maybe_given_name(tokens: &[Token]) -> Result<(Option<&Token>, &[Token]), Stop<'_>>
    ensures { Gives (λ x. (option_copied x.0, x.1.now)) result ((maybe given_name).parse tokens.now) }
{
    match tokens {
        [first, ..] if is_kind(TokenKind::Name, first) => {
            let (name, tokens) = given_name(tokens)?;
            Ok((Some(name), tokens))
        }
        _ => Ok((None, tokens)),
    }
}

/// What a specification behind this keyword claims.
fn kind_claimed(keyword: TokenKind) -> Option<SpecificationKind>
    ensures { result ≡ kind_claimed keyword }
{
    match keyword {
        TokenKind::Invarspec => Some(SpecificationKind::Invariant),
        TokenKind::Ltlspec => Some(SpecificationKind::Temporal),
        _ => None,
    }
}

/// Whether the token is `INVARSPEC` or `LTLSPEC`.
fn claims(token: &Token) -> bool
    ensures { result ≡ claims token.now }
{
    kind_claimed(token.kind).is_some()
}

/// `INVARSPEC` or `LTLSPEC`.
fn claiming(tokens: &[Token]) -> Result<(&Token, &[Token]), Stop<'_>>
    ensures { Gives (λ x. (x.0.now, x.1.now)) result ((token false claims).parse tokens.now) }
{
    match tokens {
        [first, rest @ ..] if claims(first) => Ok((first, rest)),
        _ => Err(Stop::Refused(Fault::Unexpected, tokens)),
    }
}

/// `INVARSPEC` or `LTLSPEC`, and a formula, with a name or without.
#[tactic(auto, unfolding(crate::specs::Programs::specification))]
fn specification<'a>(alloc: Global, tokens: &'a [Token]) -> Result<(Section, &'a [Token]), Stop<'a>>
    ensures { Gives (λ x. (x.0, x.1.now)) result ((specification 0).parse tokens.now) }
{
    let (keyword, tokens) = claiming(tokens)?;
    let kind = kind_claimed(keyword.kind).unwrap_or(SpecificationKind::Invariant);
    let (_, tokens) = maybe_given_name(tokens)?;
    let (formula, tokens) = formula(alloc, tokens)?;
    let specification = Specification {
        place: keyword.place,
        kind,
        formula,
    };
    Ok((Section::Specification(specification), tokens))
}

/// A section of a module.
#[tactic(auto, using(crate::proofs::Choices::section_reads))]
fn section<'a>(alloc: Global, tokens: &'a [Token]) -> Result<(Section, &'a [Token]), Stop<'a>>
    ensures { Gives (λ x. (x.0, x.1.now)) result ((section_form 0).parse tokens.now) }
{
    if begins_variables(tokens) {
        variables(alloc, tokens)
    } else if begins(TokenKind::Define, tokens) {
        definitions(alloc, tokens)
    } else if begins(TokenKind::Constants, tokens) {
        constants(alloc, tokens)
    } else if begins(TokenKind::Assign, tokens) {
        assignments(alloc, tokens)
    } else if begins_constraint(tokens) {
        constraint(alloc, tokens)
    } else {
        specification(alloc, tokens)
    }
}

/// Whether a section begins here.
#[tactic(auto, unfolding(crate::specs::Programs::section_form, crate::specs::Programs::variables, crate::specs::Programs::definitions, crate::specs::Programs::constants, crate::specs::Programs::assignments, crate::specs::Programs::constraint, crate::specs::Programs::specification))]
fn begins_section(tokens: &[Token]) -> bool
    ensures { result ≡ head (section_form 0).first tokens.now }
{
    match tokens {
        [first, ..] => {
            declares(first)
                || is_kind(TokenKind::Define, first)
                || is_kind(TokenKind::Constants, first)
                || is_kind(TokenKind::Assign, first)
                || constrains(first)
                || claims(first)
        }
        [] => false,
    }
}

/// As many sections as there are.
fn sections<'a>(
    alloc: Global,
    tokens: &'a [Token],
) -> Result<(Items<Section>, &'a [Token]), Stop<'a>>
    ensures { Gives (λ x. (x.0, x.1.now)) result ((many (section_form 0)).parse tokens.now) }
{
    let mut all = Items::new(alloc);
    let mut rest = tokens;
    'phrases: while begins_section(rest) {
        let (one, after) = section(alloc, rest)?;
        all.push(one)?;
        rest = after;
    }
    Ok((all, rest))
}

/// A parameter of a module.
fn parameter<'a>(alloc: Global, tokens: &'a [Token]) -> Result<(Parameter, &'a [Token]), Stop<'a>>
    ensures { Gives (λ x. (x.0, x.1.now)) result ((to parameter_of identifier).parse tokens.now) }
{
    let (named, tokens) = identifier(tokens)?;
    let parameter = Parameter {
        place: named.place,
        name: named.text.copy(alloc)?,
    };
    Ok((parameter, tokens))
}

/// `,` parameter
fn further_parameter<'a>(
    alloc: Global,
    tokens: &'a [Token],
) -> Result<(Parameter, &'a [Token]), Stop<'a>>
    ensures { Gives (λ x. (x.0, x.1.now)) result ((further (to parameter_of identifier)).parse tokens.now) }
{
    let (_, tokens) = just(TokenKind::Comma, tokens)?;
    parameter(alloc, tokens)
}

/// Parameters with commas between them.
fn listed_parameters<'a>(
    alloc: Global,
    tokens: &'a [Token],
) -> Result<(Items<Parameter>, &'a [Token]), Stop<'a>>
    ensures { Gives (λ x. (x.0, x.1.now)) result ((listed (to parameter_of identifier)).parse tokens.now) }
{
    let (first, tokens) = parameter(alloc, tokens)?;
    let mut all = Items::new(alloc);
    all.push(first)?;
    let mut rest = tokens;
    'phrases: while begins(TokenKind::Comma, rest) {
        let (one, after) = further_parameter(alloc, rest)?;
        all.push(one)?;
        rest = after;
    }
    Ok((all, rest))
}

/// Parameters with commas between them, or nothing.
fn maybe_parameters<'a>(
    alloc: Global,
    tokens: &'a [Token],
) -> Result<(Items<Parameter>, &'a [Token]), Stop<'a>>
    ensures { Gives (λ x. (x.0, x.1.now)) result ((maybe_listed (to parameter_of identifier)).parse tokens.now) }
{
    if begins_identifier(tokens) {
        listed_parameters(alloc, tokens)
    } else {
        Ok((Items::new(alloc), tokens))
    }
}

/// `(`, the parameters of a module, and `)`.
fn enclosed_parameters<'a>(
    alloc: Global,
    tokens: &'a [Token],
) -> Result<(Items<Parameter>, &'a [Token]), Stop<'a>>
    ensures { Gives (λ x. (x.0, x.1.now)) result ((just kind.LeftParen ▹ maybe_listed (to parameter_of identifier) ◃ just kind.RightParen).parse tokens.now) }
{
    let (_, tokens) = just(TokenKind::LeftParen, tokens)?;
    let (parameters, tokens) = maybe_parameters(alloc, tokens)?;
    followed_by(TokenKind::RightParen, parameters, tokens)
}

/// `(`, the parameters of a module, and `)`; or nothing.
fn parameters<'a>(
    alloc: Global,
    tokens: &'a [Token],
) -> Result<(Items<Parameter>, &'a [Token]), Stop<'a>>
    ensures { Gives (λ x. (x.0, x.1.now)) result ((bracketed (to parameter_of identifier)).parse tokens.now) }
{
    if begins(TokenKind::LeftParen, tokens) {
        enclosed_parameters(alloc, tokens)
    } else {
        Ok((Items::new(alloc), tokens))
    }
}

/// `MODULE`, an identifier, parameters and sections.
#[tactic(auto, unfolding(crate::specs::Programs::module_form))]
fn module<'a>(alloc: Global, tokens: &'a [Token]) -> Result<(Module, &'a [Token]), Stop<'a>>
    ensures { Gives (λ x. (x.0, x.1.now)) result ((module_form 0).parse tokens.now) }
{
    let (first, tokens) = just(TokenKind::Module, tokens)?;
    let (named, tokens) = identifier(tokens)?;
    let name = named.text.copy(alloc)?;
    let (parameters, tokens) = parameters(alloc, tokens)?;
    let (sections, tokens) = sections(alloc, tokens)?;
    let module = Module {
        place: first.place,
        name_place: named.place,
        name,
        parameters,
        sections,
    };
    Ok((module, tokens))
}

/// Whether a module begins here.
#[tactic(auto, unfolding(crate::specs::Programs::module_form))]
fn begins_module(tokens: &[Token]) -> bool
    ensures { result ≡ head (module_form 0).first tokens.now }
{
    match tokens {
        [first, ..] => is_kind(TokenKind::Module, first),
        [] => false,
    }
}

/// As many modules as there are.
fn modules<'a>(alloc: Global, tokens: &'a [Token]) -> Result<(Items<Module>, &'a [Token]), Stop<'a>>
    ensures { Gives (λ x. (x.0, x.1.now)) result ((many (module_form 0)).parse tokens.now) }
{
    let mut all = Items::new(alloc);
    let mut rest = tokens;
    'phrases: while begins_module(rest) {
        let (one, after) = module(alloc, rest)?;
        all.push(one)?;
        rest = after;
    }
    Ok((all, rest))
}

// How many selections stand over a token, and how many more stand behind it in a row.
#[derive(Clone, Copy)]
struct Over {
    selections: usize,
    row: usize,
}

impl Over {
    // Over what nothing stands behind.
    fn nothing() -> Over {
        Over {
            selections: 0,
            row: 0,
        }
    }

    // Whether the token closes what may stand before a selection, but for a selection.
    fn is_closing(token: &Token) -> bool {
        is_kind(TokenKind::RightParen, token)
            || is_kind(TokenKind::RightBrace, token)
            || is_kind(TokenKind::Esac, token)
    }

    // Whether the token opens a selection, or what may stand before one.
    fn is_opening(token: &Token) -> bool {
        is_kind(TokenKind::LeftBracket, token)
            || is_kind(TokenKind::LeftParen, token)
            || is_kind(TokenKind::LeftBrace, token)
            || is_kind(TokenKind::Case, token)
    }

    // What stands over the tokens before one that closes, where it ends a row of so many. What stands over its opening
    // is kept.
    fn inside(self, row: usize, closed: &mut Vec<Over>) -> Result<Over, AllocError> {
        closed.push(Over {
            selections: self.selections,
            row,
        })?;
        Ok(Over {
            selections: self.selections.saturating_add(self.row.max(row)),
            row: 0,
        })
    }

    // What stands over the tokens before this one.
    fn before(self, token: &Token, closed: &mut Vec<Over>) -> Result<Over, AllocError> {
        if is_kind(TokenKind::RightBracket, token) {
            self.inside(self.row.saturating_add(1), closed)
        } else if Over::is_closing(token) {
            self.inside(0, closed)
        } else if Over::is_opening(token) {
            Ok(closed.pop().unwrap_or(Over::nothing()))
        } else {
            Ok(Over {
                selections: self.selections,
                row: 0,
            })
        }
    }

    // Whether more selections than may stand one over another. The tokens are read from the last one on.
    fn is_too_deep(alloc: Global, tokens: &[Token]) -> Result<bool, AllocError> {
        let mut closed = Vec::new(alloc);
        let mut over = Over::nothing();
        for n in (0..tokens.len()).rev() {
            over = over.before(&tokens[n], &mut closed)?;
            if over.selections > MOST_SELECTIONS {
                return Ok(true);
            }
        }
        Ok(false)
    }
}

/// The program at the front of the tokens, and the tokens behind it. More than 2000 selections one over another are
/// answered as out of memory.
#[tactic(auto, unfolding(crate::specs::Programs::program))]
pub fn program<'a>(alloc: Global, tokens: &'a [Token]) -> Result<(Program, &'a [Token]), Stop<'a>>
    ensures { Gives (λ x. (x.0, x.1.now)) result ((program 0).parse tokens.now) }
{
    if Over::is_too_deep(alloc, tokens)? {
        return Err(Stop::NoMemory);
    }
    let (modules, tokens) = modules(alloc, tokens)?;
    Ok((Program { modules }, tokens))
}
