//! The law that the tables of the grammar say of each kind of tokens what one table says.

ghost use Rattle.std.specs.Prelude.{◌≡◌};
ghost use Rattle.smv_tree.specs.declared.token.TokenKind.{TokenKind};
ghost use Rattle.smv_expressions.specs.declared.ranks.Rank.{Rank};
ghost use Rattle.smv_expressions.specs.Operators.{function_of, named_function, operator_of, step_operator, timed_operator};
ghost use Rattle.smv_parse.specs.Programs.{kind_asked, kind_claimed, kind_declared};
ghost use Rattle.token_roles.specs.Roles.{claim_of, constraint_of, declaration_of, named_of, operator_at, reserved_of, role_of, step_of, timed_of};

/// Each table of the grammar over kinds of tokens is what `role_of` says. Those tables have a last line for all other
/// kinds, which would take a new kind unseen. `role_of` has none, so a new kind needs a line there. It does nothing:
/// its contract is the law.
pub fn kinds_have_their_roles()
    ensures operators { (r : Rank) (k : TokenKind) → operator_of r k ≡ operator_at r (role_of k) }
    ensures reserved { (k : TokenKind) → function_of k ≡ reserved_of (role_of k) }
    ensures named { (k : TokenKind) → named_function k ≡ named_of (role_of k) }
    ensures steps { (k : TokenKind) → step_operator k ≡ step_of (role_of k) }
    ensures timed { (k : TokenKind) → timed_operator k ≡ timed_of (role_of k) }
    ensures declarations { (k : TokenKind) → kind_declared k ≡ declaration_of (role_of k) }
    ensures constraints { (k : TokenKind) → kind_asked k ≡ constraint_of (role_of k) }
    ensures claims { (k : TokenKind) → kind_claimed k ≡ claim_of (role_of k) }
{}
