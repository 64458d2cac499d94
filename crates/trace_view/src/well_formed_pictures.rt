//! Laws of pictures: each is well-formed, and no text in it begins or ends a tag.

ghost use Rattle.std.specs.Prelude.{◌≡◌, List, ℕ, true};
ghost use Rattle.std.specs.List.{list_all};
ghost use Rattle.trace_lines.specs.declared.trace.Trace.{Trace};
ghost use Rattle.trace_view.specs.Svg.{escaped, is_plain, svg_text};
ghost use Rattle.trace_view.specs.WellFormed.{IsWellFormed};

/// A text that is escaped neither begins nor ends a tag.
pub fn is_escaped()
    ensures { (text : List ℕ) → list_all is_plain (escaped text) ≡ true }
{}

/// Each picture is well-formed.
pub fn is_well_formed()
    ensures { (t : Trace) → IsWellFormed (svg_text t) }
{}
