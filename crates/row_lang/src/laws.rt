//! Laws of the lines of systems. Each function does nothing: its contract is the law.

ghost use Rattle.std.specs.Prelude.{◌≡◌, ◌↔◌, ◌≤◌, true, List, [], ◌∷◌, ℕ, map};
ghost use Rattle.world_model.specs.declared.access.Access.{Access};
ghost use Rattle.world_model.specs.declared.component.Decl.{Decl};
ghost use Rattle.world_model.specs.declared.component.Kind.{Kind};
ghost use Rattle.row_lang.specs.declared.token.Place.TheVariants as place;
ghost use Rattle.row_lang.specs.declared.token.Token.{Token};
ghost use Rattle.row_lang.specs.BodyLines.{BodyLine};
ghost use Rattle.row_lang.specs.Naming.{AreNamedDecls, names_of};
ghost use Rattle.row_lang.specs.Nesting.{nesting};
ghost use Rattle.row_lang.specs.Places.{fills};
ghost use Rattle.row_lang.specs.Spelling.{IsBodyLine, body_line_text};
ghost use Rattle.row_lang.specs.Systems.{Draft, System, IsSystemOf, admits, body_lines};

/// A text is one line of a system at most, behind the same lines, and the texts of a system's lines stand
/// for one system. No memory. (This project's own.)
pub fn one_system()
    ensures line { (decls : List Decl) (draft : Draft) (line other : BodyLine) →
        AreNamedDecls decls →
        IsBodyLine (names_of decls) line → IsBodyLine (names_of decls) other →
        admits decls draft line ≡ true → admits decls draft other ≡ true →
        body_line_text (names_of decls) line ≡ body_line_text (names_of decls) other →
        line ≡ other }
    ensures system { (decls : List Decl) (name : List ℕ) (lines others : List BodyLine)
        (system other : System) →
        AreNamedDecls decls → IsSystemOf decls name lines system →
        IsSystemOf decls name others other →
        map (body_line_text (names_of decls)) lines ≡ map (body_line_text (names_of decls)) others →
        system ≡ other }
{}

/// The canonical lines of a system are admissible lines, and stand for it. No memory. (This project's own.)
pub fn printed_system()
    ensures { (decls : List Decl) (name : List ℕ) (lines : List BodyLine) (system : System) →
        IsSystemOf decls name lines system →
        IsSystemOf decls system.name (body_lines system) system }
{}

/// How deep an expression is: tokens are one with at most so many levels exactly where they are one with
/// some number of levels, and its nesting is at most that: 1 without operands, else 1 plus the greatest
/// nesting of its operands. No memory. (This project's own.)
pub fn nesting_is_counted()
    ensures { (decls : List Decl) (access : Access) (kind : Kind) (limit : ℕ)
        (tokens : List Token) →
        (fills decls access (place.Value kind limit ∷ []) tokens ≡ true) ↔
        (((levels : ℕ) × (fills decls access (place.Value kind levels ∷ []) tokens ≡ true)) ×
        (nesting tokens ≤ limit)) }
{}
