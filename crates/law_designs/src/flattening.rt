// Laws of flattening, each the contract of a function that does nothing.
ghost use Rattle.std.specs.Prelude.{◌≡◌, [], ◌∷◌, List, None, Option, Some, flat_map};
ghost use Rattle.std.specs.List.{AllZip};
ghost use Rattle.smv_core.specs.Values.{Name, Path, Value, Sizes};
ghost use Rattle.smv_core.specs.Types.{Family, find_name};
ghost use Rattle.smv_core.specs.FlatOrder.{design_of};
ghost use Rattle.smv_core.specs.Outcome.{State, Bindings, outcome, allowed_by, family_at};
ghost use Rattle.smv_core.specs.Walk.{Element, walk};
ghost use Rattle.smv_core.specs.Allowed.{allowed, every_value, said_in, scene_at, walk_set};
ghost use Rattle.smv_core.specs.Assignments.{Around};
ghost use Rattle.smv_core.specs.Conflicts.{Agrees};
ghost use Rattle.smv_core.specs.FlatMeaning.{FlatState, flat_outcome, flat_allowed_by, flat_walk};
ghost use Rattle.smv_core.specs.declared.tree.Kind.{Kind};
ghost use Rattle.smv_core.specs.declared.tree.Text.{Text};
ghost use Rattle.smv_core.specs.declared.tree.Expr.{Expr};
ghost use Rattle.smv_core.specs.declared.tree.Stmt.{Stmt};
ghost use Rattle.smv_mentions.specs.FirstFault.{first_fault};
ghost use Rattle.smv_mentions.specs.Scopes.{Constant, constants, pieces};
ghost use Rattle.law_designs.specs.Statements.{flat_expr, flat_stmt};
ghost use Rattle.law_designs.specs.Flattening.{flatten, scope_in};
ghost use Rattle.law_designs.specs.Agreement.{
  AreSameStates,
  IsConstant,
  IsSameFamily,
  IsRight,
  StatementIsRight,
  flat_element,
  numbers_in,
  values_bound,
};
ghost use Rattle.law_designs.specs.SameActs.{IsSameAct, layered_acts};
ghost use Rattle.law_designs.specs.FlatTextAllowed.{AreSameBefore, flat_text_allowed};
ghost use Rattle.law_designs.specs.WholeText.{IsSameClaim, TextIsRight, claims_met, claims_of, flat_text_walk};

/// In a text without faults of names the outcome of a flattened expression is that of the expression, in each instance, at all sizes, in each state and with all
/// values of the variables around it, where each name in it is a variable, a signal or a listed constant and each
/// binder in it has a type as the grammar has it.
pub fn outcomes_are_the_same()
    ensures { (text : Text) → first_fault text ≡ None → (sizes : Sizes) (s : State) (t : FlatState) → AreSameStates (design_of text).families s t →
        (instance : Path) (vars : Around) (e : Expr) (b : Bindings) → Agrees vars b → IsRight (scope_in text instance) vars e →
        flat_outcome (numbers_in text sizes) t (flat_expr (scope_in text instance) vars e) (values_bound vars b) ≡ outcome (scene_at (design_of text) sizes instance) s e b }
{}

/// Under the same conditions a flattened right side allows the values that the right side allows.
pub fn right_sides_are_the_same()
    ensures { (text : Text) → first_fault text ≡ None → (sizes : Sizes) (s : State) (t : FlatState) → AreSameStates (design_of text).families s t →
        (instance : Path) (every : List Value) (vars : Around) (e : Expr) (b : Bindings) → Agrees vars b → IsRight (scope_in text instance) vars e →
        flat_allowed_by (numbers_in text sizes) t every (flat_expr (scope_in text instance) vars e) (values_bound vars b) ≡ allowed_by (scene_at (design_of text) sizes instance) s every e b }
{}

/// Under the same conditions a flattened statement gives each element of each family what the statement gives it.
pub fn walks_are_the_same()
    ensures { (text : Text) → first_fault text ≡ None → (sizes : Sizes) (s : State) (t : FlatState) → AreSameStates (design_of text).families s t →
        (kind : Kind) (x : Element) (every : List Value) (f : Family) → family_at (design_of text).families x.path ≡ Some f →
        (instance : Path) (vars : Around) (act : Stmt) (b : Bindings) → Agrees vars b → StatementIsRight (scope_in text instance) vars act →
        flat_walk (numbers_in text sizes) t (flat_element (scope_in text instance) x) every kind (flat_stmt (scope_in text instance) vars act) (values_bound vars b)
        ≡ walk (scene_at (design_of text) sizes instance) s kind x every act b }
{}

/// A constant that the rules of names know is listed by some enumeration of the flattened text.
pub fn constants_are_listed()
    ensures { (text : Text) (instance : Path) (name : Name) (c : Constant) → find_name (constants (pieces text)) name ≡ Some c → IsConstant (scope_in text instance) (name ∷ []) }
{}

/// The families of the flattened text are those of the text, one for one, where no name has a fault.
pub fn families_are_the_same()
    ensures { (text : Text) → first_fault text ≡ None → (sizes : Sizes) → AllZip (IsSameFamily (numbers_in text sizes)) (flatten text).families (design_of text).families }
{}

/// In a text without faults of names, whose statements and claims are right in this sense, the statements outside layers, or
/// those of a layer, give each element of each family in the flattened text what they give it in the text.
pub fn definition_sets_are_the_same()
    ensures { (text : Text) → first_fault text ≡ None → (sizes : Sizes) (s : State) (t : FlatState) → AreSameStates (design_of text).families s t → TextIsRight text →
        (layer : Option Name) (kind : Kind) (x : Element) (f : Family) → family_at (design_of text).families x.path ≡ Some f →
        flat_text_walk (flatten text) sizes t layer (flat_element (scope_in text []) x) (every_value (design_of text) sizes x) kind ≡ walk_set (design_of text) sizes layer x kind s }
{}

/// Under the same conditions the flattened text allows each element of each family, in a layer or outside layers, the values that the text allows it.
pub fn allowed_values_are_the_same()
    ensures { (text : Text) → first_fault text ≡ None → TextIsRight text → (sizes : Sizes) (layer : Option Name) (x : Element) (f : Family) → family_at (design_of text).families x.path ≡ Some f →
        (before : Option State) (flat_before : Option FlatState) → AreSameBefore (design_of text).families before flat_before → (now : State) (flat_now : FlatState) → AreSameStates (design_of text).families now flat_now →
        flat_text_allowed (flatten text) sizes layer (flat_element (scope_in text []) x) (every_value (design_of text) sizes x) flat_before flat_now ≡ allowed (design_of text) sizes layer x before now }
{}

/// Under the same conditions the claims of the flattened text are those of the text, one for one.
pub fn claims_are_the_same()
    ensures { (text : Text) → first_fault text ≡ None → (sizes : Sizes) (s : State) (t : FlatState) → AreSameStates (design_of text).families s t → TextIsRight text →
        AllZip (IsSameClaim text sizes s t) (claims_of (flatten text).items) (claims_met (design_of text).met) }
{}

/// The statements of the flattened text are those of the text, one for one: in the same layers, and each assigns the families that the text's assigns.
pub fn statements_are_the_same()
    ensures { (text : Text) → AllZip (IsSameAct text) (layered_acts (flatten text).items) (flat_map said_in (design_of text).met) }
{}
