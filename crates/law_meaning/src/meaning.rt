// Laws of the definitions, each the contract of a function that does nothing.
ghost use Rattle.std.specs.Prelude.{◌≡◌, ◌∷◌, ℕ, List, Option, false, is_none};
ghost use Rattle.smv_core.specs.Values.{Name, Value, Simple, Sizes, values_of};
ghost use Rattle.smv_core.specs.FlatOrder.{TextDesign};
ghost use Rattle.smv_core.specs.Outcome.{State, Scene, Bindings, outcome, allowed_by};
ghost use Rattle.smv_core.specs.Walk.{Element, walk};
ghost use Rattle.smv_core.specs.Allowed.{allowed, every_value, IsFilled};
ghost use Rattle.smv_core.specs.Assignments.{Around, any, assignments};
ghost use Rattle.smv_core.specs.Conflicts.{HasNoConflict, HasVariables, AreWhole, Agrees};
ghost use Rattle.smv_core.specs.declared.tree.Kind.{Kind};
ghost use Rattle.smv_core.specs.declared.tree.Word.{Word};
ghost use Rattle.smv_core.specs.declared.tree.Expr.{Expr};
ghost use Rattle.smv_core.specs.declared.tree.Stmt.{Stmt};
ghost use Rattle.law_meaning.specs.Exchange.{
  Exchanges,
  exchanged_outcome,
  exchanged_bindings,
  exchanged_element,
  AreExchangedStates,
  AreExchangedValues,
  AreExchangedWalks,
};

/// A definition always allows an element some value, where the element's type has one.
pub fn allowed_is_never_empty()
    ensures { (d : TextDesign) (sizes : Sizes) (layer : Option Name) (x : Element) (before : Option State) (now : State) → IsFilled (every_value d sizes x) → IsFilled (allowed d sizes layer x before now) }
{}

/// Where no assignments conflict and each left side has its `forall` variables, no two values of a `forall` variable give an element a result.
pub fn at_most_one_value_gives_a_result()
    ensures { (scene : Scene) (s : State) (kind : Kind) (x : Element) (every : List Value) (var : Word) (body : Stmt) (around : Around) (b : Bindings) → Agrees around b →
        HasNoConflict scene.instance body ((var.name, any) ∷ around) →
        HasVariables body ((var.name, any) ∷ around) →
        AreWhole kind x (assignments scene.instance body ((var.name, any) ∷ around)) →
        (v w : Value) → is_none (walk scene s kind x every body ((var.name, v) ∷ b)) ≡ false → is_none (walk scene s kind x every body ((var.name, w) ∷ b)) ≡ false → v ≡ w }
{}

/// Exchanging the values of scalarsets throughout exchanges them in the outcome of an expression and changes nothing else.
pub fn outcomes_are_exchanged()
    ensures { (scene : Scene) (f g : Name → ℕ → ℕ) (s t : State) → Exchanges scene.sizes f g → AreExchangedStates f s t →
        (e : Expr) (b : Bindings) → outcome scene t e (exchanged_bindings f b) ≡ exchanged_outcome f (outcome scene s e b) }
{}

/// Exchanging the values of scalarsets throughout exchanges them in what a right side allows and changes nothing else.
pub fn right_sides_are_exchanged()
    ensures { (scene : Scene) (f g : Name → ℕ → ℕ) (s t : State) → Exchanges scene.sizes f g → AreExchangedStates f s t →
        (target : Simple) (e : Expr) (b : Bindings) → AreExchangedValues f (allowed_by scene s (values_of scene.sizes target) e b) (allowed_by scene t (values_of scene.sizes target) e (exchanged_bindings f b)) }
{}

/// Exchanging the values of scalarsets throughout exchanges them in what a statement gives an element and changes nothing else,
/// where no assignments conflict and each left side has its `forall` variables.
pub fn walks_are_exchanged()
    ensures { (scene : Scene) (f g : Name → ℕ → ℕ) (s t : State) → Exchanges scene.sizes f g → AreExchangedStates f s t →
        (target : Simple) (kind : Kind) (x : Element) (act : Stmt) (around : Around) (b : Bindings) → Agrees around b →
        HasNoConflict scene.instance act around → HasVariables act around → AreWhole kind x (assignments scene.instance act around) →
        AreExchangedWalks f (walk scene s kind x (values_of scene.sizes target) act b) (walk scene t kind (exchanged_element f x) (values_of scene.sizes target) act (exchanged_bindings f b)) }
{}
