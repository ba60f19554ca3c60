// The formals of modules.
ghost use Rattle.std.specs.Prelude.{◌≡◌, Some};
ghost use Rattle.smv_core.specs.Types.{find_name};
ghost use Rattle.smv_core.specs.declared.tree.Expr.{Expr};
ghost use Rattle.smv_mentions.specs.Mentions.{signal};
ghost use Rattle.smv_mentions.specs.Scopes.{pieces, constants};
ghost use Rattle.law_designs.specs.Owned.{IsOwned};
ghost use Rattle.law_designs.specs.Types.{index_kind};
ghost use Rattle.law_designs.specs.References as references;
ghost use Rattle.law_designs.specs.KindFaults.{connected};
ghost use Rattle.smv_expression_kinds.specs.Forms.{AreKindTables};
ghost use Rattle.smv_expression_kinds.specs.Found.{scope_of};
ghost use Rattle.smv_kinds.specs.Found.{argument_faults};

use smv_core::name::Name;
use smv_core::tree::{Role, TypeExpr};
use smv_expression_kinds::kinds::ValueKind;
use smv_expression_kinds::lookups::{Scope, kind_by_first};
use smv_expression_kinds::paths::own_in;
use smv_mentions::mentions::What;

/// A formal of a module, where it has a role.
#[derive(Clone, Copy)]
pub enum Formal<'a> {
    /// An input of this kind.
    Input { kind: ValueKind<'a> },
    /// An output of this kind.
    Output { kind: ValueKind<'a> },
    /// A formal without a role.
    Other,
}

/// A formal of a module.
pub(crate) fn formal_named<'a>(name: &Name, scope: &Scope<'a, '_>) -> Formal<'a>
    requires { AreKindTables scope.now.tables.now }
    ensures { (from : references.Scope) (e : Expr) → connected from (scope_of scope.now).here.types (find_name (scope_of scope.now).here.own name.now) e ≡ argument_faults scope.now.tables.now.names from result e }
{
    match own_in(name, scope.tables, scope.place) {
        None => Formal::Other,
        Some(own) => match own.what {
            What::Signal { role, of } => formal_of(role, of, scope),
            What::Instance { .. } => Formal::Other,
            What::Goal => Formal::Other,
        },
    }
}

// A signal of a role and a type, as a formal.
fn formal_of<'a>(role: Role, of: &'a TypeExpr, scope: &Scope<'a, '_>) -> Formal<'a>
    requires tables { AreKindTables scope.now.tables.now }
    requires owned { IsOwned (constants (pieces scope.now.tables.now.names.text.now)) (index_kind (scope_of scope.now).here.types of.now) }
    ensures { (from : references.Scope) (e : Expr) → connected from (scope_of scope.now).here.types (Some (record { at = 0; what = signal role of.now })) e ≡ argument_faults scope.now.tables.now.names from result e }
{
    match role {
        Role::Input => {
            let kind = kind_by_first(of, scope);
            Formal::Input { kind }
        }
        Role::Output => {
            let kind = kind_by_first(of, scope);
            Formal::Output { kind }
        }
        Role::Plain => Formal::Other,
        Role::Abstract => Formal::Other,
    }
}
