//! Which elements an expression, a definition or a reference reads in a case, put into a `Found` in the order of the definitions.
//! For the search for a cone. `specs/Reading` has what is read as elements are written, `specs/Views` what is asked of a design and the abstract forms of its set types.
//! A part of a definition in which no assignment can count for the element is passed over (`counts`), so that a variable which stands bare in a left side is not taken at each of its places.
//! The body of a quantifier that does not read the variable is walked once (`expressions::turns`): it reads the same elements at each place, and elements that are put again change nothing.
//! A quantifier is walked once for all bindings that agree on what it reads (`expressions::walk_expression`, by a `Known` beside the elements), so that a chain of quantifiers of which each reads but the variable next to it does not double with each level.
#![tactic(auto)]

pub mod bindings;
pub mod counts;
pub mod definitions;
pub mod expressions;
pub mod indexes;
pub mod references;

pub use definitions::read_definition;
pub use expressions::read_expression;
